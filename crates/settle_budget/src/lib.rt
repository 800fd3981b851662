//! The budget of a drain: how many rounds and calls it makes, and with how many it ends settled.
//!
//! Promises: a drain of new actors, or of actors that begin with nothing under way and with an agent for each node,
//! ends settled with the stated budget where no class that ever stood both binds late and provisions
//! (`static_drains_settle`, `new_drains_settle` of `drains_laws`). So it does where rounds that leave as much to do
//! are few and stay so (`measured_drains_settle`): then it makes no more rounds than one and a measure of the
//! variant, with ten nodes to be tried (`rounds_are_measured`). The stated budget is 16,384 calls, times the square
//! of the size with 16 more, times the planned faults and one; it is said of small worlds, and of five controllers
//! with the agents of at most eight nodes. Each pod that a node runs stands on a node that was imported, on which
//! an imported pod was, or that a user asked to create (`pods_are_on_given_nodes`), and a run has at most two
//! objects for each import and each creation (`objects_are_few`). Not said: that the rounds that leave as much to
//! do are few, which is for `settle_tries` to say.
#![tactic(auto)]

pub mod drains_laws;
pub mod nodes_laws;
pub mod objects_laws;
