//! The calls of each controller pay: each that lasts lowers the variant, what a world has still to do.
//!
//! Promises: whatever an actor decides in a run, where it sees the store as it is, pays with each of its calls as
//! long as nobody else calls (`actors_pay` of `drains_laws`). A call that lasts lowers the variant by one, or lets
//! a planned fault be behind (`specs/Pays` says what it means to pay). The node of a claim is worth nothing, since
//! the provisioner may take it back: `settle_tries` counts nodes instead. So the variant never rises in a round or
//! a drain of actors that begin with nothing under way, and falls where an entry lasts that is worth something
//! (`rounds_pay`, `paid_is_less`). One premise: the UIDs of imports have 128 bits, as those that a text gives have,
//! so that the data of two claims have two names. All is said over any choice of which requests reach the world.
//! Not said: that rounds have such calls, which is for `settle_progress` to say; nor anything of a round that
//! begins with a task under way.
#![tactic(auto)]

pub mod drains_laws;
pub mod pays_laws;
