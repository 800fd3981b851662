//! A round that begins with something due makes progress.
//!
//! Promises: a whole round that begins with something due, for an actor that is no stale agent, has an entry that
//! lasts: a call that changes more than versions, or meets a planned fault (`held_rounds_last` of `drains_laws`),
//! whatever its actors have cached or under way (`specs/Wakes`). Mounts may be held back, but not the one that is
//! due. So does each such round of a drain, in which nothing is held back (`drained_rounds_last`). An agent acts
//! where the epoch that it was told is its node's (`specs/Epochs`, `specs/Agents`), and is silent only where another
//! took its node; with new actors, and an agent for each node, none is silent (`fresh_drainers_serve`). A whole round
//! leaves its actors so that the next may begin with them (`rounds_leave_drainers`). All but the sentence on drains
//! holds over any choice of which requests reach the world. Not said: how many rounds there are, and that the calls
//! that last leave less to do, which is for `settle_pays` to say.
#![tactic(auto)]

pub mod agents_laws;
pub mod drains_laws;
pub mod epochs_laws;
