//! The work of one actor on a shared world.
//!
//! Promises: `work::work` makes as many calls as it is asked for, by the passes of the actor's lives in order, or fewer
//! exactly where the life that would make the next one was told StaleEpoch and no new life begins there. The entries of its
//! seats are its calls, less those that were lost before their effect. Each life is one that its actor played
//! (`actor_turns::laws` has what follows). A listener is told before each call and after it. `begin::begin` is
//! an actor before its first call, and passes of a new shared world may be those of its lives (`begin::have_lives`). Not
//! said: that a call returns, and that memory is there for it.

pub mod begin;
mod turns;
pub mod work;
