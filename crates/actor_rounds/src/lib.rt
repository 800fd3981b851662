//! Actors that are run on one world, one after the other.
//!
//! Promises: `drainers::Drainers` are the actors of a drain and their seats, new ones standing for seats without entries.
//! `turns::turns` wakes each of them in its turn and runs it until it is idle, exactly as `specs/Rounds` says: the
//! scheduler, ops, the binder, claim protection, volume protection, then an agent of each node. At each step the
//! drainer stands for what its seat was told, so each decision rests on that alone. Each key stands once in its queue,
//! and what is taken there is what it has under way (`StandsWhole`). The entries that are added are of the drainers' seats
//! and told, and no user's; seats and roles stay, and each drainer stands again. `specs/Rounds` leaves open which requests
//! reach the world, and says what a round of these turns is, and a drain of such rounds; the laws of settling speak of these.
//! Not said: when rounds are made, which is for `worker_threads`.
#![tactic(auto)]

pub mod answering;
pub mod drainers;
pub mod run;
pub mod turns;
