//! The turns of one actor over its lives, on whatever answers its calls.
//!
//! Promises: `player::turn` makes as many calls as it is asked for, or fewer where the life that would make the next one is
//! idle. Each call is licensed after the own entries of its life, is of the seat of its life, and becomes what its number
//! says (`specs/Calls`): told, lost before its effect or after it, or held back by what answers it. Each life is one that its
//! actor played (`specs/Lives`): from a new actor on each call is the one that its turn gave, and where a turn gave none it
//! was woken. `laws::played_lives_are_so` has what follows: each life is diligent, no kind is watched in vain, an agent that
//! was told StaleEpoch asks nothing more in that life, and a turn that gives fewer calls leaves no key that the life was told
//! of, and that was due since, without a call. `loss::fate_of` says what becomes of a call. Not said: that memory is there for a call, nor what a listener does.
#![tactic(auto)]

mod call;
pub mod laws;
pub mod loss;
pub mod part;
pub mod player;
