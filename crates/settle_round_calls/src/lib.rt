//! Every round is short: how many calls a round of a drain makes at most.
//!
//! Promises: a round that begins with at most 8,192 objects makes at most 256 calls for each object, for each claim
//! that a pod names, for each planned fault that is ahead, and for 16 more, whatever its actors have under way
//! (`every_round_is_short` of `rounds_laws`). So does each round of a drain, the first too
//! (`every_drained_round_is_short`). A Mount may be held back, and counts as a call. It is a sum of slots. What is
//! under way ends within few calls and writes (`specs/UnderWay`), and raises the variant by little (`specs/Rise`).
//! The binder, the scheduler and the protection controllers make eight calls for each write, and 65 more
//! (`proofs/Sure`); the provisioner and reclaimer and the agents also pay by what stands (`specs/Slots`,
//! `specs/Rest`). Premises: UIDs of imports have 128 bits, the actors are at most 13, and the annotations of claims
//! are always in order. Not said: the number for larger worlds; nor how many rounds there are.
#![tactic(auto)]

pub mod rest_laws;
pub mod rounds_laws;
