//! What a node agent has under way for one pod, and its decision on a pod.
//!
//! Promises: `decide::decide_pod` begins a machine exactly where a pod of the node is to go, or stays and is not
//! among the mounts told last. `AgentOp::next` is the call that `specs/Agents` names, `absorb` what the answer makes
//! of the machine, `parks` whether its key is to wait. Laws (`laws`): each call is allowed by what its seat was told;
//! each machine that begins has a call, and one whose key is parked has ended. In a history from imports that pass, a
//! licensed seat that asks for its node alone until it is told an epoch, and never after that, may decide each key
//! (`takers_may_decide`). Not said: that an agent starts so, when a pod is decided, and that an agent of an old epoch
//! stops; these are the actor's.
#![tactic(auto)]

pub mod agent;
pub mod decide;
pub mod laws;
mod reads;
pub mod step;
