//! The steps of a machine.

use kube_types::objects::Claim;
use kube_types::text::Text;
use kube_types::uid::Uid;

/// A claim that was found ready, and the name of its volume, which was found carrying it.
pub struct ReadyClaim {
    pub claim: Text,
    pub uid: Uid,
    pub volume: Text,
}

impl Drop for ReadyClaim {
    fn drop(self) {
        let ReadyClaim {
            claim,
            uid: _,
            volume,
        } = self;
        drop(claim);
        drop(volume);
    }
}

/// What is to be done next, or how the machine has ended.
pub enum AgentStep {
    /// The claim of this name is to be read.
    ReadsClaim(Text),
    /// The claim of this name was found ready, and its volume is to be read.
    ReadsVolume(Text, Claim),
    /// Each claim was found ready: the pod is to be mounted.
    MountsPod,
    /// The pod is to be unmounted.
    Unmounts,
    /// The node's mounts are to be read.
    ReadsMounts,
    /// The node's mounts lack the pod: it is to be finished.
    Finishes,
    /// Nothing is left to be done.
    Done,
    /// A claim is not ready, or a call was refused: the key waits for an event or a wake.
    Parked,
}

impl Drop for AgentStep {
    fn drop(self) {
        match self {
            AgentStep::ReadsClaim(name) => drop(name),
            AgentStep::ReadsVolume(name, claim) => {
                drop(name);
                drop(claim);
            }
            AgentStep::MountsPod
            | AgentStep::Unmounts
            | AgentStep::ReadsMounts
            | AgentStep::Finishes
            | AgentStep::Done
            | AgentStep::Parked => {}
        }
    }
}
