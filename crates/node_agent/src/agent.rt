//! What a node agent has under way for one pod.

ghost use Rattle.std.specs.Prelude.{◌≡◌, ◌++◌, ◌∷◌, [], IfOk, OnOk, OnErr};
ghost use Rattle.binder_model.specs.AgentLicence.{has_row};
ghost use Rattle.node_agent.specs.Agents.{after_last, after_mounts, after_unmount, agent_at, agent_call, agent_moved, agent_parks, at_start, finish_call, mount_call, agent_step_after, step_for};

use crate::reads::{after_claim, name_at, pod_key, ready_by, step_by, step_for, uids_of};
use crate::step::{AgentStep, ReadyClaim};
use call_types::reply::{MountRow, Reply};
use call_types::request::Request;
use kube_types::bindings::is_deleting;
use kube_types::copies::{OutOfMemory, Plain};
use kube_types::items::Items;
use kube_types::key::{claim_key, volume_key};
use kube_types::objects::Pod;
use kube_types::text::Text;
use kube_types::uid::Uid;
use std::alloc::Global;

/// A pod of the node, the claims of it that were found ready, in order, and what is to be done next.
pub struct AgentOp {
    pub node: Text,
    pub epoch: u64,
    pub pod: Pod,
    pub uid: Uid,
    pub ready: Items<ReadyClaim>,
    pub step: AgentStep,
}

impl Drop for AgentOp {
    fn drop(self) {
        let AgentOp {
            node,
            epoch: _,
            pod,
            uid: _,
            ready,
            step,
        } = self;
        drop(node);
        drop(pod);
        drop(ready);
        drop(step);
    }
}

impl AgentOp {
    /// The machine for a pod of the node with this UID, where something is to be done; `is_mounted`
    /// says whether the mounts that were told last have the pod.
    pub fn new(
        alloc: Global,
        node: &Text,
        epoch: u64,
        pod: &Pod,
        uid: Uid,
        is_mounted: bool,
    ) -> Result<Option<AgentOp>, OutOfMemory>
        ensures { IfOk result (λ op. op ≡ agent_at node.now epoch pod.now uid is_mounted) }
    {
        if is_deleting(&pod.meta) {
            return Ok(Some(at_start(alloc, node, epoch, pod, uid, AgentStep::Unmounts)?));
        }
        if is_mounted {
            return Ok(None);
        }
        let step = step_for(alloc, pod, &[])?;
        Ok(Some(at_start(alloc, node, epoch, pod, uid, step)?))
    }

    /// The next call, or none where the machine has nothing more to do.
    #[tactic(auto, unfolding(crate::specs::Agents::agent_call))]
    pub fn next(&self, alloc: Global) -> Result<Option<Request>, OutOfMemory>
        ensures { IfOk result (λ call. call ≡ agent_call self.now) }
    {
        match &self.step {
            AgentStep::ReadsClaim(name) => Ok(Some(Request::Get {
                key: claim_key(alloc, &self.pod.meta.namespace, name)?,
            })),
            AgentStep::ReadsVolume(_, claim) => Ok(Some(Request::Get {
                key: volume_key(alloc, &claim.volume_name)?,
            })),
            AgentStep::MountsPod => Ok(Some(self.mount(alloc)?)),
            AgentStep::Unmounts => Ok(Some(Request::Unmount {
                node: self.node.copy(alloc)?,
                epoch: self.epoch,
                pod: self.uid,
            })),
            AgentStep::ReadsMounts => Ok(Some(Request::Mounts {
                node: self.node.copy(alloc)?,
                epoch: self.epoch,
            })),
            AgentStep::Finishes => Ok(Some(self.finish(alloc)?)),
            AgentStep::Done | AgentStep::Parked => Ok(None),
        }
    }

    fn mount(&self, alloc: Global) -> Result<Request, OutOfMemory>
        ensures { IfOk result (λ call. call ≡ mount_call self.now) }
    {
        Ok(Request::Mount {
            node: self.node.copy(alloc)?,
            epoch: self.epoch,
            pod: self.uid,
            claims: uids_of(alloc, self.ready.as_slice())?,
        })
    }

    fn finish(&self, alloc: Global) -> Result<Request, OutOfMemory>
        ensures { IfOk result (λ call. call ≡ finish_call self.now) }
    {
        Ok(Request::FinishPod {
            key: pod_key(alloc, &self.pod)?,
            uid: self.uid,
            node: self.node.copy(alloc)?,
            epoch: self.epoch,
        })
    }

    /// Takes the answer to the next call.
    #[tactic(auto, unfolding(crate::specs::Agents::agent_moved))]
    pub fn absorb(&mut self, alloc: Global, reply: &Reply) -> Result<(), OutOfMemory>
        ensures ok { OnOk result (self.new ≡ agent_moved self.old reply.now) }
        ensures err { OnErr result (self.new ≡ self.old) }
    {
        match ready_by(alloc, &self.step, reply)? {
            Some(claim) => self.take_ready(alloc, claim),
            None => {
                self.step = self.step_after(alloc, reply)?;
                Ok(())
            }
        }
    }

    /// Takes a claim that was found ready. The name of the next one is copied before it is put down.
    fn take_ready(&mut self, alloc: Global, claim: ReadyClaim) -> Result<(), OutOfMemory>
        ensures ok { OnOk result (self.new ≡ record self.old { ready = self.old.ready ++ claim ∷ []; step = step_for self.old.pod (self.old.ready ++ claim ∷ []) }) }
        ensures err { OnErr result (self.new ≡ self.old) }
    {
        let name = name_at(alloc, &self.pod, self.ready.as_slice().len() + 1)?;
        self.ready.push(claim)?;
        self.step = step_by(self.ready.as_slice(), name);
        Ok(())
    }

    /// Where the step leads, where the answer shows no claim to be ready.
    fn step_after(&self, alloc: Global, reply: &Reply) -> Result<AgentStep, OutOfMemory>
        ensures { IfOk result (λ step. step ≡ agent_step_after self.now.uid self.now.ready self.now.step reply.now) }
    {
        match &self.step {
            AgentStep::ReadsClaim(name) => after_claim(alloc, name, self.ready.as_slice(), reply),
            AgentStep::MountsPod | AgentStep::Finishes => Ok(after_last(reply)),
            AgentStep::Unmounts => Ok(after_unmount(reply)),
            AgentStep::ReadsMounts => Ok(after_mounts(self.uid, reply)),
            AgentStep::Done => Ok(AgentStep::Done),
            AgentStep::ReadsVolume(_, _) | AgentStep::Parked => Ok(AgentStep::Parked),
        }
    }

    /// Whether a claim is not ready or a call was refused, so that the key is parked.
    pub fn parks(&self) -> bool
        ensures { result ≡ agent_parks self.now.step }
    {
        match self.step {
            AgentStep::Parked => true,
            _ => false,
        }
    }
}

fn at_start(
    alloc: Global,
    node: &Text,
    epoch: u64,
    pod: &Pod,
    uid: Uid,
    step: AgentStep,
) -> Result<AgentOp, OutOfMemory>
    ensures { IfOk result (λ op. op ≡ at_start node.now epoch pod.now uid step) }
{
    Ok(AgentOp {
        node: node.copy(alloc)?,
        epoch,
        pod: pod.copy(alloc)?,
        uid,
        ready: Items::new(alloc),
        step,
    })
}

fn after_last(reply: &Reply) -> AgentStep
    ensures { result ≡ after_last reply.now }
{
    match reply {
        Reply::Refused(_) => AgentStep::Parked,
        _ => AgentStep::Done,
    }
}

fn after_unmount(reply: &Reply) -> AgentStep
    ensures { result ≡ after_unmount reply.now }
{
    match reply {
        Reply::Mounted(_) => AgentStep::ReadsMounts,
        _ => AgentStep::Parked,
    }
}

/// The pod is finished only where it is not mounted any more.
fn after_mounts(uid: Uid, reply: &Reply) -> AgentStep
    ensures { result ≡ after_mounts uid reply.now }
{
    match reply {
        Reply::Mounted(rows) => {
            if has_row(uid, rows.as_slice()) {
                AgentStep::Parked
            } else {
                AgentStep::Finishes
            }
        }
        _ => AgentStep::Parked,
    }
}

/// Whether the pod is among the mounts.
pub(crate) fn has_row(pod: Uid, rows: &[MountRow]) -> bool
    ensures { result ≡ has_row pod rows.now }
{
    for row in rows {
        if row.pod.0 == pod.0 {
            return true;
        }
    }
    false
}
