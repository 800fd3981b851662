//! What the provisioner has under way for one claim.

ghost use Rattle.std.specs.Prelude.{◌≡◌, IfOk, OnErr, OnOk};
ghost use Rattle.reclaim_ops.specs.Decisions.{at_step};
ghost use Rattle.reclaim_ops.specs.Provisions.{ask_call, clear_call, create_call, provision_call, provision_moved, provision_parks, provision_step_after, unselected};

use crate::volume::{data_name, volume_over};
use call_types::reply::{Refusal, Reply};
use call_types::request::Request;
use kube_types::bindings::SELECTED_NODE;
use kube_types::copies::{OutOfMemory, Plain, copy_option};
use kube_types::objects::{Claim, Class, DataId, Object};
use kube_types::pairs::Pairs;
use kube_types::shared::Shared;
use kube_types::text::Text;
use kube_types::uid::Uid;
use std::alloc::Global;

/// What is to be done next, or how the machine has ended.
pub enum ProvisionStep {
    /// Data are to be asked for, on a node with these labels where one was chosen.
    Provisions(Option<Pairs>),
    /// The volume over these data is to be created, with the place of their pool.
    Creates(DataId, Option<(Text, Text)>),
    /// The node that was chosen for the claim is to be taken back.
    ClearsNode,
    /// Nothing is left to be done.
    Done,
    /// A call was refused: the key waits for an event or a wake.
    Parked,
}

impl Drop for ProvisionStep {
    fn drop(self) {
        match self {
            ProvisionStep::Provisions(labels) => drop(labels),
            ProvisionStep::Creates(id, topology) => {
                drop(id);
                drop(topology);
            }
            ProvisionStep::ClearsNode | ProvisionStep::Done | ProvisionStep::Parked => {}
        }
    }
}

/// A claim that is to be provisioned, its UID and its class, and what is to be done next.
pub struct ProvisionOp {
    pub claim: Claim,
    pub uid: Uid,
    pub class: Class,
    pub step: ProvisionStep,
}

impl Drop for ProvisionOp {
    fn drop(self) {
        let ProvisionOp {
            claim,
            uid: _,
            class,
            step,
        } = self;
        drop(claim);
        drop(class);
        drop(step);
    }
}

impl ProvisionOp {
    /// The machine for a claim of this UID and class, at its first step.
    pub fn new(
        alloc: Global,
        claim: &Claim,
        uid: Uid,
        class: &Class,
        step: ProvisionStep,
    ) -> Result<ProvisionOp, OutOfMemory>
        ensures { IfOk result (λ op. op ≡ at_step claim.now uid class.now step) }
    {
        Ok(ProvisionOp {
            claim: claim.copy(alloc)?,
            uid,
            class: class.copy(alloc)?,
            step,
        })
    }

    /// The next call, or none where the machine has nothing more to do.
    #[tactic(auto, unfolding(crate::specs::Provisions::provision_call))]
    pub fn next(&self, alloc: Global) -> Result<Option<Request>, OutOfMemory>
        ensures { IfOk result (λ call. call ≡ provision_call self.now) }
    {
        match &self.step {
            ProvisionStep::Provisions(labels) => Ok(Some(self.ask(alloc, labels)?)),
            ProvisionStep::Creates(id, topology) => Ok(Some(self.create(alloc, id, topology)?)),
            ProvisionStep::ClearsNode => Ok(Some(clear_call(alloc, &self.claim)?)),
            ProvisionStep::Done | ProvisionStep::Parked => Ok(None),
        }
    }

    fn ask(&self, alloc: Global, labels: &Option<Pairs>) -> Result<Request, OutOfMemory>
        ensures { IfOk result (λ call. call ≡ ask_call self.now.claim self.now.uid self.now.class labels.now) }
    {
        Ok(Request::Provision {
            name: data_name(alloc, self.uid)?,
            provisioner: self.class.provisioner.copy(alloc)?,
            bytes: self.claim.amount.bytes,
            labels: copy_option(alloc, labels)?,
        })
    }

    fn create(
        &self,
        alloc: Global,
        id: &DataId,
        topology: &Option<(Text, Text)>,
    ) -> Result<Request, OutOfMemory>
        ensures { IfOk result (λ call. call ≡ create_call self.now.claim self.now.uid self.now.class id.now topology.now) }
    {
        let volume = volume_over(alloc, &self.claim, self.uid, &self.class, id, topology)?;
        Ok(Request::Create {
            object: Object::Volume(Shared::new(alloc, volume)?),
        })
    }

    /// Takes the answer to the next call.
    #[tactic(auto, unfolding(crate::specs::Provisions::provision_moved))]
    pub fn absorb(&mut self, alloc: Global, reply: &Reply) -> Result<(), OutOfMemory>
        ensures ok { OnOk result (self.new ≡ provision_moved self.old reply.now) }
        ensures err { OnErr result (self.new ≡ self.old) }
    {
        self.step = self.step_after(alloc, reply)?;
        Ok(())
    }

    /// Where the step leads.
    fn step_after(&self, alloc: Global, reply: &Reply) -> Result<ProvisionStep, OutOfMemory>
        ensures { IfOk result (λ step. step ≡ provision_step_after self.now.step self.now.class reply.now) }
    {
        match (&self.step, reply) {
            (ProvisionStep::Done, _) => Ok(ProvisionStep::Done),
            (ProvisionStep::Parked, _) => Ok(ProvisionStep::Parked),
            (ProvisionStep::Provisions(_), Reply::Provisioned { id, topology }) => {
                let id = id.copy(alloc)?;
                Ok(ProvisionStep::Creates(id, copy_option(alloc, topology)?))
            }
            (ProvisionStep::Provisions(_), Reply::Refused(Refusal::Exhausted { free: _ })) => {
                if self.class.delayed {
                    return Ok(ProvisionStep::ClearsNode);
                }
                Ok(ProvisionStep::Parked)
            }
            (_, Reply::Refused(_)) => Ok(ProvisionStep::Parked),
            _ => Ok(ProvisionStep::Done),
        }
    }

    /// Whether a call was refused, so that the key is parked.
    pub fn parks(&self) -> bool
        ensures { result ≡ provision_parks self.now.step }
    {
        match self.step {
            ProvisionStep::Parked => true,
            _ => false,
        }
    }
}

/// The write that takes the node of the claim back, at the claim's version.
fn clear_call(alloc: Global, claim: &Claim) -> Result<Request, OutOfMemory>
    ensures { IfOk result (λ call. call ≡ clear_call claim.now) }
{
    Ok(Request::Update {
        object: Object::Claim(Shared::new(alloc, unselected(alloc, claim)?)?),
        version: Some(claim.meta.version),
    })
}

/// The claim without the node that was chosen for it.
fn unselected(alloc: Global, claim: &Claim) -> Result<Claim, OutOfMemory>
    ensures { IfOk result (λ new. new ≡ unselected claim.now) }
{
    let node = Text::new(alloc, SELECTED_NODE)?;
    let mut new = claim.copy(alloc)?;
    new.meta.annotations.drop_key(&node);
    Ok(new)
}
