//! What claim protection has under way for one claim.

ghost use Rattle.std.specs.Prelude.{◌≡◌, IfOk, option_map};
ghost use Rattle.kube_objects.specs.Bindings.{is_deleting, is_protected_claim};
ghost use Rattle.binder_model.specs.Due.{guard_due};
ghost use Rattle.protect_sync.specs.ClaimGuards.{claim_guard_call, claim_moved, claim_parks, guarded_claim, list_call, unguarded_claim, claim_write_over};
ghost use Rattle.protect_sync.specs.Decisions.{claim_guard_for};

use crate::names::with_name;
use call_types::reply::Reply;
use call_types::request::Request;
use kube_types::bindings::{PVC_PROTECTION, is_deleting, is_protected_claim, some_uses};
use kube_types::copies::{OutOfMemory, Plain};
use kube_types::objects::{Claim, Object};
use kube_types::parts::Kind;
use kube_types::shared::Shared;
use std::alloc::Global;

/// What is to be done next, or how the machine has ended.
#[derive(Clone, Copy, Debug)]
pub enum ClaimGuardStep {
    /// The finalizer is to be added.
    Adds,
    /// The pods of the claim's namespace are to be listed.
    ListsPods,
    /// The pods were listed and none uses the claim: the finalizer is to be dropped.
    Drops,
    /// Nothing is left to be done.
    Done,
    /// A call was refused: the key waits for an event or a wake.
    Parked,
}

/// A claim on which protection is due, and what is to be done next.
#[derive(Drop)]
pub struct ClaimGuardOp {
    pub claim: Claim,
    pub step: ClaimGuardStep,
}

impl ClaimGuardOp {
    /// The machine for the claim, where protection is due; `is_used` says whether a scheduled pod of
    /// the cache uses it.
    pub fn new(
        alloc: Global,
        claim: &Claim,
        is_used: bool,
    ) -> Result<Option<ClaimGuardOp>, OutOfMemory>
        ensures { IfOk result (λ op. op ≡ claim_guard_for claim.now (guard_due (is_deleting claim.now.meta) (is_protected_claim claim.now) is_used)) }
    {
        match first_step(claim, is_used) {
            None => Ok(None),
            Some(step) => Ok(Some(ClaimGuardOp {
                claim: claim.copy(alloc)?,
                step,
            })),
        }
    }

    /// The next call, or none where the machine has nothing more to do.
    #[tactic(auto, unfolding(crate::specs::ClaimGuards::claim_guard_call))]
    pub fn next(&self, alloc: Global) -> Result<Option<Request>, OutOfMemory>
        ensures { IfOk result (λ call. call ≡ claim_guard_call self.now) }
    {
        match self.step {
            ClaimGuardStep::Adds => {
                let new = guarded(alloc, &self.claim)?;
                Ok(Some(write_over(alloc, &self.claim, new)?))
            }
            ClaimGuardStep::ListsPods => list_call(alloc, &self.claim),
            ClaimGuardStep::Drops => {
                let new = unguarded(alloc, &self.claim)?;
                Ok(Some(write_over(alloc, &self.claim, new)?))
            }
            ClaimGuardStep::Done | ClaimGuardStep::Parked => Ok(None),
        }
    }

    /// Takes the answer to the next call.
    #[tactic(auto, unfolding(crate::specs::ClaimGuards::claim_moved))]
    pub fn absorb(&mut self, reply: &Reply)
        ensures { self.new ≡ claim_moved self.old reply.now }
    {
        self.step = match (self.step, reply) {
            (ClaimGuardStep::Done, _) => ClaimGuardStep::Done,
            (ClaimGuardStep::Parked, _) | (_, Reply::Refused(_)) => ClaimGuardStep::Parked,
            (ClaimGuardStep::ListsPods, Reply::Listed { items, version: _ }) => {
                if some_uses(&self.claim, items.as_slice()) {
                    ClaimGuardStep::Done
                } else {
                    ClaimGuardStep::Drops
                }
            }
            _ => ClaimGuardStep::Done,
        };
    }

    /// Whether a call was refused, so that the key is parked.
    pub fn parks(&self) -> bool
        ensures { result ≡ claim_parks self.now.step }
    {
        match self.step {
            ClaimGuardStep::Parked => true,
            _ => false,
        }
    }
}

/// The first step for the claim, where protection is due.
fn first_step(claim: &Claim, is_used: bool) -> Option<ClaimGuardStep>
    ensures { option_map (λ step. record { claim = claim.now; step = step }) result ≡ claim_guard_for claim.now (guard_due (is_deleting claim.now.meta) (is_protected_claim claim.now) is_used) }
{
    match (is_deleting(&claim.meta), is_protected_claim(claim), is_used) {
        (false, false, _) => Some(ClaimGuardStep::Adds),
        (true, true, false) => Some(ClaimGuardStep::ListsPods),
        _ => None,
    }
}

/// The write of the new claim, at the version of the one that was told.
fn write_over(alloc: Global, claim: &Claim, new: Claim) -> Result<Request, OutOfMemory>
    ensures { IfOk result (λ write. write ≡ claim_write_over claim.now new) }
{
    Ok(Request::Update {
        object: Object::Claim(Shared::new(alloc, new)?),
        version: Some(claim.meta.version),
    })
}

/// The list of the pods of the claim's namespace. None where the claim has no UID.
fn list_call(alloc: Global, claim: &Claim) -> Result<Option<Request>, OutOfMemory>
    ensures { IfOk result (λ call. call ≡ list_call claim.now) }
{
    if claim.meta.uid.is_none() {
        return Ok(None);
    }
    Ok(Some(Request::List {
        kind: Kind::Pod,
        namespace: Some(claim.meta.namespace.copy(alloc)?),
    }))
}

/// The claim with its finalizer.
fn guarded(alloc: Global, claim: &Claim) -> Result<Claim, OutOfMemory>
    ensures { IfOk result (λ new. new ≡ guarded_claim claim.now) }
{
    let mut new = claim.copy(alloc)?;
    new.meta.finalizers = with_name(alloc, &claim.meta.finalizers, PVC_PROTECTION)?;
    Ok(new)
}

/// The claim without its finalizer.
fn unguarded(alloc: Global, claim: &Claim) -> Result<Claim, OutOfMemory>
    ensures { IfOk result (λ new. new ≡ unguarded_claim claim.now) }
{
    let mut new = claim.copy(alloc)?;
    new.meta.finalizers = claim.meta.finalizers.without(alloc, PVC_PROTECTION)?;
    Ok(new)
}
