//! What the binder has under way for one key.

ghost use Rattle.std.specs.Prelude.{◌≡◌, IfOk};
ghost use Rattle.binder_machines.specs.Machines.{call_of, confirmed_for, machine_for, moved, parks_at, unbound_to};
ghost use Rattle.claim_sync.specs.ClaimDecision.{step_of};

use crate::reads::{claim_read, has_uid, is_available, volume_read};
use crate::requests::{bind_call, claim_call, class_call, phase_call, volume_call, write_lost};
use bind_writes::unbind;
use call_types::reply::{Refusal, Reply};
use call_types::request::Request;
use claim_sync::ClaimAction;
use kube_types::copies::{OutOfMemory, Plain};
use kube_types::objects::{Claim, Class, Object, Volume};
use kube_types::parts::VolumePhase;
use kube_types::shared::Shared;
use std::alloc::Global;
use volume_sync::VolumeAction;

/// What the binder has under way for one key, with the objects on which it goes on. It shares them with the caches and
/// the replies that it has them from.
pub enum Machine {
    /// Phase Available is to be written.
    Frees(Shared<Volume>),
    /// The writes of a binding are to be made.
    Binds(Shared<Volume>, Shared<Claim>),
    /// Phase Bound is to be written on the volume of a claim that names it.
    MarksBound(Shared<Volume>),
    /// The claim of the volume's reference is to be read by itself.
    ReadsClaim(Shared<Volume>),
    /// Phase Released is to be written.
    Releases(Shared<Volume>),
    /// The reference is to be taken back, and then phase Available to be written.
    Unbinds(Shared<Volume>),
    /// The volume that the claim names is to be read by itself.
    ReadsVolume(Shared<Claim>),
    /// The claim's class is to be set to this one.
    AssignsClass(Shared<Claim>, Shared<Class>),
    /// Phase Lost is to be written.
    Loses(Shared<Claim>),
}

impl Drop for Machine {
    fn drop(self) {
        match self {
            Machine::Frees(volume) => drop(volume),
            Machine::Binds(volume, claim) => {
                drop(volume);
                drop(claim);
            }
            Machine::MarksBound(volume) => drop(volume),
            Machine::ReadsClaim(volume) => drop(volume),
            Machine::Releases(volume) => drop(volume),
            Machine::Unbinds(volume) => drop(volume),
            Machine::ReadsVolume(claim) => drop(claim),
            Machine::AssignsClass(claim, class) => {
                drop(claim);
                drop(class);
            }
            Machine::Loses(claim) => drop(claim),
        }
    }
}

impl Machine {
    /// The next call, or none where the machine has nothing more to do.
    #[tactic(auto, unfolding(crate::specs::Machines::call_of))]
    pub fn next(&self, alloc: Global) -> Result<Option<Request>, OutOfMemory>
        ensures { IfOk result (λ call. call ≡ call_of self.now) }
    {
        match self {
            Machine::Frees(volume) => phase_call(alloc, volume, VolumePhase::Available),
            Machine::Binds(volume, claim) => bind_call(alloc, volume, claim),
            Machine::MarksBound(volume) => phase_call(alloc, volume, VolumePhase::Bound),
            Machine::ReadsClaim(volume) => claim_call(alloc, volume),
            Machine::Releases(volume) => phase_call(alloc, volume, VolumePhase::Released),
            Machine::Unbinds(volume) => Ok(Some(unbind(alloc, volume)?)),
            Machine::ReadsVolume(claim) => volume_call(alloc, claim),
            Machine::AssignsClass(claim, class) => class_call(alloc, claim, class),
            Machine::Loses(claim) => Ok(Some(write_lost(alloc, claim)?)),
        }
    }

    /// What the answer to the next call makes of the machine, or none where it has ended.
    #[tactic(auto, unfolding(crate::specs::Machines::moved))]
    pub fn absorb(&self, alloc: Global, reply: &Reply) -> Result<Option<Machine>, OutOfMemory>
        ensures { IfOk result (λ next. next ≡ moved self.now reply.now) }
    {
        match (self, reply) {
            (Machine::Binds(_, claim), Reply::Done(Object::Volume(volume))) => {
                let claim = claim.copy(alloc)?;
                Ok(Some(Machine::Binds(volume.copy(alloc)?, claim)))
            }
            (Machine::Binds(volume, _), Reply::Done(Object::Claim(claim))) => {
                let volume = volume.copy(alloc)?;
                Ok(Some(Machine::Binds(volume, claim.copy(alloc)?)))
            }
            (Machine::Unbinds(_), Reply::Done(Object::Volume(volume))) => unbound_to(alloc, volume),
            (Machine::ReadsClaim(volume), Reply::Refused(Refusal::NotFound)) => {
                machine_for(alloc, volume, volume_read(volume, None))
            }
            (Machine::ReadsClaim(volume), Reply::Found(object)) => {
                machine_for(alloc, volume, volume_read(volume, Some(object)))
            }
            (Machine::ReadsVolume(claim), Reply::Refused(Refusal::NotFound)) => {
                confirmed_for(alloc, claim, claim_read(claim, None))
            }
            (Machine::ReadsVolume(claim), Reply::Found(object)) => {
                confirmed_for(alloc, claim, claim_read(claim, Some(object)))
            }
            _ => Ok(None),
        }
    }

    /// Whether the reply is a refusal that the machine does not take as an answer, so that its key
    /// is parked.
    #[tactic(auto, unfolding(crate::specs::Machines::parks_at))]
    pub fn parks(&self, reply: &Reply) -> bool
        ensures { result ≡ parks_at self.now reply.now }
    {
        match (self, reply) {
            (Machine::ReadsClaim(_), Reply::Refused(Refusal::NotFound)) => false,
            (Machine::ReadsVolume(_), Reply::Refused(Refusal::NotFound)) => false,
            (_, Reply::Refused(_)) => true,
            _ => false,
        }
    }
}

/// What a decision on the volume begins.
pub(crate) fn machine_for(
    alloc: Global,
    volume: &Shared<Volume>,
    action: VolumeAction,
) -> Result<Option<Machine>, OutOfMemory>
    ensures { IfOk result (λ machine. machine ≡ machine_for volume.now action) }
{
    match action {
        VolumeAction::Nothing | VolumeAction::QueueClaim => Ok(None),
        VolumeAction::ReadClaim => Ok(Some(Machine::ReadsClaim(volume.copy(alloc)?))),
        VolumeAction::Available => Ok(Some(Machine::Frees(volume.copy(alloc)?))),
        VolumeAction::Bound => Ok(Some(Machine::MarksBound(volume.copy(alloc)?))),
        VolumeAction::Release => Ok(Some(Machine::Releases(volume.copy(alloc)?))),
        VolumeAction::Unbind => Ok(Some(Machine::Unbinds(volume.copy(alloc)?))),
    }
}

/// What a decision on the claim begins, once its volume was read by itself.
fn confirmed_for(
    alloc: Global,
    claim: &Shared<Claim>,
    action: ClaimAction,
) -> Result<Option<Machine>, OutOfMemory>
    ensures { IfOk result (λ machine. machine ≡ confirmed_for claim.now (step_of action)) }
{
    match action {
        ClaimAction::Lost => Ok(Some(Machine::Loses(claim.copy(alloc)?))),
        ClaimAction::Nothing
        | ClaimAction::ReadVolume
        | ClaimAction::Bind(_)
        | ClaimAction::AssignClass(_) => Ok(None),
    }
}

/// What is left to do on a volume that was unbound.
fn unbound_to(alloc: Global, volume: &Shared<Volume>) -> Result<Option<Machine>, OutOfMemory>
    ensures { IfOk result (λ machine. machine ≡ unbound_to volume.now) }
{
    if has_uid(volume) || is_available(volume.phase) {
        return Ok(None);
    }
    Ok(Some(Machine::Frees(volume.copy(alloc)?)))
}
