//! What volume protection has under way for one volume.

ghost use Rattle.std.specs.Prelude.{◌≡◌, IfOk, option_map};
ghost use Rattle.binder_model.specs.Due.{volume_guard_due};
ghost use Rattle.protect_sync.specs.Decisions.{volume_guard_for};
ghost use Rattle.kube_objects.specs.Bindings.{is_bound};
ghost use Rattle.protect_sync.specs.VolumeGuards.{guarded_volume, unguarded_volume, volume_guard_call, volume_moved, volume_parks, volume_write_over};

use crate::names::with_name;
use call_types::reply::Reply;
use call_types::request::Request;
use kube_types::bindings::{PV_PROTECTION, is_deleting, is_protected_volume};
use kube_types::copies::{OutOfMemory, Plain};
use kube_types::objects::{Object, Volume};
use kube_types::parts::VolumePhase;
use kube_types::shared::Shared;
use std::alloc::Global;

/// What is to be done next, or how the machine has ended.
#[derive(Clone, Copy, Debug)]
pub enum VolumeGuardStep {
    /// The finalizer is to be added.
    Adds,
    /// The finalizer is to be dropped.
    Drops,
    /// Nothing is left to be done.
    Done,
    /// A call was refused: the key waits for an event or a wake.
    Parked,
}

/// A volume on which protection is due, and what is to be done next.
#[derive(Drop)]
pub struct VolumeGuardOp {
    pub volume: Volume,
    pub step: VolumeGuardStep,
}

impl VolumeGuardOp {
    /// The machine for the volume, where protection is due.
    pub fn new(alloc: Global, volume: &Volume) -> Result<Option<VolumeGuardOp>, OutOfMemory>
        ensures { IfOk result (λ op. op ≡ volume_guard_for volume.now (volume_guard_due volume.now)) }
    {
        match first_step(volume) {
            None => Ok(None),
            Some(step) => Ok(Some(VolumeGuardOp {
                volume: volume.copy(alloc)?,
                step,
            })),
        }
    }

    /// The next call, or none where the machine has nothing more to do.
    #[tactic(auto, unfolding(crate::specs::VolumeGuards::volume_guard_call))]
    pub fn next(&self, alloc: Global) -> Result<Option<Request>, OutOfMemory>
        ensures { IfOk result (λ call. call ≡ volume_guard_call self.now) }
    {
        match self.step {
            VolumeGuardStep::Adds => {
                let new = guarded(alloc, &self.volume)?;
                Ok(Some(write_over(alloc, &self.volume, new)?))
            }
            VolumeGuardStep::Drops => {
                let new = unguarded(alloc, &self.volume)?;
                Ok(Some(write_over(alloc, &self.volume, new)?))
            }
            VolumeGuardStep::Done | VolumeGuardStep::Parked => Ok(None),
        }
    }

    /// Takes the answer to the next call.
    #[tactic(auto, unfolding(crate::specs::VolumeGuards::volume_moved))]
    pub fn absorb(&mut self, reply: &Reply)
        ensures { self.new ≡ volume_moved self.old reply.now }
    {
        self.step = match (self.step, reply) {
            (VolumeGuardStep::Done, _) => VolumeGuardStep::Done,
            (VolumeGuardStep::Parked, _) | (_, Reply::Refused(_)) => VolumeGuardStep::Parked,
            _ => VolumeGuardStep::Done,
        };
    }

    /// Whether a call was refused, so that the key is parked.
    pub fn parks(&self) -> bool
        ensures { result ≡ volume_parks self.now.step }
    {
        match self.step {
            VolumeGuardStep::Parked => true,
            _ => false,
        }
    }
}

/// The first step for the volume, where protection is due.
fn first_step(volume: &Volume) -> Option<VolumeGuardStep>
    ensures { option_map (λ step. record { volume = volume.now; step = step }) result ≡ volume_guard_for volume.now (volume_guard_due volume.now) }
{
    match (
        is_deleting(&volume.meta),
        is_protected_volume(volume),
        is_bound(volume.phase),
    ) {
        (false, false, _) => Some(VolumeGuardStep::Adds),
        (true, true, false) => Some(VolumeGuardStep::Drops),
        _ => None,
    }
}

pub(crate) fn is_bound(phase: VolumePhase) -> bool
    ensures { result ≡ is_bound phase }
{
    match phase {
        VolumePhase::Bound => true,
        _ => false,
    }
}

/// The write of the new volume, at the version of the one that was told.
fn write_over(alloc: Global, volume: &Volume, new: Volume) -> Result<Request, OutOfMemory>
    ensures { IfOk result (λ write. write ≡ volume_write_over volume.now new) }
{
    Ok(Request::Update {
        object: Object::Volume(Shared::new(alloc, new)?),
        version: Some(volume.meta.version),
    })
}

/// The volume with its finalizer.
fn guarded(alloc: Global, volume: &Volume) -> Result<Volume, OutOfMemory>
    ensures { IfOk result (λ new. new ≡ guarded_volume volume.now) }
{
    let mut new = volume.copy(alloc)?;
    new.meta.finalizers = with_name(alloc, &volume.meta.finalizers, PV_PROTECTION)?;
    Ok(new)
}

/// The volume without its finalizer.
fn unguarded(alloc: Global, volume: &Volume) -> Result<Volume, OutOfMemory>
    ensures { IfOk result (λ new. new ≡ unguarded_volume volume.now) }
{
    let mut new = volume.copy(alloc)?;
    new.meta.finalizers = volume.meta.finalizers.without(alloc, PV_PROTECTION)?;
    Ok(new)
}
