//! What the reclaimer has under way for one volume.

ghost use Rattle.std.specs.Prelude.{◌≡◌, IfOk, OnErr, OnOk};
ghost use Rattle.binder_model.specs.Due.{reclaim_due};
ghost use Rattle.reclaim_ops.specs.Decisions.{volume_for};
ghost use Rattle.reclaim_ops.specs.Erasures.{after_erase, at_found, erase_call, erase_moved, erase_parks, fail_call, erase_step_after, key_of_volume};

use crate::due::is_to_reclaim;
use call_types::reply::{Refusal, Reply};
use call_types::request::{NewStatus, Request};
use kube_types::copies::{OutOfMemory, Plain};
use kube_types::data::data_id;
use kube_types::key::Key;
use kube_types::objects::{Object, Volume};
use kube_types::parts::{Kind, VolumePhase};
use kube_types::uid::Uid;
use std::alloc::Global;

/// What is to be done next, or how the machine has ended.
#[derive(Clone, Copy, Debug)]
pub enum EraseStep {
    /// The volume is to be read by itself.
    ReadsVolume,
    /// The volume of this UID was found as it is held: its data are to be erased.
    Erases(Uid),
    /// The data were erased: the volume of this UID is to be deleted.
    Deletes(Uid),
    /// The data could not be erased: phase Failed is to be written.
    WritesFailed,
    /// Nothing is left to be done.
    Done,
    /// A call was refused: the key waits for an event or a wake.
    Parked,
}

/// A volume that is to be reclaimed, and what is to be done next.
#[derive(Drop)]
pub struct EraseOp {
    pub volume: Volume,
    pub step: EraseStep,
}

impl EraseOp {
    /// The machine for the volume, where reclaiming is due.
    pub fn new(alloc: Global, volume: &Volume) -> Result<Option<EraseOp>, OutOfMemory>
        ensures { IfOk result (λ op. op ≡ volume_for volume.now (reclaim_due volume.now)) }
    {
        if is_to_reclaim(volume) {
            return Ok(Some(EraseOp {
                volume: volume.copy(alloc)?,
                step: EraseStep::ReadsVolume,
            }));
        }
        Ok(None)
    }

    /// The next call, or none where the machine has nothing more to do.
    #[tactic(auto, unfolding(crate::specs::Erasures::erase_call))]
    pub fn next(&self, alloc: Global) -> Result<Option<Request>, OutOfMemory>
        ensures { IfOk result (λ call. call ≡ erase_call self.now) }
    {
        match self.step {
            EraseStep::ReadsVolume => Ok(Some(Request::Get {
                key: volume_key(alloc, &self.volume)?,
            })),
            EraseStep::Erases(_) => Ok(Some(Request::Erase {
                id: data_id(alloc, &self.volume.source)?,
            })),
            EraseStep::Deletes(uid) => Ok(Some(Request::Delete {
                key: volume_key(alloc, &self.volume)?,
                uid: Some(uid),
            })),
            EraseStep::WritesFailed => Ok(Some(fail_call(alloc, &self.volume)?)),
            EraseStep::Done | EraseStep::Parked => Ok(None),
        }
    }

    /// Takes the answer to the next call.
    #[tactic(auto, unfolding(crate::specs::Erasures::erase_moved))]
    pub fn absorb(&mut self, alloc: Global, reply: &Reply) -> Result<(), OutOfMemory>
        ensures ok { OnOk result (self.new ≡ erase_moved self.old reply.now) }
        ensures err { OnErr result (self.new ≡ self.old) }
    {
        match (self.step, reply) {
            (EraseStep::ReadsVolume, Reply::Found(Object::Volume(volume))) => {
                self.found(alloc, volume)
            }
            (step, _) => {
                self.step = step_after(step, reply);
                Ok(())
            }
        }
    }

    /// Takes the volume that was read.
    fn found(&mut self, alloc: Global, volume: &Volume) -> Result<(), OutOfMemory>
        ensures ok { OnOk result (self.new ≡ at_found self.old volume.now) }
        ensures err { OnErr result (self.new ≡ self.old) }
    {
        match (is_to_reclaim(volume), volume.meta.uid) {
            (true, Some(uid)) => {
                self.volume = volume.copy(alloc)?;
                self.step = EraseStep::Erases(uid);
            }
            _ => {
                self.step = EraseStep::Done;
            }
        }
        Ok(())
    }

    /// Whether a call was refused, so that the key is parked.
    pub fn parks(&self) -> bool
        ensures { result ≡ erase_parks self.now.step }
    {
        match self.step {
            EraseStep::Parked => true,
            _ => false,
        }
    }
}

/// Where the step leads, but for a read that found a volume.
fn step_after(step: EraseStep, reply: &Reply) -> EraseStep
    ensures { result ≡ erase_step_after step reply.now }
{
    match (step, reply) {
        (EraseStep::Done, _) => EraseStep::Done,
        (EraseStep::Parked, _) => EraseStep::Parked,
        (EraseStep::Erases(uid), _) => after_erase(uid, reply),
        (_, Reply::Refused(_)) => EraseStep::Parked,
        _ => EraseStep::Done,
    }
}

/// Where the answer to the erase leads.
fn after_erase(uid: Uid, reply: &Reply) -> EraseStep
    ensures { result ≡ after_erase uid reply.now }
{
    match reply {
        Reply::Erased { removed: _ } => EraseStep::Deletes(uid),
        Reply::Refused(Refusal::BackFault { planned: _ }) => EraseStep::WritesFailed,
        Reply::Refused(_) => EraseStep::Parked,
        _ => EraseStep::Done,
    }
}

/// The write of phase Failed, at the volume's version.
fn fail_call(alloc: Global, volume: &Volume) -> Result<Request, OutOfMemory>
    ensures { IfOk result (λ call. call ≡ fail_call volume.now) }
{
    Ok(Request::UpdateStatus {
        key: volume_key(alloc, volume)?,
        status: NewStatus::Volume(VolumePhase::Failed),
        version: Some(volume.meta.version),
    })
}

fn volume_key(alloc: Global, volume: &Volume) -> Result<Key, OutOfMemory>
    ensures { IfOk result (λ key. key ≡ key_of_volume volume.now) }
{
    Ok(Key {
        kind: Kind::PersistentVolume,
        namespace: volume.meta.namespace.copy(alloc)?,
        name: volume.meta.name.copy(alloc)?,
    })
}
