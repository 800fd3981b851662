//! What is done about a key, on a look-up alone.

ghost use Rattle.std.specs.Prelude.{◌≡◌, IfOk};
ghost use Rattle.std.specs.Option.{option_copied};
ghost use Rattle.kube_types.specs.declared.lookup.Live.TheVariants.{NotAsked};
ghost use Rattle.kube_objects.specs.Keys.{row_at};
ghost use Rattle.kube_types.specs.Steps.Scan.{class_at};
ghost use Rattle.claim_sync.specs.ClaimDecision.{claim_decision};
ghost use Rattle.volume_sync.specs.VolumeDecision.{volume_decision};
ghost use Rattle.volume_match.specs.Volumes.{volume_at};
ghost use Rattle.binder_machines.specs.FirstSteps.{IsClaimFirst, IsFirst, first_of, queue_of, volume_first};
ghost use Rattle.binder_machines.specs.Machines.{machine_for};

use crate::machine::{Machine, machine_for};
use claim_sync::{ClaimAction, decide_claim};
use kube_types::bindings::is_empty;
use kube_types::copies::{OutOfMemory, Plain};
use kube_types::key::{Key, claim_key};
use kube_types::lookup::{Live, Lookup};
use kube_types::objects::{Claim, Class, Object, Ref, Volume};
use kube_types::parts::Kind;
use kube_types::shared::Shared;
use std::alloc::Global;
use volume_sync::{VolumeAction, decide_volume};

/// What is done about a key: nothing, another key is queued, or a machine begins.
#[derive(Drop)]
pub enum FirstMachine {
    Drops,
    Queues(Key),
    Begins(Machine),
}

/// What is done about the key.
pub fn first_for<L: Lookup>(
    alloc: Global,
    lookup: &L,
    key: &Key,
) -> Result<FirstMachine, OutOfMemory>
    ensures { IfOk result (λ first. IsFirst (L.rows lookup.now) (row_at key.now (L.rows lookup.now)) first) }
{
    match lookup.row(key) {
        Some(Object::Volume(volume)) => first_of_volume(alloc, lookup, volume),
        Some(Object::Claim(claim)) => first_of_claim(alloc, lookup, claim),
        _ => Ok(FirstMachine::Drops),
    }
}

fn first_of_volume<L: Lookup>(
    alloc: Global,
    lookup: &L,
    volume: &Shared<Volume>,
) -> Result<FirstMachine, OutOfMemory>
    ensures { IfOk result (λ first. first ≡ volume_first volume.now (volume_decision (L.rows lookup.now) volume.now NotAsked)) }
{
    match decide_volume(lookup, volume, Live::NotAsked) {
        VolumeAction::QueueClaim => queue_of(alloc, &volume.claim_ref),
        action => first_with(alloc, volume, action),
    }
}

/// What a decision on the volume begins, where it does not queue its claim.
fn first_with(
    alloc: Global,
    volume: &Shared<Volume>,
    action: VolumeAction,
) -> Result<FirstMachine, OutOfMemory>
    ensures { IfOk result (λ first. first ≡ first_of (machine_for volume.now action)) }
{
    match machine_for(alloc, volume, action)? {
        Some(machine) => Ok(FirstMachine::Begins(machine)),
        None => Ok(FirstMachine::Drops),
    }
}

/// The claim that the reference names is queued.
fn queue_of(alloc: Global, reference: &Option<Ref>) -> Result<FirstMachine, OutOfMemory>
    ensures { IfOk result (λ first. first ≡ queue_of reference.now) }
{
    match reference {
        None => Ok(FirstMachine::Drops),
        Some(reference) => Ok(FirstMachine::Queues(claim_key(
            alloc,
            &reference.namespace,
            &reference.name,
        )?)),
    }
}

fn first_of_claim<L: Lookup>(
    alloc: Global,
    lookup: &L,
    claim: &Shared<Claim>,
) -> Result<FirstMachine, OutOfMemory>
    ensures { IfOk result (λ first. IsClaimFirst (L.rows lookup.now) claim.now (claim_decision (L.rows lookup.now) claim.now NotAsked) first) }
{
    match decide_claim(lookup, claim, Live::NotAsked) {
        ClaimAction::Nothing => Ok(FirstMachine::Drops),
        ClaimAction::ReadVolume => Ok(FirstMachine::Begins(Machine::ReadsVolume(claim.copy(
            alloc,
        )?))),
        ClaimAction::Lost => {
            if is_empty(&claim.volume_name) {
                return Ok(FirstMachine::Begins(Machine::Loses(claim.copy(alloc)?)));
            }
            Ok(FirstMachine::Begins(Machine::ReadsVolume(claim.copy(alloc)?)))
        }
        ClaimAction::Bind(place) => match volume_at(lookup, place) {
            Some(volume) => {
                let volume = volume.copy(alloc)?;
                Ok(FirstMachine::Begins(Machine::Binds(volume, claim.copy(alloc)?)))
            }
            None => Ok(FirstMachine::Drops),
        },
        ClaimAction::AssignClass(place) => match class_at(lookup, place) {
            Some(class) => {
                let class = class.copy(alloc)?;
                Ok(FirstMachine::Begins(Machine::AssignsClass(claim.copy(alloc)?, class)))
            }
            None => Ok(FirstMachine::Drops),
        },
    }
}

/// The class at a place among the classes.
fn class_at<L: Lookup>(lookup: &L, place: usize) -> Option<&Shared<Class>>
    ensures { option_copied result ≡ class_at (L.rows lookup.now) place }
{
    match lookup.at(Kind::StorageClass, place) {
        Some(Object::Class(class)) => Some(class),
        _ => None,
    }
}

/// The volume at a place among the volumes.
fn volume_at<L: Lookup>(lookup: &L, place: usize) -> Option<&Shared<Volume>>
    ensures { option_copied result ≡ volume_at (L.rows lookup.now) place }
{
    match lookup.at(Kind::PersistentVolume, place) {
        Some(Object::Volume(volume)) => Some(volume),
        _ => None,
    }
}
