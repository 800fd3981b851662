//! The writes of a binding as requests. Each is made at the version of the object that it changes.

ghost use Rattle.std.specs.Prelude.{◌≡◌, IfOk, OnOk};
ghost use Rattle.binder_model.specs.BindWrites.{annotated_meta, annotated_meta_if, completed_with, next_write, taken_for, write_bound, write_claim_status, write_completion, write_reference};
ghost use Rattle.bind_writes.specs.Writes.{write_of};

use crate::step::{Write, next_step};
use call_types::request::{NewStatus, Request};
use kube_types::bindings::{BIND_COMPLETED, BOUND_BY_CONTROLLER, YES, is_empty, ref_to};
use kube_types::copies::{OutOfMemory, Plain};
use kube_types::key::{claim_key, volume_key};
use kube_types::objects::{Claim, Meta, Object, Volume};
use kube_types::parts::{ClaimPhase, VolumePhase};
use kube_types::shared::Shared;
use kube_types::text::Text;
use std::alloc::Global;

/// The first of the four writes of the binding that would change anything, or none where none would
/// or the next one may not be made.
pub fn next_write(
    alloc: Global,
    volume: &Volume,
    claim: &Claim,
) -> Result<Option<Request>, OutOfMemory>
    ensures { IfOk result (λ write. write ≡ next_write volume.now claim.now) }
{
    match next_step(volume, claim) {
        None => Ok(None),
        Some(step) => Ok(Some(write_of(alloc, step, volume, claim)?)),
    }
}

fn write_of(
    alloc: Global,
    step: Write,
    volume: &Volume,
    claim: &Claim,
) -> Result<Request, OutOfMemory>
    ensures { IfOk result (λ write. write ≡ write_of volume.now claim.now step) }
{
    match step {
        Write::Reference => write_reference(alloc, volume, claim),
        Write::Bound => write_bound(alloc, volume),
        Write::Completion => write_completion(alloc, volume, claim),
        Write::ClaimStatus => write_claim_status(alloc, volume, claim),
    }
}

/// The write of the claim's reference into the volume.
pub fn write_reference(
    alloc: Global,
    volume: &Volume,
    claim: &Claim,
) -> Result<Request, OutOfMemory>
    ensures { IfOk result (λ write. write ≡ write_reference volume.now claim.now) }
{
    Ok(Request::Update {
        object: Object::Volume(Shared::new(alloc, taken_for(alloc, volume, claim)?)?),
        version: Some(volume.meta.version),
    })
}

/// The write of phase Bound.
pub fn write_bound(alloc: Global, volume: &Volume) -> Result<Request, OutOfMemory>
    ensures { IfOk result (λ write. write ≡ write_bound volume.now) }
{
    Ok(Request::UpdateStatus {
        key: volume_key(alloc, &volume.meta.name)?,
        status: NewStatus::Volume(VolumePhase::Bound),
        version: Some(volume.meta.version),
    })
}

/// The write of the volume's name into the claim, which completes the claim.
pub fn write_completion(
    alloc: Global,
    volume: &Volume,
    claim: &Claim,
) -> Result<Request, OutOfMemory>
    ensures { IfOk result (λ write. write ≡ write_completion volume.now claim.now) }
{
    Ok(Request::Update {
        object: Object::Claim(Shared::new(alloc, completed_with(alloc, claim, volume)?)?),
        version: Some(claim.meta.version),
    })
}

/// The write of the claim's phase Bound, with the volume's access modes and capacity.
pub fn write_claim_status(
    alloc: Global,
    volume: &Volume,
    claim: &Claim,
) -> Result<Request, OutOfMemory>
    ensures { IfOk result (λ write. write ≡ write_claim_status volume.now claim.now) }
{
    Ok(Request::UpdateStatus {
        key: claim_key(alloc, &claim.meta.namespace, &claim.meta.name)?,
        status: NewStatus::Claim {
            phase: ClaimPhase::Bound,
            modes: volume.modes,
            amount: Some(volume.amount.copy(alloc)?),
        },
        version: Some(claim.meta.version),
    })
}

/// The volume with the claim's reference, and marked as bound by the controller where it had no
/// reference before.
#[tactic(auto, unfolding(binder_model::specs::BindWrites::taken_for))]
pub fn taken_for(alloc: Global, volume: &Volume, claim: &Claim) -> Result<Volume, OutOfMemory>
    ensures { IfOk result (λ taken. taken ≡ taken_for volume.now claim.now) }
{
    let mut taken = volume.copy(alloc)?;
    let is_free = volume.claim_ref.is_none();
    annotate_if(alloc, &mut taken.meta, is_free, BOUND_BY_CONTROLLER)?;
    taken.claim_ref = Some(ref_to(alloc, claim)?);
    Ok(taken)
}

/// The claim with the volume's name, completed, and marked as bound by the controller where it
/// named no volume before.
#[tactic(auto, unfolding(binder_model::specs::BindWrites::completed_with))]
pub fn completed_with(alloc: Global, claim: &Claim, volume: &Volume) -> Result<Claim, OutOfMemory>
    ensures { IfOk result (λ completed. completed ≡ completed_with claim.now volume.now) }
{
    let mut completed = claim.copy(alloc)?;
    let names_none = is_empty(&claim.volume_name);
    annotate_if(alloc, &mut completed.meta, names_none, BOUND_BY_CONTROLLER)?;
    annotate(alloc, &mut completed.meta, BIND_COMPLETED)?;
    completed.volume_name = volume.meta.name.copy(alloc)?;
    Ok(completed)
}

/// Gives the annotation of this name the value that the binder writes.
fn annotate(alloc: Global, meta: &mut Meta, name: &str) -> Result<(), OutOfMemory>
    ensures { OnOk result (meta.new ≡ annotated_meta name.now meta.old) }
{
    let name = Text::new(alloc, name)?;
    let value = Text::new(alloc, YES)?;
    meta.annotations.set(&name, &value)
}

fn annotate_if(
    alloc: Global,
    meta: &mut Meta,
    is_wanted: bool,
    name: &str,
) -> Result<(), OutOfMemory>
    ensures { OnOk result (meta.new ≡ annotated_meta_if is_wanted name.now meta.old) }
{
    if is_wanted {
        annotate(alloc, meta, name)?;
    }
    Ok(())
}
