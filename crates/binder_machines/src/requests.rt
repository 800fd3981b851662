//! The calls of the machines, and what they ask of the objects.

ghost use Rattle.std.specs.Prelude.{◌≡◌, IfOk};
ghost use Rattle.binder_machines.specs.Machines.{assigned, bind_call, claim_call, class_call, may_bind, phase_call, read_of, volume_call, write_lost};

use bind_writes::next_write;
use call_types::request::{NewStatus, Request};
use kube_types::bindings::{is_empty, is_for};
use kube_types::copies::{OutOfMemory, Plain, copy_option};
use kube_types::key::{claim_key, volume_key};
use kube_types::objects::{Claim, Class, Object, Ref, Volume};
use kube_types::parts::{ClaimPhase, VolumePhase};
use kube_types::shared::Shared;
use std::alloc::Global;

/// The next write of the binding. None where the pair is not one to be bound.
pub(crate) fn bind_call(
    alloc: Global,
    volume: &Volume,
    claim: &Claim,
) -> Result<Option<Request>, OutOfMemory>
    ensures { IfOk result (λ call. call ≡ bind_call volume.now claim.now) }
{
    if may_bind(volume, claim) {
        return next_write(alloc, volume, claim);
    }
    Ok(None)
}

/// Whether the claim may be bound to the volume.
fn may_bind(volume: &Volume, claim: &Claim) -> bool
    ensures { result ≡ may_bind volume.now claim.now }
{
    claim.meta.uid.is_some()
        && is_empty(&volume.meta.namespace)
        && (volume.claim_ref.is_none() || is_for(volume, claim))
        && (is_empty(&claim.volume_name) || claim.volume_name.is(volume.meta.name.as_str()))
}

/// The read of the claim that the volume's reference names. None where the volume has a namespace or
/// no UID.
pub(crate) fn claim_call(alloc: Global, volume: &Volume) -> Result<Option<Request>, OutOfMemory>
    ensures { IfOk result (λ call. call ≡ claim_call volume.now) }
{
    if !is_empty(&volume.meta.namespace) || volume.meta.uid.is_none() {
        return Ok(None);
    }
    read_of(alloc, &volume.claim_ref)
}

/// The read of the claim that the reference names.
fn read_of(alloc: Global, reference: &Option<Ref>) -> Result<Option<Request>, OutOfMemory>
    ensures { IfOk result (λ call. call ≡ read_of reference.now) }
{
    match reference {
        None => Ok(None),
        Some(reference) => Ok(Some(Request::Get {
            key: claim_key(alloc, &reference.namespace, &reference.name)?,
        })),
    }
}

/// The read of the volume that the claim names. None where the claim has no UID.
pub(crate) fn volume_call(alloc: Global, claim: &Claim) -> Result<Option<Request>, OutOfMemory>
    ensures { IfOk result (λ call. call ≡ volume_call claim.now) }
{
    if claim.meta.uid.is_none() {
        return Ok(None);
    }
    Ok(Some(Request::Get {
        key: volume_key(alloc, &claim.volume_name)?,
    }))
}

/// The write of a phase of the volume, at its version. None where the volume has a namespace.
pub(crate) fn phase_call(
    alloc: Global,
    volume: &Volume,
    phase: VolumePhase,
) -> Result<Option<Request>, OutOfMemory>
    ensures { IfOk result (λ call. call ≡ phase_call volume.now phase) }
{
    if !is_empty(&volume.meta.namespace) {
        return Ok(None);
    }
    Ok(Some(Request::UpdateStatus {
        key: volume_key(alloc, &volume.meta.name)?,
        status: NewStatus::Volume(phase),
        version: Some(volume.meta.version),
    }))
}

/// The write of the class's name into the claim, at the claim's version. None where the claim has no
/// UID or the class has a namespace.
pub(crate) fn class_call(
    alloc: Global,
    claim: &Claim,
    class: &Class,
) -> Result<Option<Request>, OutOfMemory>
    ensures { IfOk result (λ call. call ≡ class_call claim.now class.now) }
{
    if claim.meta.uid.is_none() || !is_empty(&class.meta.namespace) {
        return Ok(None);
    }
    Ok(Some(Request::Update {
        object: Object::Claim(Shared::new(alloc, assigned(alloc, claim, class)?)?),
        version: Some(claim.meta.version),
    }))
}

/// The claim with the name of the class.
fn assigned(alloc: Global, claim: &Claim, class: &Class) -> Result<Claim, OutOfMemory>
    ensures { IfOk result (λ new. new ≡ assigned claim.now class.now) }
{
    let mut assigned = claim.copy(alloc)?;
    assigned.class = Some(class.meta.name.copy(alloc)?);
    Ok(assigned)
}

/// The write of phase Lost, at the claim's version. Access modes and capacity stay.
pub(crate) fn write_lost(alloc: Global, claim: &Claim) -> Result<Request, OutOfMemory>
    ensures { IfOk result (λ write. write ≡ write_lost claim.now) }
{
    Ok(Request::UpdateStatus {
        key: claim_key(alloc, &claim.meta.namespace, &claim.meta.name)?,
        status: NewStatus::Claim {
            phase: ClaimPhase::Lost,
            modes: claim.got_modes,
            amount: copy_option(alloc, &claim.got)?,
        },
        version: Some(claim.meta.version),
    })
}
