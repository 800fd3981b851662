//! Volumes of the class of all samples.

ghost use Rattle.std.specs.Prelude.{◌≡◌, IfOk, None};
ghost use Rattle.sample_objects.specs.Samples.{IsStamped, data_name};

use crate::keys::data_name;
use crate::parts::{
    CLASS, NO_MEMBERS, ONE_WRITER, PROVISIONER, amount, annotate, data_source, folder, guard, meta,
    reference,
};
use kube_types::bindings::{BOUND_BY_CONTROLLER, PROVISIONED_BY, PV_PROTECTION, YES};
use kube_types::copies::OutOfMemory;
use kube_types::objects::{Version, Volume};
use kube_types::parts::{Policy, VolumePhase};
use kube_types::text::Text;
use kube_types::uid::Uid;
use std::alloc::Global;

/// A volume as an administrator writes it.
pub fn volume(
    alloc: Global,
    name: &str,
    uid: Option<Uid>,
    version: Version,
) -> Result<Volume, OutOfMemory>
    ensures { IfOk result (λ v. IsStamped name.now uid version v.meta) }
{
    Ok(Volume {
        amount: amount(alloc)?,
        modes: ONE_WRITER,
        block: false,
        class: Text::new(alloc, CLASS)?,
        policy: Policy::Retain,
        claim_ref: None,
        source: folder(alloc)?,
        terms: None,
        extra: Text::new(alloc, NO_MEMBERS)?,
        phase: VolumePhase::Pending,
        meta: meta(alloc, "", name, uid, version)?,
    })
}

/// A protected volume of the phase.
pub fn stored_volume(
    alloc: Global,
    name: &str,
    uid: Option<Uid>,
    version: Version,
    phase: VolumePhase,
) -> Result<Volume, OutOfMemory>
    ensures { IfOk result (λ v. IsStamped name.now uid version v.meta × (v.phase ≡ phase)) }
{
    let mut volume = volume(alloc, name, uid, version)?;
    guard(alloc, &mut volume.meta, PV_PROTECTION)?;
    volume.phase = phase;
    Ok(volume)
}

/// The same with the reference to a claim, if any.
pub fn volume_for(
    alloc: Global,
    name: &str,
    uid: Option<Uid>,
    version: Version,
    phase: VolumePhase,
    claim: &str,
    claim_uid: Option<Uid>,
) -> Result<Volume, OutOfMemory>
    ensures { IfOk result (λ v. IsStamped name.now uid version v.meta × (v.phase ≡ phase)) }
{
    let mut volume = stored_volume(alloc, name, uid, version, phase)?;
    volume.claim_ref = reference(alloc, claim, claim_uid)?;
    Ok(volume)
}

/// The volume that the provisioner makes for a claim over the data of this id.
pub fn made_volume(
    alloc: Global,
    claim: &str,
    claim_uid: Option<Uid>,
    id: &str,
) -> Result<Volume, OutOfMemory>
    ensures { IfOk result (λ v. IsStamped (data_name claim_uid) None 0 v.meta) }
{
    let name = data_name(alloc, claim_uid)?;
    let mut made = volume(alloc, name.as_str(), None, 0)?;
    annotate(alloc, &mut made.meta, BOUND_BY_CONTROLLER, YES)?;
    annotate(alloc, &mut made.meta, PROVISIONED_BY, PROVISIONER)?;
    made.policy = Policy::Delete;
    made.claim_ref = reference(alloc, claim, claim_uid)?;
    made.source = data_source(alloc, id)?;
    made.extra = Text::new(alloc, "")?;
    Ok(made)
}
