//! What a write makes of an object.

ghost use Rattle.std.specs.Prelude.{◌≡◌, ◌<◌, ◌^◌, Some, IfOk};
ghost use Rattle.std.specs.Option.{option_copied};
ghost use Rattle.kube_objects.specs.declared.objects.Object.TheVariants as objects;
ghost use Rattle.kube_objects.specs.Keys.{meta_of};
ghost use Rattle.binder_model.specs.Store.{with_meta, at_version, marked_object, without_status, created_object, with_status_of, updated_object};
ghost use Rattle.binder_model.specs.Answers.{with_status};

use crate::metadata::{MetaChange, write_meta};
use call_types::request::NewStatus;
use field_rules::admit;
use kube_types::copies::{OutOfMemory, Plain, copy_option};
use kube_types::key::meta_of;
use kube_types::objects::{Amount, Claim, Object, Version, Volume};
use kube_types::parts::{ClaimPhase, Modes, VolumePhase};
use kube_types::shared::Shared;
use kube_types::text::Text;
use kube_types::uid::Uid;
use std::alloc::Global;

/// The object at this version.
#[tactic(auto, unfolding(binder_model::specs::Store::at_version))]
pub fn at_version(
    alloc: Global,
    mut object: Object,
    version: Version,
) -> Result<Object, OutOfMemory>
    ensures { IfOk result (λ o. o ≡ at_version object version) }
{
    write_meta(alloc, &mut object, MetaChange::Version(version))?;
    Ok(object)
}

/// The object with what is not a user's to choose.
fn with_identity(
    alloc: Global,
    mut object: Object,
    uid: Option<Uid>,
    version: Version,
    created: Text,
    deleted: Option<Text>,
) -> Result<Object, OutOfMemory>
    ensures { IfOk result (λ o. o ≡ with_meta object (record (meta_of object) { uid = uid; version = version; created = created; deleted = deleted })) }
{
    let identity = MetaChange::Identity {
        uid,
        version,
        created,
        deleted,
    };
    write_meta(alloc, &mut object, identity)?;
    Ok(object)
}

/// The object at this version, to be deleted since this moment.
#[tactic(auto, unfolding(binder_model::specs::Store::marked_object))]
pub fn marked_object(
    alloc: Global,
    object: &Object,
    version: Version,
    moment: &Text,
) -> Result<Object, OutOfMemory>
    ensures { IfOk result (λ o. o ≡ marked_object object.now version moment.now) }
{
    let moment = moment.copy(alloc)?;
    let mut marked = object.copy(alloc)?;
    write_meta(alloc, &mut marked, MetaChange::Deletion(version, moment))?;
    Ok(marked)
}

/// The volume in this phase.
fn volume_at(
    alloc: Global,
    volume: &Shared<Volume>,
    phase: VolumePhase,
) -> Result<Shared<Volume>, OutOfMemory>
    ensures { IfOk result (λ v. v ≡ record volume.now { phase = phase }) }
{
    let mut volume = volume.copy(alloc)?;
    volume.value_mut(alloc)?.phase = phase;
    Ok(volume)
}

/// Gives the claim this status.
fn set_claim_status(claim: &mut Claim, phase: ClaimPhase, modes: Modes, amount: Option<Amount>)
    ensures { claim.new ≡ record claim.old { phase = phase; got_modes = modes; got = amount } }
{
    claim.phase = phase;
    claim.got_modes = modes;
    claim.got = amount;
}

/// The claim with this status.
fn claim_at(
    alloc: Global,
    claim: &Shared<Claim>,
    phase: ClaimPhase,
    modes: Modes,
    amount: &Option<Amount>,
) -> Result<Shared<Claim>, OutOfMemory>
    ensures { IfOk result (λ c. c ≡ record claim.now { phase = phase; got_modes = modes; got = amount.now }) }
{
    let amount = copy_option(alloc, amount)?;
    let mut claim = claim.copy(alloc)?;
    set_claim_status(claim.value_mut(alloc)?, phase, modes, amount);
    Ok(claim)
}

/// The object with the status of a new one.
#[tactic(auto, unfolding(binder_model::specs::Store::without_status))]
fn without_status(alloc: Global, object: &Object) -> Result<Object, OutOfMemory>
    ensures { IfOk result (λ o. o ≡ without_status object.now) }
{
    match object {
        Object::Volume(volume) => {
            Ok(Object::Volume(volume_at(alloc, volume, VolumePhase::Pending)?))
        }
        Object::Claim(claim) => {
            let none = Modes {
                rwo: false,
                rox: false,
                rwx: false,
                rwop: false,
            };
            Ok(Object::Claim(claim_at(alloc, claim, ClaimPhase::Pending, none, &None)?))
        }
        _ => object.copy(alloc),
    }
}

/// The object as the write of this version creates it.
#[tactic(auto, unfolding(binder_model::specs::Store::created_object))]
pub fn created_object(
    alloc: Global,
    default_class: Option<&Text>,
    object: &Object,
    version: Version,
    moment: &Text,
) -> Result<Object, OutOfMemory>
    requires { version < 2 ^ 62 }
    ensures { IfOk result (λ o. o ≡ created_object (option_copied default_class.entry) object.now version moment.now) }
{
    let fresh = without_status(alloc, object)?;
    let admitted = admit(alloc, &fresh, default_class)?;
    let created = moment.copy(alloc)?;
    let uid = Some(Uid::from_serial(version));
    with_identity(alloc, admitted, uid, version, created, None)
}

#[tactic(auto, unfolding(binder_model::specs::Store::with_status_of))]
fn with_status_of_volume(alloc: Global, old: &Volume, new: &Object) -> Result<Object, OutOfMemory>
    ensures { IfOk result (λ o. o ≡ with_status_of (objects.Volume old.now) new.now) }
{
    match new {
        Object::Volume(volume) => Ok(Object::Volume(volume_at(alloc, volume, old.phase)?)),
        _ => new.copy(alloc),
    }
}

#[tactic(auto, unfolding(binder_model::specs::Store::with_status_of))]
fn with_status_of_claim(alloc: Global, old: &Claim, new: &Object) -> Result<Object, OutOfMemory>
    ensures { IfOk result (λ o. o ≡ with_status_of (objects.Claim old.now) new.now) }
{
    match new {
        Object::Claim(claim) => {
            Ok(Object::Claim(claim_at(alloc, claim, old.phase, old.got_modes, &old.got)?))
        }
        _ => new.copy(alloc),
    }
}

/// The new object with the status of the old one.
#[tactic(auto, unfolding(binder_model::specs::Store::with_status_of))]
fn with_status_of(alloc: Global, old: &Object, new: &Object) -> Result<Object, OutOfMemory>
    ensures { IfOk result (λ o. o ≡ with_status_of old.now new.now) }
{
    match old {
        Object::Volume(old) => with_status_of_volume(alloc, old, new),
        Object::Claim(old) => with_status_of_claim(alloc, old, new),
        _ => new.copy(alloc),
    }
}

/// The new object in place of the old one.
#[tactic(auto, unfolding(binder_model::specs::Store::updated_object))]
pub fn updated_object(
    alloc: Global,
    old: &Object,
    new: &Object,
    version: Version,
) -> Result<Object, OutOfMemory>
    ensures { IfOk result (λ o. o ≡ updated_object old.now new.now version) }
{
    let kept = with_status_of(alloc, old, new)?;
    let meta = meta_of(old);
    let created = meta.created.copy(alloc)?;
    let deleted = copy_option(alloc, &meta.deleted)?;
    with_identity(alloc, kept, meta.uid, version, created, deleted)
}

/// The object with this status, or none where it is not one of its kind.
#[tactic(auto, unfolding(binder_model::specs::Answers::with_status))]
pub fn with_status(
    alloc: Global,
    status: &NewStatus,
    object: &Object,
) -> Result<Option<Object>, OutOfMemory>
    ensures { IfOk result (λ o. o ≡ with_status status.now object.now) }
{
    match (status, object) {
        (NewStatus::Volume(phase), Object::Volume(volume)) => {
            Ok(Some(Object::Volume(volume_at(alloc, volume, *phase)?)))
        }
        (
            NewStatus::Claim {
                phase,
                modes,
                amount,
            },
            Object::Claim(claim),
        ) => Ok(Some(Object::Claim(claim_at(alloc, claim, *phase, *modes, amount)?))),
        _ => Ok(None),
    }
}
