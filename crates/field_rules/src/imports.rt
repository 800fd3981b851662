//! Which objects of an older store are refused.

ghost use Rattle.std.specs.Prelude.{◌≡◌, ◌||◌, nat_lt};
ghost use Rattle.std.specs.List.{list_any};
ghost use Rattle.std.specs.Result.{result_err};
ghost use Rattle.kube_objects.specs.Bindings.{ref_uid};
ghost use Rattle.kube_objects.specs.Keys.{key_of, meta_of, same_key};
ghost use Rattle.binder_model.specs.Imports.{holds_of_pair, import_fault, is_claim_named, is_ended_for, most_imported, names_another, reference_of, refers_to_another, serial_of, serial_or_zero, shares_uid};

use crate::faults::check_create;
use crate::same::is_same_text;
use kube_types::bindings::{is_empty, is_ended, is_uid, names_claim};
use kube_types::key::{kind_of, meta_of, same_kind};
use kube_types::names::ImportFault;
use kube_types::objects::{Object, Ref, Version};
use kube_types::uid::Uid;

/// The greatest version and the greatest serial that an imported object may have.
const MOST_IMPORTED: Version = 0x2000_0000_0000_0000;

/// How many serials there are.
const MOST_SERIALS: u128 = 0x4000_0000_0000_0000;

/// The serial of a UID of the form that creates give.
fn serial_of(uid: Uid) -> Option<u128>
    ensures { result ≡ serial_of uid }
{
    let first = Uid::from_serial(0).0;
    if first <= uid.0 && uid.0 < first + MOST_SERIALS {
        Some(uid.0 - first)
    } else {
        None
    }
}

/// Whether the UID has a serial that is too great for an import.
fn has_great_serial(uid: Option<Uid>) -> bool
    ensures { result ≡ nat_lt most_imported (serial_or_zero uid) }
{
    match uid {
        None => false,
        Some(uid) => match serial_of(uid) {
            None => false,
            Some(serial) => (MOST_IMPORTED as u128) < serial,
        },
    }
}

/// The UID of the claim that a volume refers to.
pub fn reference_uid(object: &Object) -> Option<Uid>
    ensures { result ≡ ref_uid (reference_of object.now) }
{
    match object {
        Object::Volume(volume) => match &volume.claim_ref {
            None => None,
            Some(reference) => reference.uid,
        },
        _ => None,
    }
}

/// Whether both UIDs are there, and are one.
fn shares_uid(uid: Option<Uid>, other: Option<Uid>) -> bool
    ensures { result ≡ shares_uid uid other }
{
    match uid {
        None => false,
        Some(uid) => is_uid(other, uid),
    }
}

fn is_claim_named(reference: &Ref, object: &Object) -> bool
    ensures { result ≡ is_claim_named reference.now object.now }
{
    match object {
        Object::Claim(claim) => names_claim(reference, claim),
        _ => false,
    }
}

fn names_another(reference: &Option<Ref>, object: &Object) -> bool
    ensures { result ≡ names_another reference.now object.now }
{
    match reference {
        None => false,
        Some(reference) => {
            shares_uid(reference.uid, meta_of(object).uid) && !is_claim_named(reference, object)
        }
    }
}

/// Whether the volume's reference has the UID of the other object, which is not the claim that it names.
pub fn refers_to_another(object: &Object, other: &Object) -> bool
    ensures { result ≡ refers_to_another object.now other.now }
{
    match object {
        Object::Volume(volume) => names_another(&volume.claim_ref, other),
        _ => false,
    }
}

/// Whether the volume has ended for the claim, which names it or none.
pub fn is_ended_for(object: &Object, other: &Object) -> bool
    ensures { result ≡ is_ended_for object.now other.now }
{
    match (object, other) {
        (Object::Volume(volume), Object::Claim(claim)) => {
            is_ended(volume.phase)
                && shares_uid(reference_uid(object), claim.meta.uid)
                && (is_empty(&claim.volume_name)
                    || is_same_text(&claim.volume_name, &volume.meta.name))
        }
        _ => false,
    }
}

/// Whether the two have one key.
pub fn has_same_key(object: &Object, other: &Object) -> bool
    ensures { result ≡ same_key (key_of object.now) (key_of other.now) }
{
    let (left, right) = (meta_of(object), meta_of(other));
    same_kind(kind_of(object), kind_of(other))
        && is_same_text(&left.namespace, &right.namespace)
        && is_same_text(&left.name, &right.name)
}

fn is_key_taken(before: &[Object], object: &Object) -> bool
    ensures { result ≡ list_any (λ other. same_key (key_of other) (key_of object.now)) before.now }
{
    before.iter().any(|other| has_same_key(other, object))
}

fn is_uid_taken(before: &[Object], object: &Object) -> bool
    ensures { result ≡ list_any (λ other. shares_uid (meta_of object.now).uid (meta_of other).uid) before.now }
{
    let uid = meta_of(object).uid;
    before
        .iter()
        .any(|other| shares_uid(uid, meta_of(other).uid))
}

/// Whether one of the two is a volume whose reference has the UID of the other, which is not its claim.
fn refer_wrongly(object: &Object, other: &Object) -> bool
    ensures { result ≡ (refers_to_another object.now other.now || refers_to_another other.now object.now) }
{
    refers_to_another(object, other) || refers_to_another(other, object)
}

fn is_reference_among(before: &[Object], object: &Object) -> bool
    ensures { result ≡ list_any (λ other. refers_to_another object.now other || refers_to_another other object.now) before.now }
{
    before.iter().any(|other| refer_wrongly(object, other))
}

/// Whether a reference has the UID of an object that is not its claim.
fn is_reference_taken(before: &[Object], object: &Object) -> bool
    ensures { result ≡ holds_of_pair refers_to_another before.now object.now }
{
    refer_wrongly(object, object) || is_reference_among(before, object)
}

/// Whether one of the two is a volume that has ended for the other, a claim that may still name it.
fn end_early(object: &Object, other: &Object) -> bool
    ensures { result ≡ (is_ended_for object.now other.now || is_ended_for other.now object.now) }
{
    is_ended_for(object, other) || is_ended_for(other, object)
}

fn is_end_among(before: &[Object], object: &Object) -> bool
    ensures { result ≡ list_any (λ other. is_ended_for object.now other || is_ended_for other object.now) before.now }
{
    before.iter().any(|other| end_early(object, other))
}

/// Whether a volume has ended for a claim that may still name it.
fn is_ended_early(before: &[Object], object: &Object) -> bool
    ensures { result ≡ holds_of_pair is_ended_for before.now object.now }
{
    end_early(object, object) || is_end_among(before, object)
}

/// Answers why the object is not imported after those before it, the first reason in the order of
/// `ImportFault`.
#[tactic(auto, unfolding(binder_model::specs::Imports::import_fault, binder_model::specs::Imports::fault_if, binder_model::specs::Imports::fault_of_field))]
pub fn check_import(before: &[Object], object: &Object) -> Result<(), ImportFault>
    ensures { result_err result ≡ import_fault before.now object.now }
{
    let meta = meta_of(object);
    if meta.uid.is_none() {
        return Err(ImportFault::MissingUid);
    }
    if MOST_IMPORTED < meta.version {
        return Err(ImportFault::Version);
    }
    if has_great_serial(meta.uid) || has_great_serial(reference_uid(object)) {
        return Err(ImportFault::Serial);
    }
    if let Err(field) = check_create(object) {
        return Err(ImportFault::Value(field));
    }
    if is_key_taken(before, object) {
        return Err(ImportFault::NameAgain);
    }
    if is_uid_taken(before, object) {
        return Err(ImportFault::UidAgain);
    }
    if is_reference_taken(before, object) {
        return Err(ImportFault::ClaimRef);
    }
    if is_ended_early(before, object) {
        return Err(ImportFault::Phase);
    }
    Ok(())
}
