//! Which fields of an object are invalid.

ghost use Rattle.std.specs.Prelude.{◌≡◌, ◌==◌, ◌&&◌, ◌||◌, Option, false, not, IfOk, IfSome};
ghost use Rattle.std.specs.List.{list_all, slice_split};
ghost use Rattle.std.specs.Result.{result_err};
ghost use Rattle.kube_parts.specs.declared.names.Field.{Field};
ghost use Rattle.kube_objects.specs.declared.objects.Object.TheVariants as objects;
ghost use Rattle.kube_objects.specs.Bindings.{is_deleting};
ghost use Rattle.kube_objects.specs.Keys.{meta_of};
ghost use Rattle.binder_model.specs.Fields.{adds_finalizer, is_lower_or_digit, is_name_byte, is_label, is_subdomain, is_namespace, has_no_mode, has_twice, is_nameless, keeps_class, volume_fault, claim_fault, class_fault, pod_fault, kind_fault, create_fault, changed_field, update_fault};
ghost use Rattle.field_rules.specs.Faults.{after_byte, byte_fits, ends_well, fault_or, names_in, reads_as_label};

use crate::same::{
    are_same_names, are_same_pairs, are_same_terms, is_same_amount, is_same_class, is_same_flag,
    is_same_modes, is_same_policy, is_same_selector, is_same_source, is_same_text,
};
use crate::twice::{has_twice, stands_twice};
use finalizer_rules::adds_while_deleting;
use kube_types::bindings::{is_completed, lacks_class};
use kube_types::copies::OutOfMemory;
use kube_types::key::meta_of;
use kube_types::names::Field;
use kube_types::objects::{Claim, Class, Meta, Object, Pod, Ref, Volume};
use kube_types::parts::Modes;
use kube_types::text::{Names, Text};
use std::alloc::Global;

/// Answers the field where the test holds.
macro_rules! refuse {
    ($($fault:expr => $field:expr),+) => {
        $(if $fault {
            return Err($field);
        })+
    };
}

/// Answers the first field of which the new object has another.
macro_rules! keep {
    ($old:ident, $new:ident, $($same:ident($part:ident) => $field:expr),+) => {
        $(if !$same(&$old.$part, &$new.$part) {
            return Err($field);
        })+
    };
}

fn is_lower_or_digit(byte: u8) -> bool
    ensures { result ≡ is_lower_or_digit byte }
{
    (97 <= byte && byte <= 122) || (48 <= byte && byte <= 57)
}

fn is_name_byte(byte: u8) -> bool
    ensures { result ≡ is_name_byte byte }
{
    is_lower_or_digit(byte) || byte == 45
}

/// Whether the bytes after this one are bytes of names, up to a last one that is a letter or digit.
fn ends_well(first: u8, bytes: &[u8]) -> bool
    ensures { result ≡ ends_well first bytes.now }
{
    let mut last = first;
    for byte in bytes {
        if !is_name_byte(last) {
            return false;
        }
        last = *byte;
    }
    is_lower_or_digit(last)
}

/// Whether the text is a part of a DNS name.
fn is_label(bytes: &[u8]) -> bool
    ensures { result ≡ is_label bytes.now }
{
    reads_as_label(bytes)
}

/// The same, read from the first byte on.
fn reads_as_label(bytes: &[u8]) -> bool
    ensures { result ≡ reads_as_label bytes.now }
{
    match bytes {
        [] => false,
        [first, rest @ ..] => is_lower_or_digit(*first) && ends_well(*first, rest),
    }
}

/// Whether the byte may stand after the last byte of a part, or at the start of a part. A dot ends a
/// part.
fn byte_fits(last: Option<u8>, byte: u8) -> bool
    ensures { result ≡ byte_fits last byte }
{
    match last {
        None => is_lower_or_digit(byte),
        Some(last) => {
            if byte == 46 {
                is_lower_or_digit(last)
            } else {
                is_name_byte(last)
            }
        }
    }
}

/// The last byte of the part of a name that this byte stands in.
fn after_byte(byte: u8) -> Option<u8>
    ensures { result ≡ after_byte byte }
{
    if byte == 46 { None } else { Some(byte) }
}

/// Whether the bytes are parts of a DNS name with dots between them.
fn are_labels(bytes: &[u8]) -> bool
    ensures { result ≡ list_all is_label (slice_split (λ c. c == 46) bytes.now) }
{
    let mut last = None;
    for byte in bytes {
        if !byte_fits(last, *byte) {
            return false;
        }
        last = after_byte(*byte);
    }
    match last {
        None => false,
        Some(last) => is_lower_or_digit(last),
    }
}

/// Whether the text is a DNS subdomain.
fn is_subdomain(name: &Text) -> bool
    ensures { result ≡ is_subdomain name.now }
{
    let bytes = name.as_str().as_bytes();
    bytes.len() <= 253 && are_labels(bytes)
}

/// Whether the text is a DNS label.
fn is_namespace(name: &Text) -> bool
    ensures { result ≡ is_namespace name.now }
{
    let bytes = name.as_str().as_bytes();
    bytes.len() <= 63 && is_label(bytes)
}

fn has_no_mode(modes: Modes) -> bool
    ensures { result ≡ has_no_mode modes }
{
    !(modes.rwo || modes.rox || modes.rwx || modes.rwop)
}

fn is_nameless(reference: &Option<Ref>) -> bool
    ensures { result ≡ is_nameless reference.now }
{
    match reference {
        None => false,
        Some(r) => r.name.as_str().is_empty() || r.namespace.as_str().is_empty(),
    }
}

#[tactic(auto, unfolding(binder_model::specs::Fields::volume_fault, binder_model::specs::Fields::faulty))]
fn check_volume(known: Option<bool>, volume: &Volume) -> Result<(), Field>
    requires { IfSome known (λ twice. twice ≡ has_twice volume.now.meta.finalizers) }
    ensures { result_err result ≡ volume_fault volume.now }
{
    refuse!(
        !volume.meta.namespace.as_str().is_empty() => Field::Namespace,
        volume.amount.bytes == 0 => Field::Capacity,
        has_no_mode(volume.modes) => Field::AccessModes,
        is_nameless(&volume.claim_ref) => Field::ClaimRef,
        has_twice(known, &volume.meta.finalizers) => Field::Finalizers
    );
    Ok(())
}

#[tactic(auto, unfolding(binder_model::specs::Fields::claim_fault, binder_model::specs::Fields::faulty))]
fn check_claim(known: Option<bool>, claim: &Claim) -> Result<(), Field>
    requires { IfSome known (λ twice. twice ≡ has_twice claim.now.meta.finalizers) }
    ensures { result_err result ≡ claim_fault claim.now }
{
    refuse!(
        !is_namespace(&claim.meta.namespace) => Field::Namespace,
        claim.amount.bytes == 0 => Field::Request,
        has_no_mode(claim.modes) => Field::AccessModes,
        has_twice(known, &claim.meta.finalizers) => Field::Finalizers
    );
    Ok(())
}

#[tactic(auto, unfolding(binder_model::specs::Fields::class_fault, binder_model::specs::Fields::faulty))]
fn check_class(known: Option<bool>, class: &Class) -> Result<(), Field>
    requires { IfSome known (λ twice. twice ≡ has_twice class.now.meta.finalizers) }
    ensures { result_err result ≡ class_fault class.now }
{
    refuse!(
        !class.meta.namespace.as_str().is_empty() => Field::Namespace,
        class.provisioner.as_str().is_empty() => Field::Provisioner,
        has_twice(known, &class.meta.finalizers) => Field::Finalizers
    );
    Ok(())
}

#[tactic(auto, unfolding(binder_model::specs::Fields::pod_fault, binder_model::specs::Fields::faulty))]
fn check_pod(known: Option<bool>, lacks_node: bool, pod: &Pod) -> Result<(), Field>
    requires { IfSome known (λ twice. twice ≡ has_twice pod.now.claims) }
    ensures { result_err result ≡ pod_fault lacks_node pod.now }
{
    refuse!(
        !is_namespace(&pod.meta.namespace) => Field::Namespace,
        lacks_node => Field::NodeName,
        pod.claims.contains("") || has_twice(known, &pod.claims) => Field::Claims,
        !pod.meta.finalizers.as_slice().is_empty() => Field::Finalizers
    );
    Ok(())
}

#[tactic(auto, unfolding(binder_model::specs::Fields::kind_fault, binder_model::specs::Fields::faulty))]
fn check_kind(known: Option<bool>, lacks_node: bool, object: &Object) -> Result<(), Field>
    requires { IfSome known (λ twice. twice ≡ has_twice (names_in object.now)) }
    ensures { result_err result ≡ kind_fault lacks_node object.now }
{
    match object {
        Object::Class(class) => check_class(known, class),
        Object::Node(node) => {
            refuse!(
                !node.meta.namespace.as_str().is_empty() => Field::Namespace,
                has_twice(known, &node.meta.finalizers) => Field::Finalizers
            );
            Ok(())
        }
        Object::Volume(volume) => check_volume(known, volume),
        Object::Claim(claim) => check_claim(known, claim),
        Object::Pod(pod) => check_pod(known, lacks_node, pod),
    }
}

/// Answers the first invalid field of a new object.
#[tactic(auto, unfolding(binder_model::specs::Fields::create_fault, binder_model::specs::Fields::faulty))]
fn check_object(known: Option<bool>, lacks_node: bool, object: &Object) -> Result<(), Field>
    requires { IfSome known (λ twice. twice ≡ has_twice (names_in object.now)) }
    ensures { result_err result ≡ create_fault lacks_node object.now }
{
    refuse!(!is_subdomain(&meta_of(object).name) => Field::Name);
    check_kind(known, lacks_node, object)
}

/// The names of which none may stand twice: the claims of a pod, the finalizers of other objects.
fn names_in(object: &Object) -> &Names
    ensures { result.now ≡ names_in object.now }
{
    match object {
        Object::Class(class) => &class.meta.finalizers,
        Object::Node(node) => &node.meta.finalizers,
        Object::Volume(volume) => &volume.meta.finalizers,
        Object::Claim(claim) => &claim.meta.finalizers,
        Object::Pod(pod) => &pod.claims,
    }
}

/// Answers the first invalid field of a new object. `lacks_node` says that a pod names a node that is
/// not there.
pub fn check_new(
    alloc: Global,
    lacks_node: bool,
    object: &Object,
) -> Result<Result<(), Field>, OutOfMemory>
    ensures { IfOk result (λ checked. result_err checked ≡ create_fault lacks_node object.now) }
{
    let twice = stands_twice(alloc, names_in(object))?;
    Ok(check_object(Some(twice), lacks_node, object))
}

/// Answers the first invalid field of a new object, without memory. Whether a pod's node is there is
/// not tested.
pub fn check_create(object: &Object) -> Result<(), Field>
    ensures { result_err result ≡ create_fault false object.now }
{
    check_object(None, false, object)
}

/// Whether the class stays, or the old claim lacks one and may still get one.
fn keeps_class(old: &Claim, new: &Claim) -> bool
    ensures { result ≡ keeps_class old.now new.now }
{
    is_same_class(&old.class, &new.class) || (lacks_class(old) && !is_completed(old))
}

#[tactic(auto, unfolding(binder_model::specs::Fields::changed_field, binder_model::specs::Fields::faulty))]
fn keep_claim(old: &Claim, new: &Claim) -> Result<(), Field>
    ensures { (next : Option Field) → changed_field (objects.Claim old.now) (objects.Claim new.now) next ≡ fault_or result next }
{
    keep!(
        old, new,
        is_same_modes(modes) => Field::Spec,
        is_same_amount(amount) => Field::Spec,
        is_same_flag(block) => Field::Spec,
        is_same_selector(selector) => Field::Spec,
        is_same_text(extra) => Field::Spec
    );
    refuse!(!keeps_class(old, new) => Field::Spec);
    if old.volume_name.as_str().is_empty() {
        return Ok(());
    }
    keep!(old, new, is_same_text(volume_name) => Field::VolumeName);
    Ok(())
}

#[tactic(auto, unfolding(binder_model::specs::Fields::changed_field, binder_model::specs::Fields::faulty))]
fn keep_pod(old: &Pod, new: &Pod) -> Result<(), Field>
    ensures { (next : Option Field) → changed_field (objects.Pod old.now) (objects.Pod new.now) next ≡ fault_or result next }
{
    keep!(
        old, new,
        are_same_names(claims) => Field::Spec,
        is_same_text(node) => Field::Spec,
        is_same_text(extra) => Field::Spec
    );
    Ok(())
}

#[tactic(auto, unfolding(binder_model::specs::Fields::changed_field, binder_model::specs::Fields::faulty))]
fn keep_volume(old: &Volume, new: &Volume) -> Result<(), Field>
    ensures { (next : Option Field) → changed_field (objects.Volume old.now) (objects.Volume new.now) next ≡ fault_or result next }
{
    keep!(
        old, new,
        is_same_source(source) => Field::Source,
        is_same_flag(block) => Field::VolumeMode,
        is_same_amount(amount) => Field::Capacity,
        are_same_terms(terms) => Field::NodeAffinity
    );
    Ok(())
}

#[tactic(auto, unfolding(binder_model::specs::Fields::changed_field, binder_model::specs::Fields::faulty))]
fn keep_class(old: &Class, new: &Class) -> Result<(), Field>
    ensures { (next : Option Field) → changed_field (objects.Class old.now) (objects.Class new.now) next ≡ fault_or result next }
{
    keep!(
        old, new,
        is_same_text(provisioner) => Field::Provisioner,
        are_same_pairs(parameters) => Field::Parameters,
        is_same_policy(policy) => Field::Policy,
        is_same_flag(delayed) => Field::BindingMode
    );
    Ok(())
}

/// Answers the first field that was fixed and is another now.
#[tactic(auto, unfolding(binder_model::specs::Fields::changed_field))]
fn keep_fixed(old: &Object, new: &Object) -> Result<(), Field>
    ensures { (next : Option Field) → changed_field old.now new.now next ≡ fault_or result next }
{
    match (old, new) {
        (Object::Claim(old), Object::Claim(new)) => keep_claim(old, new),
        (Object::Pod(old), Object::Pod(new)) => keep_pod(old, new),
        (Object::Volume(old), Object::Volume(new)) => keep_volume(old, new),
        (Object::Class(old), Object::Class(new)) => keep_class(old, new),
        _ => Ok(()),
    }
}

/// What is known of the finalizers of an object, of whose names it is known whether one stands twice.
fn known_of_finalizers(known: Option<bool>, object: &Object) -> Option<bool>
    requires { IfSome known (λ twice. twice ≡ has_twice (names_in object.now)) }
    ensures { IfSome result (λ twice. twice ≡ has_twice (meta_of object.now).finalizers) }
{
    match object {
        Object::Pod(_) => None,
        Object::Class(_) | Object::Node(_) | Object::Volume(_) | Object::Claim(_) => known,
    }
}

/// Whether finalizers are added to an object that is to be deleted, or one stands twice.
fn has_wrong_finalizers(known: Option<bool>, old: &Meta, finalizers: &Names) -> bool
    requires { IfSome known (λ twice. twice ≡ has_twice finalizers.now) }
    ensures { result ≡ ((is_deleting old.now && adds_finalizer old.now.finalizers finalizers.now) || has_twice finalizers.now) }
{
    adds_while_deleting(old, finalizers) || has_twice(known, finalizers)
}

/// Answers the first invalid field of an object that takes the place of the old one.
#[tactic(auto, unfolding(binder_model::specs::Fields::update_fault, binder_model::specs::Fields::faulty))]
fn check_change(known: Option<bool>, old: &Object, new: &Object) -> Result<(), Field>
    requires { IfSome known (λ twice. twice ≡ has_twice (names_in new.now)) }
    ensures { result_err result ≡ update_fault old.now new.now }
{
    keep_fixed(old, new)?;
    let finalizers = &meta_of(new).finalizers;
    refuse!(has_wrong_finalizers(known_of_finalizers(known, new), meta_of(old), finalizers) => Field::Finalizers);
    check_object(known, false, new)
}

/// Answers the first invalid field of an object that takes the place of the old one.
pub fn check_changed(
    alloc: Global,
    old: &Object,
    new: &Object,
) -> Result<Result<(), Field>, OutOfMemory>
    ensures { IfOk result (λ checked. result_err checked ≡ update_fault old.now new.now) }
{
    let twice = stands_twice(alloc, names_in(new))?;
    Ok(check_change(Some(twice), old, new))
}

/// Answers the first invalid field of an object that takes the place of the old one, without memory.
pub fn check_update(old: &Object, new: &Object) -> Result<(), Field>
    ensures { result_err result ≡ update_fault old.now new.now }
{
    check_change(None, old, new)
}
