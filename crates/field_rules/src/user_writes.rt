//! What a user may write.

ghost use Rattle.std.specs.Prelude.{◌≡◌, bytes_eq, is_none};
ghost use Rattle.std.specs.Bool.{xor};
ghost use Rattle.std.specs.Option.{option_copied};
ghost use Rattle.std.specs.Result.{result_err};
ghost use Rattle.plain_data.specs.Pairs.{value_at};
ghost use Rattle.kube_objects.specs.Keys.{meta_of};
ghost use Rattle.kube_objects.specs.Bindings.{has_name, is_delete};
ghost use Rattle.binder_model.specs.Same.{same_option, same_ref};
ghost use Rattle.binder_model.specs.Guard.{annotations_before, finalizers_before, clears_released, changes_annotation, drops_with_reference, breaks_annotation, is_admitted, changes_finalizer, breaks_finalizer, reference_before, has_uid, breaks_reference, breaks_policy, guard};

use crate::same::{is_same_reference, is_same_text};
use kube_types::bindings::{
    BIND_COMPLETED, BOUND_BY_CONTROLLER, PROVISIONED_BY, PV_PROTECTION, PVC_PROTECTION, is_ended,
};
use kube_types::key::meta_of;
use kube_types::names::Rule;
use kube_types::objects::{Object, Ref};
use kube_types::parts::{Policy, VolumePhase};
use kube_types::text::Text;

/// Answers the rule where the write breaks it.
macro_rules! forbid {
    ($($breaks:ident => $rule:expr),+; $old:expr, $new:expr) => {
        $(if $breaks($old, $new) {
            return Err($rule);
        })+
    };
}

fn value_before<'a>(old: Option<&'a Object>, name: &str) -> Option<&'a Text>
    ensures { option_copied result ≡ value_at name.now (annotations_before (option_copied old.entry)) }
{
    match old {
        None => None,
        Some(object) => meta_of(object).annotations.get(name),
    }
}

fn is_same_value(before: Option<&Text>, after: Option<&Text>) -> bool
    ensures { result ≡ same_option bytes_eq (option_copied before.entry) (option_copied after.entry) }
{
    match (before, after) {
        (None, None) => true,
        (Some(before), Some(after)) => is_same_text(before, after),
        _ => false,
    }
}

fn is_delete(policy: Policy) -> bool
    ensures { result ≡ is_delete policy }
{
    match policy {
        Policy::Delete => true,
        _ => false,
    }
}

/// Whether the write clears the reference that a volume in phase Released has, where its policy is not Delete.
fn clears_released(old: Option<&Object>, new: &Object) -> bool
    ensures { result ≡ clears_released (option_copied old.entry) new.now }
{
    match (old, new) {
        (Some(Object::Volume(old)), Object::Volume(new)) => match old.phase {
            VolumePhase::Released => {
                !is_delete(old.policy) && old.claim_ref.is_some() && new.claim_ref.is_none()
            }
            _ => false,
        },
        _ => false,
    }
}

fn changes_annotation(old: Option<&Object>, new: &Object, name: &str) -> bool
    ensures { result ≡ changes_annotation (option_copied old.entry) new.now name.now }
{
    !is_same_value(value_before(old, name), meta_of(new).annotations.get(name))
}

fn drops_with_reference(old: Option<&Object>, new: &Object) -> bool
    ensures { result ≡ drops_with_reference (option_copied old.entry) new.now }
{
    clears_released(old, new) && lacks_annotation(new, BOUND_BY_CONTROLLER)
}

fn lacks_annotation(object: &Object, name: &str) -> bool
    ensures { result ≡ is_none (value_at name.now (meta_of object.now).annotations) }
{
    match meta_of(object).annotations.get(name) {
        None => true,
        Some(_) => false,
    }
}

fn breaks_annotation(old: Option<&Object>, new: &Object) -> bool
    ensures { result ≡ breaks_annotation (option_copied old.entry) new.now }
{
    changes_annotation(old, new, BIND_COMPLETED)
        || changes_annotation(old, new, PROVISIONED_BY)
        || (changes_annotation(old, new, BOUND_BY_CONTROLLER) && !drops_with_reference(old, new))
}

/// Whether admission would add the finalizer to the new object.
fn is_admitted(old: Option<&Object>, new: &Object, name: &str) -> bool
    ensures { result ≡ is_admitted (option_copied old.entry) new.now name.now }
{
    match (old, new) {
        (None, Object::Volume(_)) => name == PV_PROTECTION,
        (None, Object::Claim(_)) => name == PVC_PROTECTION,
        _ => false,
    }
}

fn had_finalizer(old: Option<&Object>, name: &str) -> bool
    ensures { result ≡ has_name name.now (finalizers_before (option_copied old.entry)) }
{
    match old {
        None => false,
        Some(object) => meta_of(object).finalizers.contains(name),
    }
}

fn differ(before: bool, after: bool) -> bool
    ensures { result ≡ xor before after }
{
    before ^ after
}

fn changes_finalizer(old: Option<&Object>, new: &Object, name: &str) -> bool
    ensures { result ≡ changes_finalizer (option_copied old.entry) new.now name.now }
{
    let has = meta_of(new).finalizers.contains(name);
    differ(had_finalizer(old, name), has) && !is_admitted(old, new, name)
}

fn breaks_finalizer(old: Option<&Object>, new: &Object) -> bool
    ensures { result ≡ breaks_finalizer (option_copied old.entry) new.now }
{
    changes_finalizer(old, new, PV_PROTECTION) || changes_finalizer(old, new, PVC_PROTECTION)
}

fn is_same_before(old: Option<&Object>, new: &Option<Ref>) -> bool
    ensures { result ≡ same_option same_ref (reference_before (option_copied old.entry)) new.now }
{
    match old {
        Some(Object::Volume(volume)) => is_same_reference(&volume.claim_ref, new),
        _ => new.is_none(),
    }
}

fn has_uid(reference: &Option<Ref>) -> bool
    ensures { result ≡ has_uid reference.now }
{
    match reference {
        None => false,
        Some(reference) => reference.uid.is_some(),
    }
}

fn had_uid(old: Option<&Object>) -> bool
    ensures { result ≡ has_uid (reference_before (option_copied old.entry)) }
{
    match old {
        Some(Object::Volume(volume)) => has_uid(&volume.claim_ref),
        _ => false,
    }
}

/// Whether a reference with a UID is set, changed or dropped.
fn breaks_reference(old: Option<&Object>, new: &Object) -> bool
    ensures { result ≡ breaks_reference (option_copied old.entry) new.now }
{
    match new {
        Object::Volume(volume) => {
            !is_same_before(old, &volume.claim_ref)
                && (had_uid(old) || has_uid(&volume.claim_ref))
                && !clears_released(old, new)
        }
        _ => false,
    }
}

/// Whether policy Delete goes from a volume that has ended.
fn breaks_policy(old: Option<&Object>, new: &Object) -> bool
    ensures { result ≡ breaks_policy (option_copied old.entry) new.now }
{
    match (old, new) {
        (Some(Object::Volume(old)), Object::Volume(new)) => {
            is_ended(old.phase) && is_delete(old.policy) && !is_delete(new.policy)
        }
        _ => false,
    }
}

/// Answers the first rule that a user's write breaks, beside the one on verbs. `old` is the object
/// that stands, if any.
#[tactic(auto, unfolding(binder_model::specs::Guard::guard, binder_model::specs::Guard::breaks))]
pub fn guard(old: Option<&Object>, new: &Object) -> Result<(), Rule>
    ensures { result_err result ≡ guard (option_copied old.entry) new.now }
{
    forbid!(
        breaks_annotation => Rule::Annotation,
        breaks_finalizer => Rule::Finalizer,
        breaks_reference => Rule::ClaimRef,
        breaks_policy => Rule::Policy;
        old, new
    );
    Ok(())
}
