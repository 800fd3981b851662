//! What an edit makes of an object.

ghost use Rattle.std.specs.Prelude.{◌≡◌, None, IfOk};
ghost use Rattle.call_types.specs.declared.edit.Edit.TheVariants as edits;
ghost use Rattle.plain_data.specs.Pairs.{put_pair, without_key};
ghost use Rattle.kube_objects.specs.Bindings.{bound_by_controller};
ghost use Rattle.kube_objects.specs.Keys.{meta_of};
ghost use Rattle.binder_model.specs.Store.{with_meta, with_finalizer};
ghost use Rattle.binder_model.specs.Edits.{edited_object, with_volume_name, without_name};
ghost use Rattle.version_store.specs.Steps.Metadata.{changed_meta};

use crate::metadata::{MetaChange, write_meta};
use call_types::edit::Edit;
use field_rules::add_finalizer;
use kube_types::bindings::BOUND_BY_CONTROLLER;
use kube_types::copies::{OutOfMemory, Plain};
use kube_types::key::meta_of;
use kube_types::objects::{Object, Ref, Volume};
use kube_types::pairs::Pairs;
use kube_types::parts::Policy;
use kube_types::text::{Names, Text};
use std::alloc::Global;

/// The object with the change of its metadata.
fn with_change(alloc: Global, object: &Object, change: MetaChange) -> Result<Object, OutOfMemory>
    ensures { IfOk result (λ o. o ≡ with_meta object.now (changed_meta change (meta_of object.now))) }
{
    let mut changed = object.copy(alloc)?;
    write_meta(alloc, &mut changed, change)?;
    Ok(changed)
}

#[tactic(auto, unfolding(binder_model::specs::Edits::with_volume_name))]
fn with_volume_name(
    alloc: Global,
    name: &Text,
    object: &Object,
) -> Result<Option<Object>, OutOfMemory>
    ensures { IfOk result (λ o. o ≡ with_volume_name name.now object.now) }
{
    match object {
        Object::Claim(claim) => {
            let name = name.copy(alloc)?;
            let mut claim = claim.copy(alloc)?;
            claim.value_mut(alloc)?.volume_name = name;
            Ok(Some(Object::Claim(claim)))
        }
        _ => Ok(None),
    }
}

fn with_added_finalizer(alloc: Global, name: &Text, object: &Object) -> Result<Object, OutOfMemory>
    ensures { IfOk result (λ o. o ≡ with_meta object.now (record (meta_of object.now) { finalizers = with_finalizer name.now (meta_of object.now).finalizers })) }
{
    let mut finalizers = meta_of(object).finalizers.copy(alloc)?;
    add_finalizer(alloc, &mut finalizers, name.as_str())?;
    with_change(alloc, object, MetaChange::Finalizers(finalizers))
}

fn without_name(alloc: Global, name: &Text, names: &Names) -> Result<Names, OutOfMemory>
    ensures { IfOk result (λ left. left ≡ without_name name.now names.now) }
{
    names.without(alloc, name.as_str())
}

fn with_dropped_finalizer(
    alloc: Global,
    name: &Text,
    object: &Object,
) -> Result<Object, OutOfMemory>
    ensures { IfOk result (λ o. o ≡ with_meta object.now (record (meta_of object.now) { finalizers = without_name name.now (meta_of object.now).finalizers })) }
{
    let finalizers = without_name(alloc, name, &meta_of(object).finalizers)?;
    with_change(alloc, object, MetaChange::Finalizers(finalizers))
}

fn with_set_label(
    alloc: Global,
    key: &Text,
    value: &Text,
    object: &Object,
) -> Result<Object, OutOfMemory>
    ensures { IfOk result (λ o. o ≡ with_meta object.now (record (meta_of object.now) { labels = put_pair key.now value.now (meta_of object.now).labels })) }
{
    let mut labels = meta_of(object).labels.copy(alloc)?;
    labels.set(key, value)?;
    with_change(alloc, object, MetaChange::Labels(labels))
}

fn with_dropped_label(alloc: Global, key: &Text, object: &Object) -> Result<Object, OutOfMemory>
    ensures { IfOk result (λ o. o ≡ with_meta object.now (record (meta_of object.now) { labels = without_key key.now (meta_of object.now).labels })) }
{
    let mut labels = meta_of(object).labels.copy(alloc)?;
    labels.drop_key(key);
    with_change(alloc, object, MetaChange::Labels(labels))
}

fn with_set_annotation(
    alloc: Global,
    key: &Text,
    value: &Text,
    object: &Object,
) -> Result<Object, OutOfMemory>
    ensures { IfOk result (λ o. o ≡ with_meta object.now (record (meta_of object.now) { annotations = put_pair key.now value.now (meta_of object.now).annotations })) }
{
    let mut annotations = meta_of(object).annotations.copy(alloc)?;
    annotations.set(key, value)?;
    with_change(alloc, object, MetaChange::Annotations(annotations))
}

fn with_dropped_annotation(
    alloc: Global,
    key: &Text,
    object: &Object,
) -> Result<Object, OutOfMemory>
    ensures { IfOk result (λ o. o ≡ with_meta object.now (record (meta_of object.now) { annotations = without_key key.now (meta_of object.now).annotations })) }
{
    let mut annotations = meta_of(object).annotations.copy(alloc)?;
    annotations.drop_key(key);
    with_change(alloc, object, MetaChange::Annotations(annotations))
}

#[tactic(auto, unfolding(binder_model::specs::Edits::edited_object))]
fn with_policy(
    alloc: Global,
    policy: Policy,
    object: &Object,
) -> Result<Option<Object>, OutOfMemory>
    ensures { IfOk result (λ o. o ≡ edited_object (edits.SetPolicy policy) object.now) }
{
    match object {
        Object::Volume(volume) => {
            let mut volume = volume.copy(alloc)?;
            volume.value_mut(alloc)?.policy = policy;
            Ok(Some(Object::Volume(volume)))
        }
        _ => Ok(None),
    }
}

#[tactic(auto, unfolding(binder_model::specs::Edits::edited_object))]
fn with_named_claim(
    alloc: Global,
    namespace: &Text,
    name: &Text,
    object: &Object,
) -> Result<Option<Object>, OutOfMemory>
    ensures { IfOk result (λ o. o ≡ edited_object (edits.SetClaimRef namespace.now name.now) object.now) }
{
    match object {
        Object::Volume(volume) => {
            let reference = Ref {
                namespace: namespace.copy(alloc)?,
                name: name.copy(alloc)?,
                uid: None,
            };
            let mut volume = volume.copy(alloc)?;
            volume.value_mut(alloc)?.claim_ref = Some(reference);
            Ok(Some(Object::Volume(volume)))
        }
        _ => Ok(None),
    }
}

/// The annotations without the one that says who made the binding.
fn without_maker(alloc: Global, annotations: &Pairs) -> Result<Pairs, OutOfMemory>
    ensures { IfOk result (λ left. left ≡ without_key bound_by_controller annotations.now) }
{
    let by_controller = Text::new(alloc, BOUND_BY_CONTROLLER)?;
    let mut left = annotations.copy(alloc)?;
    left.drop_key(&by_controller);
    Ok(left)
}

/// Drops the volume's reference, and gives it these annotations.
fn drop_reference(volume: &mut Volume, annotations: Pairs)
    ensures { volume.new ≡ record volume.old { claim_ref = None; meta = record volume.old.meta { annotations = annotations } } }
{
    volume.meta.annotations = annotations;
    volume.claim_ref = None;
}

#[tactic(auto, unfolding(binder_model::specs::Edits::edited_object))]
fn without_claim(alloc: Global, object: &Object) -> Result<Option<Object>, OutOfMemory>
    ensures { IfOk result (λ o. o ≡ edited_object edits.ClearClaimRef object.now) }
{
    match object {
        Object::Volume(volume) => {
            let annotations = without_maker(alloc, &volume.meta.annotations)?;
            let mut volume = volume.copy(alloc)?;
            drop_reference(volume.value_mut(alloc)?, annotations);
            Ok(Some(Object::Volume(volume)))
        }
        _ => Ok(None),
    }
}

/// The object with the edit, or none where the edit does not fit its kind.
#[tactic(auto, unfolding(binder_model::specs::Edits::edited_object))]
pub fn edited_object(
    alloc: Global,
    edit: &Edit,
    object: &Object,
) -> Result<Option<Object>, OutOfMemory>
    ensures { IfOk result (λ o. o ≡ edited_object edit.now object.now) }
{
    match edit {
        Edit::AddFinalizer(name) => Ok(Some(with_added_finalizer(alloc, name, object)?)),
        Edit::DropFinalizer(name) => Ok(Some(with_dropped_finalizer(alloc, name, object)?)),
        Edit::DropLabel(key) => Ok(Some(with_dropped_label(alloc, key, object)?)),
        Edit::DropAnnotation(key) => Ok(Some(with_dropped_annotation(alloc, key, object)?)),
        Edit::SetLabel { key, value } => Ok(Some(with_set_label(alloc, key, value, object)?)),
        Edit::SetAnnotation { key, value } => {
            Ok(Some(with_set_annotation(alloc, key, value, object)?))
        }
        Edit::SetVolumeName(name) => with_volume_name(alloc, name, object),
        Edit::SetPolicy(policy) => with_policy(alloc, *policy, object),
        Edit::SetClaimRef { namespace, name } => with_named_claim(alloc, namespace, name, object),
        Edit::ClearClaimRef => without_claim(alloc, object),
    }
}
