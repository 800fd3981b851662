//! Which objects leave the store, and when a finalizer may be added.
//!
//! Promises: `on_delete` and `on_update` give the fate that the definition gives, and take no memory.
//! Not said: how a pod leaves that a node runs; that is the verb `FinishPod` of the store.
#![tactic(auto)]

ghost use Rattle.std.specs.Prelude.{◌≡◌, ◌&&◌, ℕ, List};
ghost use Rattle.kube_objects.specs.Bindings.{is_deleting};
ghost use Rattle.binder_model.specs.Store.{leaves, leaves_at_once};
ghost use Rattle.binder_model.specs.Fields.{adds_finalizer};
ghost use Rattle.finalizer_rules.specs.Fates.{fate_on_delete, fate_on_update, leave_if};

use kube_types::bindings::{is_deleting, is_scheduled};
use kube_types::key::meta_of;
use kube_types::objects::{Meta, Object};
use kube_types::text::Names;

/// What an object comes to at a write.
#[derive(Clone, Copy, Debug, PartialEq, Eq)]
pub enum Departure {
    /// It stays in the store.
    Keep,
    /// It leaves the store.
    Leave,
    /// The write would add a finalizer to an object that is to be deleted.
    AddedWhileDeleting,
}

/// Whether one of the new finalizers is not among the old ones.
fn adds_finalizer(old: &Names, new: &Names) -> bool
    ensures { result ≡ adds_finalizer old.now new.now }
{
    new.as_slice().iter().any(|f| !old.contains(f.as_str()))
}

/// Whether the object leaves the store at the write that made it so: it is to be deleted, and has no
/// finalizers. A pod leaves by its own verbs alone.
#[tactic(auto, unfolding(binder_model::specs::Store::leaves))]
pub fn leaves(object: &Object) -> bool
    ensures { result ≡ leaves object.now }
{
    match object {
        Object::Pod(_) => false,
        _ => {
            let meta = meta_of(object);
            is_deleting(meta) && meta.finalizers.as_slice().is_empty()
        }
    }
}

/// Whether a delete removes the object whatever its finalizers: a pod that no node runs.
#[tactic(auto, unfolding(binder_model::specs::Store::leaves_at_once))]
pub fn leaves_at_once(object: &Object) -> bool
    ensures { result ≡ leaves_at_once object.now }
{
    match object {
        Object::Pod(pod) => !is_scheduled(pod),
        _ => false,
    }
}

/// What a delete makes of the object.
#[tactic(auto, unfolding(crate::specs::Fates::fate_on_delete, binder_model::specs::Store::marked_object, binder_model::specs::Store::with_meta, binder_model::specs::Store::leaves, binder_model::specs::Store::leaves_at_once))]
pub fn on_delete(object: &Object) -> Departure
    ensures { (version : ℕ) → (moment : List ℕ) → result ≡ fate_on_delete object.now version moment }
{
    match object {
        Object::Pod(_) => leave_if(leaves_at_once(object)),
        _ => leave_if(meta_of(object).finalizers.as_slice().is_empty()),
    }
}

/// Whether the finalizers would be added to an object that is to be deleted.
pub fn adds_while_deleting(old: &Meta, finalizers: &Names) -> bool
    ensures { result ≡ (is_deleting old.now && adds_finalizer old.now.finalizers finalizers.now) }
{
    is_deleting(old) && adds_finalizer(&old.finalizers, finalizers)
}

/// What a write with these finalizers makes of the object.
#[tactic(auto, unfolding(crate::specs::Fates::fate_on_update, crate::specs::Fates::with_finalizers, binder_model::specs::Store::with_meta, binder_model::specs::Store::leaves))]
pub fn on_update(old: &Object, finalizers: &Names) -> Departure
    ensures { result ≡ fate_on_update old.now finalizers.now }
{
    if adds_while_deleting(meta_of(old), finalizers) {
        return Departure::AddedWhileDeleting;
    }
    match old {
        Object::Pod(_) => Departure::Keep,
        _ => leave_if(is_deleting(meta_of(old)) && finalizers.as_slice().is_empty()),
    }
}

fn leave_if(leaves: bool) -> Departure
    ensures { result ≡ leave_if leaves }
{
    if leaves {
        Departure::Leave
    } else {
        Departure::Keep
    }
}
