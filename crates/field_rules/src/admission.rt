//! What admission adds to a new object.

ghost use Rattle.std.specs.Prelude.{◌≡◌, IfOk, OnOk, OnErr};
ghost use Rattle.std.specs.Option.{option_copied};
ghost use Rattle.kube_objects.specs.declared.objects.Object.TheVariants as objects;
ghost use Rattle.kube_objects.specs.Bindings.{has_key};
ghost use Rattle.binder_model.specs.Store.{admitted_object, admitted_class, with_finalizer};

use kube_types::bindings::{BETA_CLASS, PV_PROTECTION, PVC_PROTECTION};
use kube_types::copies::{OutOfMemory, Plain, copy_option};
use kube_types::objects::{Claim, Object};
use kube_types::pairs::Pairs;
use kube_types::shared::Shared;
use kube_types::text::{Names, Text};
use std::alloc::Global;

/// Puts the finalizer at the end, where it is not there yet.
pub fn add_finalizer(alloc: Global, finalizers: &mut Names, name: &str) -> Result<(), OutOfMemory>
    ensures ok { OnOk result (finalizers.new ≡ with_finalizer name.now finalizers.old) }
    ensures err { OnErr result (finalizers.new ≡ finalizers.old) }
{
    if finalizers.contains(name) {
        return Ok(());
    }
    let name = Text::new(alloc, name)?;
    finalizers.push(&name)
}

fn has_key(pairs: &Pairs, key: &str) -> bool
    ensures { result ≡ has_key key.now pairs.now }
{
    match pairs.get(key) {
        None => false,
        Some(_) => true,
    }
}

fn copy_text(alloc: Global, text: Option<&Text>) -> Result<Option<Text>, OutOfMemory>
    ensures { IfOk result (λ copied. copied ≡ option_copied text.entry) }
{
    match text {
        None => Ok(None),
        Some(text) => Ok(Some(text.copy(alloc)?)),
    }
}

/// The class that a claim gets.
fn admitted_class(
    alloc: Global,
    given: &Option<Text>,
    default: Option<&Text>,
    names_beta: bool,
) -> Result<Option<Text>, OutOfMemory>
    ensures { IfOk result (λ class. class ≡ admitted_class given.now (option_copied default.entry) names_beta) }
{
    if given.is_some() {
        return copy_option(alloc, given);
    }
    if names_beta {
        return Ok(None);
    }
    copy_text(alloc, default)
}

#[tactic(auto, unfolding(binder_model::specs::Store::admitted_object))]
fn admit_claim(
    alloc: Global,
    claim: &Shared<Claim>,
    default_class: Option<&Text>,
) -> Result<Object, OutOfMemory>
    ensures { IfOk result (λ o. o ≡ admitted_object (option_copied default_class.entry) (objects.Claim claim.now)) }
{
    let names_beta = has_key(&claim.meta.annotations, BETA_CLASS);
    let class = admitted_class(alloc, &claim.class, default_class, names_beta)?;
    let mut admitted = claim.copy(alloc)?;
    let own = admitted.value_mut(alloc)?;
    own.class = class;
    add_finalizer(alloc, &mut own.meta.finalizers, PVC_PROTECTION)?;
    Ok(Object::Claim(admitted))
}

/// The object with the protection finalizer of its kind, where it has one, and a claim that names no
/// class with the default class, if any.
#[tactic(auto, unfolding(binder_model::specs::Store::admitted_object))]
pub fn admit(
    alloc: Global,
    object: &Object,
    default_class: Option<&Text>,
) -> Result<Object, OutOfMemory>
    ensures { IfOk result (λ o. o ≡ admitted_object (option_copied default_class.entry) object.now) }
{
    match object {
        Object::Volume(volume) => {
            let mut admitted = volume.copy(alloc)?;
            let own = admitted.value_mut(alloc)?;
            add_finalizer(alloc, &mut own.meta.finalizers, PV_PROTECTION)?;
            Ok(Object::Volume(admitted))
        }
        Object::Claim(claim) => admit_claim(alloc, claim, default_class),
        _ => object.copy(alloc),
    }
}
