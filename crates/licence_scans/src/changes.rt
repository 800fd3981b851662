//! Whether an object is another with the named change alone, without memory.

ghost use Rattle.std.specs.Prelude.{◌≡◌, ◌↔◌, IsTrue, Some, None};
ghost use Rattle.plain_data.specs.Pairs.{put_pair, without_key};
ghost use Rattle.kube_objects.specs.Bindings.{bind_completed, bound_by_controller};
ghost use Rattle.binder_model.specs.BindWrites.{annotated_meta, annotated_meta_if, completed_with, ref_to, taken_for, unbound_volume, without_uid};
ghost use Rattle.binder_model.specs.GuardLicence.{guarded_meta, unguarded_meta};

use crate::puts::is_put;
use crate::walks::{is_appended, is_put_twice, is_without_key, is_without_name};
use kube_types::bindings::{BIND_COMPLETED, BOUND_BY_CONTROLLER, YES};
use kube_types::objects::{Claim, Meta, Ref, Volume};
use plain_data::copies::{Plain, same_option};

/// Whether the metadata differ in annotations and finalizers alone.
fn is_meta_rest(old: &Meta, new: &Meta) -> bool
    ensures { IsTrue result ↔ (new.now ≡ record old.now { annotations = new.now.annotations; finalizers = new.now.finalizers }) }
{
    if !new.namespace.same(&old.namespace) {
        return false;
    }
    if !new.name.same(&old.name) {
        return false;
    }
    if !same_option(&new.uid, &old.uid) {
        return false;
    }
    if new.version != old.version {
        return false;
    }
    if !new.created.same(&old.created) {
        return false;
    }
    if !same_option(&new.deleted, &old.deleted) {
        return false;
    }
    new.labels.same(&old.labels)
}

/// Whether the metadata differ in annotations alone.
fn is_meta_annotated(old: &Meta, new: &Meta) -> bool
    ensures { IsTrue result ↔ (new.now ≡ record old.now { annotations = new.now.annotations }) }
{
    if !new.finalizers.same(&old.finalizers) {
        return false;
    }
    is_meta_rest(old, new)
}

/// Whether the metadata differ in finalizers alone.
fn is_meta_guarded(old: &Meta, new: &Meta) -> bool
    ensures { IsTrue result ↔ (new.now ≡ record old.now { finalizers = new.now.finalizers }) }
{
    if !new.annotations.same(&old.annotations) {
        return false;
    }
    is_meta_rest(old, new)
}

/// Whether the metadata are the old ones with this annotation.
pub fn is_annotated(key: &str, value: &str, old: &Meta, new: &Meta) -> bool
    ensures { IsTrue result ↔ (new.now ≡ record old.now { annotations = put_pair key.now value.now old.now.annotations }) }
{
    if !is_meta_annotated(old, new) {
        return false;
    }
    is_put(
        key,
        value,
        old.annotations.as_slice(),
        new.annotations.as_slice(),
    )
}

/// Whether the metadata are the old ones without this annotation.
pub fn is_unannotated(key: &str, old: &Meta, new: &Meta) -> bool
    ensures { IsTrue result ↔ (new.now ≡ record old.now { annotations = without_key key.now old.now.annotations }) }
{
    if !is_meta_annotated(old, new) {
        return false;
    }
    is_without_key(key, old.annotations.as_slice(), new.annotations.as_slice())
}

/// Whether the metadata are the old ones with this finalizer at the end.
pub fn is_guarded(name: &str, old: &Meta, new: &Meta) -> bool
    ensures { IsTrue result ↔ (new.now ≡ guarded_meta name.now old.now) }
{
    if !is_meta_guarded(old, new) {
        return false;
    }
    is_appended(name, old.finalizers.as_slice(), new.finalizers.as_slice())
}

/// Whether the metadata are the old ones without this finalizer.
pub fn is_unguarded(name: &str, old: &Meta, new: &Meta) -> bool
    ensures { IsTrue result ↔ (new.now ≡ unguarded_meta name.now old.now) }
{
    if !is_meta_guarded(old, new) {
        return false;
    }
    is_without_name(name, old.finalizers.as_slice(), new.finalizers.as_slice())
}

/// Whether the metadata are the old ones, where it is wanted with the controller's mark.
fn is_marked(wanted: bool, old: &Meta, new: &Meta) -> bool
    ensures { IsTrue result ↔ (new.now ≡ annotated_meta_if wanted bound_by_controller old.now) }
{
    if wanted {
        is_annotated(BOUND_BY_CONTROLLER, YES, old, new)
    } else {
        new.same(old)
    }
}

/// Whether the metadata are the old ones as those of a completed claim, where it is wanted with the
/// controller's mark.
fn is_meta_completed(wanted: bool, old: &Meta, new: &Meta) -> bool
    ensures { IsTrue result ↔ (new.now ≡ annotated_meta bind_completed (annotated_meta_if wanted bound_by_controller old.now)) }
{
    if !wanted {
        return is_annotated(BIND_COMPLETED, YES, old, new);
    }
    if !is_meta_annotated(old, new) {
        return false;
    }
    is_put_twice(
        BIND_COMPLETED,
        YES,
        BOUND_BY_CONTROLLER,
        YES,
        old.annotations.as_slice(),
        new.annotations.as_slice(),
    )
}

/// Whether the volumes differ in metadata and reference alone.
fn is_volume_rest(old: &Volume, new: &Volume) -> bool
    ensures { IsTrue result ↔ (new.now ≡ record old.now { meta = new.now.meta; claim_ref = new.now.claim_ref }) }
{
    if !new.amount.same(&old.amount) {
        return false;
    }
    if !new.modes.same(&old.modes) {
        return false;
    }
    if new.block != old.block {
        return false;
    }
    if !new.class.same(&old.class) {
        return false;
    }
    if !new.policy.same(&old.policy) {
        return false;
    }
    if !new.source.same(&old.source) {
        return false;
    }
    if !same_option(&new.terms, &old.terms) {
        return false;
    }
    if !new.extra.same(&old.extra) {
        return false;
    }
    new.phase.same(&old.phase)
}

/// Whether the claims differ in metadata, class and the volume's name alone.
fn is_claim_kept(old: &Claim, new: &Claim) -> bool
    ensures { IsTrue result ↔ (new.now ≡ record old.now { meta = new.now.meta; class = new.now.class; volume_name = new.now.volume_name }) }
{
    if !new.modes.same(&old.modes) {
        return false;
    }
    if !new.amount.same(&old.amount) {
        return false;
    }
    if new.block != old.block {
        return false;
    }
    if !same_option(&new.selector, &old.selector) {
        return false;
    }
    if !new.extra.same(&old.extra) {
        return false;
    }
    if !new.phase.same(&old.phase) {
        return false;
    }
    if !new.got_modes.same(&old.got_modes) {
        return false;
    }
    same_option(&new.got, &old.got)
}

/// Whether the claims differ in metadata and the volume's name alone.
fn is_claim_rest(old: &Claim, new: &Claim) -> bool
    ensures { IsTrue result ↔ (new.now ≡ record old.now { meta = new.now.meta; volume_name = new.now.volume_name }) }
{
    if !same_option(&new.class, &old.class) {
        return false;
    }
    is_claim_kept(old, new)
}

/// Whether the claims differ in the class alone.
pub fn is_claim_class(old: &Claim, new: &Claim) -> bool
    ensures { IsTrue result ↔ (new.now ≡ record old.now { class = new.now.class }) }
{
    if !new.meta.same(&old.meta) {
        return false;
    }
    if !new.volume_name.same(&old.volume_name) {
        return false;
    }
    is_claim_kept(old, new)
}

/// Whether the volumes differ in metadata alone.
pub fn is_volume_meta(old: &Volume, new: &Volume) -> bool
    ensures { IsTrue result ↔ (new.now ≡ record old.now { meta = new.now.meta }) }
{
    if !same_option(&new.claim_ref, &old.claim_ref) {
        return false;
    }
    is_volume_rest(old, new)
}

/// Whether the claims differ in metadata alone.
pub fn is_claim_meta(old: &Claim, new: &Claim) -> bool
    ensures { IsTrue result ↔ (new.now ≡ record old.now { meta = new.now.meta }) }
{
    if !new.volume_name.same(&old.volume_name) {
        return false;
    }
    is_claim_rest(old, new)
}

/// Whether the reference is to the claim, with its UID.
pub fn is_ref_to(claim: &Claim, reference: &Option<Ref>) -> bool
    ensures { IsTrue result ↔ (reference.now ≡ Some (ref_to claim.now)) }
{
    match reference {
        None => false,
        Some(reference) => {
            if !reference.namespace.same(&claim.meta.namespace) {
                return false;
            }
            if !reference.name.same(&claim.meta.name) {
                return false;
            }
            same_option(&reference.uid, &claim.meta.uid)
        }
    }
}

/// Whether the reference is the old one without its UID.
fn is_without_uid(old: &Option<Ref>, new: &Option<Ref>) -> bool
    ensures { IsTrue result ↔ (new.now ≡ without_uid old.now) }
{
    match old {
        None => match new {
            None => true,
            Some(_) => false,
        },
        Some(old) => match new {
            None => false,
            Some(new) => is_ref_without_uid(old, new),
        },
    }
}

fn is_ref_without_uid(old: &Ref, new: &Ref) -> bool
    ensures { IsTrue result ↔ (new.now ≡ record old.now { uid = None }) }
{
    if !new.namespace.same(&old.namespace) {
        return false;
    }
    if !new.name.same(&old.name) {
        return false;
    }
    match new.uid {
        None => true,
        Some(_) => false,
    }
}

/// Whether the new volume is the old one with the claim's reference.
#[tactic(auto, unfolding(binder_model::specs::BindWrites::taken_for))]
pub fn is_taken_for(old: &Volume, claim: &Claim, new: &Volume) -> bool
    ensures { IsTrue result ↔ (new.now ≡ taken_for old.now claim.now) }
{
    if !is_volume_rest(old, new) {
        return false;
    }
    if !is_ref_to(claim, &new.claim_ref) {
        return false;
    }
    is_marked(old.claim_ref.is_none(), &old.meta, &new.meta)
}

/// Whether the new claim is the old one, completed with the volume.
#[tactic(auto, unfolding(binder_model::specs::BindWrites::completed_with))]
pub fn is_completed_with(old: &Claim, volume: &Volume, new: &Claim) -> bool
    ensures { IsTrue result ↔ (new.now ≡ completed_with old.now volume.now) }
{
    if !is_claim_rest(old, new) {
        return false;
    }
    if !new.volume_name.same(&volume.meta.name) {
        return false;
    }
    is_meta_completed(old.volume_name.as_str().is_empty(), &old.meta, &new.meta)
}

/// Whether the new volume is the old one, unbound.
#[tactic(auto, unfolding(binder_model::specs::BindWrites::unbound_volume))]
pub fn is_unbound(old: &Volume, new: &Volume) -> bool
    ensures { IsTrue result ↔ (new.now ≡ unbound_volume old.now) }
{
    if !is_volume_rest(old, new) {
        return false;
    }
    if old.meta.annotations.get(BOUND_BY_CONTROLLER).is_some() {
        if !new.claim_ref.is_none() {
            return false;
        }
        is_unannotated(BOUND_BY_CONTROLLER, &old.meta, &new.meta)
    } else {
        if !new.meta.same(&old.meta) {
            return false;
        }
        is_without_uid(&old.claim_ref, &new.claim_ref)
    }
}
