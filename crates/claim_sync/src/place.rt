//! The places of the volume to be bound and of the class to be assigned.

ghost use Rattle.std.specs.Prelude.{◌≡◌, IfSome, None, [], is_some};
ghost use Rattle.kube_objects.specs.Bindings.{is_empty};
ghost use Rattle.kube_types.specs.Defaults.{IsDefaultAt};
ghost use Rattle.binder_model.specs.Matching.{IsBest, waits_for_pod};
ghost use Rattle.claim_sync.specs.ClaimDecision.{IsVolumeFor, may_assign};
ghost use Rattle.claim_sync.specs.Conditions.{has_best};

use kube_types::bindings::{is_empty, lacks_class};
use kube_types::defaults::default_class;
use kube_types::lookup::Lookup;
use kube_types::objects::Claim;
use kube_types::parts::Kind;
use volume_match::{best, place_named, waits_for_pod};

/// The place of the best match where the claim names no volume, else of the volume that it names.
pub(crate) fn bind_place<L: Lookup>(lookup: &L, claim: &Claim) -> Option<usize>
    ensures { IsVolumeFor (is_empty claim.now.volume_name) (L.rows lookup.now) claim.now result }
{
    if is_empty(&claim.volume_name) {
        match_place(lookup, claim)
    } else {
        place_named(
            lookup,
            Kind::PersistentVolume,
            "",
            claim.volume_name.as_str(),
        )
    }
}

/// Whether the claim names no volume, and a match exists.
pub fn has_best<L: Lookup>(lookup: &L, claim: &Claim) -> bool
    ensures { result ≡ has_best (L.rows lookup.now) claim.now }
{
    if !is_empty(&claim.volume_name) {
        return false;
    }
    match_place(lookup, claim).is_some()
}

/// The place of the best match.
fn match_place<L: Lookup>(lookup: &L, claim: &Claim) -> Option<usize>
    ensures { IsBest (L.rows lookup.now) claim.now None (waits_for_pod (L.rows lookup.now) claim.now) [] result }
{
    best(lookup, claim, None, waits_for_pod(lookup, claim), &[])
}

/// The place of the default class, where the claim lacks a class.
pub fn class_place<L: Lookup>(lookup: &L, claim: &Claim) -> Option<usize>
    ensures some { is_some result ≡ may_assign (L.rows lookup.now) claim.now }
    ensures default { IfSome result (λ place. IsDefaultAt (L.rows lookup.now) place) }
{
    if !lacks_class(claim) {
        return None;
    }
    if lookup.count(Kind::StorageClass) == 0 {
        return None;
    }
    default_class(lookup)
}
