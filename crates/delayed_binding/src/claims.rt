//! The claims of a pod, and how they stand.

ghost use Rattle.std.specs.Prelude.{◌≡◌, IfOk};
ghost use Rattle.std.specs.List.{list_all, list_any};
ghost use Rattle.std.specs.Option.{option_copied};
ghost use Rattle.kube_objects.specs.Bindings.{is_completed};
ghost use Rattle.binder_model.specs.Choice.{claim_named, claims_of, is_missing, is_served_elsewhere, is_under_way, lacks_claim};

use crate::volumes::has_carrier;
use kube_types::bindings::{SELECTED_NODE, is_completed, is_deleting, is_empty};
use kube_types::copies::{OutOfMemory, Plain};
use kube_types::lookup::Lookup;
use kube_types::objects::{Claim, Object, Pod};
use kube_types::parts::Kind;
use kube_types::shared::Shared;
use std::alloc::Global;
use volume_match::{row_named, waits_for_pod};

/// The claim with this name.
pub fn claim_named<'a, L: Lookup>(lookup: &'a L, namespace: &str, name: &str) -> Option<&'a Claim>
    ensures { option_copied result ≡ claim_named (L.rows lookup.now) namespace.now name.now }
{
    match shared_named(lookup, namespace, name) {
        Some(claim) => Some(claim.get()),
        None => None,
    }
}

/// The same, as the look-up holds it.
fn shared_named<'a, L: Lookup>(
    lookup: &'a L,
    namespace: &str,
    name: &str,
) -> Option<&'a Shared<Claim>>
    ensures { option_copied result ≡ claim_named (L.rows lookup.now) namespace.now name.now }
{
    match row_named(lookup, Kind::PersistentVolumeClaim, namespace, name) {
        Some(Object::Claim(claim)) => Some(claim),
        _ => None,
    }
}

/// Whether a claim of the pod is absent or deleting.
pub(crate) fn lacks_claim<L: Lookup>(lookup: &L, pod: &Pod) -> bool
    ensures { result ≡ lacks_claim (L.rows lookup.now) pod.now }
{
    for name in pod.claims.as_slice() {
        if is_missing(claim_named(lookup, pod.meta.namespace.as_str(), name.as_str())) {
            return true;
        }
    }
    false
}

fn is_missing(claim: Option<&Claim>) -> bool
    ensures { result ≡ is_missing (option_copied claim.entry) }
{
    match claim {
        None => true,
        Some(claim) => is_deleting(&claim.meta),
    }
}

/// The claims of the pod, in order. They are shared with the look-up, and not copied.
pub(crate) fn claims_of<L: Lookup>(
    alloc: Global,
    lookup: &L,
    pod: &Pod,
) -> Result<Vec<Shared<Claim>>, OutOfMemory>
    ensures { IfOk result (λ claims. claims.items ≡ claims_of (L.rows lookup.now) pod.now) }
{
    let mut claims = Vec::new(alloc);
    for name in pod.claims.as_slice() {
        if let Some(claim) = shared_named(lookup, pod.meta.namespace.as_str(), name.as_str()) {
            claims.push(claim.copy(alloc)?)?;
        }
    }
    Ok(claims)
}

pub(crate) fn are_completed(claims: &[Shared<Claim>]) -> bool
    ensures { result ≡ list_all is_completed claims.now }
{
    claims.iter().all(|claim| is_completed(claim))
}

/// Whether one of the claims is served by the binder and the provisioner alone.
pub(crate) fn is_one_served_elsewhere<L: Lookup>(lookup: &L, claims: &[Shared<Claim>]) -> bool
    ensures { result ≡ list_any (is_served_elsewhere (L.rows lookup.now)) claims.now }
{
    claims
        .iter()
        .any(|claim| is_served_elsewhere(lookup, claim))
}

/// Whether each of the claims is completed, or a volume or a node was chosen for it.
pub(crate) fn are_under_way<L: Lookup>(lookup: &L, claims: &[Shared<Claim>]) -> bool
    ensures { result ≡ list_all (is_under_way (L.rows lookup.now)) claims.now }
{
    claims.iter().all(|claim| is_under_way(lookup, claim))
}

/// Whether the claim is not completed, and names a volume or has no delayed class.
fn is_served_elsewhere<L: Lookup>(lookup: &L, claim: &Claim) -> bool
    ensures { result ≡ is_served_elsewhere (L.rows lookup.now) claim.now }
{
    !is_completed(claim) && (!is_empty(&claim.volume_name) || !waits_for_pod(lookup, claim))
}

fn is_under_way<L: Lookup>(lookup: &L, claim: &Claim) -> bool
    ensures { result ≡ is_under_way (L.rows lookup.now) claim.now }
{
    is_completed(claim)
        || has_carrier(lookup, claim)
        || claim.meta.annotations.get(SELECTED_NODE).is_some()
}
