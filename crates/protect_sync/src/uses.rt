//! Whether a pod uses a claim.

ghost use Rattle.std.specs.Prelude.{◌≡◌};
ghost use Rattle.std.specs.List.{list_any};
ghost use Rattle.std.specs.Option.{option_copied};
ghost use Rattle.kube_objects.specs.Bindings.{uses};
ghost use Rattle.protect_sync.specs.Steps.Pods.{is_used_by};

use kube_types::bindings::uses;
use kube_types::lookup::Lookup;
use kube_types::objects::{Claim, Object};
use kube_types::parts::Kind;

/// Whether a pod of the look-up uses the claim.
pub(crate) fn is_used<L: Lookup>(lookup: &L, claim: &Claim) -> bool
    ensures { result ≡ list_any (uses claim.now) (L.rows lookup.now) }
{
    for place in 0..lookup.count(Kind::Pod) {
        if is_used_by(claim, lookup.at(Kind::Pod, place)) {
            return true;
        }
    }
    false
}

fn is_used_by(claim: &Claim, object: Option<&Object>) -> bool
    ensures { result ≡ is_used_by claim.now (option_copied object.entry) }
{
    match object {
        None => false,
        Some(object) => uses(claim, object),
    }
}
