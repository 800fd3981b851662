//! What of protection is due for an object, on a look-up alone.

ghost use Rattle.std.specs.Prelude.{◌≡◌};
ghost use Rattle.binder_model.specs.Due.{claim_guard_due, volume_guard_due};

use crate::uses::is_used;
use crate::volumes::is_bound;
use kube_types::bindings::{is_deleting, is_protected_claim, is_protected_volume};
use kube_types::lookup::Lookup;
use kube_types::names::Due;
use kube_types::objects::{Claim, Volume};

/// What of protection is due for the claim. The pods are looked at only where the claim is deleting and has
/// its finalizer.
pub fn claim_guard_due<L: Lookup>(lookup: &L, claim: &Claim) -> Option<Due>
    ensures { result ≡ claim_guard_due (L.rows lookup.now) claim.now }
{
    match (is_deleting(&claim.meta), is_protected_claim(claim)) {
        (false, false) => Some(Due::Guard),
        (true, true) => {
            if is_used(lookup, claim) {
                None
            } else {
                Some(Due::Unguard)
            }
        }
        _ => None,
    }
}

/// What of protection is due for the volume.
pub fn volume_guard_due(volume: &Volume) -> Option<Due>
    ensures { result ≡ volume_guard_due volume.now }
{
    match (
        is_deleting(&volume.meta),
        is_protected_volume(volume),
        is_bound(volume.phase),
    ) {
        (false, false, _) => Some(Due::Guard),
        (true, true, false) => Some(Due::Unguard),
        _ => None,
    }
}
