//! What of reclaiming is due for a volume.

ghost use Rattle.std.specs.Prelude.{◌≡◌, is_some};
ghost use Rattle.kube_objects.specs.Bindings.{is_delete, ref_uid};
ghost use Rattle.binder_model.specs.Due.{reclaim_due};

use kube_types::bindings::{is_deleting, is_ended};
use kube_types::names::Due;
use kube_types::objects::{Ref, Volume};
use kube_types::parts::Policy;

/// What of reclaiming is due for the volume.
pub fn reclaim_due(volume: &Volume) -> Option<Due>
    ensures { result ≡ reclaim_due volume.now }
{
    if is_to_reclaim(volume) {
        Some(Due::Reclaim)
    } else {
        None
    }
}

/// Whether the volume has ended with policy Delete, for a claim, and stays.
pub(crate) fn is_to_reclaim(volume: &Volume) -> bool
    ensures { result ≡ is_some (reclaim_due volume.now) }
{
    is_ended(volume.phase)
        && is_delete(volume.policy)
        && has_uid(&volume.claim_ref)
        && !is_deleting(&volume.meta)
}

/// Whether the volume goes with its claim.
pub fn is_delete(policy: Policy) -> bool
    ensures { result ≡ is_delete policy }
{
    match policy {
        Policy::Delete => true,
        _ => false,
    }
}

/// Whether the reference has a UID.
fn has_uid(reference: &Option<Ref>) -> bool
    ensures { result ≡ is_some (ref_uid reference.now) }
{
    match reference {
        None => false,
        Some(reference) => reference.uid.is_some(),
    }
}
