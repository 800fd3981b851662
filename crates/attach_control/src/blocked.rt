//! Which Mounts wait for a volume that no attach can bring.

ghost use Rattle.std.specs.Prelude.{◌≡◌};
ghost use Rattle.std.specs.Option.{option_copied};
ghost use Rattle.std.specs.List.{list_any};
ghost use Rattle.binder_model.specs.Choice.{claim_named};
ghost use Rattle.attach_law.specs.Next.{is_blocked, is_blocked_uid};

use crate::list::{has_many, is_attached, least_node};
use crate::objects::{own_volume, volume_with};
use attach_law::attachment::Attachment;
use delayed_binding::claim_named;
use kube_types::lookup::Lookup;
use kube_types::objects::{Claim, Pod};
use kube_types::text::Text;
use kube_types::uid::Uid;

/// Whether the volume of the UID is not attached to the node, and attach would refuse it.
fn is_blocked_uid<L: Lookup>(
    lookup: &L,
    list: &[Attachment],
    node: &Text,
    volume: Option<Uid>,
) -> bool
    ensures { result ≡ is_blocked_uid (L.rows lookup.now) list.now node.now volume }
{
    match volume {
        None => false,
        Some(volume) => {
            if is_attached(list, volume, node) {
                return false;
            }
            match volume_with(lookup, volume) {
                None => true,
                Some(found) => least_node(list, volume, node, has_many(found.modes)).is_some(),
            }
        }
    }
}

/// Whether that is so of the claim's own volume.
fn is_blocked<L: Lookup>(
    lookup: &L,
    list: &[Attachment],
    node: &Text,
    claim: Option<&Claim>,
) -> bool
    ensures { result ≡ is_blocked (L.rows lookup.now) list.now node.now (option_copied claim.entry) }
{
    match claim {
        None => false,
        Some(claim) => match own_volume(lookup, claim) {
            None => false,
            Some(own) => is_blocked_uid(lookup, list, node, own.meta.uid),
        },
    }
}

/// Whether that is so of one of the pod's claims, on the pod's node.
pub(crate) fn has_blocked<L: Lookup>(lookup: &L, list: &[Attachment], pod: &Pod) -> bool
    ensures { result ≡ list_any (λ name. is_blocked (L.rows lookup.now) list.now pod.now.node (claim_named (L.rows lookup.now) pod.now.meta.namespace name)) pod.now.claims }
{
    for name in pod.claims.as_slice() {
        let claim = claim_named(lookup, pod.meta.namespace.as_str(), name.as_str());
        if is_blocked(lookup, list, &pod.node, claim) {
            return true;
        }
    }
    false
}
