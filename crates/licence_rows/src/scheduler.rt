//! What the scheduler's volume binding writes on a claim.

ghost use Rattle.std.specs.Prelude.{◌≡◌, ◌↔◌, IsTrue};
ghost use Rattle.licence_rows.specs.Scheduling.{with_node};

use kube_types::bindings::SELECTED_NODE;
use kube_types::objects::Claim;
use licence_scans::changes::{is_annotated, is_claim_meta};

/// Whether the new claim is the old one with the annotation that names the node.
pub fn is_with_node(name: &str, old: &Claim, new: &Claim) -> bool
    ensures { IsTrue result ↔ (new.now ≡ with_node old.now name.now) }
{
    if !is_claim_meta(old, new) {
        return false;
    }
    is_annotated(SELECTED_NODE, name, &old.meta, &new.meta)
}
