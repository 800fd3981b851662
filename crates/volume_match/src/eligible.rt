//! Whether a volume may be bound to a claim.

ghost use Rattle.std.specs.Prelude.{◌≡◌};
ghost use Rattle.std.specs.Option.{option_copied};
ghost use Rattle.binder_model.specs.Matching.{is_admitted_on, covers, eligible, fits, may_serve, is_selected};
ghost use Rattle.volume_match.specs.Steps.Scan.{serves};

use kube_types::bindings::{
    class_of_claim, class_of_volume, is_deleting, is_for, is_protected_volume,
};
use kube_types::objects::{Claim, Node, Selector, Volume};
use kube_types::pairs::Pairs;
use kube_types::parts::{Modes, VolumePhase};
use label_rules::{admits, selects};

/// Whether the volume may be bound to the claim, on the node where one is given.
pub fn satisfies(volume: &Volume, claim: &Claim, node: Option<&Node>) -> bool
    ensures { result ≡ eligible volume.now claim.now (option_copied node.entry) }
{
    // What costs least is asked first.
    if !serves(volume, claim) {
        return false;
    }
    !is_deleting(&volume.meta)
        && is_protected_volume(volume)
        && fits(volume, claim)
        && is_selected(&claim.selector, &volume.meta.labels)
        && is_admitted_on(volume, node)
}

/// Whether the volume is large enough, and is the claim's or nobody's. Most volumes are not.
pub(crate) fn serves(volume: &Volume, claim: &Claim) -> bool
    ensures { result ≡ serves volume.now claim.now }
{
    claim.amount.bytes <= volume.amount.bytes && may_serve(volume, claim)
}

/// Whether the volume has the size, the class, the volume mode and the access modes of the claim.
pub fn fits(volume: &Volume, claim: &Claim) -> bool
    ensures { result ≡ fits volume.now claim.now }
{
    claim.amount.bytes <= volume.amount.bytes
        && class_of_volume(volume) == class_of_claim(claim)
        && volume.block == claim.block
        && covers(claim.modes, volume.modes)
}

/// Whether each wanted access mode is among those given.
pub fn covers(wanted: Modes, given: Modes) -> bool
    ensures { result ≡ covers wanted given }
{
    (!wanted.rwo || given.rwo)
        && (!wanted.rox || given.rox)
        && (!wanted.rwx || given.rwx)
        && (!wanted.rwop || given.rwop)
}

fn is_selected(selector: &Option<Selector>, labels: &Pairs) -> bool
    ensures { result ≡ is_selected selector.now labels.now }
{
    match selector {
        None => true,
        Some(selector) => selects(selector, labels),
    }
}

fn is_admitted_on(volume: &Volume, node: Option<&Node>) -> bool
    ensures { result ≡ is_admitted_on volume.now (option_copied node.entry) }
{
    match node {
        None => true,
        Some(node) => admits(volume.terms.as_ref(), &node.meta.labels),
    }
}

fn may_serve(volume: &Volume, claim: &Claim) -> bool
    ensures { result ≡ may_serve volume.now claim.now }
{
    match volume.phase {
        VolumePhase::Released | VolumePhase::Failed => false,
        VolumePhase::Available => is_for(volume, claim) || volume.claim_ref.is_none(),
        VolumePhase::Pending | VolumePhase::Bound => is_for(volume, claim),
    }
}
