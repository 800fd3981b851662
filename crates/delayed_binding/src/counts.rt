//! How many volumes a node may give to claims that are as large as one, and of its class.

ghost use Rattle.std.specs.Prelude.{◌≡◌, ◌<◌};
ghost use Rattle.std.specs.Bool.{OnTrue};
ghost use Rattle.std.specs.List.{list_all};
ghost use Rattle.kube_parts.specs.declared.parts.Kind.TheVariants as kinds;
ghost use Rattle.kube_objects.specs.Keys.{rows_of};
ghost use Rattle.volume_match.specs.Volumes.{volume_at};
ghost use Rattle.delayed_binding.specs.Steps.Counts.{asks_like, count_given, gives_at, is_open_for, may_give, one_less};

use crate::volumes::volume_at;
use kube_types::bindings::{class_of_claim, class_of_volume, is_deleting, is_ended};
use kube_types::lookup::Lookup;
use kube_types::objects::{Claim, Node, Volume};
use kube_types::parts::Kind;
use kube_types::shared::Shared;
use label_rules::admits;

fn asks_like(one: &Claim, claim: &Claim) -> bool
    ensures { result ≡ asks_like one.now claim.now }
{
    class_of_claim(claim) == class_of_claim(one) && one.amount.bytes <= claim.amount.bytes
}

/// Whether each of the claims is of this one's class, and asks for as many bytes or more.
pub(crate) fn all_ask_like(one: &Claim, claims: &[Shared<Claim>]) -> bool
    ensures { result ≡ list_all (asks_like one.now) claims.now }
{
    claims.iter().all(|claim| asks_like(one, claim))
}

/// Whether the volume is of this claim's class, large enough for it, not deleting and not ended.
fn is_open_for(one: &Claim, volume: &Volume) -> bool
    ensures { result ≡ is_open_for one.now volume.now }
{
    class_of_volume(volume) == class_of_claim(one)
        && one.amount.bytes <= volume.amount.bytes
        && !is_deleting(&volume.meta)
        && !is_ended(volume.phase)
}

/// Whether it also admits the node.
fn may_give(one: &Claim, node: &Node, volume: &Volume) -> bool
    ensures { result ≡ may_give one.now node.now volume.now }
{
    is_open_for(one, volume) && admits(volume.terms.as_ref(), &node.meta.labels)
}

fn gives_at<L: Lookup>(lookup: &L, one: &Claim, node: &Node, place: usize) -> bool
    ensures { result ≡ gives_at one.now node.now (volume_at (L.rows lookup.now) place) }
{
    match volume_at(lookup, place) {
        None => false,
        Some(volume) => may_give(one, node, volume),
    }
}

fn one_less(is: bool, left: usize) -> usize
    ensures { result ≡ one_less is left }
{
    if is { left.saturating_sub(1) } else { left }
}

/// Whether fewer volumes than these may be given on the node to claims like this one.
pub(crate) fn are_fewer<L: Lookup>(lookup: &L, one: &Claim, node: &Node, wanted: usize) -> bool
    ensures { OnTrue result (count_given one.now node.now (rows_of kinds.PersistentVolume (L.rows lookup.now)) < wanted) }
{
    let mut left = wanted;
    for place in 0..lookup.count(Kind::PersistentVolume) {
        if left == 0 {
            return false;
        }
        left = one_less(gives_at(lookup, one, node, place), left);
    }
    left > 0
}
