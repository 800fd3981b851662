//! The nodes of the look-up, in the order in which they are tried.

ghost use Rattle.std.specs.Prelude.{◌≡◌};
ghost use Rattle.std.specs.Option.{option_copied};
ghost use Rattle.delayed_binding.specs.Choices.{AreAdmitted, is_past};
ghost use Rattle.delayed_binding.specs.Steps.Scans.{IsFirstOrNone, IsNodeAt, in_turn, node_at};

use crate::volumes::are_admitted;
use kube_types::bindings::is_empty;
use kube_types::lookup::Lookup;
use kube_types::objects::{Claim, Node, Object};
use kube_types::parts::Kind;
use kube_types::shared::Shared;
use kube_types::text::Text;

/// The node at a place among the nodes, where it stands in no namespace.
fn node_at<L: Lookup>(lookup: &L, place: usize) -> Option<&Node>
    ensures { option_copied result ≡ node_at (L.rows lookup.now) place }
{
    match lookup.at(Kind::Node, place) {
        Some(Object::Node(node)) => {
            if is_empty(&node.meta.namespace) {
                Some(node)
            } else {
                None
            }
        }
        _ => None,
    }
}

/// Whether the node comes, by name, after the one that was refused last.
fn is_past(last: Option<&Text>, node: &Node) -> bool
    ensures { result ≡ is_past (option_copied last.entry) node.now }
{
    match last {
        None => true,
        Some(last) => node.meta.name.as_str().cmp(last.as_str()).is_gt(),
    }
}

/// The node at a place, where it is one of those past the node that was refused last, or one of the others.
pub(crate) fn node_in_turn<'a, L: Lookup>(
    lookup: &'a L,
    last: Option<&Text>,
    past: bool,
    place: usize,
) -> Option<&'a Node>
    ensures { option_copied result ≡ in_turn (option_copied last.entry) past (node_at (L.rows lookup.now) place) }
{
    match node_at(lookup, place) {
        None => None,
        Some(node) => {
            if is_past(last, node) == past {
                Some(node)
            } else {
                None
            }
        }
    }
}

/// The node at a place, where the volumes of all claims admit it.
fn admitted_at<'a, L: Lookup>(
    lookup: &'a L,
    claims: &[Shared<Claim>],
    place: usize,
) -> Option<&'a Node>
    ensures { IsNodeAt (L.rows lookup.now) (AreAdmitted (L.rows lookup.now) claims.now) place (option_copied result) }
{
    match node_at(lookup, place) {
        None => None,
        Some(node) => {
            if are_admitted(lookup, node, claims) {
                Some(node)
            } else {
                None
            }
        }
    }
}

/// The first node that the volumes of all claims admit.
pub(crate) fn first_admitted<'a, L: Lookup>(
    lookup: &'a L,
    claims: &[Shared<Claim>],
) -> Option<&'a Node>
    ensures { IsFirstOrNone (L.rows lookup.now) (AreAdmitted (L.rows lookup.now) claims.now) (option_copied result) }
{
    for place in 0..lookup.count(Kind::Node) {
        if let Some(node) = admitted_at(lookup, claims, place) {
            return Some(node);
        }
    }
    None
}
