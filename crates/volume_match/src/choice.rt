//! The best volume for a claim.

ghost use Rattle.std.specs.Prelude.{◌≡◌, ◌+◌, ◌≤◌, ◌<◌, length};
ghost use Rattle.std.specs.List.{list_any};
ghost use Rattle.std.specs.Option.{option_copied};
ghost use Rattle.binder_model.specs.Matching.{IsBest, for_last, is_excluded, match_cmp};
ghost use Rattle.volume_match.specs.Steps.Scan.{IsBestBelow, is_open, is_preferred};
ghost use Rattle.volume_match.specs.Volumes.{volume_at};

use crate::eligible::{satisfies, serves};
use crate::indexed::best_indexed;
use kube_types::bindings::{is_for, mode_count};
use kube_types::lookup::Lookup;
use kube_types::objects::{Claim, Node, Object, Volume};
use kube_types::parts::Kind;
use std::cmp::Ordering;

/// Places among the volumes.
pub trait Places {
    ghost use Rattle.std.specs.Prelude.{◌≡◌, List, ℕ};
    ghost use Rattle.binder_model.specs.Matching.{is_excluded};

    ghost places: { Self → List ℕ };

    /// Whether this place is one of them.
    fn hold(&self, place: usize) -> bool
        ensures { result ≡ is_excluded (places self.now) place };
}

impl<'a> Places for &'a [usize] {
    ghost places = { λ p. p.now };

    fn hold(&self, place: usize) -> bool {
        is_excluded(self, place)
    }
}

/// The place, among the volumes of the look-up, of the best eligible volume: those for the claim
/// first, then those with fewer access modes, then the smaller ones, then by name. Places in
/// `excluded` are passed over; with `only_own` only volumes that are for the claim are taken.
pub fn best<L: Lookup>(
    lookup: &L,
    claim: &Claim,
    node: Option<&Node>,
    only_own: bool,
    excluded: &[usize],
) -> Option<usize>
    ensures { IsBest (L.rows lookup.now) claim.now (option_copied node.entry) only_own excluded.now result }
{
    match lookup.volumes() {
        Some(index) => best_indexed(index, lookup, claim, node, only_own, &excluded),
        None => best_outside(lookup, claim, node, only_own, &excluded),
    }
}

/// The same, where the places that are passed over are not a list, without an index: it looks at each volume once.
pub fn best_outside<L: Lookup, P: Places>(
    lookup: &L,
    claim: &Claim,
    node: Option<&Node>,
    only_own: bool,
    excluded: &P,
) -> Option<usize>
    ensures { IsBest (L.rows lookup.now) claim.now (option_copied node.entry) only_own (P.places excluded.now) result }
{
    let mut best = None;
    for place in 0..lookup.count(Kind::PersistentVolume) {
        best = better(lookup, claim, node, only_own, excluded, best, place);
    }
    best
}

/// The best of the volumes up to this place and with it, where `before` is the best of those before.
fn better<L: Lookup, P: Places>(
    lookup: &L,
    claim: &Claim,
    node: Option<&Node>,
    only_own: bool,
    excluded: &P,
    before: Option<usize>,
    place: usize,
) -> Option<usize>
    requires { IsBestBelow (L.rows lookup.now) claim.now (option_copied node) only_own (P.places excluded.now) place before }
    ensures { IsBestBelow (L.rows lookup.now) claim.now (option_copied node.entry) only_own (P.places excluded.now) (place + 1) result }
{
    match volume_at(lookup, place) {
        None => before,
        Some(volume) => {
            // What costs least is asked first: whether the volume serves the claim, and is better.
            if !serves(volume, claim) {
                before
            } else if is_preferred(lookup, claim, volume, before)
                && is_open(volume, claim, node, only_own, excluded, place)
            {
                Some(place)
            } else {
                before
            }
        }
    }
}

/// The volume at a place among the volumes.
fn volume_at<L: Lookup>(lookup: &L, place: usize) -> Option<&Volume>
    ensures { option_copied result ≡ volume_at (L.rows lookup.now) place }
{
    match lookup.at(Kind::PersistentVolume, place) {
        Some(Object::Volume(volume)) => Some(volume),
        _ => None,
    }
}

/// Whether the volume at this place may be taken.
fn is_open<P: Places>(
    volume: &Volume,
    claim: &Claim,
    node: Option<&Node>,
    only_own: bool,
    excluded: &P,
    place: usize,
) -> bool
    ensures { result ≡ is_open claim.now (option_copied node.entry) only_own (P.places excluded.now) place volume.now }
{
    !excluded.hold(place) && (!only_own || is_for(volume, claim)) && satisfies(volume, claim, node)
}

fn is_excluded(excluded: &[usize], place: usize) -> bool
    ensures { result ≡ is_excluded excluded.now place }
{
    for other in excluded {
        if *other == place {
            return true;
        }
    }
    false
}

/// Whether the claim prefers the volume to the one that was the best before.
fn is_preferred<L: Lookup>(
    lookup: &L,
    claim: &Claim,
    volume: &Volume,
    before: Option<usize>,
) -> bool
    ensures { result ≡ is_preferred (L.rows lookup.now) claim.now volume.now before }
{
    match before {
        None => true,
        Some(place) => match volume_at(lookup, place) {
            None => true,
            Some(other) => compare(claim, volume, other).is_lt(),
        },
    }
}

/// The order in which the claim prefers volumes.
fn compare(claim: &Claim, left: &Volume, right: &Volume) -> Ordering
    ensures { result ≡ match_cmp claim.now left.now right.now }
{
    let order = for_last(left, claim)
        .cmp(&for_last(right, claim))
        .then(mode_count(left.modes).cmp(&mode_count(right.modes)))
        .then(left.amount.bytes.cmp(&right.amount.bytes));
    match order {
        Ordering::Less => Ordering::Less,
        Ordering::Equal => left.meta.name.as_str().cmp(right.meta.name.as_str()),
        Ordering::Greater => Ordering::Greater,
    }
}

fn for_last(volume: &Volume, claim: &Claim) -> u8
    ensures { result ≡ for_last volume.now claim.now }
{
    if is_for(volume, claim) { 0 } else { 1 }
}
