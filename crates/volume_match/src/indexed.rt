//! The best volume for a claim.

ghost use Rattle.std.specs.Prelude.{◌≡◌, ◌≤◌, ◌<◌, ◌+◌, ◌&&◌, IfNone, IfSome, true, false, ℕ, List, length, slice_get, Some};
ghost use Rattle.std.specs.List.{AllWithin, Contains, HoldsAt};
ghost use Rattle.std.specs.Option.{option_copied};
ghost use Rattle.kube_parts.specs.declared.parts.Kind.TheVariants as kinds;
ghost use Rattle.kube_objects.specs.declared.objects.Object.TheVariants.{Volume as VolumeObject};
ghost use Rattle.kube_objects.specs.Keys.{AreRows, rows_of};
ghost use Rattle.binder_model.specs.Matching.{IsBest, IsCandidate, eligible, only_own_passes};
ghost use Rattle.volume_index.specs.VolumeIndex.{StandsFor, is_free, is_owned, volumes_in};
ghost use Rattle.volume_index.specs.VolumeOrders.{AreInOrder, by_owner, by_size};
ghost use Rattle.volume_index.specs.IndexPlaces.{IsSizeStart};
ghost use Rattle.volume_match.specs.Passing.{IsFoundThere, PassedAreExcluded, found_place};
ghost use Rattle.volume_match.specs.Steps.Choices.{AreOf, IsBestOf, IsUnfit, is_grouped, wanted};

use crate::choice::Places;
use crate::eligible::satisfies;
use crate::near::place_near;
use crate::referring::{is_named, own_start};
use kube_types::bindings::{class_of_claim, class_of_volume, is_for, mode_count};
use kube_types::lookup::Lookup;
use kube_types::objects::{Claim, Node, Volume};
use kube_types::parts::Kind;
use kube_types::shared::Shared;
use volume_index::index::VolumeIndex;
use volume_index::order::{SizeFrom, size_start};

/// A volume that was found by an index.
#[derive(Clone, Copy, Debug)]
pub struct Found {
    /// Its place among the volumes of the look-up.
    pub place: usize,
    /// Its place among the free volumes of the index, where it was found there.
    pub free: Option<usize>,
}

/// Whether the claim may take the volume, wherever it stands.
fn may_take(claim: &Claim, node: Option<&Node>, only_own: bool, volume: &Volume) -> bool
    ensures { result ≡ (only_own_passes only_own volume.now claim.now && eligible volume.now claim.now (option_copied node.entry)) }
{
    (!only_own || is_for(volume, claim)) && satisfies(volume, claim, node)
}

/// The place of a volume that the look-up has. That at `near` is looked at first.
fn volume_place<L: Lookup>(lookup: &L, volume: &Volume, near: usize) -> Option<usize>
    requires order { AreRows (L.rows lookup.now) }
    requires held { Contains (volumes_in (L.rows lookup.now)) volume.now }
    ensures some { IfSome result (λ place. slice_get (rows_of kinds.PersistentVolume (L.rows lookup.now)) place ≡ Some (VolumeObject volume.now)) }
    ensures none { IfNone result ⊥ }
{
    let namespace = volume.meta.namespace.as_str();
    let name = volume.meta.name.as_str();
    place_near(lookup, Kind::PersistentVolume, namespace, name, near)
}

/// The place of the volume among the volumes of the look-up, where the claim may take it there. `near` becomes the place after
/// it: volumes of one size stand in the index as they stand in the look-up, by name.
fn open_place<L: Lookup, P: Places>(
    lookup: &L,
    claim: &Claim,
    node: Option<&Node>,
    only_own: bool,
    excluded: &P,
    volume: &Volume,
    near: &mut usize,
) -> Option<usize>
    requires order { AreRows (L.rows lookup.now) }
    requires held { Contains (volumes_in (L.rows lookup.now)) volume.now }
    ensures some { IfSome result (λ place. IsCandidate (L.rows lookup.now) claim.now (option_copied node.entry) only_own (P.places excluded.now) place volume.now) }
    ensures none { IfNone result ((place : ℕ) → IsCandidate (L.rows lookup.now) claim.now (option_copied node.entry) only_own (P.places excluded.now) place volume.now → ⊥) }
{
    if !may_take(claim, node, only_own, volume) {
        return None;
    }
    match volume_place(lookup, volume, *near) {
        None => None,
        Some(place) => {
            *near = place.saturating_add(1);
            if excluded.hold(place) {
                None
            } else {
                Some(place)
            }
        }
    }
}

/// The place of the best of the volumes that refer to the claim.
fn best_owned<L: Lookup, P: Places>(
    owned: &[Shared<Volume>],
    lookup: &L,
    claim: &Claim,
    node: Option<&Node>,
    only_own: bool,
    excluded: &P,
) -> Option<usize>
    requires order { AreRows (L.rows lookup.now) }
    requires owned { AreInOrder by_owner owned.now }
    requires held { AreOf is_owned (volumes_in (L.rows lookup.now)) owned.now }
    ensures { IsBestOf (L.rows lookup.now) claim.now (option_copied node.entry) only_own (P.places excluded.now) owned.now result }
{
    let start = own_start(owned, claim);
    let mut near = 0;
    for place in start..owned.len() {
        let volume = owned[place].get();
        if !is_named(volume, claim) {
            return None;
        }
        match open_place(lookup, claim, node, only_own, excluded, volume, &mut near) {
            Some(at) => return Some(at),
            None => {}
        }
    }
    None
}

/// Whether the volume has the class and the volume mode of the claim.
fn is_grouped(volume: &Volume, claim: &Claim) -> bool
    ensures { result ≡ is_grouped volume.now claim.now }
{
    class_of_volume(volume) == class_of_claim(claim) && volume.block == claim.block
}

/// Where the volumes begin that have the class and the volume mode of the claim, and so many access modes, or more, and at
/// least as many bytes as it asks for where they have just so many.
fn fitting_start(free: &[Shared<Volume>], claim: &Claim, modes: u8) -> usize
    requires { AreInOrder by_size free.now }
    ensures bound { result ≤ length free.now }
    ensures start { IsSizeStart (wanted claim.now modes) free.now result }
{
    let size = SizeFrom {
        class: class_of_claim(claim),
        block: claim.block,
        modes,
        bytes: claim.amount.bytes,
    };
    size_start(free, &size)
}

/// The place after this one, or after all that are as small as the volume here, where that is too small.
fn next_place(free: &[Shared<Volume>], claim: &Claim, place: usize) -> usize
    requires order { AreInOrder by_size free.now }
    requires within { place < length free.now }
    requires group { HoldsAt (λ v. is_grouped v claim.now ≡ true) free.now place }
    ensures more { place < result }
    ensures bound { result ≤ length free.now }
    ensures passed { AllWithin (IsUnfit claim.now) free.now (place + 1) result }
{
    let volume = free[place].get();
    if volume.amount.bytes < claim.amount.bytes {
        fitting_start(free, claim, mode_count(volume.modes))
    } else {
        place + 1
    }
}

/// The best of the free volumes. Those that are passed are not looked at, and those that are too small are passed over all at
/// once.
fn best_free<L: Lookup, P: Places, Q: Places>(
    free: &[Shared<Volume>],
    lookup: &L,
    claim: &Claim,
    node: Option<&Node>,
    excluded: &P,
    passed: &Q,
) -> Option<Found>
    requires order { AreRows (L.rows lookup.now) }
    requires free { AreInOrder by_size free.now }
    requires held { AreOf is_free (volumes_in (L.rows lookup.now)) free.now }
    requires passed { PassedAreExcluded (L.rows lookup.now) free.now (Q.places passed.now) (P.places excluded.now) }
    ensures best { IsBestOf (L.rows lookup.now) claim.now (option_copied node.entry) false (P.places excluded.now) free.now (found_place result) }
    ensures there { IsFoundThere (L.rows lookup.now) free.now result }
{
    let start = fitting_start(free, claim, 0);
    let mut place = start;
    let mut near = start;
    while place < free.len() {
        if passed.hold(place) {
            place += 1;
            near = near.saturating_add(1);
            continue;
        }
        let volume = free[place].get();
        if !is_grouped(volume, claim) {
            return None;
        }
        match open_place(lookup, claim, node, false, excluded, volume, &mut near) {
            Some(at) => {
                return Some(Found {
                    place: at,
                    free: Some(place),
                });
            }
            None => place = next_place(free, claim, place),
        }
    }
    None
}

/// The best eligible volume, where the index stands for the volumes of the look-up. Places in `excluded` are passed over; so
/// are, before anything of the volume there is looked at, those places among the free volumes of the index that are in `passed`.
pub fn best_passing<L: Lookup, P: Places, Q: Places>(
    index: &VolumeIndex,
    lookup: &L,
    claim: &Claim,
    node: Option<&Node>,
    only_own: bool,
    excluded: &P,
    passed: &Q,
) -> Option<Found>
    requires stands { StandsFor index.now (volumes_in (L.rows lookup.now)) }
    requires passed { PassedAreExcluded (L.rows lookup.now) index.now.free (Q.places passed.now) (P.places excluded.now) }
    ensures best { IsBest (L.rows lookup.now) claim.now (option_copied node.entry) only_own (P.places excluded.now) (found_place result) }
    ensures there { IsFoundThere (L.rows lookup.now) index.now.free result }
{
    // How many volumes there are is not asked: the call tells that the rows of the look-up are in order.
    let _ = lookup.count(Kind::PersistentVolume);
    match best_owned(index.owned(), lookup, claim, node, only_own, excluded) {
        Some(at) => Some(Found {
            place: at,
            free: None,
        }),
        None => {
            if only_own {
                None
            } else {
                best_free(index.free(), lookup, claim, node, excluded, passed)
            }
        }
    }
}

/// The place, among the volumes of the look-up, of the best eligible volume, where the index stands for these volumes.
pub(crate) fn best_indexed<L: Lookup, P: Places>(
    index: &VolumeIndex,
    lookup: &L,
    claim: &Claim,
    node: Option<&Node>,
    only_own: bool,
    excluded: &P,
) -> Option<usize>
    requires { StandsFor index.now (volumes_in (L.rows lookup.now)) }
    ensures { IsBest (L.rows lookup.now) claim.now (option_copied node.entry) only_own (P.places excluded.now) result }
{
    let passed: &[usize] = &[];
    match best_passing(index, lookup, claim, node, only_own, excluded, &passed) {
        None => None,
        Some(found) => Some(found.place),
    }
}
