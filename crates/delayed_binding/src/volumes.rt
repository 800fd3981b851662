//! The volumes of the look-up, and which nodes they admit.

ghost use Rattle.std.specs.Prelude.{◌≡◌, ◌∷◌, if◌then◌else◌, IfOk, OnOk};
ghost use Rattle.std.specs.Bool.{OnTrue};
ghost use Rattle.std.specs.List.{list_all, list_any};
ghost use Rattle.std.specs.Option.{option_copied};
ghost use Rattle.kube_objects.specs.Bindings.{carries};
ghost use Rattle.kube_objects.specs.Keys.{AreRows};
ghost use Rattle.binder_model.specs.Choice.{admits_if_carrying, fixed_admit, has_carrier, volume_admits};
ghost use Rattle.volume_match.specs.Volumes.{volume_at};
ghost use Rattle.delayed_binding.specs.Choices.{set_aside};
ghost use Rattle.delayed_binding.specs.Steps.Alike.{AreAlike, admits_alike, alike_at};
ghost use Rattle.delayed_binding.specs.Steps.Places.{admits_at, admits_unless_other, carries_at, is_in_namespace};
ghost use Rattle.delayed_binding.specs.Steps.Sharing.{AreSame};

use crate::marks::PassedMarks;
use kube_types::bindings::{carries, is_completed, is_empty};
use kube_types::copies::OutOfMemory;
use kube_types::key::meta_of;
use kube_types::lookup::Lookup;
use kube_types::objects::{Claim, Node, Object, Volume};
use kube_types::parts::Kind;
use kube_types::shared::Shared;
use label_rules::admits;
use std::alloc::Global;
use volume_match::{referring_to, row_named};

/// The volume at a place among the volumes.
pub(crate) fn volume_at<L: Lookup>(lookup: &L, place: usize) -> Option<&Volume>
    ensures { option_copied result ≡ volume_at (L.rows lookup.now) place }
{
    match lookup.at(Kind::PersistentVolume, place) {
        Some(Object::Volume(volume)) => Some(volume),
        _ => None,
    }
}

/// Whether a volume carries the claim: by the index of the look-up, where it shows one.
pub(crate) fn has_carrier<L: Lookup>(lookup: &L, claim: &Claim) -> bool
    ensures { result ≡ has_carrier (L.rows lookup.now) claim.now }
{
    match lookup.volumes() {
        Some(index) => is_carried(referring_to(index, claim), claim),
        None => is_carried_at_all(lookup, claim),
    }
}

/// Whether one of the volumes carries the claim.
fn is_carried(volumes: &[Shared<Volume>], claim: &Claim) -> bool
    ensures { result ≡ list_any (λ v. carries v claim.now) volumes.now }
{
    for volume in volumes {
        if carries(volume.get(), claim) {
            return true;
        }
    }
    false
}

/// Whether a volume carries the claim, by a look at each.
fn is_carried_at_all<L: Lookup>(lookup: &L, claim: &Claim) -> bool
    ensures { result ≡ has_carrier (L.rows lookup.now) claim.now }
{
    for place in 0..lookup.count(Kind::PersistentVolume) {
        if carries_at(lookup, claim, place) {
            return true;
        }
    }
    false
}

/// Whether the volume at the place carries the claim.
fn carries_at<L: Lookup>(lookup: &L, claim: &Claim, place: usize) -> bool
    ensures { result ≡ carries_at claim.now (volume_at (L.rows lookup.now) place) }
{
    match volume_at(lookup, place) {
        None => false,
        Some(volume) => carries(volume, claim),
    }
}

/// Whether each volume that carries the claim admits the node: by the index of the look-up, where it shows one.
fn carriers_admit<L: Lookup>(lookup: &L, node: &Node, claim: &Claim) -> bool
    ensures { result ≡ list_all (admits_if_carrying node.now claim.now) (L.rows lookup.now) }
{
    match lookup.volumes() {
        Some(index) => those_admit(referring_to(index, claim), node, claim),
        None => all_admit(lookup, node, claim),
    }
}

/// Whether each of the volumes that carries the claim admits the node.
fn those_admit(volumes: &[Shared<Volume>], node: &Node, claim: &Claim) -> bool
    ensures { result ≡ list_all (admits_unless_other node.now claim.now) volumes.now }
{
    for volume in volumes {
        if !admits_unless_other(volume.get(), node, claim) {
            return false;
        }
    }
    true
}

/// Whether each volume that carries the claim admits the node, by a look at each.
fn all_admit<L: Lookup>(lookup: &L, node: &Node, claim: &Claim) -> bool
    ensures { result ≡ list_all (admits_if_carrying node.now claim.now) (L.rows lookup.now) }
{
    for place in 0..lookup.count(Kind::PersistentVolume) {
        if !admits_at(lookup, node, claim, place) {
            return false;
        }
    }
    true
}

/// Whether the volume at the place does not carry the claim, or admits the node.
fn admits_at<L: Lookup>(lookup: &L, node: &Node, claim: &Claim, place: usize) -> bool
    ensures { result ≡ admits_at node.now claim.now (volume_at (L.rows lookup.now) place) }
{
    match volume_at(lookup, place) {
        None => true,
        Some(volume) => admits_unless_other(volume, node, claim),
    }
}

/// Whether the volume does not carry the claim, or admits the node.
fn admits_unless_other(volume: &Volume, node: &Node, claim: &Claim) -> bool
    ensures { result ≡ admits_unless_other node.now claim.now volume.now }
{
    !carries(volume, claim) || admits(volume.terms.as_ref(), &node.meta.labels)
}

/// Whether the volume that the claim names is there and admits the node.
fn volume_admits<L: Lookup>(lookup: &L, node: &Node, claim: &Claim) -> bool
    ensures { result ≡ volume_admits (L.rows lookup.now) node.now claim.now }
{
    match row_named(
        lookup,
        Kind::PersistentVolume,
        "",
        claim.volume_name.as_str(),
    ) {
        Some(Object::Volume(volume)) => admits(volume.terms.as_ref(), &node.meta.labels),
        _ => false,
    }
}

/// Whether the volumes that the claims name are there and admit the node.
pub(crate) fn are_admitted<L: Lookup>(lookup: &L, node: &Node, claims: &[Shared<Claim>]) -> bool
    ensures { result ≡ list_all (volume_admits (L.rows lookup.now) node.now) claims.now }
{
    claims
        .iter()
        .all(|claim| volume_admits(lookup, node, claim))
}

/// Whether the volumes that are fixed for the claim admit the node.
fn fixed_admit<L: Lookup>(lookup: &L, node: &Node, claim: &Claim) -> bool
    ensures { result ≡ fixed_admit (L.rows lookup.now) node.now claim.now }
{
    (!is_completed(claim) || volume_admits(lookup, node, claim))
        && carriers_admit(lookup, node, claim)
}

/// Whether the volumes that are fixed for the claims admit the node.
pub(crate) fn all_fixed_admit<L: Lookup>(lookup: &L, node: &Node, claims: &[Shared<Claim>]) -> bool
    ensures { result ≡ list_all (fixed_admit (L.rows lookup.now) node.now) claims.now }
{
    for claim in claims {
        if !fixed_admit(lookup, node, claim.get()) {
            return false;
        }
    }
    true
}

/// Whether the volume admits both nodes or neither.
fn admits_alike(volume: &Volume, one: &Node, other: &Node) -> bool
    ensures { result ≡ admits_alike one.now other.now volume.now }
{
    let terms = volume.terms.as_ref();
    admits(terms, &one.meta.labels) == admits(terms, &other.meta.labels)
}

/// Whether the volume at the place, if there is one, admits both nodes or neither.
fn alike_at<L: Lookup>(lookup: &L, one: &Node, other: &Node, place: usize) -> bool
    ensures { result ≡ alike_at one.now other.now (volume_at (L.rows lookup.now) place) }
{
    match volume_at(lookup, place) {
        None => true,
        Some(volume) => admits_alike(volume, one, other),
    }
}

/// Whether each volume admits both nodes or neither, by a look at each.
pub(crate) fn are_alike<L: Lookup>(lookup: &L, one: &Node, other: &Node) -> bool
    ensures { OnTrue result (AreAlike (L.rows lookup.now) one.now other.now) }
{
    for place in 0..lookup.count(Kind::PersistentVolume) {
        if !alike_at(lookup, one, other, place) {
            return false;
        }
    }
    true
}

/// The places of the volumes that stand in a namespace, which no claim takes.
pub(crate) fn set_aside<L: Lookup>(alloc: Global, lookup: &L) -> Result<PassedMarks, OutOfMemory>
    ensures places { IfOk result (λ places. AreSame places (set_aside (L.rows lookup.now))) }
    ensures order { AreRows (L.rows lookup.now) }
{
    let mut places = PassedMarks::new(alloc);
    for place in 0..lookup.count(Kind::PersistentVolume) {
        let aside = is_in_namespace(lookup.at(Kind::PersistentVolume, place));
        note_if(aside, place, &mut places)?;
    }
    Ok(places)
}

fn note_if(aside: bool, place: usize, places: &mut PassedMarks) -> Result<(), OutOfMemory>
    ensures { OnOk result (AreSame places.new (if aside then place ∷ places.old else places.old)) }
{
    if aside {
        places.put(place)?;
    }
    Ok(())
}

fn is_in_namespace(object: Option<&Object>) -> bool
    ensures { result ≡ is_in_namespace (option_copied object.entry) }
{
    match object {
        None => false,
        Some(object) => !is_empty(&meta_of(object).namespace),
    }
}
