//! Which volume serves a claim.

use crate::words::{flag, table_of, word};
use informer_cache::caches::Caches;
use kube_types::bindings::class_of_claim;
use kube_types::lookup::Lookup;
use kube_types::objects::{Claim, Node, Object, Volume};
use kube_types::parts::Kind;
use kube_types::table::Table;
use label_rules::{admits, selects};
use plain_data::copies::OutOfMemory;
use plain_data::text::Text;
use std::alloc::Global;
use volume_match::{best, covers, fits, place_named, row_named, satisfies};

/// The name of the volume at a place, or `none`.
pub fn name_at<L: Lookup>(
    alloc: Global,
    lookup: &L,
    place: Option<usize>,
) -> Result<String, OutOfMemory> {
    match place {
        None => word(alloc, "none"),
        Some(place) => match lookup.at(Kind::PersistentVolume, place) {
            Some(Object::Volume(volume)) => word(alloc, volume.meta.name.as_str()),
            _ => word(alloc, "no volume"),
        },
    }
}

fn node_in(table: &Table) -> Option<&Node> {
    match table.at(Kind::Node, 0) {
        Some(Object::Node(node)) => Some(node),
        _ => None,
    }
}

// Whether the claim's selector, if any, selects the volume.
fn is_selected(claim: &Claim, volume: &Volume) -> bool {
    match &claim.selector {
        None => true,
        Some(selector) => selects(selector, &volume.meta.labels),
    }
}

// What a call answers of a claim and a volume, on a node if there is one.
fn of_volume(call: &str, claim: &Claim, volume: &Volume, node: Option<&Node>) -> &'static str {
    match call {
        "satisfies" => flag(satisfies(volume, claim, node)),
        "fits" => flag(fits(volume, claim)),
        "covers" => flag(covers(claim.modes, volume.modes)),
        "selects" => flag(is_selected(claim, volume)),
        _ => "no such call",
    }
}

/// Whether the volume may be used on the node.
pub fn admission(volume: &Volume, node: &Node) -> &'static str {
    flag(admits(volume.terms.as_ref(), &node.meta.labels))
}

// The best volume of the table, whose first node, if any, is the one that is meant.
fn best_in(
    alloc: Global,
    table: &Table,
    claim: &Claim,
    only_own: bool,
    excluded: &[usize],
) -> Result<String, OutOfMemory> {
    let place = best(table, claim, node_in(table), only_own, excluded);
    name_at(alloc, table, place)
}

// Where the volume stands that the claim names, and the kind of what is found by that name.
fn named_in(alloc: Global, table: &Table, claim: &Claim) -> Result<String, OutOfMemory> {
    let name = claim.volume_name.as_str();
    let found = match row_named(table, Kind::PersistentVolume, "", name) {
        None => "absent",
        Some(_) => "present",
    };
    match place_named(table, Kind::PersistentVolume, "", name) {
        None => word(alloc, found),
        Some(place) => Ok(format!(in alloc; "{found} {place}")?),
    }
}

fn place_word(alloc: Global, place: Option<usize>) -> Result<String, OutOfMemory> {
    match place {
        None => word(alloc, "none"),
        Some(place) => Ok(format!(in alloc; "{place}")?),
    }
}

// Caches with an index of the volumes, which were told each of the objects.
fn caches_of(alloc: Global, objects: &[Object]) -> Result<Caches, OutOfMemory> {
    let mut caches = Caches::with_index(alloc);
    for object in objects {
        caches.note(object)?;
    }
    Ok(caches)
}

// Where the volume of this number stands: among those that refer to the claim, or else among those of its class and volume mode.
fn nth_in<L: Lookup>(
    alloc: Global,
    lookup: &L,
    claim: &Claim,
    owned: bool,
    nth: usize,
) -> Result<String, OutOfMemory> {
    let class = Text::new(alloc, class_of_claim(claim))?;
    let (namespace, name) = (&claim.meta.namespace, &claim.meta.name);
    let place = if owned {
        lookup.volume_for(namespace, name, nth)
    } else {
        lookup.volume_by_size(claim.block, &class, nth)
    };
    place_word(alloc, place)
}

// The same, asked of a table, which has no index, and of caches that have one.
fn nth_among(
    alloc: Global,
    claim: &Claim,
    others: &[Object],
    owned: bool,
    nth: usize,
) -> Result<String, OutOfMemory> {
    let by_table = nth_in(alloc, &table_of(alloc, others)?, claim, owned, nth)?;
    let by_index = nth_in(alloc, &caches_of(alloc, others)?, claim, owned, nth)?;
    if by_index == by_table {
        Ok(by_table)
    } else {
        Ok(format!(in alloc; "{by_table}, but {by_index} by the index")?)
    }
}

/// What a call answers of a claim and a look-up with the other objects.
pub fn among(
    alloc: Global,
    call: &str,
    claim: &Claim,
    others: &[Object],
) -> Result<String, OutOfMemory> {
    let table = table_of(alloc, others)?;
    match call {
        "best" => best_in(alloc, &table, claim, false, &[]),
        "best-own" => best_in(alloc, &table, claim, true, &[]),
        "best-but-0" => best_in(alloc, &table, claim, false, &[0]),
        "best-but-2" => best_in(alloc, &table, claim, false, &[2]),
        "best-but-2-0" => best_in(alloc, &table, claim, false, &[2, 0]),
        "best-but-2-0-1" => best_in(alloc, &table, claim, false, &[2, 0, 1]),
        "best-own-but-2" => best_in(alloc, &table, claim, true, &[2]),
        "named" => named_in(alloc, &table, claim),
        "sized-0" => nth_among(alloc, claim, others, false, 0),
        "sized-1" => nth_among(alloc, claim, others, false, 1),
        "sized-2" => nth_among(alloc, claim, others, false, 2),
        "sized-3" => nth_among(alloc, claim, others, false, 3),
        "owned-0" => nth_among(alloc, claim, others, true, 0),
        "owned-1" => nth_among(alloc, claim, others, true, 1),
        "owned-2" => nth_among(alloc, claim, others, true, 2),
        _ => word(alloc, "no such call"),
    }
}

/// What a call answers of a claim and one volume, on a node if there is one.
pub fn single(call: &str, claim: &Claim, others: &[Object]) -> &'static str {
    match others {
        [Object::Volume(volume)] => of_volume(call, claim, volume, None),
        [Object::Volume(volume), Object::Node(node)] => of_volume(call, claim, volume, Some(node)),
        _ => "no such case",
    }
}
