//! What the binder does about a claim and about a volume.

use crate::matching::choices::name_at;
use crate::words::{table_of, word};
use claim_sync::{ClaimAction, decide_claim};
use kube_types::lookup::{Live, Lookup};
use kube_types::objects::{Claim, Object, Volume};
use kube_types::parts::Kind;
use kube_types::table::Table;
use plain_data::copies::OutOfMemory;
use std::alloc::Global;
use volume_sync::{VolumeAction, decide_volume};

fn class_at<L: Lookup>(lookup: &L, place: usize) -> &str {
    match lookup.at(Kind::StorageClass, place) {
        Some(Object::Class(class)) => class.meta.name.as_str(),
        _ => "no class",
    }
}

fn claim_word<L: Lookup>(
    alloc: Global,
    lookup: &L,
    action: ClaimAction,
) -> Result<String, OutOfMemory> {
    match action {
        ClaimAction::Nothing => word(alloc, "Nothing"),
        ClaimAction::ReadVolume => word(alloc, "ReadVolume"),
        ClaimAction::Lost => word(alloc, "Lost"),
        ClaimAction::Bind(place) => {
            let name = name_at(alloc, lookup, Some(place))?;
            Ok(format!(in alloc; "Bind {name}")?)
        }
        ClaimAction::AssignClass(place) => {
            let name = class_at(lookup, place);
            Ok(format!(in alloc; "AssignClass {name}")?)
        }
    }
}

fn volume_word(action: VolumeAction) -> &'static str {
    match action {
        VolumeAction::Nothing => "Nothing",
        VolumeAction::ReadClaim => "ReadClaim",
        VolumeAction::Available => "Available",
        VolumeAction::Bound => "Bound",
        VolumeAction::Release => "Release",
        VolumeAction::Unbind => "Unbind",
        VolumeAction::QueueClaim => "QueueClaim",
    }
}

// What was read of the other object by itself: the last of the list, after `-live`.
fn read<'a>(call: &str, others: &'a [Object]) -> (Live<'a>, &'a [Object]) {
    match call {
        "claim-absent" | "volume-absent" => (Live::Absent, others),
        "claim-live" | "volume-live" => match others.split_last() {
            None => (Live::NotAsked, others),
            Some((seen, rest)) => (Live::Present(seen), rest),
        },
        _ => (Live::NotAsked, others),
    }
}

/// The action on the claim, with the other objects in the look-up.
pub fn of_claim(
    alloc: Global,
    call: &str,
    claim: &Claim,
    others: &[Object],
) -> Result<String, OutOfMemory> {
    let (live, rest) = read(call, others);
    let table: Table = table_of(alloc, rest)?;
    claim_word(alloc, &table, decide_claim(&table, claim, live))
}

/// The action on the volume, with the other objects in the look-up.
pub fn of_volume(
    alloc: Global,
    call: &str,
    volume: &Volume,
    others: &[Object],
) -> Result<String, OutOfMemory> {
    let (live, rest) = read(call, others);
    let table: Table = table_of(alloc, rest)?;
    word(alloc, volume_word(decide_volume(&table, volume, live)))
}
