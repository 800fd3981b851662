//! What the words of a line stand for.

ghost use Rattle.std.specs.Prelude.{◌<◌};

use call_types::request::SeatKind;
use kube_types::key::Key;
use kube_types::objects::Version;
use kube_types::parts::{ClaimPhase, Kind, Modes, Policy, VolumePhase};
use kube_types::uid::Uid;
use plain_data::copies::OutOfMemory;
use plain_data::pairs::Pairs;
use plain_data::text::Text;
use std::alloc::Global;

pub fn number(word: &str) -> u64 {
    word.parse::<u64>().unwrap_or(0)
}

/// The number of a word, below a million.
pub fn small(word: &str) -> u64
    ensures { result < 1000000 }
{
    number(word) % 1_000_000
}

pub fn text(alloc: Global, word: &str) -> Result<Text, OutOfMemory> {
    match word {
        "-" => Text::new(alloc, ""),
        _ => Text::new(alloc, word),
    }
}

pub fn version(word: &str) -> Option<Version> {
    match word {
        "-" => None,
        _ => Some(number(word)),
    }
}

pub fn uid(word: &str) -> Uid {
    Uid::from_serial(small(word))
}

pub fn kind(word: &str) -> Kind {
    match word {
        "class" => Kind::StorageClass,
        "node" => Kind::Node,
        "volume" => Kind::PersistentVolume,
        "claim" => Kind::PersistentVolumeClaim,
        _ => Kind::Pod,
    }
}

pub fn seat(word: &str) -> SeatKind {
    match word {
        "binder" => SeatKind::Binder,
        "ops" => SeatKind::Ops,
        "scheduler" => SeatKind::Scheduler,
        "claims" => SeatKind::ClaimProtect,
        "volumes" => SeatKind::VolumeProtect,
        "agent" => SeatKind::Agent,
        _ => SeatKind::User,
    }
}

pub fn volume_phase(word: &str) -> VolumePhase {
    match word {
        "Available" => VolumePhase::Available,
        "Bound" => VolumePhase::Bound,
        "Released" => VolumePhase::Released,
        "Failed" => VolumePhase::Failed,
        _ => VolumePhase::Pending,
    }
}

pub fn claim_phase(word: &str) -> ClaimPhase {
    match word {
        "Bound" => ClaimPhase::Bound,
        "Lost" => ClaimPhase::Lost,
        _ => ClaimPhase::Pending,
    }
}

pub fn policy(word: &str) -> Policy {
    match word {
        "Delete" => Policy::Delete,
        "Recycle" => Policy::Recycle,
        _ => Policy::Retain,
    }
}

/// One access mode, or none.
pub fn mode(word: &str) -> Modes {
    Modes {
        rwo: word == "ReadWriteOnce",
        rox: word == "ReadOnlyMany",
        rwx: word == "ReadWriteMany",
        rwop: word == "ReadWriteOncePod",
    }
}

/// The words of a key.
#[derive(Clone, Copy)]
pub struct Named<'a> {
    pub kind: &'a str,
    pub namespace: &'a str,
    pub name: &'a str,
}

pub fn key(alloc: Global, named: Named) -> Result<Key, OutOfMemory> {
    Ok(Key {
        kind: kind(named.kind),
        namespace: text(alloc, named.namespace)?,
        name: text(alloc, named.name)?,
    })
}

/// One label.
pub fn label(alloc: Global, name: &str, value: &str) -> Result<Pairs, OutOfMemory> {
    let name = text(alloc, name)?;
    let value = text(alloc, value)?;
    let mut labels = Pairs::new(alloc);
    labels.set(&name, &value)?;
    Ok(labels)
}

pub fn words_of<'a>(alloc: Global, line: &'a str) -> Result<Vec<&'a str>, OutOfMemory> {
    let mut words = Vec::new(alloc);
    for word in line.split(' ') {
        words.push(word)?;
    }
    Ok(words)
}
