//! Calls on one world: volumes are created and labelled, nodes listed, volumes watched, and a node asked for its mounts, in
//! turn.

use crate::writes::{create_node, create_volume, label};
use call_types::request::{Request, SeatKind};
use kube_types::copies::OutOfMemory;
use kube_types::parts::Kind;
use sample_objects::keys::numbered;
use sample_objects::setups::bare;
use std::alloc::Global;
use std::io;
use world_core::world::World;

/// How many volumes there are at most, and how many nodes.
const VOLUMES: u64 = 256;

const NODES: u64 = 4;

/// The first volume call of a round creates a volume, as long as there are fewer than `VOLUMES`, and labels one then.
fn create_or_label(alloc: Global, round: u64) -> Result<Request, OutOfMemory> {
    if round < VOLUMES {
        create_volume(alloc, round)
    } else {
        label(alloc, round % VOLUMES, round)
    }
}

fn on_node(alloc: Global, round: u64) -> Result<Request, OutOfMemory> {
    let node = numbered(alloc, "n", 0)?;
    if round == 0 {
        Ok(Request::TakeNode { node })
    } else {
        Ok(Request::Mounts { node, epoch: 1 })
    }
}

/// The call of this number, in rounds of five.
fn request(alloc: Global, number: u64, version: u64) -> Result<Request, OutOfMemory> {
    let round = number / 5;
    match number % 5 {
        0 => create_or_label(alloc, round),
        1 => Ok(Request::List {
            kind: Kind::Node,
            namespace: None,
        }),
        2 => Ok(Request::Watch {
            kind: Kind::PersistentVolume,
            from: version.saturating_sub(4),
        }),
        3 => label(alloc, round % VOLUMES, round),
        _ => on_node(alloc, round),
    }
}

/// Devices answer controllers alone.
fn kind_of(number: u64) -> SeatKind {
    if number % 5 == 4 {
        SeatKind::Agent
    } else {
        SeatKind::User
    }
}

/// The entries of a world after so many calls, and its version. There is room for all of them from the start.
fn run(alloc: Global, calls: u64) -> Result<(usize, u64), OutOfMemory> {
    let setup = bare(alloc);
    let room = NODES.saturating_add(calls) as usize;
    let mut world = World::new(alloc, &setup, room)?;
    for number in 0..NODES {
        let _ = world.call(1, SeatKind::User, &create_node(alloc, number)?, true)?;
    }
    for number in 0..calls {
        let asked = request(alloc, number, world.store().version())?;
        let _ = world.call(1, kind_of(number), &asked, true)?;
    }
    Ok((world.history().len(), world.store().version()))
}

/// Says how many entries the world has, and its version.
pub fn show(rt: &HostRuntime, calls: u64) -> io::Result<()> {
    match run(rt.alloc(), calls) {
        Ok((entries, version)) => println!(rt; "entries {entries} version {version}"),
        Err(OutOfMemory) => println!(rt; "no memory"),
    }
}
