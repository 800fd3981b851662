//! Calls of users on a world that threads share, and the same calls on a world that is not shared: volumes are labelled and
//! read, and nodes listed, in turn.

ghost use Rattle.std.specs.Prelude.{◌≡◌, All, IfOk, vec_len};
ghost use Rattle.shared_world.specs.Passes.{IsOf};

use crate::writes::{create_node, create_volume, label};
use call_types::ask::Ask;
use call_types::request::{Request, SeatKind};
use kube_types::copies::OutOfMemory;
use kube_types::parts::Kind;
use sample_objects::keys::{numbered, volume_key};
use sample_objects::setups::bare;
use shared_world::shared::{SharedWorld, WorldPass};
use std::alloc::{AllocError, Global};
use std::sync::Wait;
use std::thread::Threads;
use std::{io, thread};
use world_core::kept::KeptWorld;

const VOLUMES: u64 = 256;

const NODES: u64 = 4;

const MOST_THREADS: u64 = 1000;

/// The request of this number.
fn request(alloc: Global, number: u64) -> Result<Request, OutOfMemory> {
    let volume = number % VOLUMES;
    match number % 3 {
        0 => label(alloc, volume, number),
        1 => {
            let name = numbered(alloc, "v", volume)?;
            Ok(Request::Get {
                key: volume_key(alloc, name.as_str())?,
            })
        }
        _ => Ok(Request::List {
            kind: Kind::Node,
            namespace: None,
        }),
    }
}

/// A world with its nodes and volumes.
fn filled(alloc: Global) -> Result<KeptWorld, OutOfMemory> {
    let setup = bare(alloc);
    let mut world = KeptWorld::new(alloc, &setup, 512)?;
    for number in 0..NODES {
        let _ = world.call(1, SeatKind::User, &create_node(alloc, number)?, true)?;
    }
    for number in 0..VOLUMES {
        let _ = world.call(1, SeatKind::User, &create_volume(alloc, number)?, true)?;
    }
    Ok(world)
}

/// So many calls on a world that is not shared.
fn alone(alloc: Global, calls: u64) -> Result<KeptWorld, OutOfMemory> {
    let mut world = filled(alloc)?;
    for number in 0..calls {
        let _ = world.call(1, SeatKind::User, &request(alloc, number)?, true)?;
    }
    Ok(world)
}

fn call_one<R: Wait>(
    rt: &R,
    alloc: Global,
    shared: &SharedWorld,
    pass: &mut WorldPass,
    number: u64,
) -> Result<(), OutOfMemory>
    requires { IsOf shared.now pass.old }
    ensures { IsOf shared.now pass.new }
{
    let ask = Ask {
        kind: SeatKind::User,
        request: request(alloc, number)?,
    };
    let _reply = shared.call(rt, pass, &ask, true)?;
    Ok(())
}

/// So many calls of a pass. One for which there is no memory is left out.
fn call_all<R: Wait>(
    rt: &R,
    alloc: Global,
    shared: &SharedWorld,
    pass: WorldPass,
    calls: u64,
) -> WorldPass
    requires { IsOf shared.now pass }
    ensures { IsOf shared.now result }
{
    let mut pass = pass;
    for number in 0..calls {
        let _ = call_one(rt, alloc, shared, &mut pass, number);
    }
    pass
}

/// So many calls of each pass, on a thread of its own.
fn call_each<R: Threads + Wait + Sync>(
    rt: &R,
    alloc: Global,
    shared: &SharedWorld,
    passes: Vec<WorldPass>,
    calls: u64,
) -> Result<Vec<WorldPass>, AllocError>
    requires { All (IsOf shared.now) passes.items }
    ensures many { IfOk result (λ after. vec_len after ≡ vec_len passes) }
    ensures passes { IfOk result (λ after. All (IsOf shared.now) after.items) }
{
    thread::map_vec(
        rt,
        passes,
        &|pass: WorldPass| -> WorldPass
            requires { IsOf shared.now pass }
            ensures { IsOf shared.entry.now result }
        { call_all(rt, alloc, shared, pass, calls) },
    )
}

/// So many calls of each of so many threads, on a world that they share.
fn together<R: Threads + Wait + Sync>(
    rt: &R,
    alloc: Global,
    threads: u64,
    calls: u64,
) -> Result<KeptWorld, OutOfMemory> {
    if threads == 0 || threads > MOST_THREADS {
        return alone(alloc, calls);
    }
    let world = filled(alloc)?;
    let Ok((shared, passes)) = SharedWorld::new(alloc, world, threads as usize) else {
        return Err(OutOfMemory);
    };
    let passes = call_each(rt, alloc, &shared, passes, calls)?;
    match shared.close(passes) {
        Ok(world) => Ok(world),
        Err(_) => Err(OutOfMemory),
    }
}

/// Says how many entries the world has after so many calls of each thread. With no threads the world is not shared.
pub fn show<R: Print + Threads + Wait + Sync>(
    rt: &R,
    alloc: Global,
    threads: u64,
    calls: u64,
) -> io::Result<()> {
    match together(rt, alloc, threads, calls) {
        Ok(world) => {
            let entries = world.world().history().len();
            println!(rt; "threads {threads} entries {entries}")
        }
        Err(OutOfMemory) => println!(rt; "no memory"),
    }
}
