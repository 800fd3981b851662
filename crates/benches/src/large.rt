//! Worlds beyond the limits of scripts: so many volumes and so many claims of one class are created by calls on a world, and a
//! drain binds them.

ghost use Rattle.benches.specs.UserCalls.{OthersStay};

use crate::writes::{create_claim, create_sized_volume};
use actor_rounds::drainers::Drainers;
use call_types::request::{Request, SeatKind};
use kube_types::copies::OutOfMemory;
use kube_types::objects::Object;
use kube_types::parts::ClaimPhase;
use kube_types::text::Names;
use sample_objects::setups::bare;
use std::alloc::Global;
use std::io;
use worker_threads::drain::drain;
use world_core::drained::Drained;
use world_core::kept::KeptWorld;

const USER: u64 = 1;

/// The first seat of the actors.
const ACTORS: u64 = 5;

/// There is room for so many entries a pair, and some more.
const ENTRIES_OF_PAIR: u64 = 8;

const MORE_ENTRIES: u64 = 64;

const GIBIBYTE: u64 = 1_073_741_824;

/// The draw after this one: sizes are those of `bench/script.py`.
fn next(draw: u64) -> u64 {
    draw.wrapping_mul(6_364_136_223_846_793_005)
        .wrapping_add(1_442_695_040_888_963_407)
}

/// 1 to 16 gibibytes.
fn size_of(draw: u64) -> u64 {
    (1 + (draw >> 33) % 16) * GIBIBYTE
}

/// A call of the user. No other seat has an entry more.
#[tactic(auto, using(crate::proofs::Users::one_told, crate::proofs::Users::unchanged))]
fn call(world: &mut KeptWorld, request: &Request) -> Result<(), OutOfMemory>
    ensures { OthersStay world.old.past world.new.past }
{
    let reply = world.call(USER, SeatKind::User, request, true)?;
    drop(reply);
    Ok(())
}

/// Creates so many volumes, and then so many claims.
#[tactic(auto, using(crate::proofs::Users::both_stay, crate::proofs::Users::unchanged))]
fn fill(alloc: Global, world: &mut KeptWorld, pairs: u64) -> Result<(), OutOfMemory>
    ensures { OthersStay world.old.past world.new.past }
{
    let mut draw = 1;
    for number in 0..pairs {
        draw = next(draw);
        call(world, &create_sized_volume(alloc, number, size_of(draw))?)?;
    }
    for number in 0..pairs {
        draw = next(draw);
        call(world, &create_claim(alloc, number, size_of(draw))?)?;
    }
    Ok(())
}

/// What came of a drain.
struct Outcome {
    entries: usize,
    bound: usize,
    settled: bool,
}

/// How many claims are bound.
fn bound_in(objects: &[Object]) -> usize {
    objects.iter().filter(|object| is_bound(object)).count()
}

fn is_bound(object: &Object) -> bool {
    match object {
        Object::Claim(claim) => matches!(claim.phase, ClaimPhase::Bound),
        _ => false,
    }
}

/// A world of so many pairs after a drain of at most so many calls. The actors are made first.
#[tactic(auto, using(crate::proofs::Users::few_seats, crate::proofs::Users::none_of_actors))]
fn run(alloc: Global, pairs: u64, calls: u64) -> Result<Outcome, OutOfMemory> {
    let setup = bare(alloc);
    let nodes = Names::new(alloc);
    let mut drainers = Drainers::new(alloc, &nodes, ACTORS)?;
    let room = pairs
        .saturating_mul(ENTRIES_OF_PAIR)
        .saturating_add(MORE_ENTRIES);
    let mut world = KeptWorld::new(alloc, &setup, room as usize)?;
    fill(alloc, &mut world, pairs)?;
    let drained = drain(&mut world, &mut drainers, calls)?;
    let settled = matches!(&drained, Drained::Settled { made: _ });
    let world = world.world();
    Ok(Outcome {
        entries: world.history().len(),
        bound: bound_in(world.store().objects()),
        settled,
    })
}

/// Says how many entries the world has, how many claims are bound, and whether nothing is left to do.
pub fn show(rt: &HostRuntime, pairs: u64, calls: u64) -> io::Result<()> {
    match run(rt.alloc(), pairs, calls) {
        Ok(
            Outcome {
                entries,
                bound,
                settled,
            },
        ) => {
            let word = if settled { "yes" } else { "no" };
            println!(rt; "pairs {pairs} entries {entries} bound {bound} settled {word}")
        }
        Err(OutOfMemory) => println!(rt; "no memory"),
    }
}
