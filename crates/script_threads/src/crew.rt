//! The crew of a run: the users, and the actors that it starts.

ghost use Rattle.std.specs.Prelude.{◌≡◌, ◌≤◌, ◌<◌, ◌+◌, ◌++◌, ◌^◌, true, List, IfOk, OnOk, length, map};
ghost use Rattle.script_lines.specs.declared.actors.Actor.TheVariants.{Agent};
ghost use Rattle.script_runs.specs.Limits.{IsReadable};
ghost use Rattle.script_runs.specs.Parts.{first_actor_seat, seat_kind_of};
ghost use Rattle.script_threads.specs.Started.{drain_seat, started_for, workers_of};
ghost use Rattle.script_threads.specs.Steps.Hired.{HaveJoined, IsActorHired, IsCrew, IsHiredFor, IsUserHired};

use actor_turns::part::Part;
use actor_work::members::actor::{ActorCalls, hire};
use fault_io::gate::Gate;
use kube_types::copies::{OutOfMemory, Plain};
use kube_types::text::{Names, Text};
use script_lines::actors::{Actor, Worker, WorkerKind};
use script_runs::parts::part_at;
use script_runs::stage::numbers;
use script_text::script::{Line, Script};
use shared_work::crew::Hired;
use shared_work::lines::UserLines;
use shared_work::worker::OneOf;
use std::alloc::Global;

/// A user or an actor.
pub(crate) type CrewMember<'a, G> = OneOf<UserLines<'a, G>, ActorCalls<'a, G>>;

/// The users have the seats before it.
const FIRST_ACTOR_SEAT: u64 = 5;

/// Adds so many workers of a kind.
fn add_workers(actors: &mut Vec<Actor>, kind: WorkerKind, workers: usize) -> Result<(), OutOfMemory>
    requires { workers < 5 }
    ensures { OnOk result (actors.new.items ≡ actors.old.items ++ workers_of workers kind) }
{
    for place in 0..workers {
        let number = numbers()[place];
        actors.push(Actor::Worker(Worker { kind, number }))?;
    }
    Ok(())
}

/// Adds the agents of these nodes.
fn add_agents(alloc: Global, actors: &mut Vec<Actor>, nodes: &Names) -> Result<(), OutOfMemory>
    ensures { OnOk result (actors.new.items ≡ actors.old.items ++ map (λ node. Agent node) nodes.now) }
{
    for node in nodes.as_slice() {
        let node = node.copy(alloc)?;
        actors.push(Actor::Agent { node })?;
    }
    Ok(())
}

/// The actors that a run starts: so many workers of each kind, and an agent of each of these nodes.
fn started(alloc: Global, workers: usize, nodes: &Names) -> Result<Vec<Actor>, OutOfMemory>
    requires { workers < 5 }
    ensures { IfOk result (λ actors. actors.items ≡ started_for workers nodes.now) }
{
    let mut actors = Vec::new(alloc);
    add_workers(&mut actors, WorkerKind::Binder, workers)?;
    add_workers(&mut actors, WorkerKind::Ops, workers)?;
    add_workers(&mut actors, WorkerKind::Scheduler, workers)?;
    add_workers(&mut actors, WorkerKind::Claims, workers)?;
    add_workers(&mut actors, WorkerKind::Volumes, workers)?;
    add_agents(alloc, &mut actors, nodes)?;
    Ok(actors)
}

/// Hires this actor with its part, for so many calls.
fn hire_as<'a, G: Gate>(
    alloc: Global,
    gate: &'a G,
    actor: &Actor,
    part: Part,
    calls: u64,
) -> Result<Hired<ActorCalls<'a, G>>, OutOfMemory>
    requires kind { part.kind ≡ seat_kind_of actor.now }
    requires named { part.named ≡ true }
    requires small { part.first + length part.restarts < 2 ^ 32 }
    requires calls { calls ≤ 1000 }
    ensures { IfOk result (λ h. IsHiredFor actor.now part calls h) }
{
    match actor {
        Actor::Worker(_) => {
            let none = Text::new(alloc, "")?;
            hire(alloc, gate, part, &none, calls)
        }
        Actor::Agent { node } => hire(alloc, gate, part, node, calls),
    }
}

/// Hires an actor of a run for so many calls. Its first life has this seat.
fn hire_actor<'a, G: Gate>(
    alloc: Global,
    gate: &'a G,
    actor: &Actor,
    calls: u64,
    first: u64,
    lines: &[Line],
) -> Result<Hired<CrewMember<'a, G>>, OutOfMemory>
    requires few { length lines.now ≤ 4096 }
    requires small { first < 2 ^ 31 }
    requires calls { calls ≤ 1000 }
    ensures hired { IfOk result (λ h. IsActorHired lines.now calls actor.now first h) }
    ensures few { IfOk result (λ h. h.seats ≤ 4097) }
{
    let part = part_at(alloc, true, actor, first, lines)?;
    let Hired { worker, seats } = hire_as(alloc, gate, actor, part, calls)?;
    Ok(Hired {
        worker: OneOf::Second(worker),
        seats,
    })
}

/// Hires these actors, whose lives have the seats after those of the users. Gives the seat after theirs.
fn join<'a, G: Gate>(
    alloc: Global,
    crew: &mut Vec<Hired<CrewMember<'a, G>>>,
    gate: &'a G,
    actors: &[Actor],
    calls: u64,
    lines: &[Line],
) -> Result<u64, OutOfMemory>
    requires few { length lines.now ≤ 4096 }
    requires actors { length actors.now ≤ 28 }
    requires calls { calls ≤ 1000 }
    ensures { IfOk result (λ seat. HaveJoined lines.now calls first_actor_seat seat actors.now crew.old.items crew.new.items) }
{
    let mut seat = FIRST_ACTOR_SEAT;
    for actor in actors {
        let member = hire_actor(alloc, gate, actor, calls, seat, lines)?;
        let seats = member.seats as u64;
        crew.push(member)?;
        seat += seats;
    }
    Ok(seat)
}

/// A user of the script.
fn user<'a, G: Gate>(alloc: Global, gate: &'a G, script: &'a Script) -> Hired<CrewMember<'a, G>>
    ensures { IsUserHired script.now result }
{
    Hired {
        worker: OneOf::First(UserLines {
            alloc,
            listener: gate,
            script,
        }),
        seats: 1,
    }
}

/// The users of the script and the actors that a run of it starts, and the seat after those of all their lives.
pub(crate) fn crew<'a, G: Gate>(
    alloc: Global,
    gate: &'a G,
    script: &'a Script,
    workers: u64,
    calls: u64,
) -> Result<(Vec<Hired<CrewMember<'a, G>>>, u64), OutOfMemory>
    requires readable { IsReadable script.now }
    requires workers { workers < 5 }
    requires calls { calls ≤ 1000 }
    ensures crew { IfOk result (λ t. IsCrew script.now workers calls t.0.items) }
    ensures seat { IfOk result (λ t. t.1 ≡ drain_seat workers script.now) }
{
    let actors = started(alloc, workers as usize, &script.node_names)?;
    let one = user(alloc, gate, script);
    let two = user(alloc, gate, script);
    let three = user(alloc, gate, script);
    let four = user(alloc, gate, script);
    let mut crew = vec![in alloc; one, two, three, four]?;
    let lines = script.lines.as_slice();
    let seat = join(alloc, &mut crew, gate, actors.as_slice(), calls, lines)?;
    Ok((crew, seat))
}
