//! The parts of a script's actors.

ghost use Rattle.std.specs.Prelude.{◌≡◌, ◌<◌, ◌+◌, ◌^◌, IfOk, bytes_eq, length};
ghost use Rattle.script_lines.specs.Actors.{actor_word};
ghost use Rattle.script_text.specs.Said.{restarts_of};
ghost use Rattle.actor_turns.specs.Parts.{lives_of};
ghost use Rattle.script_runs.specs.Parts.{is_named, seat_kind_of, kind_of_worker, lost_calls, part_at};

use actor_turns::loss::Loss;
use actor_turns::part::Part;
use call_types::request::SeatKind;
use kube_types::copies::OutOfMemory;
use kube_types::items::Items;
use kube_types::text::Text;
use script_lines::actors::{Actor, WorkerKind};
use script_text::script::Line;
use std::alloc::Global;

/// Whether this is the actor's name.
fn is_called(alloc: Global, actor: &Actor, name: &Text) -> Result<bool, OutOfMemory>
    ensures { IfOk result (λ is. is ≡ bytes_eq (actor_word actor.now) name.now) }
{
    let own = actor.name(alloc)?;
    Ok(own.as_str() == name.as_str())
}

/// Whether a turn names the actor.
fn is_named(alloc: Global, name: &Text, lines: &[Line]) -> Result<bool, OutOfMemory>
    ensures { IfOk result (λ is. is ≡ is_named name.now lines.now) }
{
    for line in lines {
        if let Line::Turn { actor, calls: _ } = line {
            if is_called(alloc, actor, name)? {
                return Ok(true);
            }
        }
    }
    Ok(false)
}

/// The actor's calls that are lost.
fn losses_in(alloc: Global, name: &Text, lines: &[Line]) -> Result<Items<Loss>, OutOfMemory>
    ensures { IfOk result (λ losses. losses ≡ lost_calls name.now lines.now) }
{
    let mut losses = Items::new(alloc);
    for line in lines {
        if let Line::Lose { actor, call, after } = line {
            if is_called(alloc, actor, name)? {
                losses.push(Loss {
                    call: *call,
                    after: *after,
                })?;
            }
        }
    }
    Ok(losses)
}

/// After how many calls of the actor a new life of it begins.
fn restarts_in(alloc: Global, name: &Text, lines: &[Line]) -> Result<Items<u64>, OutOfMemory>
    ensures { IfOk result (λ restarts. restarts ≡ restarts_of name.now lines.now) }
{
    let mut restarts = Items::new(alloc);
    for line in lines {
        if let Line::Restart { actor, after } = line {
            if is_called(alloc, actor, name)? {
                restarts.push(*after)?;
            }
        }
    }
    Ok(restarts)
}

fn kind_of_worker(kind: WorkerKind) -> SeatKind
    ensures { result ≡ kind_of_worker kind }
{
    match kind {
        WorkerKind::Binder => SeatKind::Binder,
        WorkerKind::Ops => SeatKind::Ops,
        WorkerKind::Scheduler => SeatKind::Scheduler,
        WorkerKind::Claims => SeatKind::ClaimProtect,
        WorkerKind::Volumes => SeatKind::VolumeProtect,
    }
}

/// The kind of the seats of an actor.
fn kind_of(actor: &Actor) -> SeatKind
    ensures { result ≡ seat_kind_of actor.now }
{
    match actor {
        Actor::Worker(worker) => kind_of_worker(worker.kind),
        Actor::Agent { node: _ } => SeatKind::Agent,
    }
}

/// The part of an actor, which takes part or not, and whose first life has this seat.
pub fn part_at(
    alloc: Global,
    takes: bool,
    actor: &Actor,
    first: u64,
    lines: &[Line],
) -> Result<Part, OutOfMemory>
    ensures { IfOk result (λ part. part ≡ part_at takes (actor_word actor.now) (seat_kind_of actor.now) first lines.now) }
{
    let name = actor.name(alloc)?;
    let losses = losses_in(alloc, &name, lines)?;
    let restarts = restarts_in(alloc, &name, lines)?;
    Ok(Part {
        name,
        kind: kind_of(actor),
        named: takes,
        first,
        losses,
        restarts,
    })
}

/// The part of an actor whose first life has this seat. It takes part where a turn names it.
pub fn part_from(
    alloc: Global,
    actor: &Actor,
    first: u64,
    lines: &[Line],
) -> Result<Part, OutOfMemory>
    ensures { IfOk result (λ part. part ≡ part_at (is_named (actor_word actor.now) lines.now) (actor_word actor.now) (seat_kind_of actor.now) first lines.now) }
{
    let name = actor.name(alloc)?;
    let named = is_named(alloc, &name, lines)?;
    part_at(alloc, named, actor, first, lines)
}

/// The seat after those of the lives of an actor.
pub fn seat_after(part: &Part) -> u64
    requires { part.now.first + length part.now.restarts < 2 ^ 32 }
    ensures { result ≡ part.now.first + lives_of part.now }
{
    if part.named {
        part.first + 1 + part.restarts.as_slice().len() as u64
    } else {
        part.first
    }
}
