//! What an actor's work on one thread comes to: calls that are lost, new lives, and a node that another agent takes.

ghost use Rattle.std.specs.Prelude.{IfOk};
ghost use Rattle.shared_world.specs.Passes.{IsOf};
ghost use Rattle.worker_core.specs.Roles.{IsBuiltKind};

use crate::gates::Counts;
use crate::lives::{Opened, ask, begin_with, close, go_on, open, part};
use crate::scripts::count_of;
use call_types::entry::Entry;
use call_types::reply::{Refusal, Reply};
use call_types::request::SeatKind;
use kube_types::copies::{OutOfMemory, Plain};
use sample_objects::lines::{request, split};
use shared_world::shared::{SharedWorld, WorldPass};
use std::alloc::Global;
use std::sync::Wait;
use world_core::kept::KeptWorld;

/// A case. First a user asks the lines. Then the actor is to make `calls` calls; another agent makes `taken`, of which the first
/// takes the node; and the actor is to make `more`. Of the actor's calls those of the numbers `unmade` are lost before their
/// effect and those of `untold` after it, and it is restarted after so many as `restarts` says.
pub struct Works {
    pub name: &'static str,
    pub lines: &'static [&'static str],
    pub unmade: &'static [u64],
    pub untold: &'static [u64],
    pub restarts: &'static [u64],
    pub calls: u64,
    pub taken: u64,
    pub more: u64,
    /// How many calls the actor has made in the end.
    pub made: u64,
    /// Of how many calls of each life, and of the other agent, a listener was told.
    pub told: &'static [u64],
    /// The entries of each life. `lost` stands before one whose answer was lost, and `stale` before one that was told StaleEpoch.
    pub lives: &'static [&'static str],
}

/// What a case says of where it says nothing.
pub const NOTHING: Works = Works {
    name: "",
    lines: &[],
    unmade: &[],
    untold: &[],
    restarts: &[],
    calls: 0,
    taken: 0,
    more: 0,
    made: 0,
    told: &[],
    lives: &[],
};

fn is_told_stale(entry: &Entry) -> bool {
    match &entry.reply {
        Reply::Refused(Refusal::StaleEpoch { current: _ }) => entry.told,
        _ => false,
    }
}

/// Whether the entry is that of the line.
fn is_entry(alloc: Global, entry: &Entry, line: &str) -> Result<bool, OutOfMemory> {
    let (mark, rest) = split(line);
    let unmarked = match mark {
        "lost" | "stale" => rest,
        _ => line,
    };
    let (verb, words) = split(unmarked);
    match request(alloc, verb, words)? {
        Some(wanted) => Ok(
            entry.request.same(&wanted)
                && entry.told == (mark != "lost")
                && is_told_stale(entry) == (mark == "stale"),
        ),
        None => Ok(false),
    }
}

/// Whether the entries of the seat are those of the text.
fn has_entries(
    alloc: Global,
    world: &KeptWorld,
    seat: u64,
    text: &str,
) -> Result<bool, OutOfMemory> {
    if text.is_empty() {
        return Ok(count_of(world, seat) == 0);
    }
    let mut lines = text.split(", ");
    for entry in world.world().history() {
        if entry.seat == seat {
            match lines.next() {
                Some(line) => if !is_entry(alloc, entry, line)? {
                    return Ok(false);
                },
                None => return Ok(false),
            }
        }
    }
    Ok(lines.next().is_none())
}

fn has_lives(alloc: Global, world: &KeptWorld, lives: &[&str]) -> Result<bool, OutOfMemory> {
    for (place, text) in lives.iter().enumerate() {
        let seat = (place as u64).wrapping_add(1);
        if !has_entries(alloc, world, seat, text)? {
            return Ok(false);
        }
    }
    Ok(true)
}

fn ask_all<R: Wait>(
    rt: &R,
    alloc: Global,
    shared: &SharedWorld,
    user: WorldPass,
    lines: &[&str],
) -> Result<WorldPass, OutOfMemory>
    requires { IsOf shared.now user }
    ensures { IfOk result (IsOf shared.now) }
{
    let mut user = user;
    for line in lines {
        ask(rt, alloc, shared, &mut user, line)?;
    }
    Ok(user)
}

/// What the case leaves of an empty world, and how many calls the actor has made.
fn run<R: Wait>(
    rt: &R,
    alloc: Global,
    gate: &Counts,
    kind: SeatKind,
    works: &Works,
) -> Result<(KeptWorld, u64), OutOfMemory>
    requires { IsBuiltKind kind }
{
    let many = works.restarts.len() + 1;
    if many > 9 {
        return Err(OutOfMemory);
    }
    let Opened {
        shared,
        lives,
        other,
        user,
    } = open(alloc, many)?;
    let made = many as u64 + 2;
    let user = ask_all(rt, alloc, &shared, user, works.lines)?;
    let agent = part(alloc, SeatKind::Agent, many as u64 + 1, &[], &[], &[])?;
    let agent = begin_with(alloc, &shared, made, other, agent)?;
    let part = part(alloc, kind, 1, works.unmade, works.untold, works.restarts)?;
    let actor = begin_with(alloc, &shared, made, lives, part)?;
    let actor = go_on(rt, &shared, made, actor, gate, works.calls)?;
    let agent = go_on(rt, &shared, made, agent, gate, works.taken)?;
    let actor = go_on(rt, &shared, made, actor, gate, works.more)?;
    let calls = actor.player.made;
    let world = close(alloc, shared, made, user, agent, actor)?;
    Ok((world, calls))
}

/// Whether the case comes to what it says.
fn holds<R: Wait>(rt: &R, alloc: Global, kind: SeatKind, works: &Works) -> Option<bool>
    requires { IsBuiltKind kind }
{
    let gate = Counts::new();
    let (world, made) = run(rt, alloc, &gate, kind, works).ok()?;
    let has_lives = has_lives(alloc, &world, works.lives).ok()?;
    Some(has_lives && made == works.made && gate.are(works.told))
}

/// The name of the first case that does not come to what it says, or for which there is no memory.
pub fn wrong<R: Wait>(
    rt: &R,
    alloc: Global,
    kind: SeatKind,
    table: &[Works],
) -> Option<&'static str>
    requires { IsBuiltKind kind }
{
    for works in table {
        if holds(rt, alloc, kind, works) != Some(true) {
            return Some(works.name);
        }
    }
    None
}
