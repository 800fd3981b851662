//! A world and all who call it, moved by one line of a script at a time.

ghost use Rattle.std.specs.Prelude.{ℕ, ◌≡◌, ◌≤◌, ◌<◌, ◌+◌, ◌-◌, ◌*◌, ◌^◌, [], ◌∷◌, true, IfOk, OnOk, Some, length, slice_get};
ghost use Rattle.script_text.specs.declared.script.Line.{Line};
ghost use Rattle.script_lines.specs.declared.actors.WorkerNumber.TheVariants.{One, Two, Three, Four};
ghost use Rattle.script_lines.specs.Actors.{actor_word};
ghost use Rattle.size_law.specs.Calls.Calls.{AreByActors};
ghost use Rattle.worker_core.specs.Roles.{IsBuiltKind};
ghost use Rattle.worker_core.specs.Stands.{IsNew, StandsFor};
ghost use Rattle.binder_model.specs.Told.{own};
ghost use Rattle.actor_rounds.specs.Drainers.{AreNew, AreStanding, roles_of, seats_of};
ghost use Rattle.actor_rounds.specs.Longer.{IsOneOf};
ghost use Rattle.actor_rounds.specs.Rounds.{Drains, EndsWith, all_pass, made_of};
ghost use Rattle.script_runs.specs.Budget.{first_budget};
ghost use Rattle.script_runs.specs.Limits.{IsKnown, IsReadable};
ghost use Rattle.script_runs.specs.Parts.{drain_seat, is_named, seat_kind_of, part_of, role_of};
ghost use Rattle.script_runs.specs.Replays.{IsDrain, IsMove, IsTurnLine, IsUserCall, Progress, first_progress};
ghost use Rattle.actor_turns.specs.Steps.Playing.{IsNewPlayer};
ghost use Rattle.script_runs.specs.Steps.Settled.{IsNoted};
ghost use Rattle.script_runs.specs.Steps.Standing.{Ended, HasAdded, HasMoved, MadeAtMost, SomeStands, StageStands, actors_for, agents_for, part_from, place_of, place_of_kind, place_of_node, place_of_number, with_made, workers_of};

use crate::budget::raised;
use crate::parts::{part_from, seat_after};
use crate::settled::{SettledAt, settled_at, stays_settled};
use actor_rounds::drainers::Drainers;
use actor_turns::player::{Player, turn};
use call_types::request::{Request, SeatKind};
use fault_io::gate::NoGate;
use kube_types::copies::{OutOfMemory, Plain};
use kube_types::items::Items;
use kube_types::text::{Names, Text};
use script_lines::actors::{Actor, Worker, WorkerKind, WorkerNumber};
use script_text::script::{Line, Script};
use std::alloc::Global;
use worker_core::actor::Actor as WorkingActor;
use worker_threads::drain::drain;
use world_core::drained::Drained;
use world_core::kept::KeptWorld;

/// Room for the entries that a script within its limits makes where no greater budget is given.
pub const MOST_ENTRIES: usize = 165216;

/// The users have the seats before it.
const FIRST_ACTOR_SEAT: u64 = 5;

/// How many workers there are.
const WORKERS: usize = 20;

/// A world, the actors that turns name, and those of the drains; how many calls all drains have made, and may make; where the
/// last drain ended settled, if it did.
pub struct Stage {
    pub world: KeptWorld,
    pub players: Vec<Player>,
    pub drainers: Drainers,
    pub drained: u64,
    pub budget: u64,
    pub settled: Option<SettledAt>,
}

impl Drop for Stage {
    fn drop(self) {
        let Stage {
            world,
            players,
            drainers,
            drained: _,
            budget: _,
            settled: _,
        } = self;
        drop(world);
        drop(players);
        drop(drainers);
    }
}

/// The place of the first worker of a kind among all.
fn place_of_kind(kind: WorkerKind) -> usize
    ensures place { result ≡ place_of_kind kind }
    ensures few { result ≤ 16 }
{
    match kind {
        WorkerKind::Binder => 0,
        WorkerKind::Ops => 4,
        WorkerKind::Scheduler => 8,
        WorkerKind::Claims => 12,
        WorkerKind::Volumes => 16,
    }
}

fn place_of_number(number: WorkerNumber) -> usize
    ensures place { result ≡ place_of_number number }
    ensures few { result < 4 }
{
    match number {
        WorkerNumber::One => 0,
        WorkerNumber::Two => 1,
        WorkerNumber::Three => 2,
        WorkerNumber::Four => 3,
    }
}

/// The place of the node among these.
fn place_of_node(node: &Text, nodes: &Names) -> usize
    ensures place { result ≡ place_of_node node.now nodes.now }
    ensures few { result ≤ length nodes.now }
{
    let mut place = 0;
    for name in nodes.as_slice() {
        if name.is(node.as_str()) {
            return place;
        }
        place += 1;
    }
    place
}

/// The place of an actor among all: the workers, and then the agents of these nodes.
pub fn place_of(actor: &Actor, nodes: &Names) -> usize
    requires { length nodes.now ≤ 8 }
    ensures { result ≡ place_of nodes.now actor.now }
{
    match actor {
        Actor::Worker(worker) => place_of_kind(worker.kind) + place_of_number(worker.number),
        Actor::Agent { node } => WORKERS + place_of_node(node, nodes),
    }
}

impl Stage {
    /// Makes a user's call.
    pub fn call(
        &mut self,
        script: &Script,
        option: Option<u64>,
        user: u64,
        request: &Request,
    ) -> Result<(), OutOfMemory>
        requires user { user < 5 }
        requires stands { SomeStands script.now option self.old }
        ensures moved { OnOk result (HasMoved script.now option (IsUserCall user request.now) self.old self.new) }
        ensures actors { OnOk result (AreByActors self.old.world.past → AreByActors self.new.world.past) }
        ensures players { self.new.players ≡ self.old.players }
    {
        let _reply = self.world.call(user, SeatKind::User, request, true)?;
        Ok(())
    }

    /// Makes an actor's turn.
    pub fn turn(
        &mut self,
        script: &Script,
        option: Option<u64>,
        actor: &Actor,
        calls: u64,
        most: u64,
    ) -> Result<(), OutOfMemory>
        requires known { IsKnown script.now.node_names actor.now }
        requires named { is_named (actor_word actor.now) script.now.lines ≡ true }
        requires readable { IsReadable script.now }
        requires stands { SomeStands script.now option self.old }
        requires few { calls ≤ 1000 }
        requires most { most ≤ 4096000 }
        requires made { MadeAtMost most self.old }
        ensures moved { OnOk result (HasMoved script.now option (IsTurnLine all_pass [] (role_of actor.now) (part_of script.now actor.now) calls) self.old self.new) }
        ensures actors { OnOk result (AreByActors self.old.world.past → AreByActors self.new.world.past) }
        ensures made { OnOk result (MadeAtMost (most + 1000) self.new) }
    {
        let place = place_of(actor, &script.node_names);
        turn(&mut self.world, &mut self.players[place], &NoGate, calls)?;
        Ok(())
    }

    /// Raises the budget, and drains. Where nothing changed since the last drain ended settled, nothing is looked for.
    pub fn drain(&mut self, script: &Script, option: Option<u64>) -> Result<Drained, OutOfMemory>
        requires stands { SomeStands script.now option self.old }
        ensures moved { OnOk result (HasMoved script.now option (IsDrain all_pass script.now option) self.old self.new) }
        ensures actors { OnOk result (AreByActors self.old.world.past → AreByActors self.new.world.past) }
        ensures ends { IfOk result (λ d. EndsWith self.new.world.setup self.new.world.past (self.new.budget - (self.new.drained - made_of d)) d) }
        ensures made { IfOk result (λ d. made_of d ≤ self.new.drained) }
        ensures players { self.new.players ≡ self.old.players }
    {
        let budget = raised(option, self.world.world(), self.budget);
        let left = budget - self.drained;
        self.budget = budget;
        let drained = drain_on(&mut self.world, &mut self.drainers, self.settled, left)?;
        self.settled = settled_at(self.world.world(), &drained);
        self.drained += made_in(&drained);
        Ok(drained)
    }

    /// Does what the line at this place says.
    pub fn play(
        &mut self,
        script: &Script,
        option: Option<u64>,
        place: usize,
    ) -> Result<(), OutOfMemory>
        requires readable { IsReadable script.now }
        requires place { place < length script.now.lines }
        requires stands { SomeStands script.now option self.old }
        requires made { MadeAtMost (1000 * place) self.old }
        ensures moved { OnOk result ((line : Line) → slice_get script.now.lines place ≡ Some line → HasMoved script.now option (IsMove script.now option line) self.old self.new) }
        ensures actors { OnOk result (AreByActors self.old.world.past → AreByActors self.new.world.past) }
        ensures made { OnOk result (MadeAtMost (1000 * place + 1000) self.new) }
    {
        match &script.lines.as_slice()[place] {
            Line::Call { user, request } => self.call(script, option, *user, request),
            Line::Turn { actor, calls } => {
                self.turn(script, option, actor, *calls, 1000 * place as u64)
            }
            Line::Drain => {
                let drained = self.drain(script, option)?;
                drop(drained);
                Ok(())
            }
            Line::Lose {
                actor: _,
                call: _,
                after: _,
            }
            | Line::Restart { actor: _, after: _ } => Ok(()),
        }
    }

    /// Drains, and says how all drains ended.
    pub fn end(
        &mut self,
        alloc: Global,
        script: &Script,
        option: Option<u64>,
    ) -> Result<Drained, OutOfMemory>
        requires stands { SomeStands script.now option self.old }
        ensures ended { IfOk result (λ ending. (p : Progress) → StageStands script.now option p self.old → Ended script.now option p self.new ending) }
        ensures actors { OnOk result (AreByActors self.old.world.past → AreByActors self.new.world.past) }
    {
        let last = self.drain(script, option)?;
        ended(alloc, self.drained, &last)
    }

    /// The world alone.
    pub fn into_world(self) -> KeptWorld
        ensures { result ≡ self.world }
    {
        let Stage {
            world,
            players,
            drainers,
            drained: _,
            budget: _,
            settled: _,
        } = self;
        drop(players);
        drop(drainers);
        world
    }
}

/// Drains, where something may be due.
fn drain_on(
    world: &mut KeptWorld,
    drainers: &mut Drainers,
    noted: Option<SettledAt>,
    budget: u64,
) -> Result<Drained, OutOfMemory>
    requires stands { AreStanding drainers.old world.old.past }
    requires noted { IsNoted world.old.setup world.old.past noted }
    ensures ends { IfOk result (λ d. EndsWith world.new.setup world.new.past budget d) }
    ensures rounds { IfOk result (λ d. Drains all_pass world.old.setup drainers.new world.new.past (budget - made_of d) drainers.old world.old.past budget) }
    ensures stands { OnOk result (AreStanding drainers.new world.new.past) }
    ensures others { (seat : ℕ) → (IsOneOf (seats_of drainers.old) seat → ⊥) → own seat world.new.past ≡ own seat world.old.past }
    ensures few { IfOk result (λ d. made_of d ≤ budget) }
    ensures actors { AreByActors world.old.past → AreByActors world.new.past }
    ensures setup { world.new.setup ≡ world.old.setup }
    ensures seats { seats_of drainers.new ≡ seats_of drainers.old }
    ensures roles { OnOk result (roles_of drainers.new ≡ roles_of drainers.old) }
{
    if stays_settled(world.world(), noted) {
        return Ok(Drained::Settled { made: 0 });
    }
    drain(world, drainers, budget)
}

/// How all drains ended: as the last of them, with the calls of all.
fn ended(alloc: Global, made: u64, drained: &Drained) -> Result<Drained, OutOfMemory>
    ensures { IfOk result (λ ending. ending ≡ with_made made drained.now) }
{
    match drained {
        Drained::Settled { made: _ } => Ok(Drained::Settled { made }),
        Drained::Spent { made: _, key, due } => Ok(Drained::Spent {
            made,
            key: key.copy(alloc)?,
            due: *due,
        }),
    }
}

/// How many calls a drain has made.
fn made_in(drained: &Drained) -> u64
    ensures { result ≡ made_of drained.now }
{
    match drained {
        Drained::Settled { made } => *made,
        Drained::Spent {
            made,
            key: _,
            due: _,
        } => *made,
    }
}

/// A new actor of the kind, which serves the node where it is an agent.
fn new_actor(alloc: Global, kind: SeatKind, actor: &Actor) -> Result<WorkingActor, OutOfMemory>
    requires kind { kind ≡ seat_kind_of actor.now }
    requires built { IsBuiltKind kind }
    ensures is { IfOk result (λ a. IsNew (role_of actor.now) a) }
    ensures stands { IfOk result (λ a. StandsFor a []) }
{
    match actor {
        Actor::Worker(_) => {
            let none = Text::new(alloc, "")?;
            WorkingActor::new(alloc, kind, &none)
        }
        Actor::Agent { node } => WorkingActor::new(alloc, kind, node),
    }
}

/// An actor before its first call, whose first life has this seat.
fn player(alloc: Global, actor: &Actor, first: u64, lines: &[Line]) -> Result<Player, OutOfMemory>
    ensures part { IfOk result (λ x. x.part ≡ part_from lines.now actor.now first) }
    ensures new { IfOk result (λ x. IsNewPlayer (role_of actor.now) x) }
    ensures few { IfOk result (λ x. length x.part.restarts ≤ length lines.now) }
{
    let part = part_from(alloc, actor, first, lines)?;
    let working = new_actor(alloc, part.kind, actor)?;
    Ok(Player {
        part,
        seat: first,
        made: 0,
        held: Items::new(alloc),
        began: 0,
        actor: working,
    })
}

/// Adds an actor before its first call, whose lives begin at this seat. Gives the seat after those of its lives.
fn add_player(
    alloc: Global,
    players: &mut Vec<Player>,
    actor: &Actor,
    first: u64,
    lines: &[Line],
) -> Result<u64, OutOfMemory>
    requires few { length lines.now ≤ 4096 }
    requires small { first + 4097 < 2 ^ 32 }
    ensures added { IfOk result (λ seat. HasAdded lines.now (actor.now ∷ []) first seat players.old.items players.new.items) }
    ensures most { IfOk result (λ seat. seat ≤ first + 4097) }
{
    let player = player(alloc, actor, first, lines)?;
    let seat = seat_after(&player.part);
    players.push(player)?;
    Ok(seat)
}

/// Adds the workers of a kind, before their first calls, whose lives begin at this seat. Gives the seat after those of their
/// lives.
fn add_workers(
    alloc: Global,
    players: &mut Vec<Player>,
    kind: WorkerKind,
    first: u64,
    lines: &[Line],
) -> Result<u64, OutOfMemory>
    requires few { length lines.now ≤ 4096 }
    requires small { first + 16388 < 2 ^ 32 }
    ensures added { IfOk result (λ seat. HasAdded lines.now (workers_of kind) first seat players.old.items players.new.items) }
    ensures most { IfOk result (λ seat. seat ≤ first + 16388) }
{
    let mut seat = first;
    for number in numbers() {
        let actor = Actor::Worker(Worker {
            kind,
            number: *number,
        });
        seat = add_player(alloc, players, &actor, seat, lines)?;
    }
    Ok(seat)
}

/// The numbers of the workers of a kind.
pub fn numbers() -> &'static [WorkerNumber]
    ensures { result.now ≡ One ∷ Two ∷ Three ∷ Four ∷ [] }
{
    &[
        WorkerNumber::One,
        WorkerNumber::Two,
        WorkerNumber::Three,
        WorkerNumber::Four,
    ]
}

/// Adds the agents of these nodes, likewise.
fn add_agents(
    alloc: Global,
    players: &mut Vec<Player>,
    nodes: &Names,
    first: u64,
    lines: &[Line],
) -> Result<u64, OutOfMemory>
    requires few { length lines.now ≤ 4096 }
    requires small { first + 4097 * length nodes.now < 2 ^ 32 }
    ensures added { IfOk result (λ seat. HasAdded lines.now (agents_for nodes.now) first seat players.old.items players.new.items) }
    ensures most { IfOk result (λ seat. seat ≤ first + 4097 * length nodes.now) }
{
    let mut seat = first;
    for node in nodes.as_slice() {
        let actor = Actor::Agent {
            node: node.copy(alloc)?,
        };
        seat = add_player(alloc, players, &actor, seat, lines)?;
    }
    Ok(seat)
}

/// All actors before their first calls, and the seat after those of their lives.
fn players(alloc: Global, script: &Script) -> Result<(Vec<Player>, u64), OutOfMemory>
    requires lines { length script.now.lines ≤ 4096 }
    requires nodes { length script.now.node_names ≤ 8 }
    ensures added { IfOk result (λ r. HasAdded script.now.lines (actors_for script.now.node_names) 5 r.1 [] r.0.items) }
    ensures small { IfOk result (λ r. r.1 < 2 ^ 32) }
{
    let lines = script.lines.as_slice();
    let mut players = Vec::new(alloc);
    let second = add_workers(
        alloc,
        &mut players,
        WorkerKind::Binder,
        FIRST_ACTOR_SEAT,
        lines,
    )?;
    let third = add_workers(alloc, &mut players, WorkerKind::Ops, second, lines)?;
    let fourth = add_workers(alloc, &mut players, WorkerKind::Scheduler, third, lines)?;
    let fifth = add_workers(alloc, &mut players, WorkerKind::Claims, fourth, lines)?;
    let sixth = add_workers(alloc, &mut players, WorkerKind::Volumes, fifth, lines)?;
    let end = add_agents(alloc, &mut players, &script.node_names, sixth, lines)?;
    Ok((players, end))
}

/// The budget before the first drain.
pub fn first_budget(option: Option<u64>) -> u64
    ensures { result ≡ first_budget option }
{
    match option {
        Some(given) => given,
        None => 0,
    }
}

/// A world of the script's setup, and new actors.
pub fn begin(alloc: Global, script: &Script, option: Option<u64>) -> Result<Stage, OutOfMemory>
    requires readable { IsReadable script.now }
    ensures new { IfOk result (λ s. AreNew (drain_seat script.now) script.now.node_names s.drainers) }
    ensures stands { IfOk result (λ s. StageStands script.now option (first_progress option s.drainers) s) }
    ensures actors { IfOk result (λ s. AreByActors s.world.past) }
    ensures made { IfOk result (λ s. MadeAtMost 0 s) }
{
    let world = KeptWorld::new(alloc, &script.setup, MOST_ENTRIES)?;
    let (players, first) = players(alloc, script)?;
    let drainers = Drainers::new(alloc, &script.node_names, first)?;
    Ok(Stage {
        world,
        players,
        drainers,
        drained: 0,
        budget: first_budget(option),
        settled: None,
    })
}
