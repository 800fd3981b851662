//! The actors of a drain.

ghost use Rattle.std.specs.Prelude.{◌+◌, ◌<◌, ◌^◌, List, IfOk, OnOk, length};
ghost use Rattle.call_types.specs.declared.entry.Entry.{Entry};
ghost use Rattle.worker_core.specs.Roles.{IsBuiltKind};
ghost use Rattle.actor_rounds.specs.Drainers.{AreAdded, AreNew, AreSeats, AreStanding, HaveNoEntries, IsAdded, IsNewAt, seats_of};

use call_types::request::SeatKind;
use kube_types::copies::OutOfMemory;
use kube_types::text::{Names, Text};
use std::alloc::Global;
use std::marker::Model;
use worker_core::actor::Actor;

/// An actor and its seat.
pub struct Drainer {
    pub seat: u64,
    pub actor: Actor,
}

impl Drop for Drainer {
    fn drop(self) {
        let Drainer { seat: _, actor } = self;
        drop(actor);
    }
}

/// The actors of a drain, in the order of a round: the scheduler, ops, the binder, claim protection, volume protection, and
/// the agents by the names of their nodes. Contracts see the list of them. Their seats differ.
pub struct Drainers {
    alloc: Global,
    pub(crate) list: Vec<Drainer>,
}

impl Drop for Drainers {
    fn drop(self) {
        let Drainers { alloc: _, list } = self;
        drop(list);
    }
}

impl Model for Drainers {
    ghost use Rattle.std.specs.Prelude.{List};
    ghost use Rattle.actor_rounds.specs.declared.drainers.Drainer.{Drainer};
    ghost use Rattle.actor_rounds.specs.Drainers.{AreSeats, seats_of};

    ghost Value = { List Drainer };

    ghost view = { λ d. d.list.items };

    ghost invariant = { λ d. AreSeats (seats_of d.list.items) };
}

/// The seats of the actors, counted from the first one on: binder, ops, scheduler, claim protection, volume protection, and
/// then the agents.
const BINDER: u64 = 0;

const OPS: u64 = 1;

const SCHEDULER: u64 = 2;

const CLAIMS: u64 = 3;

const VOLUMES: u64 = 4;

const AGENTS: u64 = 5;

/// A new actor of the kind, at the seat; an agent serves the node.
fn new_drainer(
    alloc: Global,
    kind: SeatKind,
    node: &Text,
    seat: u64,
) -> Result<Drainer, OutOfMemory>
    requires { IsBuiltKind kind }
    ensures { IfOk result (λ d. IsNewAt kind node.now seat d) }
{
    let actor = Actor::new(alloc, kind, node)?;
    Ok(Drainer { seat, actor })
}

/// Adds a new actor of the kind, which serves no node, at the seat.
fn add_worker(
    alloc: Global,
    list: &mut Vec<Drainer>,
    kind: SeatKind,
    seat: u64,
) -> Result<(), OutOfMemory>
    requires { IsBuiltKind kind }
    ensures { OnOk result (IsAdded kind seat list.old.items list.new.items) }
{
    let none = Text::new(alloc, "")?;
    let worker = new_drainer(alloc, kind, &none, seat)?;
    list.push(worker)?;
    Ok(())
}

/// Adds a new agent of each node, in the order of the nodes, at the seats from this one on.
fn add_agents(
    alloc: Global,
    list: &mut Vec<Drainer>,
    nodes: &Names,
    first: u64,
) -> Result<(), OutOfMemory>
    requires { first + length nodes.now < 2 ^ 64 }
    ensures { OnOk result (AreAdded first nodes.now list.old.items list.new.items) }
{
    let mut seat = first;
    for node in nodes.as_slice() {
        let agent = new_drainer(alloc, SeatKind::Agent, node, seat)?;
        list.push(agent)?;
        seat += 1;
    }
    Ok(())
}

impl Drainers {
    /// New actors for a world with these nodes. They stand for the entries of their seats where these have none.
    pub fn new(alloc: Global, nodes: &Names, first_seat: u64) -> Result<Drainers, OutOfMemory>
        requires { first_seat + length nodes.now < 2 ^ 63 }
        ensures are { IfOk result (λ drainers. AreNew first_seat nodes.now drainers) }
        ensures stand { IfOk result (λ drainers. (past : List Entry) → HaveNoEntries (seats_of drainers) past → AreStanding drainers past) }
    {
        let mut list = Vec::new(alloc);
        add_worker(
            alloc,
            &mut list,
            SeatKind::Scheduler,
            first_seat + SCHEDULER,
        )?;
        add_worker(alloc, &mut list, SeatKind::Ops, first_seat + OPS)?;
        add_worker(alloc, &mut list, SeatKind::Binder, first_seat + BINDER)?;
        add_worker(
            alloc,
            &mut list,
            SeatKind::ClaimProtect,
            first_seat + CLAIMS,
        )?;
        add_worker(
            alloc,
            &mut list,
            SeatKind::VolumeProtect,
            first_seat + VOLUMES,
        )?;
        add_agents(alloc, &mut list, nodes, first_seat + AGENTS)?;
        Ok(Drainers { alloc, list })
    }

    /// What the actors take their memory from. Their seats differ.
    pub fn allocator(&self) -> Global
        ensures { AreSeats (seats_of self.now) }
    {
        self.alloc
    }
}
