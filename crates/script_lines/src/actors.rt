//! The actors that a script may name: four workers of each of five kinds, and an agent for each node.

ghost use Rattle.std.specs.Prelude.{◌≡◌, IfOk};
ghost use Rattle.script_lines.specs.Actors.{all_workers, worker_word, agent_word, actor_word, actor_named};
ghost use Rattle.kube_parts.specs.Named.{value_named};

use kube_types::copies::{OutOfMemory, Plain};
use kube_types::pairs::Pairs;
use kube_types::text::Text;
use kube_types::words::{Worded, value_named};
use std::alloc::Global;

/// A kind of controller that works for no node of its own.
#[derive(Clone, Copy, PartialEq, Eq)]
pub enum WorkerKind {
    Binder,
    Ops,
    Scheduler,
    Claims,
    Volumes,
}

/// Which of the four workers of a kind.
#[derive(Clone, Copy, PartialEq, Eq)]
pub enum WorkerNumber {
    One,
    Two,
    Three,
    Four,
}

/// A worker.
#[derive(Clone, Copy, PartialEq, Eq)]
pub struct Worker {
    pub kind: WorkerKind,
    pub number: WorkerNumber,
}

/// A worker, or the agent of a node.
pub enum Actor {
    Worker(Worker),
    Agent { node: Text },
}

impl Drop for Actor {
    fn drop(self) {
        match self {
            Actor::Worker(_) => {}
            Actor::Agent { node } => drop(node),
        }
    }
}

impl Plain for Actor {
    fn copy(&self, alloc: Global) -> Result<Actor, OutOfMemory> {
        match self {
            Actor::Worker(worker) => Ok(Actor::Worker(*worker)),
            Actor::Agent { node } => Ok(Actor::Agent {
                node: node.copy(alloc)?,
            }),
        }
    }

    fn same(&self, other: &Actor) -> bool {
        match (self, other) {
            (Actor::Worker(worker), Actor::Worker(other_worker)) => *worker == *other_worker,
            (Actor::Agent { node }, Actor::Agent { node: other_node }) => node.same(other_node),
            _ => false,
        }
    }
}

impl Worded for Worker {
    ghost use Rattle.script_lines.specs.Actors.{worker_word};

    ghost word = { worker_word };

    /// The name of the worker.
    fn word(&self) -> &str {
        match self.kind {
            WorkerKind::Binder => match self.number {
                WorkerNumber::One => "binder-1",
                WorkerNumber::Two => "binder-2",
                WorkerNumber::Three => "binder-3",
                WorkerNumber::Four => "binder-4",
            },
            WorkerKind::Ops => match self.number {
                WorkerNumber::One => "ops-1",
                WorkerNumber::Two => "ops-2",
                WorkerNumber::Three => "ops-3",
                WorkerNumber::Four => "ops-4",
            },
            WorkerKind::Scheduler => match self.number {
                WorkerNumber::One => "scheduler-1",
                WorkerNumber::Two => "scheduler-2",
                WorkerNumber::Three => "scheduler-3",
                WorkerNumber::Four => "scheduler-4",
            },
            WorkerKind::Claims => match self.number {
                WorkerNumber::One => "claims-1",
                WorkerNumber::Two => "claims-2",
                WorkerNumber::Three => "claims-3",
                WorkerNumber::Four => "claims-4",
            },
            WorkerKind::Volumes => match self.number {
                WorkerNumber::One => "volumes-1",
                WorkerNumber::Two => "volumes-2",
                WorkerNumber::Three => "volumes-3",
                WorkerNumber::Four => "volumes-4",
            },
        }
    }
}

/// The name of the agent of a node.
pub fn agent_name(alloc: Global, node: &Text) -> Result<Text, OutOfMemory>
    ensures { IfOk result (λ t. t ≡ agent_word node.now) }
{
    let mut name = Text::new(alloc, "agent-")?;
    name.push_str(node.as_str())?;
    Ok(name)
}

impl Actor {
    /// The name of the actor, as scripts write it.
    pub fn name(&self, alloc: Global) -> Result<Text, OutOfMemory>
        ensures { IfOk result (λ t. t ≡ actor_word self.now) }
    {
        match self {
            Actor::Worker(worker) => Text::new(alloc, worker.word()),
            Actor::Agent { node } => agent_name(alloc, node),
        }
    }
}

/// One of the four workers of each kind.
pub fn worker_named(word: &str) -> Option<Worker>
    ensures { result ≡ value_named worker_word all_workers word.now }
{
    value_named(
        &[
            Worker {
                kind: WorkerKind::Binder,
                number: WorkerNumber::One,
            },
            Worker {
                kind: WorkerKind::Binder,
                number: WorkerNumber::Two,
            },
            Worker {
                kind: WorkerKind::Binder,
                number: WorkerNumber::Three,
            },
            Worker {
                kind: WorkerKind::Binder,
                number: WorkerNumber::Four,
            },
            Worker {
                kind: WorkerKind::Ops,
                number: WorkerNumber::One,
            },
            Worker {
                kind: WorkerKind::Ops,
                number: WorkerNumber::Two,
            },
            Worker {
                kind: WorkerKind::Ops,
                number: WorkerNumber::Three,
            },
            Worker {
                kind: WorkerKind::Ops,
                number: WorkerNumber::Four,
            },
            Worker {
                kind: WorkerKind::Scheduler,
                number: WorkerNumber::One,
            },
            Worker {
                kind: WorkerKind::Scheduler,
                number: WorkerNumber::Two,
            },
            Worker {
                kind: WorkerKind::Scheduler,
                number: WorkerNumber::Three,
            },
            Worker {
                kind: WorkerKind::Scheduler,
                number: WorkerNumber::Four,
            },
            Worker {
                kind: WorkerKind::Claims,
                number: WorkerNumber::One,
            },
            Worker {
                kind: WorkerKind::Claims,
                number: WorkerNumber::Two,
            },
            Worker {
                kind: WorkerKind::Claims,
                number: WorkerNumber::Three,
            },
            Worker {
                kind: WorkerKind::Claims,
                number: WorkerNumber::Four,
            },
            Worker {
                kind: WorkerKind::Volumes,
                number: WorkerNumber::One,
            },
            Worker {
                kind: WorkerKind::Volumes,
                number: WorkerNumber::Two,
            },
            Worker {
                kind: WorkerKind::Volumes,
                number: WorkerNumber::Three,
            },
            Worker {
                kind: WorkerKind::Volumes,
                number: WorkerNumber::Four,
            },
        ],
        word,
    )
}

/// The actor that a text names: a worker, or one of these agents.
pub fn actor_named(alloc: Global, agents: &Pairs, word: &str) -> Result<Option<Actor>, OutOfMemory>
    ensures { IfOk result (λ o. o ≡ actor_named agents.now word.now) }
{
    match worker_named(word) {
        Some(worker) => Ok(Some(Actor::Worker(worker))),
        None => match agents.get(word) {
            Some(node) => Ok(Some(Actor::Agent {
                node: node.copy(alloc)?,
            })),
            None => Ok(None),
        },
    }
}
