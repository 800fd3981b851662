//! Scripts, and what their lines mean.

ghost use Rattle.std.specs.Prelude.{◌≡◌};
ghost use Rattle.script_text.specs.Said.{and_said};
ghost use Rattle.script_text.specs.Grammar.{limit_of, unless_passed};
ghost use Rattle.script_text.specs.Steps.Indexed.{CanTake, ProgressStands, Takes, said_by};

use crate::progress::{Progress, take_fault, take_import, take_line, take_pool};
use call_types::request::Request;
use call_types::setup::{Pool, Setup};
use kube_types::items::Items;
use kube_types::objects::Object;
use kube_types::text::{Names, Text};
use script_lines::actors::Actor;
use script_lines::errors::LineError;
use std::alloc::Global;

/// A line of a script that is done in its turn, or that says what becomes of an actor's calls.
pub enum Line {
    /// A user's call.
    Call {
        user: u64,
        request: Request,
    },
    /// The call of this number that the actor makes is lost, before its effect or after it.
    Lose {
        actor: Actor,
        call: u64,
        after: bool,
    },
    /// After so many calls of the actor a new life of it begins.
    Restart {
        actor: Actor,
        after: u64,
    },
    /// The actor makes calls, at most so many.
    Turn {
        actor: Actor,
        calls: u64,
    },
    /// All controllers make calls until nothing is due.
    Drain,
}

impl Drop for Line {
    fn drop(self) {
        match self {
            Line::Call { user: _, request } => drop(request),
            Line::Lose {
                actor,
                call: _,
                after: _,
            } => drop(actor),
            Line::Restart { actor, after: _ } => drop(actor),
            Line::Turn { actor, calls: _ } => drop(actor),
            Line::Drain => {}
        }
    }
}

/// What one line of a text means: a pool, with its size as it was written; the number of a Provision or
/// Erase call that fails; an object of an older store; or a line of the script.
pub enum Meaning {
    Pool { pool: Pool, size: Text },
    Fault { call: u64 },
    Import(Object),
    Line(Line),
}

impl Drop for Meaning {
    fn drop(self) {
        match self {
            Meaning::Pool { pool, size } => {
                drop(pool);
                drop(size);
            }
            Meaning::Fault { call: _ } => {}
            Meaning::Import(object) => drop(object),
            Meaning::Line(line) => drop(line),
        }
    }
}

impl Meaning {
    /// Takes what a line of this number means, unless it passes a limit.
    pub(crate) fn take(
        self,
        alloc: Global,
        progress: &mut Progress,
        number: u64,
    ) -> Result<(), LineError>
        requires stands { ProgressStands progress.old }
        requires early { CanTake progress.old.lines self }
        ensures { Takes result progress.new (unless_passed (limit_of (and_said (said_by progress.old) number self) self) (and_said (said_by progress.old) number self)) }
    {
        match self {
            Meaning::Pool { pool, size } => take_pool(progress, number, pool, &size),
            Meaning::Fault { call } => take_fault(progress, number, call),
            Meaning::Import(object) => take_import(alloc, progress, number, object),
            Meaning::Line(line) => take_line(alloc, progress, number, line),
        }
    }
}

/// What a script says: what the world begins with, and its lines in order. Beside them stand the nodes that
/// its create and import lines name, in order, and the sizes of the pools as they were written.
pub struct Script {
    pub setup: Setup,
    pub lines: Items<Line>,
    pub node_names: Names,
    pub sizes: Names,
}

impl Drop for Script {
    fn drop(self) {
        let Script {
            setup,
            lines,
            node_names,
            sizes,
        } = self;
        drop(setup);
        drop(lines);
        drop(node_names);
        drop(sizes);
    }
}

impl Script {
    /// The names of the nodes that its lines create or import, and of those on which imported pods are
    /// scheduled, in order, each once.
    pub fn nodes(&self) -> &Names
        ensures { result.now ≡ self.now.node_names }
    {
        &self.node_names
    }
}

/// A script, and the number that each of its lines has in the text, counted from 1.
pub struct Numbered {
    pub script: Script,
    pub numbers: Items<u64>,
}

impl Drop for Numbered {
    fn drop(self) {
        let Numbered { script, numbers } = self;
        drop(script);
        drop(numbers);
    }
}

impl Numbered {
    /// The script alone.
    pub fn into_script(self) -> Script
        ensures { result ≡ self.script }
    {
        let Numbered { script, numbers } = self;
        drop(numbers);
        script
    }
}
