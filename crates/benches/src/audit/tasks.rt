//! What is done to a history, so often.

ghost use Rattle.binder_model.specs.Imports.{ImportsPass};

use audit_check::audit;
use audit_check::verdict::Verdict;
use call_types::histories::History;
use history_read::errors::HistoryError;
use history_read::reading::read_history;
use history_text::histories::print_history;
use kube_types::copies::OutOfMemory;
use std::alloc::Global;

#[derive(Clone, Copy)]
pub enum Task {
    Read,
    Print,
    Audit,
}

impl Task {
    /// The task of this name.
    pub fn named(word: &str) -> Option<Task> {
        match word {
            "read" => Some(Task::Read),
            "print" => Some(Task::Print),
            "audit" => Some(Task::Audit),
            _ => None,
        }
    }

    pub fn name(self) -> &'static str {
        match self {
            Task::Read => "read",
            Task::Print => "print",
            Task::Audit => "audit",
        }
    }

    /// What is counted.
    pub fn unit(self) -> &'static str {
        match self {
            Task::Read => "again",
            Task::Print => "bytes",
            Task::Audit => "yes",
        }
    }
}

/// How many entries a history has, and how many units were counted over all times.
#[derive(Clone, Copy)]
pub struct Counted {
    pub entries: u64,
    pub units: u64,
}

fn entries_of(history: &History) -> u64 {
    history.entries.as_slice().len() as u64
}

/// How many entries were read.
fn read(alloc: Global, text: &[u8], times: u64) -> Result<u64, HistoryError> {
    let mut entries: u64 = 0;
    for _ in 0..times {
        let history = read_history(alloc, text)?;
        entries = entries.saturating_add(entries_of(&history));
    }
    Ok(entries)
}

/// How many bytes were printed.
fn print(alloc: Global, history: &History, times: u64) -> Result<u64, OutOfMemory> {
    let mut bytes: u64 = 0;
    for _ in 0..times {
        let text = print_history(alloc, &history.setup, history.entries.as_slice())?;
        bytes = bytes.saturating_add(text.as_slice().len() as u64);
    }
    Ok(bytes)
}

/// How many verdicts were Yes.
fn judge(alloc: Global, history: &History, times: u64) -> Result<u64, OutOfMemory>
    requires { ImportsPass history.now.setup.imports }
{
    let mut yes: u64 = 0;
    for _ in 0..times {
        if let Verdict::Yes = audit(alloc, history)? {
            yes = yes.saturating_add(1);
        }
    }
    Ok(yes)
}

/// Reads the history of a text, and then does this so often.
pub fn count(alloc: Global, text: &[u8], task: Task, times: u64) -> Result<Counted, HistoryError> {
    let history = read_history(alloc, text)?;
    let units = match task {
        Task::Read => read(alloc, text, times)?,
        Task::Print => print(alloc, &history, times)?,
        Task::Audit => judge(alloc, &history, times)?,
    };
    Ok(Counted {
        entries: entries_of(&history),
        units,
    })
}
