//! What the words ask for.

ghost use Rattle.std.specs.Prelude.{◌≡◌, IfOk};
ghost use Rattle.binder_console.specs.Commands.{Asks, IsInRange, task_by, task_of};

use command_words::reading::read_words;
use command_words::words::{Command, CommandWords, WordsError};
use std::alloc::Global;

/// What the program is asked to do.
#[derive(Clone, Copy, Debug, PartialEq, Eq)]
pub enum Task {
    /// To replay a script. All drains together make at most so many calls; without a number each drain raises it.
    Replay {
        budget: Option<u64>,
    },
    /// To run a script on threads, with so many workers of each kind and so many calls of each worker and agent, and then to
    /// drain.
    Run {
        workers: u64,
        calls: u64,
        budget: Option<u64>,
    },
    /// To print the objects of a manifest or of a list of manifests.
    Check,
    /// To judge a history.
    Audit,
    /// To replay the script that the seed gives, and to print its summary alone. No input is read.
    Gen {
        seed: u64,
        budget: Option<u64>,
    },
    /// To replay an extended script, with its side.
    Extend {
        budget: Option<u64>,
    },
}

/// The task of a command with its options.
fn task_by(said: CommandWords) -> Task
    ensures { result ≡ task_by said }
{
    match said.command {
        Command::Replay => Task::Replay {
            budget: said.options.budget,
        },
        Command::Run => Task::Run {
            workers: said.options.workers,
            calls: said.options.calls,
            budget: said.options.budget,
        },
        Command::Check => Task::Check,
        Command::Audit => Task::Audit,
        Command::Gen => Task::Gen {
            seed: said.options.seed,
            budget: said.options.budget,
        },
        Command::Extend => Task::Extend {
            budget: said.options.budget,
        },
    }
}

/// What the words after the program's name ask for.
#[tactic(auto, using(crate::proofs::Ranges::task_in_range))]
pub fn read_task(alloc: Global, words: &[String]) -> Result<Task, WordsError>
    ensures asks { Asks result (task_of words.now) }
    ensures range { IfOk result IsInRange }
{
    let said = read_words(alloc, words)?;
    Ok(task_by(said))
}
