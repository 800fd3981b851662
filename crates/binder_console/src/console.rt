//! The top call.

ghost use Rattle.std.specs.Prelude.{◌≡◌, ◌≤◌};
ghost use Rattle.binder_console.specs.Commands.{task_of};
ghost use Rattle.binder_console.specs.Ends.{Ends, Outside, WritesNothing};
ghost use Rattle.binder_console.specs.Exactly.{EndsAreExact};
ghost use Rattle.binder_console.specs.Inputs.{AsksForNoInput};
ghost use Rattle.binder_console.specs.Outcomes.{Written, answer_status, answer_text};

use crate::answers::{Answer, answer_of};
use crate::commands::read_task;
use crate::inputs::read_input;
use crate::status::Status;
use command_words::words::WordsError;
use fault_io::ends::{ReadError, Sink, Source, write_all};
use fault_io::gate::Gate;
use piece_print::pieces::PieceText;
use piece_print::sinks::write_text;
use std::alloc::Global;
use std::sync::Wait;
use std::thread::Threads;

const USAGE: &str =
    "usage: pvbind replay|run|audit|check|gen|extend [--workers N] [--seed N] [--calls N] [--budget N]\n";

const TOO_LONG: &str = "input: TooLong\n";

/// Writes the text. The status is this one, but for a fault.
fn end_with<K: Sink>(sink: &mut K, text: &[u8], status: Status) -> Status
    ensures written { Written (K.written sink.old) (K.written sink.new) (K.faults sink.old) (K.faults sink.new) text.now status result }
    ensures later { K.faults sink.old ≤ K.faults sink.new }
{
    match write_all(sink, text) {
        Ok(()) => status,
        Err(_) => Status::WriteFault,
    }
}

/// Writes the text. The status is this one, but for a fault.
fn end_pieces<K: Sink>(sink: &mut K, text: &PieceText, status: Status) -> Status
    ensures written { Written (K.written sink.old) (K.written sink.new) (K.faults sink.old) (K.faults sink.new) text.now status result }
    ensures later { K.faults sink.old ≤ K.faults sink.new }
{
    match write_text(sink, text) {
        Ok(_) => status,
        Err(_) => Status::WriteFault,
    }
}

/// Writes what came of an input. The status is the answer's, but for a fault.
fn end_answer<K: Sink>(sink: &mut K, answer: Answer) -> Status
    ensures written { Written (K.written sink.old) (K.written sink.new) (K.faults sink.old) (K.faults sink.new) (answer_text answer) (answer_status answer) result }
    ensures later { K.faults sink.old ≤ K.faults sink.new }
{
    match answer {
        Answer::Output(text) => end_pieces(sink, &text, Status::Done),
        Answer::Unsettled(text) => end_pieces(sink, &text, Status::Unsettled),
        Answer::No(text) => end_pieces(sink, &text, Status::AuditNo),
        Answer::Refusal(text) => end_pieces(sink, &text, Status::Refused),
    }
}

/// Does what the words ask for, of the whole input, and writes what came of it. All is computed before the first write.
///
/// - `replay` reads a script, of at most 1 MiB and within the limits of scripts, and does its lines in order and then a
///   drain. `--budget` says how many calls all drains together may make. An option that a command does not use has no effect.
/// - `run` reads such a script too. Its users, `--workers` workers of each of five kinds, and an agent of each node work on one
///   world at the same time, each on a thread of its own where one can be made. Each user does its lines in order, each worker
///   and agent makes `--calls` calls. Then comes a drain on one thread. Turns and drains of the script are passed over.
/// - `check` prints the canonical line of each manifest.
/// - `audit` reads a history, of at most 256 MiB and up to its line `end`, and judges it: `yes N entries`, or with status 7
///   `no: entry N RULE`, the first entry that breaks it and the rule.
/// - `gen` reads nothing: it replays the script that `--seed` gives, and prints the seven lines of its summary.
///
/// The promise, with status 0 or 3 under `replay` (`EndsAnswered`, `Answers`, `Replays`): what was written is the text of one
/// history and of its last world. Each reply in it is the world's, each controller asked only what it had been told
/// allowed, and at every point each completed claim that was not imported as Lost names a Bound volume of its own that
/// carries its UID, no Bound volume and no mounted claim has left, and data were erased only for ended volumes with policy
/// Delete. A claim that was imported as Lost is covered from the point at which its volume carries it in phase Bound. No
/// completed claim got a volume of fewer bytes or of another volume mode than it asked for, but where users bound both by
/// hand (`enough`). The history has one entry for each call of a user, in order, and of each turn and each drain the calls
/// that the script says; each actor that a turn line names played each of its lives. With status 0 nothing is due at its end; with 3 the
/// calls of the drains are spent, and the last line names what is due first. Where the stated budget is left for the last
/// drain of a small world, no two pods without a node share an open claim that waits for a pod, and no agent is stale, 3 does
/// not come (`settling`). A round of a drain makes few calls, by what stands as it begins (`short`). The
/// same is promised of the history whose numbers `gen` prints (`Generates`). What `replay` writes is the text of this history alone, and of no other that a text
/// can give (`alone`).
///
/// Under `run` the same is promised of the one history that all threads leave, whatever their schedule (`RunsOnThreads`): it has
/// each user's lines in order, each once, and of each worker and agent the calls that it was to make, or fewer where an
/// agent was told that its epoch is stale; then the drain's. Not said: that a thread gets on, who comes first, and that two
/// work side by side.
///
/// Of an audit, with status 0 or 7 (`Audits`): the input is the text of one history, and of no other. With 0 it is a run: each
/// reply is the world's, each controller asked only what it had been told allowed, and it is safe as above at every point;
/// of sizes, diligence and a script nothing is said. With 7 the entry named is the first that breaks it.
///
/// Under `extend` (`Extends`): the steps of the history and of the side beside it are those of the script's lines and of the side's, in
/// order, and of drains. All that is promised of a replay is promised of the lines that reached the world, which are all but the users'
/// creates of claims that a quota refused, each where it did and wherever it did. What users asked stands once among the steps, in order,
/// and each reply of the side is its answer there. At each point quotas are kept, and growth goes in turn, never back and within the
/// reserve. An audit of such a history judges the entries before its `end`, and says nothing of the side.
///
/// Statuses (`EndsBy`): 0 done; 1 the usage line; 2 the input was refused, in one line, once it was read whole or found too long; 3 unsettled; 4 a read failed, nothing
/// is written; 5 a write failed, a front of what was due is written; 6 memory was wanting, nothing is written; 7 the audited
/// history is no run. Statuses 1 and 2 come exactly where the words and the input ask for them (`ends_are_exact`).
///
/// Threads are started under `run` alone. The gate is told there before and after each call of a worker or an agent.
pub fn pvbind<R: Threads + Wait + Sync, S: Source, K: Sink, G: Gate>(
    rt: &R,
    alloc: Global,
    words: &[String],
    source: &mut S,
    sink: &mut K,
    gate: &G,
) -> Status
    // What the status says of the words, of what the source and the sink told before, and of what they tell now.
    ensures ends { let before : Outside = record { left = S.left source.old; read_faults = S.faults source.old; written = K.written sink.old; write_faults = K.faults sink.old } in
        let after : Outside = record { left = S.left source.new; read_faults = S.faults source.new; written = K.written sink.new; write_faults = K.faults sink.new } in
        Ends result words.now before after }
    ensures unread { AsksForNoInput (task_of words.now) → source.new ≡ source.old }
    ensures unwritten { WritesNothing result → sink.new ≡ sink.old }
{
    let task = match read_task(alloc, words) {
        Ok(task) => task,
        Err(WordsError::Usage) => return end_with(sink, USAGE.as_bytes(), Status::Usage),
        Err(WordsError::OutOfMemory) => return Status::Memory,
    };
    let input = match read_input(alloc, task, source) {
        Ok(input) => input,
        Err(ReadError::ReadFault) => return Status::ReadFault,
        Err(ReadError::OutOfMemory) => return Status::Memory,
        Err(ReadError::TooLong) => return end_with(sink, TOO_LONG.as_bytes(), Status::Refused),
    };
    match answer_of(rt, alloc, task, input.as_slice(), gate) {
        Ok(answer) => end_answer(sink, answer),
        Err(_) => Status::Memory,
    }
}

/// However the program ends: Usage comes exactly where the words ask for nothing, and Refused exactly where the input is to be
/// refused, but for want of memory and faults; and where the task was done, nothing of its input is left. A task that is to be
/// done is done: with an input that the source tells and the task takes, where the last drain of each of its replays may
/// settle, and where no read and no write fails, the status is Done or Memory, or after an audit AuditNo.
pub fn ends_are_exact()
    ensures { EndsAreExact }
{}
