//! A history that is read from standard input, and then read again, printed or audited so often: a line says how many
//! entries it has, and how many were read, how many bytes were printed, or how many verdicts were Yes.

mod tasks;

pub use crate::audit::tasks::Task;
use crate::audit::tasks::{Counted, count};
use fault_io::ends::{ReadError, read_all};
use fault_io::standard::StdSource;
use history_read::errors::HistoryError;
use history_read::refusals::refusal_line;
use kube_types::copies::OutOfMemory;
use plain_data::text::Bytes;
use std::io;

const MOST_INPUT: usize = 1_073_741_824;

fn show_error(rt: &HostRuntime, error: HistoryError) -> io::Result<()> {
    match error {
        HistoryError::OutOfMemory => println!(rt; "no memory"),
        HistoryError::BadLine(bad) => match refusal_line(rt.alloc(), bad) {
            Ok(line) => println!(rt; "{line}"),
            Err(OutOfMemory) => println!(rt; "no memory"),
        },
    }
}

fn show(rt: &HostRuntime, text: &Bytes, task: Task, times: u64) -> io::Result<()> {
    let name = task.name();
    let unit = task.unit();
    match count(rt.alloc(), text.as_slice(), task, times) {
        Ok(Counted { entries, units }) => println!(rt; "{name} entries {entries} {unit} {units}"),
        Err(error) => show_error(rt, error),
    }
}

fn show_each(rt: &HostRuntime, text: &Bytes, times: u64) -> io::Result<()> {
    show(rt, text, Task::Read, times)?;
    show(rt, text, Task::Print, times)?;
    show(rt, text, Task::Audit, times)
}

/// Does the task so often with the history of standard input; with no task, each of them.
pub fn try_input(rt: &HostRuntime, task: Option<Task>, times: u64) -> io::Result<()> {
    let mut source = StdSource::new(rt.stdin());
    match read_all(rt.alloc(), &mut source, MOST_INPUT) {
        Ok(text) => match task {
            None => show_each(rt, &text, times),
            Some(task) => show(rt, &text, task, times),
        },
        Err(ReadError::OutOfMemory) => println!(rt; "no memory"),
        Err(_) => println!(rt; "not read"),
    }
}
