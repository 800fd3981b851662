//! Programs to be timed, for the scripts of `bench/`. The first word says what is done, and numbers behind it how often:
//!
//! `store OBJECTS UPDATES`, `world CALLS`, `large PAIRS CALLS`, where a drain makes at most so many calls, `threads
//! THREADS CALLS`, `licence ENTRIES TIMES SEAT`, and `audit TASK TIMES` with a history on standard input, which it
//! reads again, prints or audits for the tasks `read`, `print` and `audit`. With no seat or task it does each of them,
//! and `all` does everything, with small numbers.
#![tactic(auto)]

mod audit;
mod large;
mod licence;
mod store;
mod threads;
mod world;
mod writes;

use crate::audit::Task;
use std::{env, io};

/// More calls than any drain makes here.
const MOST_CALLS: u64 = 1_000_000_000_000;

/// The number that a word of the command line says, or this one.
fn number(word: Option<String>, other: u64) -> u64 {
    match word {
        None => other,
        Some(word) => word.parse::<u64>().unwrap_or(other),
    }
}

fn show_seat(rt: &HostRuntime, entries: u64, times: u64, seat: Option<String>) -> io::Result<()> {
    match seat {
        None => licence::show_each(rt, entries, times),
        Some(seat) => licence::show(rt, seat.as_str(), entries, times),
    }
}

fn show_task(rt: &HostRuntime, task: Option<String>, times: u64) -> io::Result<()> {
    match task {
        None => audit::try_input(rt, None, times),
        Some(word) => match Task::named(word.as_str()) {
            None => println!(rt; "no such task"),
            Some(task) => audit::try_input(rt, Some(task), times),
        },
    }
}

fn show_all(rt: &HostRuntime) -> io::Result<()> {
    store::show(rt, 16, 40)?;
    world::show(rt, 40)?;
    large::show(rt, 16, MOST_CALLS)?;
    licence::show_each(rt, 200, 2)?;
    audit::try_input(rt, None, 1)
}

/// What is done for the first word and those behind it, if any.
fn show(
    rt: &HostRuntime,
    word: &str,
    first: Option<String>,
    second: Option<String>,
    third: Option<String>,
) -> io::Result<()> {
    match word {
        "store" => store::show(rt, number(first, 1024), number(second, 10_000)),
        "world" => world::show(rt, number(first, 1000)),
        "large" => large::show(rt, number(first, 1024), number(second, MOST_CALLS)),
        "licence" => show_seat(rt, number(first, 1000), number(second, 1), third),
        "audit" => show_task(rt, first, number(second, 1)),
        _ => println!(rt; "no such word"),
    }
}

/// The runtime has threads in `main` alone.
fn main(rt: HostRuntime) -> io::Result<()> {
    let mut words = env::args(&rt)?.skip(1);
    let Some(word) = words.next() else {
        return println!(rt; "no word");
    };
    let (first, second, third) = (words.next(), words.next(), words.next());
    match word.as_str() {
        "threads" => threads::show(&rt, rt.alloc(), number(first, 2), number(second, 1000)),
        "all" => {
            show_all(&rt)?;
            threads::show(&rt, rt.alloc(), 0, 40)?;
            threads::show(&rt, rt.alloc(), 3, 40)
        }
        word => show(&rt, word, first, second, third),
    }
}
