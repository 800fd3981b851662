//! Lines of the caches and of the queue of an actor: each is one call on those that stand.
//!
//! A key is three words: `class`, `node`, `volume`, `claim` or `pod`, the namespace and the name; `-` stands for what is empty
//! or absent.

mod bench;
mod queues;
mod tellings;
mod words;

pub use crate::caches::bench::Bench;
use crate::words::word;
use informer_cache::caches::Caches;
use plain_data::copies::OutOfMemory;
use sample_objects::lines::split;
use std::alloc::Global;
use sync_queue::queue::Queue;

fn of_queue(
    alloc: Global,
    queue: &mut Queue,
    verb: &str,
    rest: &str,
) -> Result<String, OutOfMemory> {
    match verb {
        "add" => queues::add(alloc, queue, rest),
        "take" => queues::take(alloc, queue),
        "done" => queues::done(alloc, queue, rest),
        "later" => queues::later(alloc, queue, rest),
        "wake" => queues::wake(alloc, queue),
        "waiting" => queues::waiting(alloc, queue),
        _ => word(alloc, "no such call"),
    }
}

fn shown(alloc: Global, caches: &Caches, verb: &str, rest: &str) -> Result<String, OutOfMemory> {
    match verb {
        "ask" => tellings::ask(alloc, caches, rest),
        "rows" => tellings::rows(alloc, caches, rest),
        "row" => tellings::row(alloc, caches, rest),
        "place" => tellings::place(alloc, caches, rest),
        _ => tellings::alone(alloc, rest),
    }
}

fn of_caches(
    alloc: Global,
    caches: &mut Caches,
    verb: &str,
    rest: &str,
) -> Result<String, OutOfMemory> {
    match verb {
        "listed" => tellings::listed(alloc, caches, rest),
        "watched" => tellings::watched(alloc, caches, rest),
        "gone" => tellings::gone(alloc, caches, rest),
        "note" => tellings::note(alloc, caches, rest),
        "forget" => tellings::forget(alloc, caches, rest),
        _ => word(alloc, "no such call"),
    }
}

fn clear(alloc: Global, bench: &mut Bench) -> Result<String, OutOfMemory> {
    *bench = Bench::new(alloc);
    word(alloc, "new")
}

/// What is written for a line.
pub fn answer(alloc: Global, bench: &mut Bench, line: &str) -> Result<String, OutOfMemory> {
    let (verb, rest) = split(line);
    match verb {
        "new" => clear(alloc, bench),
        "listed" | "watched" | "gone" | "note" | "forget" => {
            of_caches(alloc, &mut bench.caches, verb, rest)
        }
        "ask" | "rows" | "row" | "place" | "alone" => shown(alloc, &bench.caches, verb, rest),
        _ => of_queue(alloc, &mut bench.queue, verb, rest),
    }
}
