//! What the queue gives.

use crate::caches::words::key;
use crate::words::word;
use plain_data::copies::OutOfMemory;
use std::alloc::Global;
use sync_queue::queue::Queue;

pub fn add(alloc: Global, queue: &mut Queue, words: &str) -> Result<String, OutOfMemory> {
    let key = key(alloc, words)?;
    queue.add(&key)?;
    word(alloc, "added")
}

pub fn take(alloc: Global, queue: &mut Queue) -> Result<String, OutOfMemory> {
    match queue.take() {
        None => word(alloc, "none"),
        Some(key) => word(alloc, key.name.as_str()),
    }
}

pub fn done(alloc: Global, queue: &mut Queue, words: &str) -> Result<String, OutOfMemory> {
    let key = key(alloc, words)?;
    queue.done(&key);
    word(alloc, "done")
}

pub fn later(alloc: Global, queue: &mut Queue, words: &str) -> Result<String, OutOfMemory> {
    let key = key(alloc, words)?;
    queue.retry_later(&key);
    word(alloc, "later")
}

pub fn wake(alloc: Global, queue: &mut Queue) -> Result<String, OutOfMemory> {
    queue.wake();
    word(alloc, "woken")
}

pub fn waiting(alloc: Global, queue: &Queue) -> Result<String, OutOfMemory> {
    let count = queue.len();
    Ok(format!(in alloc; "{count} waiting")?)
}
