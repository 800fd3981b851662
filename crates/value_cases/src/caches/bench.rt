//! What stands while the lines are read.

use informer_cache::caches::Caches;
use std::alloc::Global;
use sync_queue::queue::Queue;

/// Caches of all kinds, and a queue.
#[derive(Drop)]
pub struct Bench {
    pub caches: Caches,
    pub queue: Queue,
}

impl Bench {
    pub fn new(alloc: Global) -> Bench {
        Bench {
            caches: Caches::new(alloc),
            queue: Queue::new(alloc),
        }
    }
}
