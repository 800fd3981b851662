//! Which family answers a line, and what each of them stands on.

use crate::evidence::Seat;
use crate::words::{line, word};
use crate::worlds::Worlds;
use crate::{actors, evidence, store, worlds};
use call_types::request::SeatKind;
use plain_data::copies::OutOfMemory;
use sample_objects::lines::split;
use std::alloc::Global;

/// What stands while the lines are read.
pub struct Benches {
    store: store::Bench,
    worlds: Worlds,
    seat: Seat,
    actors: actors::Bench,
}

impl Drop for Benches {
    fn drop(self) {
        let Benches {
            store,
            worlds,
            seat,
            actors,
        } = self;
        drop(store);
        drop(worlds);
        drop(seat);
        drop(actors);
    }
}

impl Benches {
    /// Nothing that was created or told.
    pub fn new(alloc: Global) -> Result<Benches, OutOfMemory> {
        Ok(Benches {
            store: store::Bench::new(alloc)?,
            worlds: Worlds::new(alloc)?,
            seat: Seat::new(alloc, SeatKind::Binder),
            actors: actors::Bench::new(alloc)?,
        })
    }

    /// What is written for a line: whole lines, or nothing.
    pub fn answer(&mut self, alloc: Global, asked: &str) -> Result<String, OutOfMemory> {
        let (family, rest) = split(asked);
        match family {
            "store" => line(alloc, store::answer(alloc, &mut self.store, rest)?),
            "world" => line(alloc, worlds::answer(alloc, &mut self.worlds, rest)?),
            "evidence" => {
                let said = evidence::answer(alloc, &mut self.seat, rest)?;
                line(alloc, Some(word(alloc, said)?))
            }
            "actor" => actors::answer(alloc, &mut self.actors, rest),
            _ => word(alloc, "no such family\n"),
        }
    }
}
