//! Which family answers a line, and what each of them stands on.

use crate::side::Side;
use crate::{served, side, snapshots, texts};
use plain_data::copies::OutOfMemory;
use sample_objects::lines::{split, word};
use snapshot_bind::store::SnapStore;
use std::alloc::Global;
use store_server::server::Server;

/// What stands while the lines are read.
pub struct Benches {
    side: Side,
    snaps: SnapStore,
    text: String,
    server: Server,
}

impl Drop for Benches {
    fn drop(self) {
        let Benches {
            side,
            snaps,
            text,
            server,
        } = self;
        drop(side);
        drop(snaps);
        drop(text);
        drop(server);
    }
}

impl Benches {
    /// Nothing that was given or told.
    pub fn new(alloc: Global) -> Result<Benches, OutOfMemory> {
        Ok(Benches {
            side: Side::new(alloc)?,
            snaps: SnapStore::new(alloc),
            text: String::new(alloc),
            server: Server::new(alloc, true),
        })
    }

    /// What is written for a line.
    pub fn answer(&mut self, alloc: Global, asked: &str) -> Result<String, OutOfMemory> {
        let (family, rest) = split(asked);
        match family {
            "side" => side::answer(alloc, &mut self.side, rest),
            "snap" => snapshots::answer(alloc, &mut self.snaps, &self.side.objects, rest),
            "text" => texts::answer(alloc, &mut self.text, rest),
            "serve" => served::answer(alloc, &mut self.server, rest),
            _ => word(alloc, "no such family"),
        }
    }
}
