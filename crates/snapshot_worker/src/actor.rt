//! The worker.

ghost use Rattle.std.specs.Prelude.{◌≡◌, IfOk, OnErr, OnOk, false, is_some};
ghost use Rattle.snapshot_worker.specs.Workers.{ListsInOrder, absorb_of, after_call, after_content, after_get, content_ask, drop_content, drop_snapshot, first_ask, is_look, keep_row, listed_from, new_worker, next_of, snapshot_ask, take_row};

use crate::asking::{first_ask, first_asking};
use crate::rules::{ContentRule, SnapshotRule};
use crate::seen::{SeenContent, SeenSnapshot};
use crate::table::{
    drop_content, drop_snapshot, fresh_contents, fresh_snapshots, keep_content, keep_snapshot,
    look_for, take_content, take_snapshot, uids_of,
};
use kube_types::copies::OutOfMemory;
use snapshot_bind::calls::{SnapAsk, SnapReply};
use snapshot_bind::rows::SnapRow;
use std::alloc::Global;
use std::marker::Model;

/// A worker that binds snapshots, and erases what is left of those that were deleted.
pub struct SnapActor {
    alloc: Global,
    listed: bool,
    snapshots: Vec<SeenSnapshot>,
    contents: Vec<SeenContent>,
    uids: Vec<u64>,
}

impl Drop for SnapActor {
    fn drop(self) {
        let SnapActor {
            alloc: _,
            listed: _,
            snapshots,
            contents,
            uids,
        } = self;
        drop(snapshots);
        drop(contents);
        drop(uids);
    }
}

impl Model for SnapActor {
    ghost use Rattle.snapshot_worker.specs.Workers.{Worker};
    ghost use Rattle.snapshot_worker.specs.Steps.Kept.{AreSeenContents, AreSeenSnapshots};

    ghost Value = { Worker };

    ghost view = { λ a. record { listed = a.listed; snapshots = a.snapshots.items; contents = a.contents.items; uids = a.uids.items } };

    ghost invariant = { λ a. AreSeenSnapshots a.snapshots.items × AreSeenContents a.contents.items };
}

/// Whether the call is a look.
fn is_look(ask: &SnapAsk) -> bool
    ensures { result ≡ is_look ask.now }
{
    match ask {
        SnapAsk::SnapGet { .. } => true,
        _ => false,
    }
}

impl SnapActor {
    /// A worker that was told nothing. It takes no memory.
    pub fn new(alloc: Global) -> SnapActor
        ensures { result ≡ new_worker }
    {
        SnapActor {
            alloc,
            listed: false,
            snapshots: Vec::new(alloc),
            contents: Vec::new(alloc),
            uids: Vec::new(alloc),
        }
    }

    /// Begins with a list again.
    pub fn wake(&mut self)
        ensures { self.new ≡ record self.old { listed = false } }
    {
        self.listed = false;
    }

    /// What it asks next. None exactly where it was told a list since it was woken and no row asks for more.
    pub fn next(&self) -> Result<Option<SnapAsk>, OutOfMemory>
        ensures { IfOk result (λ ask. ask ≡ next_of self.now) }
    {
        if !self.listed {
            return Ok(Some(SnapAsk::SnapList));
        }
        let rule = SnapshotRule {
            contents: &self.contents,
        };
        let ask = first_ask(self.alloc, &rule, &self.snapshots)?;
        if ask.is_some() {
            return Ok(ask);
        }
        first_ask(
            self.alloc,
            &ContentRule { uids: &self.uids },
            &self.contents,
        )
    }

    /// Whether it is a snapshot that asks next.
    fn asks_for_snapshot(&self) -> bool
        ensures { result ≡ is_some (first_ask (snapshot_ask self.now.contents) self.now.snapshots) }
    {
        let rule = SnapshotRule {
            contents: &self.contents,
        };
        first_asking(&rule, &self.snapshots).is_some()
    }

    fn begin(&mut self, reply: &SnapReply) -> Result<(), OutOfMemory>
        requires { ListsInOrder reply.now }
        ensures state { OnOk result (self.new ≡ listed_from self.old reply.now) }
        ensures err { OnErr result (self.new ≡ self.old) }
    {
        match reply {
            SnapReply::Listed {
                snapshots,
                contents,
                number: _,
            } => {
                let kept_snapshots = fresh_snapshots(self.alloc, snapshots.as_slice())?;
                let kept_contents = fresh_contents(self.alloc, contents.as_slice())?;
                let uids = uids_of(self.alloc, snapshots.as_slice())?;
                self.listed = true;
                self.snapshots = kept_snapshots;
                self.contents = kept_contents;
                self.uids = uids;
                Ok(())
            }
            _ => Ok(()),
        }
    }

    fn keep_row(&mut self, row: &SnapRow) -> Result<(), OutOfMemory>
        ensures state { OnOk result (self.new ≡ keep_row self.old row.now) }
        ensures err { OnErr result (self.new ≡ self.old) }
    {
        match row {
            SnapRow::Snapshot(row) => keep_snapshot(self.alloc, &mut self.snapshots, row),
            SnapRow::Content(row) => keep_content(self.alloc, &mut self.contents, row),
        }
    }

    fn take_row(&mut self, row: &SnapRow)
        ensures { self.new ≡ take_row self.old row.now }
    {
        match row {
            SnapRow::Snapshot(row) => take_snapshot(
                &mut self.snapshots,
                row.namespace.as_str(),
                row.name.as_str(),
            ),
            SnapRow::Content(row) => take_content(&mut self.contents, row.name.as_str()),
        }
    }

    fn drop_snapshot(&mut self)
        ensures { self.new ≡ drop_snapshot self.old }
    {
        drop_snapshot(&self.contents, &mut self.snapshots);
    }

    fn drop_content(&mut self)
        ensures { self.new ≡ drop_content self.old }
    {
        drop_content(&self.uids, &mut self.contents);
    }

    fn after_get(&mut self, reply: &SnapReply)
        ensures { self.new ≡ after_get self.old reply.now }
    {
        look_for(&self.uids, &mut self.contents, reply);
    }

    fn after_snapshot(&mut self, reply: &SnapReply) -> Result<(), OutOfMemory>
        ensures state { OnOk result (self.new ≡ after_call self.old reply.now (drop_snapshot self.old)) }
        ensures err { OnErr result (self.new ≡ self.old) }
    {
        match reply {
            SnapReply::Made(row) => self.keep_row(row),
            SnapReply::Left(row) => {
                self.take_row(row);
                Ok(())
            }
            _ => {
                self.drop_snapshot();
                Ok(())
            }
        }
    }

    fn after_content(&mut self, ask: &SnapAsk, reply: &SnapReply) -> Result<(), OutOfMemory>
        ensures state { OnOk result (self.new ≡ after_content self.old ask.now reply.now) }
        ensures err { OnErr result (self.new ≡ self.old) }
    {
        if is_look(ask) {
            self.after_get(reply);
            return Ok(());
        }
        match reply {
            SnapReply::Made(row) => self.keep_row(row),
            SnapReply::Left(row) => {
                self.take_row(row);
                Ok(())
            }
            _ => {
                self.drop_content();
                Ok(())
            }
        }
    }

    /// Keeps what the answer to its next ask tells. Out of memory nothing has changed.
    pub fn absorb(&mut self, ask: &SnapAsk, reply: &SnapReply) -> Result<(), OutOfMemory>
        requires { ListsInOrder reply.now }
        ensures state { OnOk result (self.new ≡ absorb_of self.old ask.now reply.now) }
        ensures err { OnErr result (self.new ≡ self.old) }
    {
        if !self.listed {
            return self.begin(reply);
        }
        if self.asks_for_snapshot() {
            return self.after_snapshot(reply);
        }
        self.after_content(ask, reply)
    }
}
