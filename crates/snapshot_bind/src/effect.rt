//! What a call of the side store does.

ghost use Rattle.std.specs.Prelude.{◌≡◌, ◌^◌, ◌<◌, IfOk, OnOk, OnErr};
ghost use Rattle.snapshot_bind.specs.SideStore.{AreContents, AreSnapshots, after, reply_of, side_of};

use crate::calls::SnapReply;
use crate::rows::{Content, SnapRow, Snapshot};
use crate::table::{put_content, put_snapshot, take_content, take_snapshot};
use kube_types::copies::OutOfMemory;
use std::alloc::Global;

/// What a call does: it answers and changes nothing, it writes a row, or a row leaves.
#[derive(Debug)]
pub enum Effect {
    Answers(SnapReply),
    PutsSnapshot(Snapshot),
    PutsContent(Content),
    TakesSnapshot(Snapshot),
    TakesContent(Content),
}

impl Drop for Effect {
    fn drop(self) {
        match self {
            Effect::Answers(reply) => drop(reply),
            Effect::PutsSnapshot(snapshot) => drop(snapshot),
            Effect::PutsContent(content) => drop(content),
            Effect::TakesSnapshot(snapshot) => drop(snapshot),
            Effect::TakesContent(content) => drop(content),
        }
    }
}

impl Effect {
    /// Makes the one write, if there is one, and answers it. Out of memory nothing has changed.
    pub fn write(
        self,
        alloc: Global,
        number: &mut u64,
        snapshots: &mut Vec<Snapshot>,
        contents: &mut Vec<Content>,
    ) -> Result<SnapReply, OutOfMemory>
        requires number { number.old < 2 ^ 63 }
        requires snapshots { AreSnapshots snapshots.old.items }
        requires contents { AreContents contents.old.items }
        ensures state { OnOk result (side_of number.new snapshots.new.items contents.new.items ≡ after (side_of number.old snapshots.old.items contents.old.items) self) }
        ensures reply { IfOk result (λ reply. reply ≡ reply_of self) }
        ensures number { OnErr result (number.new ≡ number.old) }
        ensures same_snapshots { OnErr result (snapshots.new.items ≡ snapshots.old.items) }
        ensures same_contents { OnErr result (contents.new.items ≡ contents.old.items) }
        ensures snapshots_rise { AreSnapshots snapshots.new.items }
        ensures contents_rise { AreContents contents.new.items }
    {
        match self {
            Effect::Answers(reply) => Ok(reply),
            Effect::PutsSnapshot(row) => {
                let told = put_snapshot(alloc, snapshots, row)?;
                *number += 1;
                Ok(SnapReply::Made(SnapRow::Snapshot(told)))
            }
            Effect::PutsContent(row) => {
                let told = put_content(alloc, contents, row)?;
                *number += 1;
                Ok(SnapReply::Made(SnapRow::Content(told)))
            }
            Effect::TakesSnapshot(row) => {
                take_snapshot(snapshots, row.namespace.as_str(), row.name.as_str());
                *number += 1;
                Ok(SnapReply::Left(SnapRow::Snapshot(row)))
            }
            Effect::TakesContent(row) => {
                take_content(contents, row.name.as_str());
                *number += 1;
                Ok(SnapReply::Left(SnapRow::Content(row)))
            }
        }
    }
}
