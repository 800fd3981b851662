//! The rows that a worker keeps, in the order of their keys.

ghost use Rattle.std.specs.Prelude.{◌≡◌, IfErr, IfOk, OnErr, OnOk, length, map};
ghost use Rattle.std.specs.List.Sorted.{IsSearchInRange};
ghost use Rattle.plain_data.specs.Pairs.{text_cmp};
ghost use Rattle.plain_data.specs.Rows.{IsAt, IsGap, placed_row, put, without};
ghost use Rattle.snapshot_bind.specs.SideStore.{snap_cmp};
ghost use Rattle.snapshot_worker.specs.Workers.{change_first, content_ask, dropped_content, dropped_snapshot, fresh_content, fresh_snapshot, lacks_uid, looked_for, seen_key, seen_name, snapshot_ask};
ghost use Rattle.snapshot_worker.specs.Steps.Kept.{AreSeenContents, AreSeenSnapshots, uid_of};

use crate::asking::first_asking;
use crate::rules::{ContentRule, SnapshotRule, is_same_uid};
use crate::seen::{SeenContent, SeenSnapshot};
use kube_types::copies::{OutOfMemory, Plain};
use kube_types::rows::{Ranked, place_of};
use snapshot_bind::calls::{SnapRefusal, SnapReply};
use snapshot_bind::rows::{Content, Snapshot};
use snapshot_bind::table::SnapKey;
use std::alloc::Global;
use std::cmp::Ordering;

impl<'a> Ranked<SnapKey<'a>> for SeenSnapshot {
    ghost use Rattle.snapshot_bind.specs.SideStore.{snap_cmp};
    ghost use Rattle.snapshot_worker.specs.Workers.{seen_key};

    ghost rank = { λ x k. snap_cmp (seen_key x) (k.namespace.now, k.name.now) };

    fn rank(&self, key: &SnapKey<'a>) -> Ordering {
        self.row.rank(key)
    }
}

impl<'a> Ranked<&'a str> for SeenContent {
    ghost use Rattle.plain_data.specs.Pairs.{text_cmp};
    ghost use Rattle.snapshot_worker.specs.Workers.{seen_name};

    ghost rank = { λ x k. text_cmp (seen_name x) k.now };

    fn rank(&self, key: &&'a str) -> Ordering {
        self.row.rank(key)
    }
}

/// The snapshots of a list, as they are kept.
pub fn fresh_snapshots(alloc: Global, rows: &[Snapshot]) -> Result<Vec<SeenSnapshot>, OutOfMemory>
    ensures { IfOk result (λ kept. kept.items ≡ map fresh_snapshot rows.now) }
{
    let mut kept = Vec::new(alloc);
    for row in rows {
        kept.push(SeenSnapshot {
            row: row.copy(alloc)?,
            dropped: false,
        })?;
    }
    Ok(kept)
}

/// The contents of a list, as they are kept.
pub fn fresh_contents(alloc: Global, rows: &[Content]) -> Result<Vec<SeenContent>, OutOfMemory>
    ensures { IfOk result (λ kept. kept.items ≡ map fresh_content rows.now) }
{
    let mut kept = Vec::new(alloc);
    for row in rows {
        kept.push(SeenContent {
            row: row.copy(alloc)?,
            dropped: false,
            gone: false,
        })?;
    }
    Ok(kept)
}

/// The UIDs of the snapshots of a list.
pub fn uids_of(alloc: Global, rows: &[Snapshot]) -> Result<Vec<u64>, OutOfMemory>
    ensures { IfOk result (λ kept. kept.items ≡ map uid_of rows.now) }
{
    let mut kept = Vec::new(alloc);
    for row in rows {
        kept.push(row.uid)?;
    }
    Ok(kept)
}

/// Puts the row at a place that `place_of` gives.
fn place_at<T: Plain>(
    rows: &mut Vec<T>,
    place: Result<usize, usize>,
    row: T,
) -> Result<(), OutOfMemory>
    requires { IsSearchInRange place (length rows.old.items) }
    ensures ok { OnOk result (rows.new.items ≡ placed_row rows.old.items place row) }
    ensures err { OnErr result (rows.new.items ≡ rows.old.items) }
{
    match place {
        Ok(at) => rows[at] = row,
        Err(at) => rows.insert(at, row)?,
    }
    Ok(())
}

/// The place of the snapshot of the key, or the place where it would stand.
fn snapshot_place(rows: &[SeenSnapshot], namespace: &str, name: &str) -> Result<usize, usize>
    requires { AreSeenSnapshots rows.now }
    ensures bound { IsSearchInRange result (length rows.now) }
    ensures at { IfOk result (IsAt snap_cmp seen_key (namespace.now, name.now) rows.now) }
    ensures gap { IfErr result (IsGap snap_cmp seen_key (namespace.now, name.now) rows.now) }
{
    place_of(rows, &SnapKey { namespace, name })
}

/// The place of the content of the name, or the place where it would stand.
fn content_place(rows: &[SeenContent], name: &str) -> Result<usize, usize>
    requires { AreSeenContents rows.now }
    ensures bound { IsSearchInRange result (length rows.now) }
    ensures at { IfOk result (IsAt text_cmp seen_name name.now rows.now) }
    ensures gap { IfErr result (IsGap text_cmp seen_name name.now rows.now) }
{
    place_of(rows, &name)
}

/// Keeps a snapshot that a call wrote.
pub fn keep_snapshot(
    alloc: Global,
    rows: &mut Vec<SeenSnapshot>,
    row: &Snapshot,
) -> Result<(), OutOfMemory>
    requires { AreSeenSnapshots rows.old.items }
    ensures ok { OnOk result (rows.new.items ≡ put snap_cmp seen_key (fresh_snapshot row.now) rows.old.items) }
    ensures err { OnErr result (rows.new.items ≡ rows.old.items) }
    ensures rising { AreSeenSnapshots rows.new.items }
{
    let seen = SeenSnapshot {
        row: row.copy(alloc)?,
        dropped: false,
    };
    let place = snapshot_place(rows, row.namespace.as_str(), row.name.as_str());
    place_at(rows, place, seen)
}

/// Keeps a content that a call wrote.
pub fn keep_content(
    alloc: Global,
    rows: &mut Vec<SeenContent>,
    row: &Content,
) -> Result<(), OutOfMemory>
    requires { AreSeenContents rows.old.items }
    ensures ok { OnOk result (rows.new.items ≡ put text_cmp seen_name (fresh_content row.now) rows.old.items) }
    ensures err { OnErr result (rows.new.items ≡ rows.old.items) }
    ensures rising { AreSeenContents rows.new.items }
{
    let seen = SeenContent {
        row: row.copy(alloc)?,
        dropped: false,
        gone: false,
    };
    let place = content_place(rows, row.name.as_str());
    place_at(rows, place, seen)
}

/// The snapshot of the key left.
pub fn take_snapshot(rows: &mut Vec<SeenSnapshot>, namespace: &str, name: &str)
    requires { AreSeenSnapshots rows.old.items }
    ensures without { rows.new.items ≡ without snap_cmp seen_key (namespace.now, name.now) rows.old.items }
    ensures rising { AreSeenSnapshots rows.new.items }
{
    match snapshot_place(rows, namespace, name) {
        Ok(at) => {
            let _ = rows.remove(at);
        }
        Err(_) => {}
    }
}

/// The content of the name left.
pub fn take_content(rows: &mut Vec<SeenContent>, name: &str)
    requires { AreSeenContents rows.old.items }
    ensures without { rows.new.items ≡ without text_cmp seen_name name.now rows.old.items }
    ensures rising { AreSeenContents rows.new.items }
{
    match content_place(rows, name) {
        Ok(at) => {
            let _ = rows.remove(at);
        }
        Err(_) => {}
    }
}

/// The snapshot that asked asks for nothing until the next list.
pub fn drop_snapshot(contents: &[SeenContent], rows: &mut Vec<SeenSnapshot>)
    ensures { rows.new.items ≡ change_first (snapshot_ask contents.now) dropped_snapshot rows.old.items }
{
    if let Some(at) = first_asking(&SnapshotRule { contents }, rows) {
        rows[at].dropped = true;
    }
}

/// The content that asked asks for nothing until the next list.
pub fn drop_content(uids: &[u64], rows: &mut Vec<SeenContent>)
    ensures { rows.new.items ≡ change_first (content_ask uids.now) dropped_content rows.old.items }
{
    if let Some(at) = first_asking(&ContentRule { uids }, rows) {
        rows[at].dropped = true;
    }
}

/// Whether the answer to a look tells that no snapshot of the key has the UID.
fn lacks_uid(own: Option<u64>, reply: &SnapReply) -> bool
    ensures { result ≡ lacks_uid own reply.now }
{
    match reply {
        SnapReply::Found(row) => !is_same_uid(own, row.uid),
        SnapReply::Refused(why) => match why {
            SnapRefusal::NotFound => true,
            _ => false,
        },
        _ => false,
    }
}

/// The content for whose snapshot was looked is to be erased, or asks for nothing until the next list.
pub fn look_for(uids: &[u64], rows: &mut Vec<SeenContent>, reply: &SnapReply)
    ensures { rows.new.items ≡ change_first (content_ask uids.now) (looked_for reply.now) rows.old.items }
{
    if let Some(at) = first_asking(&ContentRule { uids }, rows) {
        if lacks_uid(rows[at].row.uid, reply) {
            rows[at].gone = true;
        } else {
            rows[at].dropped = true;
        }
    }
}
