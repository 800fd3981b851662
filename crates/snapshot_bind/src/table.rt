//! Snapshots in the order of namespace and name, and contents in the order of their names.

ghost use Rattle.std.specs.Prelude.{◌≡◌, IfOk, IfErr, OnOk, OnErr, length};
ghost use Rattle.std.specs.Option.{option_copied};
ghost use Rattle.std.specs.List.Sorted.{IsSearchInRange};
ghost use Rattle.snapshot_bind.specs.SideStore.{AreContents, AreSnapshots, IsContentAt, IsContentGap, IsSnapshotAt, IsSnapshotGap, content_at, put_content, put_snapshot, snapshot_at, snapshot_key, without_content, without_snapshot};

use crate::rows::{Content, Snapshot};
use kube_types::copies::{OutOfMemory, Plain};
use kube_types::rows::{Ranked, place_of, put_at};
use std::alloc::Global;
use std::cmp::Ordering;

/// The namespace and the name of a snapshot, lent.
#[derive(Clone, Copy)]
pub struct SnapKey<'a> {
    pub namespace: &'a str,
    pub name: &'a str,
}

impl<'a> Ranked<SnapKey<'a>> for Snapshot {
    ghost use Rattle.snapshot_bind.specs.SideStore.{snap_cmp, snapshot_key};

    ghost rank = { λ s k. snap_cmp (snapshot_key s) (k.namespace.now, k.name.now) };

    fn rank(&self, key: &SnapKey<'a>) -> Ordering {
        let namespace = self.namespace.as_str().cmp(key.namespace);
        namespace.then(self.name.as_str().cmp(key.name))
    }
}

impl<'a> Ranked<&'a str> for Content {
    ghost use Rattle.plain_data.specs.Pairs.{text_cmp};

    ghost rank = { λ c k. text_cmp c.name k.now };

    fn rank(&self, key: &&'a str) -> Ordering {
        let key: &str = key;
        self.name.as_str().cmp(key)
    }
}

/// The place of the snapshot of the key, or the place where it would stand.
fn snapshot_place(rows: &[Snapshot], namespace: &str, name: &str) -> Result<usize, usize>
    requires { AreSnapshots rows.now }
    ensures bound { IsSearchInRange result (length rows.now) }
    ensures at { IfOk result (IsSnapshotAt rows.now (namespace.now, name.now)) }
    ensures gap { IfErr result (IsSnapshotGap rows.now (namespace.now, name.now)) }
{
    place_of(rows, &SnapKey { namespace, name })
}

/// The place of the content of the name, or the place where it would stand.
fn content_place(rows: &[Content], name: &str) -> Result<usize, usize>
    requires { AreContents rows.now }
    ensures bound { IsSearchInRange result (length rows.now) }
    ensures at { IfOk result (IsContentAt rows.now name.now) }
    ensures gap { IfErr result (IsContentGap rows.now name.now) }
{
    place_of(rows, &name)
}

/// The snapshot of the key.
pub fn snapshot_in<'a>(rows: &'a [Snapshot], namespace: &str, name: &str) -> Option<&'a Snapshot>
    requires { AreSnapshots rows.now }
    ensures { option_copied result ≡ snapshot_at (namespace.now, name.now) rows.now }
{
    match snapshot_place(rows, namespace, name) {
        Ok(at) => Some(&rows[at]),
        Err(_) => None,
    }
}

/// The content of the name.
pub fn content_in<'a>(rows: &'a [Content], name: &str) -> Option<&'a Content>
    requires { AreContents rows.now }
    ensures { option_copied result ≡ content_at name.now rows.now }
{
    match content_place(rows, name) {
        Ok(at) => Some(&rows[at]),
        Err(_) => None,
    }
}

/// Writes the snapshot over the one of its key, or at its place in the order, and answers a copy of it.
pub fn put_snapshot(
    alloc: Global,
    rows: &mut Vec<Snapshot>,
    snapshot: Snapshot,
) -> Result<Snapshot, OutOfMemory>
    requires { AreSnapshots rows.old.items }
    ensures told { IfOk result (λ told. told ≡ snapshot) }
    ensures ok { OnOk result (rows.new.items ≡ put_snapshot snapshot rows.old.items) }
    ensures err { OnErr result (rows.new.items ≡ rows.old.items) }
    ensures rising { AreSnapshots rows.new.items }
{
    let place = snapshot_place(rows, snapshot.namespace.as_str(), snapshot.name.as_str());
    put_at(alloc, rows, place, snapshot)
}

/// Writes the content over the one of its name, or at its place in the order, and answers a copy of it.
pub fn put_content(
    alloc: Global,
    rows: &mut Vec<Content>,
    content: Content,
) -> Result<Content, OutOfMemory>
    requires { AreContents rows.old.items }
    ensures told { IfOk result (λ told. told ≡ content) }
    ensures ok { OnOk result (rows.new.items ≡ put_content content rows.old.items) }
    ensures err { OnErr result (rows.new.items ≡ rows.old.items) }
    ensures rising { AreContents rows.new.items }
{
    let place = content_place(rows, content.name.as_str());
    put_at(alloc, rows, place, content)
}

/// Takes the snapshot of the key out.
pub fn take_snapshot(rows: &mut Vec<Snapshot>, namespace: &str, name: &str)
    requires { AreSnapshots rows.old.items }
    ensures without { rows.new.items ≡ without_snapshot (namespace.now, name.now) rows.old.items }
    ensures rising { AreSnapshots rows.new.items }
{
    match snapshot_place(rows, namespace, name) {
        Ok(at) => {
            let _ = rows.remove(at);
        }
        Err(_) => {}
    }
}

/// Takes the content of the name out.
pub fn take_content(rows: &mut Vec<Content>, name: &str)
    requires { AreContents rows.old.items }
    ensures without { rows.new.items ≡ without_content name.now rows.old.items }
    ensures rising { AreContents rows.new.items }
{
    match content_place(rows, name) {
        Ok(at) => {
            let _ = rows.remove(at);
        }
        Err(_) => {}
    }
}
