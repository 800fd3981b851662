//! What a row asks for, by the worker's rules.

ghost use Rattle.std.specs.Prelude.{◌≡◌, ◌&&◌, Bool, IfOk, is_some, not};
ghost use Rattle.std.specs.Option.{option_copied};
ghost use Rattle.kube_objects.specs.Bindings.{is_delete};
ghost use Rattle.snapshot_worker.specs.Workers.{bound_ask, content_ask, erasing_ask, first_content, has_this_uid, is_among, is_free_for, is_same_uid, snapshot_ask, waiting_ask};

use crate::asking::Asking;
use crate::seen::{SeenContent, SeenSnapshot};
use kube_types::bindings::is_empty;
use kube_types::copies::{OutOfMemory, Plain};
use kube_types::parts::Policy;
use snapshot_bind::calls::SnapAsk;
use snapshot_bind::rows::{Content, Snapshot};
use std::alloc::Global;

/// Which values are wanted.
trait Picks<X> {
    ghost picks: { Self → X → Bool };

    fn picks(&self, value: &X) -> bool
        ensures { result ≡ picks self.now value.now };
}

/// Whether the UID is there, and is this one.
pub fn is_same_uid(own: Option<u64>, uid: u64) -> bool
    ensures { result ≡ is_same_uid own uid }
{
    match own {
        None => false,
        Some(own) => own == uid,
    }
}

/// The content has the UID.
#[derive(Drop)]
struct HasUid {
    uid: u64,
}

impl Picks<Content> for HasUid {
    ghost use Rattle.snapshot_worker.specs.Workers.{has_this_uid};

    ghost picks = { λ t c. has_this_uid t.uid c };

    fn picks(&self, content: &Content) -> bool {
        is_same_uid(content.uid, self.uid)
    }
}

/// The content is for the snapshot, and has no UID.
#[derive(Drop)]
struct FreeFor<'a> {
    snapshot: &'a Snapshot,
}

impl<'a> Picks<Content> for FreeFor<'a> {
    ghost use Rattle.snapshot_worker.specs.Workers.{is_free_for};

    ghost picks = { λ t c. is_free_for t.snapshot.now c };

    fn picks(&self, content: &Content) -> bool {
        content.uid.is_none()
            && content.namespace.is(self.snapshot.namespace.as_str())
            && content.snapshot.is(self.snapshot.name.as_str())
    }
}

/// The first content that is wanted.
fn first_content<'a, T: Picks<Content>>(wanted: &T, rows: &'a [SeenContent]) -> Option<&'a Content>
    ensures { option_copied result ≡ first_content (T.picks wanted.now) rows.now }
{
    for seen in rows {
        if wanted.picks(&seen.row) {
            return Some(&seen.row);
        }
    }
    None
}

fn content_with<'a>(uid: u64, rows: &'a [SeenContent]) -> Option<&'a Content>
    ensures { option_copied result ≡ first_content (has_this_uid uid) rows.now }
{
    first_content(&HasUid { uid }, rows)
}

fn content_free_for<'a>(snapshot: &Snapshot, rows: &'a [SeenContent]) -> Option<&'a Content>
    ensures { option_copied result ≡ first_content (is_free_for snapshot.now) rows.now }
{
    first_content(&FreeFor { snapshot }, rows)
}

fn waiting_has_ask(snapshot: &Snapshot, bound: Option<&Content>, free: Option<&Content>) -> bool
    ensures { result ≡ is_some (waiting_ask snapshot.now (option_copied bound.entry) (option_copied free.entry)) }
{
    match bound {
        Some(_) => true,
        None => match free {
            Some(_) => true,
            None => !is_empty(&snapshot.claim),
        },
    }
}

fn waiting_ask(
    alloc: Global,
    snapshot: &Snapshot,
    bound: Option<&Content>,
    free: Option<&Content>,
) -> Result<Option<SnapAsk>, OutOfMemory>
    ensures { IfOk result (λ ask. ask ≡ waiting_ask snapshot.now (option_copied bound.entry) (option_copied free.entry)) }
{
    match bound {
        Some(content) => Ok(Some(SnapAsk::BindSnapshot {
            namespace: snapshot.namespace.copy(alloc)?,
            name: snapshot.name.copy(alloc)?,
            version: snapshot.version,
            content: content.name.copy(alloc)?,
        })),
        None => match free {
            Some(content) => Ok(Some(SnapAsk::BindContent {
                name: content.name.copy(alloc)?,
                version: content.version,
                uid: snapshot.uid,
            })),
            None => {
                if is_empty(&snapshot.claim) {
                    return Ok(None);
                }
                Ok(Some(SnapAsk::Cut {
                    namespace: snapshot.namespace.copy(alloc)?,
                    name: snapshot.name.copy(alloc)?,
                    uid: snapshot.uid,
                }))
            }
        },
    }
}

/// What a snapshot asks for, beside these contents.
#[derive(Drop)]
pub struct SnapshotRule<'a> {
    pub contents: &'a [SeenContent],
}

impl<'a> Asking<SeenSnapshot> for SnapshotRule<'a> {
    ghost use Rattle.snapshot_worker.specs.Workers.{snapshot_ask};

    ghost asks = { λ t x. snapshot_ask t.contents.now x };

    fn has_ask(&self, seen: &SeenSnapshot) -> bool {
        if seen.dropped {
            return false;
        }
        if seen.row.deleting {
            return true;
        }
        if !is_empty(&seen.row.content) {
            return false;
        }
        let bound = content_with(seen.row.uid, self.contents);
        let free = content_free_for(&seen.row, self.contents);
        waiting_has_ask(&seen.row, bound, free)
    }

    fn ask(&self, alloc: Global, seen: &SeenSnapshot) -> Result<Option<SnapAsk>, OutOfMemory> {
        if seen.dropped {
            return Ok(None);
        }
        if seen.row.deleting {
            return Ok(Some(SnapAsk::DropSnapshot {
                namespace: seen.row.namespace.copy(alloc)?,
                name: seen.row.name.copy(alloc)?,
                version: seen.row.version,
            }));
        }
        if !is_empty(&seen.row.content) {
            return Ok(None);
        }
        let bound = content_with(seen.row.uid, self.contents);
        let free = content_free_for(&seen.row, self.contents);
        waiting_ask(alloc, &seen.row, bound, free)
    }
}

/// Whether the UID stands in the list.
fn is_among(uid: u64, uids: &[u64]) -> bool
    ensures { result ≡ is_among uid uids.now }
{
    for own in uids {
        if *own == uid {
            return true;
        }
    }
    false
}

fn is_delete(policy: Policy) -> bool
    ensures { result ≡ is_delete policy }
{
    match policy {
        Policy::Delete => true,
        _ => false,
    }
}

/// Whether the content is to be erased once its snapshot is looked for.
fn is_left(uids: &[u64], seen: &SeenContent, uid: u64) -> bool
    ensures { result ≡ is_delete seen.now.row.policy && not (is_among uid uids.now) }
{
    is_delete(seen.row.policy) && !is_among(uid, uids)
}

fn erasing_ask(alloc: Global, seen: &SeenContent) -> Result<Option<SnapAsk>, OutOfMemory>
    ensures { IfOk result (λ ask. ask ≡ erasing_ask seen.now) }
{
    if seen.gone {
        return Ok(Some(SnapAsk::EraseSnap {
            name: seen.row.name.copy(alloc)?,
            version: seen.row.version,
        }));
    }
    Ok(Some(SnapAsk::SnapGet {
        namespace: seen.row.namespace.copy(alloc)?,
        name: seen.row.snapshot.copy(alloc)?,
    }))
}

fn bound_has_ask(uids: &[u64], seen: &SeenContent, uid: u64) -> bool
    ensures { result ≡ is_some (bound_ask uids.now seen.now uid) }
{
    if !seen.row.there {
        return true;
    }
    is_left(uids, seen, uid)
}

/// What a content with the UID asks for.
fn bound_ask(
    alloc: Global,
    uids: &[u64],
    seen: &SeenContent,
    uid: u64,
) -> Result<Option<SnapAsk>, OutOfMemory>
    ensures { IfOk result (λ ask. ask ≡ bound_ask uids.now seen.now uid) }
{
    if !seen.row.there {
        return Ok(Some(SnapAsk::DropContent {
            name: seen.row.name.copy(alloc)?,
            version: seen.row.version,
        }));
    }
    if !is_left(uids, seen, uid) {
        return Ok(None);
    }
    erasing_ask(alloc, seen)
}

/// What a content asks for, where the last list had snapshots of these UIDs.
#[derive(Drop)]
pub struct ContentRule<'a> {
    pub uids: &'a [u64],
}

impl<'a> Asking<SeenContent> for ContentRule<'a> {
    ghost use Rattle.snapshot_worker.specs.Workers.{content_ask};

    ghost asks = { λ t x. content_ask t.uids.now x };

    fn has_ask(&self, seen: &SeenContent) -> bool {
        if seen.dropped {
            return false;
        }
        match seen.row.uid {
            None => false,
            Some(uid) => bound_has_ask(self.uids, seen, uid),
        }
    }

    fn ask(&self, alloc: Global, seen: &SeenContent) -> Result<Option<SnapAsk>, OutOfMemory> {
        if seen.dropped {
            return Ok(None);
        }
        match seen.row.uid {
            None => Ok(None),
            Some(uid) => bound_ask(alloc, self.uids, seen, uid),
        }
    }
}
