//! What is asked of the rows that a worker was told.

ghost use Rattle.std.specs.Prelude.{◌≡◌, ◌↔◌, IsTrue, reverse};
ghost use Rattle.snapshot_bind.specs.Licences.{HasSome, IsContentOf, IsOther, IsSnapshotOf, IsWaiting, LacksOwner, SomeOf, ToldContent, ToldSnapshot, contents_in, snapshots_in};

use crate::calls::{SnapAsk, SnapEntry, SnapRefusal, SnapReply};
use crate::rows::{Content, SnapRow, Snapshot};
use kube_types::copies::Plain;
use kube_types::parts::Policy;
use kube_types::text::Text;

/// A condition on a value.
pub trait Condition<X> {
    ghost allows: { Self → X → Type 0 };

    fn holds(&self, value: &X) -> bool
        ensures { IsTrue result ↔ allows self.now value.now };
}

/// Whether the condition holds of one of the values.
fn some_of<X, T: Condition<X>>(condition: &T, values: &[X]) -> bool
    ensures { IsTrue result ↔ SomeOf (T.allows condition.now) values.now }
{
    for value in values {
        if condition.holds(value) {
            return true;
        }
    }
    false
}

/// Whether the answer tells a snapshot of which the condition holds.
fn tells_snapshot<T: Condition<Snapshot>>(condition: &T, reply: &SnapReply) -> bool
    ensures { IsTrue result ↔ SomeOf (T.allows condition.now) (snapshots_in reply.now) }
{
    match reply {
        SnapReply::Listed { snapshots, .. } => some_of(condition, snapshots.as_slice()),
        SnapReply::Found(row) => condition.holds(row),
        SnapReply::Made(row) => match row {
            SnapRow::Snapshot(row) => condition.holds(row),
            SnapRow::Content(_) => false,
        },
        SnapReply::Left(_) | SnapReply::Refused(_) => false,
    }
}

/// Whether the answer tells a content of which the condition holds.
fn tells_content<T: Condition<Content>>(condition: &T, reply: &SnapReply) -> bool
    ensures { IsTrue result ↔ SomeOf (T.allows condition.now) (contents_in reply.now) }
{
    match reply {
        SnapReply::Listed { contents, .. } => some_of(condition, contents.as_slice()),
        SnapReply::Made(row) => match row {
            SnapRow::Content(row) => condition.holds(row),
            SnapRow::Snapshot(_) => false,
        },
        SnapReply::Found(_) | SnapReply::Left(_) | SnapReply::Refused(_) => false,
    }
}

#[derive(Drop)]
struct TellsSnapshot<'a, T> {
    condition: &'a T,
}

impl<'a, T: Condition<Snapshot>> Condition<SnapEntry> for TellsSnapshot<'a, T> {
    ghost use Rattle.snapshot_bind.specs.Licences.{SomeOf, snapshots_in};

    ghost allows = { λ t e. SomeOf (T.allows t.condition.now) (snapshots_in e.reply) };

    fn holds(&self, entry: &SnapEntry) -> bool {
        tells_snapshot(self.condition, &entry.reply)
    }
}

#[derive(Drop)]
struct TellsContent<'a, T> {
    condition: &'a T,
}

impl<'a, T: Condition<Content>> Condition<SnapEntry> for TellsContent<'a, T> {
    ghost use Rattle.snapshot_bind.specs.Licences.{SomeOf, contents_in};

    ghost allows = { λ t e. SomeOf (T.allows t.condition.now) (contents_in e.reply) };

    fn holds(&self, entry: &SnapEntry) -> bool {
        tells_content(self.condition, &entry.reply)
    }
}

/// Whether a snapshot of which the condition holds was told in these calls, the oldest first.
pub fn told_snapshot<T: Condition<Snapshot>>(condition: &T, mine: &[SnapEntry]) -> bool
    ensures { IsTrue result ↔ ToldSnapshot (T.allows condition.now) (reverse mine.now) }
{
    some_of(&TellsSnapshot { condition }, mine)
}

/// Whether a content of which the condition holds was told in these calls, the oldest first.
pub fn told_content<T: Condition<Content>>(condition: &T, mine: &[SnapEntry]) -> bool
    ensures { IsTrue result ↔ ToldContent (T.allows condition.now) (reverse mine.now) }
{
    some_of(&TellsContent { condition }, mine)
}

fn is_waiting(snapshot: &Snapshot) -> bool
    ensures { IsTrue result ↔ IsWaiting snapshot.now }
{
    if snapshot.deleting {
        return false;
    }
    snapshot.content.as_str().is_empty()
}

fn is_snapshot_of(namespace: &Text, name: &Text, version: u64, snapshot: &Snapshot) -> bool
    ensures { IsTrue result ↔ IsSnapshotOf namespace.now name.now version snapshot.now }
{
    if snapshot.version != version {
        return false;
    }
    if !snapshot.namespace.same(namespace) {
        return false;
    }
    snapshot.name.same(name)
}

fn is_content_of(name: &Text, version: u64, content: &Content) -> bool
    ensures { IsTrue result ↔ IsContentOf name.now version content.now }
{
    if content.version != version {
        return false;
    }
    content.name.same(name)
}

fn has_some(uid: Option<u64>) -> bool
    ensures { IsTrue result ↔ HasSome uid }
{
    match uid {
        None => false,
        Some(_) => true,
    }
}

fn is_other(own: Option<u64>, uid: u64) -> bool
    ensures { IsTrue result ↔ IsOther own uid }
{
    match own {
        None => false,
        Some(own) => uid != own,
    }
}

/// A content may be cut for the snapshot.
#[derive(Drop)]
pub struct Cuttable<'a> {
    pub namespace: &'a Text,
    pub name: &'a Text,
    pub uid: u64,
}

impl<'a> Condition<Snapshot> for Cuttable<'a> {
    ghost use Rattle.snapshot_bind.specs.Licences.{IsCuttable};

    ghost allows = { λ t s. IsCuttable t.namespace.now t.name.now t.uid s };

    fn holds(&self, snapshot: &Snapshot) -> bool {
        if snapshot.uid != self.uid {
            return false;
        }
        if !snapshot.namespace.same(self.namespace) {
            return false;
        }
        if !snapshot.name.same(self.name) {
            return false;
        }
        is_waiting(snapshot)
    }
}

/// The snapshot of the UID is the one that the content is for.
#[derive(Drop)]
struct Owner<'a> {
    uid: u64,
    content: &'a Content,
}

impl<'a> Condition<Snapshot> for Owner<'a> {
    ghost use Rattle.snapshot_bind.specs.Licences.{IsOwner};

    ghost allows = { λ t s. IsOwner t.uid t.content.now s };

    fn holds(&self, snapshot: &Snapshot) -> bool {
        if snapshot.uid != self.uid {
            return false;
        }
        if !snapshot.namespace.same(&self.content.namespace) {
            return false;
        }
        snapshot.name.same(&self.content.snapshot)
    }
}

/// The content may get the UID.
#[derive(Drop)]
pub struct FreeContent<'a> {
    pub name: &'a Text,
    pub version: u64,
    pub uid: u64,
    pub mine: &'a [SnapEntry],
}

impl<'a> Condition<Content> for FreeContent<'a> {
    ghost use Rattle.std.specs.Prelude.{reverse};
    ghost use Rattle.snapshot_bind.specs.Licences.{IsFree};

    ghost allows = { λ t c. IsFree t.name.now t.version t.uid (reverse t.mine.now) c };

    fn holds(&self, content: &Content) -> bool {
        if !is_content_of(self.name, self.version, content) {
            return false;
        }
        if content.uid.is_some() {
            return false;
        }
        let owner = Owner {
            uid: self.uid,
            content,
        };
        told_snapshot(&owner, self.mine)
    }
}

/// The content of the name has the UID.
#[derive(Drop)]
struct BoundTo<'a> {
    name: &'a Text,
    uid: u64,
}

impl<'a> Condition<Content> for BoundTo<'a> {
    ghost use Rattle.snapshot_bind.specs.Licences.{IsBoundTo};

    ghost allows = { λ t c. IsBoundTo t.name.now t.uid c };

    fn holds(&self, content: &Content) -> bool {
        match content.uid {
            None => false,
            Some(own) => {
                if own != self.uid {
                    return false;
                }
                content.name.same(self.name)
            }
        }
    }
}

/// The snapshot may name the content.
#[derive(Drop)]
pub struct Bindable<'a> {
    pub namespace: &'a Text,
    pub name: &'a Text,
    pub version: u64,
    pub content: &'a Text,
    pub mine: &'a [SnapEntry],
}

impl<'a> Condition<Snapshot> for Bindable<'a> {
    ghost use Rattle.std.specs.Prelude.{reverse};
    ghost use Rattle.snapshot_bind.specs.Licences.{IsBindable};

    ghost allows = { λ t s. IsBindable t.namespace.now t.name.now t.version t.content.now (reverse t.mine.now) s };

    fn holds(&self, snapshot: &Snapshot) -> bool {
        if !is_snapshot_of(self.namespace, self.name, self.version, snapshot) {
            return false;
        }
        if !is_waiting(snapshot) {
            return false;
        }
        let bound = BoundTo {
            name: self.content,
            uid: snapshot.uid,
        };
        told_content(&bound, self.mine)
    }
}

/// The snapshot may leave.
#[derive(Drop)]
pub struct Droppable<'a> {
    pub namespace: &'a Text,
    pub name: &'a Text,
    pub version: u64,
}

impl<'a> Condition<Snapshot> for Droppable<'a> {
    ghost use Rattle.snapshot_bind.specs.Licences.{IsDroppable};

    ghost allows = { λ t s. IsDroppable t.namespace.now t.name.now t.version s };

    fn holds(&self, snapshot: &Snapshot) -> bool {
        if !is_snapshot_of(self.namespace, self.name, self.version, snapshot) {
            return false;
        }
        snapshot.deleting
    }
}

/// Whether the call asked for the content's snapshot and was told none, or one of another UID.
fn lacks_owner(content: &Content, ask: &SnapAsk, reply: &SnapReply) -> bool
    ensures { IsTrue result ↔ LacksOwner content.now ask.now reply.now }
{
    match ask {
        SnapAsk::SnapGet { namespace, name } => {
            if !content.namespace.same(namespace) {
                return false;
            }
            if !content.snapshot.same(name) {
                return false;
            }
            match reply {
                SnapReply::Found(row) => is_other(content.uid, row.uid),
                SnapReply::Refused(why) => match why {
                    SnapRefusal::NotFound => true,
                    _ => false,
                },
                _ => false,
            }
        }
        _ => false,
    }
}

/// The data of the content may be erased, as far as it and the call go.
#[derive(Drop)]
pub struct Erasable<'a> {
    pub name: &'a Text,
    pub version: u64,
    pub entry: &'a SnapEntry,
}

impl<'a> Condition<Content> for Erasable<'a> {
    ghost use Rattle.snapshot_bind.specs.Licences.{IsErasable};

    ghost allows = { λ t c. IsErasable t.name.now t.version t.entry.now c };

    fn holds(&self, content: &Content) -> bool {
        if !is_content_of(self.name, self.version, content) {
            return false;
        }
        if !has_some(content.uid) {
            return false;
        }
        if content.policy != Policy::Delete {
            return false;
        }
        if !content.there {
            return false;
        }
        lacks_owner(content, &self.entry.ask, &self.entry.reply)
    }
}

/// The content may leave.
#[derive(Drop)]
pub struct Spent<'a> {
    pub name: &'a Text,
    pub version: u64,
}

impl<'a> Condition<Content> for Spent<'a> {
    ghost use Rattle.snapshot_bind.specs.Licences.{IsSpent};

    ghost allows = { λ t c. IsSpent t.name.now t.version c };

    fn holds(&self, content: &Content) -> bool {
        if !is_content_of(self.name, self.version, content) {
            return false;
        }
        if !has_some(content.uid) {
            return false;
        }
        !content.there
    }
}

/// The content is for the snapshot of the key, and is bound.
#[derive(Drop)]
pub struct Owned<'a> {
    pub namespace: &'a Text,
    pub name: &'a Text,
}

impl<'a> Condition<Content> for Owned<'a> {
    ghost use Rattle.snapshot_bind.specs.Licences.{IsOwned};

    ghost allows = { λ t c. IsOwned t.namespace.now t.name.now c };

    fn holds(&self, content: &Content) -> bool {
        if !content.namespace.same(self.namespace) {
            return false;
        }
        if !content.snapshot.same(self.name) {
            return false;
        }
        has_some(content.uid)
    }
}
