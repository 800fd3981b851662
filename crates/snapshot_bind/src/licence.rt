//! The licence of a worker: what it may ask, by its own earlier calls.

ghost use Rattle.std.specs.Prelude.{◌↔◌, IsTrue, reverse};
ghost use Rattle.snapshot_bind.specs.Licences.{IsBindable, IsCuttable, IsDroppable, IsFree, IsSpent, SnapLicensed, ToldContent, ToldGone, ToldSnapshot};

use crate::calls::{SnapAsk, SnapEntry};
use crate::conditions::{
    Bindable, Cuttable, Droppable, Erasable, FreeContent, Owned, Spent, told_content, told_snapshot,
};
use kube_types::text::Text;

fn may_cut(mine: &[SnapEntry], namespace: &Text, name: &Text, uid: u64) -> bool
    ensures { IsTrue result ↔ ToldSnapshot (IsCuttable namespace.now name.now uid) (reverse mine.now) }
{
    let condition = Cuttable {
        namespace,
        name,
        uid,
    };
    told_snapshot(&condition, mine)
}

fn may_bind_content(mine: &[SnapEntry], name: &Text, version: u64, uid: u64) -> bool
    ensures { IsTrue result ↔ ToldContent (IsFree name.now version uid (reverse mine.now)) (reverse mine.now) }
{
    let condition = FreeContent {
        name,
        version,
        uid,
        mine,
    };
    told_content(&condition, mine)
}

fn may_bind_snapshot(
    mine: &[SnapEntry],
    namespace: &Text,
    name: &Text,
    version: u64,
    content: &Text,
) -> bool
    ensures { IsTrue result ↔ ToldSnapshot (IsBindable namespace.now name.now version content.now (reverse mine.now)) (reverse mine.now) }
{
    let condition = Bindable {
        namespace,
        name,
        version,
        content,
        mine,
    };
    told_snapshot(&condition, mine)
}

fn may_drop_snapshot(mine: &[SnapEntry], namespace: &Text, name: &Text, version: u64) -> bool
    ensures { IsTrue result ↔ ToldSnapshot (IsDroppable namespace.now name.now version) (reverse mine.now) }
{
    let condition = Droppable {
        namespace,
        name,
        version,
    };
    told_snapshot(&condition, mine)
}

fn may_drop_content(mine: &[SnapEntry], name: &Text, version: u64) -> bool
    ensures { IsTrue result ↔ ToldContent (IsSpent name.now version) (reverse mine.now) }
{
    told_content(&Spent { name, version }, mine)
}

/// Whether the content was told as one that may be erased, and after that a call told that its snapshot is gone.
fn may_erase(mine: &[SnapEntry], name: &Text, version: u64) -> bool
    ensures { IsTrue result ↔ ToldGone name.now version (reverse mine.now) }
{
    let mut left = mine.len();
    while left > 0 {
        left -= 1;
        let condition = Erasable {
            name,
            version,
            entry: &mine[left],
        };
        if told_content(&condition, &mine[..left]) {
            return true;
        }
    }
    false
}

/// Whether a worker that made these calls, the oldest first, may ask this. No user's ask is a worker's.
#[tactic(auto, unfolding(crate::specs::Licences::SnapLicensed))]
pub fn snap_licensed(mine: &[SnapEntry], ask: &SnapAsk) -> bool
    ensures { IsTrue result ↔ SnapLicensed (reverse mine.now) ask.now }
{
    match ask {
        SnapAsk::SnapList => true,
        SnapAsk::SnapGet { namespace, name } => told_content(&Owned { namespace, name }, mine),
        SnapAsk::Cut {
            namespace,
            name,
            uid,
        } => may_cut(mine, namespace, name, *uid),
        SnapAsk::BindContent { name, version, uid } => may_bind_content(mine, name, *version, *uid),
        SnapAsk::BindSnapshot {
            namespace,
            name,
            version,
            content,
        } => may_bind_snapshot(mine, namespace, name, *version, content),
        SnapAsk::DropSnapshot {
            namespace,
            name,
            version,
        } => may_drop_snapshot(mine, namespace, name, *version),
        SnapAsk::EraseSnap { name, version } => may_erase(mine, name, *version),
        SnapAsk::DropContent { name, version } => may_drop_content(mine, name, *version),
        SnapAsk::Snapshot { .. }
        | SnapAsk::Content { .. }
        | SnapAsk::Unsnap { .. }
        | SnapAsk::Uncontent { .. } => false,
    }
}
