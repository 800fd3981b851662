//! The plain list of what one seat was told.

ghost use Rattle.std.specs.Prelude.{◌≡◌, ◌↔◌, List, IsTrue, reverse};
ghost use Rattle.call_types.specs.declared.entry.Entry.{Entry};
ghost use Rattle.binder_model.specs.Licence.{AreOfKind};
ghost use Rattle.binder_model.specs.ObjectKeys.{node_key};
ghost use Rattle.binder_model.specs.Reading.{LacksUid};
ghost use Rattle.binder_model.specs.Told.{IsNewestAbsent, newest, object_of};
ghost use Rattle.evidence_pages.specs.Parts.{IsPart};

use crate::classes::is_default_named;
use crate::record::Record;
use call_types::entry::Entry;
use call_types::request::SeatKind;
use evidence_pages::sought::Sought;
use kube_types::copies::Plain;
use kube_types::key::Key;
use kube_types::objects::{DataId, Object, Version, Volume};
use kube_types::parts::Kind;
use kube_types::text::Text;
use kube_types::uid::Uid;
use licence_agent::agent::{is_current, may_finish, may_unmount};
use licence_agent::mounting::may_mount;
use licence_agent::reads::asks_for_mount;
use licence_rows::asking::lacks_uid;
use licence_rows::found::last_found;
use licence_scans::following::{is_from, is_unlisted};
use licence_scans::newest::{newest, newest_object};

/// All entries of a seat, the oldest first. Each look-up reads them.
#[derive(Drop)]
pub struct Whole<'a> {
    pub entries: &'a [Entry],
}

/// Whether all entries have this kind.
#[tactic(auto, using(model_laws::proofs::Evidence::newest_first))]
fn are_of_kind(kind: SeatKind, mine: &[Entry]) -> bool
    ensures { IsTrue result ↔ AreOfKind kind (reverse mine.now) }
{
    let mut left = mine.len();
    while left > 0 {
        left -= 1;
        if !mine[left].kind.same(&kind) {
            return false;
        }
    }
    true
}

fn lacks_claim(mine: &[Entry], key: &Key, uid: Uid) -> bool
    ensures { IsTrue result ↔ LacksUid (object_of (newest (reverse mine.now) key.now)) uid }
{
    let found = newest_object(mine, key.kind, key.namespace.as_str(), key.name.as_str());
    lacks_uid(found, uid)
}

fn is_node_absent(mine: &[Entry], name: &str) -> bool
    ensures { IsTrue result ↔ IsNewestAbsent (reverse mine.now) (node_key name.now) }
{
    match newest(mine, Kind::Node, "", name) {
        None => false,
        Some((_, found)) => found.is_none(),
    }
}

/// The entries themselves, as a part of them.
fn as_part<'a>(mine: &'a [Entry]) -> &'a [Entry]
    ensures same { result.now ≡ mine.now }
    ensures part { IsPart (reverse result.now) (reverse mine.now) }
{
    mine
}

impl<'a> Record for Whole<'a> {
    ghost use Rattle.std.specs.Prelude.{reverse, ⊤};

    ghost told = { λ t. reverse t.entries.now };

    ghost whole = { λ t. ⊤ };

    fn is_of_kind(&self, kind: SeatKind) -> bool {
        are_of_kind(kind, self.entries)
    }

    fn newest(&self, kind: Kind, namespace: &str, name: &str) -> Option<&Object> {
        newest_object(self.entries, kind, namespace, name)
    }

    fn is_node_absent(&self, name: &str) -> bool {
        is_node_absent(self.entries, name)
    }

    fn lacks_claim(&self, key: &Key, uid: Uid) -> bool {
        lacks_claim(self.entries, key, uid)
    }

    fn is_default(&self, name: &str) -> bool {
        is_default_named(self.entries, name)
    }

    fn about(&self, _kind: Kind, _namespace: &str, _name: &str, _sought: Sought) -> &[Entry] {
        as_part(self.entries)
    }

    fn provisioned(&self, _name: &Text, _sought: Sought) -> &[Entry] {
        as_part(self.entries)
    }

    fn wanted(&self, _uid: &str, _sought: Sought) -> &[Entry] {
        as_part(self.entries)
    }

    fn last_over(&self, id: &DataId) -> Option<&Volume> {
        last_found(self.entries, id)
    }

    fn is_unlisted(&self, kind: Kind) -> bool {
        is_unlisted(self.entries, kind)
    }

    fn is_from(&self, kind: Kind, from: Version) -> bool {
        is_from(self.entries, kind, from)
    }

    fn is_current(&self, node: &Text, epoch: u64) -> bool {
        is_current(self.entries, node, epoch)
    }

    fn may_mount(&self, node: &Text, epoch: u64, pod: Uid, claims: &[Uid]) -> bool {
        may_mount(self.entries, node, epoch, pod, claims)
    }

    fn may_unmount(&self, node: &Text, epoch: u64, pod: Uid) -> bool {
        may_unmount(self.entries, node, epoch, pod)
    }

    fn may_finish(&self, key: &Key, pod: Uid, node: &Text, epoch: u64) -> bool {
        may_finish(self.entries, key, pod, node, epoch)
    }

    fn asks_for_mount(&self, key: &Key) -> bool {
        asks_for_mount(self.entries, key)
    }
}
