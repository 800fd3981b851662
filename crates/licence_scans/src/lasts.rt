//! The last epoch of a node, the last read of a key, and the entries since.

ghost use Rattle.std.specs.Prelude.{◌≡◌, ◌&&◌, MatchOption, None, Some, is_some, reverse, true};
ghost use Rattle.binder_model.specs.AgentLicence.{epoch_in, epoch_told, is_get_of, last_epoch, last_get, since_epoch, since_get};
ghost use Rattle.kube_objects.specs.Keys.{same_key};
ghost use Rattle.licence_scans.specs.Keyed.{key_at};

use crate::entries::{EntryTest, last_place};
use call_types::entry::Entry;
use call_types::reply::Reply;
use call_types::request::Request;
use kube_types::key::{Key, same_kind};
use kube_types::parts::Kind;
use plain_data::text::Text;

/// The epoch that the answer to a TakeNode of the node tells.
fn epoch_told(node: &Text, request: &Request, reply: &Reply) -> Option<u64>
    ensures { result ≡ epoch_told node.now request.now reply.now }
{
    match request {
        Request::TakeNode { node: taken } => match reply {
            Reply::Epoch(epoch) => {
                if taken.is(node.as_str()) {
                    Some(*epoch)
                } else {
                    None
                }
            }
            _ => None,
        },
        _ => None,
    }
}

fn epoch_in(node: &Text, entry: &Entry) -> Option<u64>
    ensures { result ≡ epoch_in node.now entry.now }
{
    if entry.told {
        epoch_told(node, &entry.request, &entry.reply)
    } else {
        None
    }
}

/// The entry tells an epoch of the node.
#[derive(Drop)]
struct Takes<'a> {
    node: &'a Text,
}

impl<'a> EntryTest for Takes<'a> {
    ghost allows = { λ t e. is_some (epoch_in t.node.now e) ≡ true };

    fn test(&self, entry: &Entry) -> bool {
        epoch_in(self.node, entry).is_some()
    }
}

/// The last epoch of the node that the seat was told, and its entries since, the oldest first.
pub fn last_taken<'a>(mine: &'a [Entry], node: &Text) -> Option<(u64, &'a [Entry])>
    ensures { MatchOption result (last_epoch node.now (reverse mine.now) ≡ None) (λ t. (last_epoch node.now (reverse mine.now) ≡ Some t.0) × (since_epoch node.now (reverse mine.now) ≡ reverse t.1.now)) }
{
    let takes = Takes { node };
    match last_place(&takes, mine) {
        None => None,
        Some(place) => match epoch_in(node, &mine[place]) {
            None => None,
            Some(epoch) => Some((epoch, &mine[place + 1..])),
        },
    }
}

/// The last epoch of the node that the seat was told.
pub fn last_epoch(mine: &[Entry], node: &Text) -> Option<u64>
    ensures { result ≡ last_epoch node.now (reverse mine.now) }
{
    match last_taken(mine, node) {
        None => None,
        Some((epoch, _)) => Some(epoch),
    }
}

fn is_get_of(request: &Request, kind: Kind, namespace: &str, name: &str) -> bool
    ensures { result ≡ is_get_of (key_at kind namespace.now name.now) request.now }
{
    match request {
        Request::Get { key } => is_key(key, kind, namespace, name),
        _ => false,
    }
}

fn is_key(key: &Key, kind: Kind, namespace: &str, name: &str) -> bool
    ensures { result ≡ same_key key.now (key_at kind namespace.now name.now) }
{
    same_kind(key.kind, kind) && key.namespace.is(namespace) && key.name.is(name)
}

/// The entry tells the answer of a Get of the key.
#[derive(Drop)]
struct Gets<'a> {
    kind: Kind,
    namespace: &'a str,
    name: &'a str,
}

impl<'a> EntryTest for Gets<'a> {
    ghost allows = { λ t e. (e.told && is_get_of (key_at t.kind t.namespace.now t.name.now) e.request) ≡ true };

    fn test(&self, entry: &Entry) -> bool {
        if !entry.told {
            return false;
        }
        is_get_of(&entry.request, self.kind, self.namespace, self.name)
    }
}

/// The answer of the last Get of the key that was told, and the entries since, the oldest first.
pub fn last_get<'a>(
    mine: &'a [Entry],
    kind: Kind,
    namespace: &str,
    name: &str,
) -> Option<(&'a Reply, &'a [Entry])>
    ensures { MatchOption result (last_get (key_at kind namespace.now name.now) (reverse mine.now) ≡ None) (λ t. (last_get (key_at kind namespace.now name.now) (reverse mine.now) ≡ Some t.0.now) × (since_get (key_at kind namespace.now name.now) (reverse mine.now) ≡ reverse t.1.now)) }
{
    let gets = Gets {
        kind,
        namespace,
        name,
    };
    match last_place(&gets, mine) {
        None => None,
        Some(place) => Some((&mine[place].reply, &mine[place + 1..])),
    }
}
