//! Which claims and volumes a node agent may read.

ghost use Rattle.std.specs.Prelude.{◌≡◌, ◌↔◌, IsTrue, reverse, true};
ghost use Rattle.kube_objects.specs.declared.objects.Object.TheVariants as objects;
ghost use Rattle.binder_model.specs.Told.{IsPodWith, ToldPod};
ghost use Rattle.licence_agent.specs.Naming.{AreOnOneNode, IsNaming, IsOnTaken};
ghost use Rattle.binder_model.specs.Reading.{AsksForMount, FoundNaming, NamesClaim};

use call_types::entry::Entry;
use call_types::reply::Reply;
use kube_types::bindings::is_scheduled;
use kube_types::key::Key;
use kube_types::objects::{Object, Pod};
use kube_types::parts::Kind;
use licence_rows::asking::is_volume_key;
use licence_scans::entries::{EntryTest, some_entry};
use licence_scans::lasts::last_epoch;
use licence_scans::shared::{SharedTest, told_shared};
use plain_data::copies::Plain;

/// The pod is scheduled to a node that the seat took, and names the claim of the key.
#[derive(Drop)]
struct ClaimNames<'a> {
    mine: &'a [Entry],
    key: &'a Key,
}

impl<'a> SharedTest for ClaimNames<'a> {
    ghost allows = { λ t o. IsPodWith (IsNaming t.key.now) o };

    ghost pairs = { λ t o x. AreOnOneNode o x };

    ghost holds = { λ t o. IsPodWith (IsOnTaken (reverse t.mine.now)) o };

    fn may(&self, object: &Object) -> bool {
        match object {
            Object::Pod(pod) => is_naming(self.key, pod),
            _ => false,
        }
    }

    fn alike(&self, object: &Object, other: &Object) -> bool {
        match object {
            Object::Pod(pod) => is_on_node_of(pod, other),
            _ => false,
        }
    }

    fn row(&self, object: &Object) -> bool {
        match object {
            Object::Pod(pod) => last_epoch(self.mine, &pod.node).is_some(),
            _ => false,
        }
    }

    fn shares(&self) {
        let _mine = self.mine;
    }
}

fn is_naming(key: &Key, pod: &Pod) -> bool
    ensures { IsTrue result ↔ IsNaming key.now pod.now }
{
    if !key.kind.same(&Kind::PersistentVolumeClaim) {
        return false;
    }
    if !key.namespace.same(&pod.meta.namespace) {
        return false;
    }
    if !is_scheduled(pod) {
        return false;
    }
    pod.claims.contains(key.name.as_str())
}

/// Whether the object is a pod on the node of the pod.
fn is_on_node_of(pod: &Pod, object: &Object) -> bool
    ensures { IsTrue result ↔ AreOnOneNode (objects.Pod pod.now) object.now }
{
    match object {
        Object::Pod(other) => pod.node.same(&other.node),
        _ => false,
    }
}

/// A Get found a claim that names the volume of the key.
#[derive(Drop)]
struct FoundClaim<'a> {
    key: &'a Key,
}

impl<'a> EntryTest for FoundClaim<'a> {
    ghost allows = { λ t e. (e.told ≡ true) × FoundNaming t.key.now e.reply };

    fn test(&self, entry: &Entry) -> bool {
        if !entry.told {
            return false;
        }
        match &entry.reply {
            Reply::Found(Object::Claim(claim)) => is_volume_key(self.key, claim),
            _ => false,
        }
    }
}

/// Whether an agent may read the claim or volume of the key.
pub fn asks_for_mount(mine: &[Entry], key: &Key) -> bool
    ensures { IsTrue result ↔ AsksForMount (reverse mine.now) key.now }
{
    let found = FoundClaim { key };
    if some_entry(&found, mine) {
        return true;
    }
    is_named(mine, key)
}

/// Whether a pod that is scheduled to a node which the seat took names the claim of the key.
fn is_named(mine: &[Entry], key: &Key) -> bool
    ensures { IsTrue result ↔ ToldPod (NamesClaim (reverse mine.now) key.now) (reverse mine.now) }
{
    let names = ClaimNames { mine, key };
    told_shared(&names, mine)
}
