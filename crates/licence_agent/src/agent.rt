//! Where a node agent may mount, unmount and finish pods.

ghost use Rattle.std.specs.Prelude.{◌≡◌, ◌↔◌, ◌&&◌, IsTrue, Some, reverse, true};
ghost use Rattle.binder_model.specs.AgentLicence.{IsEndingPod, MayFinish, MayUnmount, has_row, is_mount_of, is_of_epoch, lacks_pod, last_epoch, was_told_unmounted};

use call_types::entry::Entry;
use call_types::reply::{MountRow, Reply};
use call_types::request::Request;
use kube_types::bindings::{carries, is_completed, is_deleting, is_protected_claim, is_scheduled};
use kube_types::key::Key;
use kube_types::objects::{Claim, Object, Pod, Volume};
use kube_types::parts::{ClaimPhase, Kind};
use kube_types::uid::Uid;
use licence_rows::newest::newest_pod_named;
use licence_rows::parts::is_known;
use licence_scans::entries::{EntryTest, some_entry};
use licence_scans::lasts::{last_epoch, last_get, last_taken};
use licence_scans::rows::{OfPods, PodTest, told_pod};
use licence_scans::told::tells;
use plain_data::copies::Plain;
use plain_data::text::Text;

/// Whether the epoch is the last one of the node that the seat was told.
pub fn is_current(mine: &[Entry], node: &Text, epoch: u64) -> bool
    ensures { IsTrue result ↔ (last_epoch node.now (reverse mine.now) ≡ Some epoch) }
{
    match last_epoch(mine, node) {
        None => false,
        Some(last) => last == epoch,
    }
}

// unmounting and finishing

/// The pod with the UID, scheduled, on the node, deleting.
#[derive(Drop)]
struct EndingPod<'a> {
    uid: Uid,
    node: &'a Text,
}

impl<'a> PodTest for EndingPod<'a> {
    ghost allows = { λ t p. IsEndingPod t.uid t.node.now p };

    fn test(&self, pod: &Pod) -> bool {
        if !is_known(&pod.meta, self.uid) {
            return false;
        }
        if !pod.node.same(self.node) {
            return false;
        }
        if !is_scheduled(pod) {
            return false;
        }
        is_deleting(&pod.meta)
    }
}

/// Whether the pod may be unmounted.
pub fn may_unmount(mine: &[Entry], node: &Text, epoch: u64, pod: Uid) -> bool
    ensures { IsTrue result ↔ MayUnmount (reverse mine.now) node.now epoch pod }
{
    if !is_current(mine, node, epoch) {
        return false;
    }
    let test = EndingPod { uid: pod, node };
    told_pod(&test, mine)
}

fn has_row(pod: Uid, rows: &[MountRow]) -> bool
    ensures { result ≡ has_row pod rows.now }
{
    for row in rows {
        if row.pod.0 == pod.0 {
            return true;
        }
    }
    false
}

fn lacks_pod(pod: Uid, reply: &Reply) -> bool
    ensures { result ≡ lacks_pod pod reply.now }
{
    match reply {
        Reply::Mounted(rows) => !has_row(pod, rows.as_slice()),
        _ => false,
    }
}

fn is_of_epoch(node: &Text, epoch: u64, request: &Request) -> bool
    ensures { result ≡ is_of_epoch node.now epoch request.now }
{
    match request {
        Request::Mounts { node: n, epoch: e } => n.is(node.as_str()) && *e == epoch,
        Request::Mount {
            node: n,
            epoch: e,
            pod: _,
            claims: _,
        } => n.is(node.as_str()) && *e == epoch,
        Request::Unmount {
            node: n,
            epoch: e,
            pod: _,
        } => n.is(node.as_str()) && *e == epoch,
        _ => false,
    }
}

fn is_mount_of(pod: Uid, request: &Request) -> bool
    ensures { result ≡ is_mount_of pod request.now }
{
    match request {
        Request::Mount {
            node: _,
            epoch: _,
            pod: p,
            claims: _,
        } => p.0 == pod.0,
        _ => false,
    }
}

/// Whether the entry told a list of the node's mounts without the pod.
pub fn tells_unmounted(node: &Text, epoch: u64, pod: Uid, entry: &Entry) -> bool
    ensures { result ≡ (entry.now.told && is_of_epoch node.now epoch entry.now.request && lacks_pod pod entry.now.reply) }
{
    entry.told && is_of_epoch(node, epoch, &entry.request) && lacks_pod(pod, &entry.reply)
}

/// Whether a list of the node's mounts without the pod was told after each Mount of the pod.
#[tactic(auto, using(model_laws::proofs::Evidence::newest_first))]
fn was_told_unmounted(since: &[Entry], node: &Text, epoch: u64, pod: Uid) -> bool
    ensures { result ≡ was_told_unmounted node.now epoch pod (reverse since.now) }
{
    let mut left = since.len();
    while left > 0 {
        left -= 1;
        if tells_unmounted(node, epoch, pod, &since[left]) {
            return true;
        }
        if is_mount_of(pod, &since[left].request) {
            return false;
        }
    }
    false
}

/// Whether the pod may be finished.
pub fn may_finish(mine: &[Entry], key: &Key, pod: Uid, node: &Text, epoch: u64) -> bool
    ensures { IsTrue result ↔ MayFinish (reverse mine.now) key.now pod node.now epoch }
{
    if !key.kind.same(&Kind::Pod) {
        return false;
    }
    match last_taken(mine, node) {
        None => false,
        Some((last, since)) => {
            if last != epoch {
                return false;
            }
            if !was_told_unmounted(since, node, epoch, pod) {
                return false;
            }
            let test = EndingPod { uid: pod, node };
            told_pod(&test, mine)
        }
    }
}
