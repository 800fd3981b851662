//! Where the index shows that an agent may finish a pod.

ghost use Rattle.std.specs.Prelude.{IsTrue, reverse, true};
ghost use Rattle.binder_model.specs.AgentLicence.{MayFinish};
ghost use Rattle.evidence_agent.specs.Places.Steps.Since.{IsQuietBehind, mounts, tells_unmounted};
ghost use Rattle.evidence_agent.specs.Indexed.{IsAgentIndexOf};
ghost use Rattle.evidence_agent.specs.Steps.Seen.{IsUnmounted};

use crate::agent::{taken_at, told_ending};
use crate::by_place::topics::{About, Matter};
use crate::index::AgentIndex;
use call_types::entry::Entry;
use kube_types::copies::Plain;
use kube_types::key::Key;
use kube_types::parts::Kind;
use kube_types::text::Text;
use kube_types::uid::Uid;
use licence_agent::agent::tells_unmounted;

/// Whether no call behind the place was to mount the pod.
fn is_quiet_behind(index: &AgentIndex, entries: &[Entry], place: usize, uid: Uid) -> bool
    requires { IsAgentIndexOf index.now (reverse entries.now) }
    ensures { IsTrue result → IsQuietBehind (mounts uid) place (reverse entries.now) }
{
    match index.lasts.place(&About::pod(Matter::Mounted, uid)) {
        None => true,
        Some(last) => {
            if last > place {
                return false;
            }
            true
        }
    }
}

/// Whether the mounts of the node that were told last stand behind the place and lack the pod, and no
/// later call was to mount it.
fn is_unmounted(
    index: &AgentIndex,
    entries: &[Entry],
    taken: usize,
    node: &Text,
    epoch: u64,
    uid: Uid,
) -> bool
    requires { IsAgentIndexOf index.now (reverse entries.now) }
    ensures { IsTrue result → IsUnmounted (reverse entries.now) taken node.now epoch uid }
{
    let about = About::object(Matter::Rows, Kind::Node, "", node.as_str());
    match index.lasts.place(&about) {
        None => false,
        Some(place) => {
            if taken >= place {
                return false;
            }
            if place >= entries.len() {
                return false;
            }
            if !tells_unmounted(node, epoch, uid, &entries[place]) {
                return false;
            }
            is_quiet_behind(index, entries, place, uid)
        }
    }
}

/// Whether the index shows that the pod may be finished.
pub fn may_finish(
    index: &AgentIndex,
    entries: &[Entry],
    key: &Key,
    uid: Uid,
    node: &Text,
    epoch: u64,
) -> bool
    requires { IsAgentIndexOf index.now (reverse entries.now) }
    ensures { IsTrue result → MayFinish (reverse entries.now) key.now uid node.now epoch }
{
    if !key.kind.same(&Kind::Pod) {
        return false;
    }
    if !told_ending(index.pods.told(uid), node, uid) {
        return false;
    }
    match taken_at(index, entries, node, epoch) {
        None => false,
        Some(taken) => is_unmounted(index, entries, taken, node, epoch, uid),
    }
}
