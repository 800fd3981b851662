//! What begins on the key of a pod, on a look-up alone.

ghost use Rattle.std.specs.Prelude.{◌≡◌, IfOk};
ghost use Rattle.kube_objects.specs.Keys.{row_at};
ghost use Rattle.node_agent.specs.Agents.{agent_begins, agent_for};

use crate::agent::{AgentOp, has_row};
use call_types::reply::MountRow;
use kube_types::bindings::is_scheduled;
use kube_types::copies::OutOfMemory;
use kube_types::key::Key;
use kube_types::lookup::Lookup;
use kube_types::objects::{Object, Pod};
use kube_types::text::Text;
use std::alloc::Global;

/// What the agent of the node begins on the key; `mounts` are those that it was told last.
pub fn decide_pod<L: Lookup>(
    alloc: Global,
    lookup: &L,
    node: &Text,
    epoch: u64,
    mounts: &[MountRow],
    key: &Key,
) -> Result<Option<AgentOp>, OutOfMemory>
    ensures { IfOk result (λ op. op ≡ agent_begins node.now epoch mounts.now (row_at key.now (L.rows lookup.now))) }
{
    match lookup.row(key) {
        Some(Object::Pod(pod)) => first_for(alloc, node, epoch, mounts, pod),
        _ => Ok(None),
    }
}

/// The machine for the pod, where it stands on the node.
fn first_for(
    alloc: Global,
    node: &Text,
    epoch: u64,
    mounts: &[MountRow],
    pod: &Pod,
) -> Result<Option<AgentOp>, OutOfMemory>
    ensures { IfOk result (λ op. op ≡ agent_for node.now epoch mounts.now pod.now) }
{
    if !is_scheduled(pod) || !pod.node.is(node.as_str()) {
        return Ok(None);
    }
    match pod.meta.uid {
        None => Ok(None),
        Some(uid) => AgentOp::new(alloc, node, epoch, pod, uid, has_row(uid, mounts)),
    }
}
