//! What begins on the key of a pod, on a look-up and on the nodes that were refused.

ghost use Rattle.std.specs.Prelude.{◌≡◌, ◌++◌, IfOk, OnOk, length};
ghost use Rattle.std.specs.Option.{option_copied};
ghost use Rattle.kube_objects.specs.Keys.{row_at};
ghost use Rattle.delayed_binding.specs.Writes.{writes_of};
ghost use Rattle.pod_scheduler.specs.Decisions.{BeginsFor, BeginsOn, are_known, begun_with, binding, is_claim_of, is_known_in, is_tried_for, last_refused, present, writes_for};
ghost use Rattle.pod_scheduler.specs.Steps.Listed.{listed};

use crate::schedule::{ScheduleOp, ScheduleStep};
use crate::tries::Tried;
use call_types::request::Request;
use delayed_binding::{Choice, choose, claim_named, prepare_write};
use kube_types::bindings::{is_scheduled, is_uid};
use kube_types::copies::{OutOfMemory, Plain};
use kube_types::items::Items;
use kube_types::key::Key;
use kube_types::lookup::Lookup;
use kube_types::objects::{Claim, Object, Pod};
use kube_types::parts::Kind;
use kube_types::text::Text;
use kube_types::uid::Uid;
use std::alloc::Global;

/// What begins on the key; `refused` are the nodes that were refused, the last one first.
pub fn decide_pod<L: Lookup>(
    alloc: Global,
    lookup: &L,
    refused: &[Tried],
    key: &Key,
) -> Result<Option<ScheduleOp>, OutOfMemory>
    ensures { IfOk result (λ op. BeginsOn (L.rows lookup.now) refused.now (row_at key.now (L.rows lookup.now)) op) }
{
    match lookup.row(key) {
        Some(Object::Pod(pod)) => {
            if is_scheduled(pod) {
                return Ok(None);
            }
            first_for(alloc, lookup, refused, pod)
        }
        _ => Ok(None),
    }
}

/// The machine for a pod that no node runs.
fn first_for<L: Lookup>(
    alloc: Global,
    lookup: &L,
    refused: &[Tried],
    pod: &Pod,
) -> Result<Option<ScheduleOp>, OutOfMemory>
    ensures { IfOk result (λ op. BeginsFor (L.rows lookup.now) refused.now pod.now op) }
{
    let choice = choose(alloc, lookup, pod, last_refused(lookup, pod, refused))?;
    let writes = writes_for(alloc, lookup, pod, &choice)?;
    Ok(begun_with(Items::from_vec(writes)))
}

/// The machine for these writes, where there are any.
fn begun_with(writes: Items<Request>) -> Option<ScheduleOp>
    ensures { result ≡ begun_with writes }
{
    if writes.as_slice().is_empty() {
        return None;
    }
    Some(ScheduleOp {
        writes,
        step: ScheduleStep::Writes(0),
    })
}

/// The writes for the choice, in order.
fn writes_for<L: Lookup>(
    alloc: Global,
    lookup: &L,
    pod: &Pod,
    choice: &Choice,
) -> Result<Vec<Request>, OutOfMemory>
    ensures { IfOk result (λ writes. writes.items ≡ writes_for (L.rows lookup.now) pod.now choice.now) }
{
    match choice {
        Choice::Assign(node) => binding(alloc, pod, node),
        Choice::Prepare {
            node: _,
            binds,
            provisions,
        } => {
            if !are_known(lookup, pod) {
                return Ok(Vec::new(alloc));
            }
            let count = binds.as_slice().len() + provisions.as_slice().len();
            prepared_writes(alloc, lookup, choice, count)
        }
        Choice::Wait | Choice::NoNode => Ok(Vec::new(alloc)),
    }
}

/// The write that binds the pod to the node.
fn binding(alloc: Global, pod: &Pod, node: &Text) -> Result<Vec<Request>, OutOfMemory>
    ensures { IfOk result (λ writes. writes.items ≡ binding pod.now pod.now.meta.uid node.now) }
{
    let mut writes = Vec::new(alloc);
    if let Some(uid) = pod.meta.uid {
        writes.push(Request::BindPod {
            key: Key {
                kind: Kind::Pod,
                namespace: pod.meta.namespace.copy(alloc)?,
                name: pod.meta.name.copy(alloc)?,
            },
            uid,
            node: node.copy(alloc)?,
        })?;
    }
    Ok(writes)
}

/// The writes that prepare the node, of which there are so many.
fn prepared_writes<L: Lookup>(
    alloc: Global,
    lookup: &L,
    choice: &Choice,
    count: usize,
) -> Result<Vec<Request>, OutOfMemory>
    requires { count ≡ length (writes_of (L.rows lookup.now) choice.now) }
    ensures { IfOk result (λ writes. writes.items ≡ present (writes_of (L.rows lookup.now) choice.now)) }
{
    let mut writes = Vec::new(alloc);
    for nth in 0..count {
        let write = prepare_write(alloc, lookup, choice, nth)?;
        push_some(write, &mut writes)?;
    }
    Ok(writes)
}

fn push_some(write: Option<Request>, writes: &mut Vec<Request>) -> Result<(), OutOfMemory>
    ensures { OnOk result (writes.new.items ≡ writes.old.items ++ listed write) }
{
    match write {
        Some(write) => {
            writes.push(write)?;
            Ok(())
        }
        None => Ok(()),
    }
}

/// Whether each claim of the pod has its UID.
fn are_known<L: Lookup>(lookup: &L, pod: &Pod) -> bool
    ensures { result ≡ are_known (L.rows lookup.now) pod.now }
{
    for name in pod.claims.as_slice() {
        if !is_known_in(claim_named(lookup, pod.meta.namespace.as_str(), name.as_str())) {
            return false;
        }
    }
    true
}

fn is_known_in(claim: Option<&Claim>) -> bool
    ensures { result ≡ is_known_in (option_copied claim.entry) }
{
    match claim {
        None => true,
        Some(claim) => claim.meta.uid.is_some(),
    }
}

/// The node that was refused last for one of the pod's claims.
fn last_refused<'a, L: Lookup>(lookup: &L, pod: &Pod, refused: &'a [Tried]) -> Option<&'a Text>
    ensures { option_copied result ≡ last_refused (L.rows lookup.now) pod.now refused.now }
{
    for tried in refused {
        if is_tried_for(lookup, pod, tried.claim) {
            return Some(&tried.node);
        }
    }
    None
}

/// Whether one of the pod's claims has this UID.
fn is_tried_for<L: Lookup>(lookup: &L, pod: &Pod, uid: Uid) -> bool
    ensures { result ≡ is_tried_for (L.rows lookup.now) pod.now uid }
{
    for name in pod.claims.as_slice() {
        if is_claim_of(
            claim_named(lookup, pod.meta.namespace.as_str(), name.as_str()),
            uid,
        ) {
            return true;
        }
    }
    false
}

fn is_claim_of(claim: Option<&Claim>, uid: Uid) -> bool
    ensures { result ≡ is_claim_of uid (option_copied claim.entry) }
{
    match claim {
        None => false,
        Some(claim) => is_uid(claim.meta.uid, uid),
    }
}
