//! What is read of a pod's claims, and what is read next.

ghost use Rattle.std.specs.Prelude.{◌≡◌, IfOk, slice_get};
ghost use Rattle.binder_model.specs.BindWrites.{is_claim_bound};
ghost use Rattle.binder_model.specs.ObjectKeys.{pod_key};
ghost use Rattle.node_agent.specs.Agents.{after_claim, is_claim_read, is_agent_ready, is_volume_read, next_step, ready_by, ready_claim, step_for, uids_of};

use crate::step::{AgentStep, ReadyClaim};
use call_types::reply::Reply;
use kube_types::bindings::{carries, is_completed, is_deleting, is_protected_claim};
use kube_types::copies::{OutOfMemory, Plain};
use kube_types::items::Items;
use kube_types::key::Key;
use kube_types::objects::{Claim, Object, Pod};
use kube_types::parts::{ClaimPhase, Kind};
use kube_types::text::Text;
use kube_types::uid::Uid;
use std::alloc::Global;

/// The next step for the pod, where these claims were found ready.
pub(crate) fn step_for(
    alloc: Global,
    pod: &Pod,
    ready: &[ReadyClaim],
) -> Result<AgentStep, OutOfMemory>
    ensures { IfOk result (λ step. step ≡ step_for pod.now ready.now) }
{
    Ok(step_by(ready, name_at(alloc, pod, ready.len())?))
}

/// The name of the pod's claim at this place, if it has so many.
pub(crate) fn name_at(alloc: Global, pod: &Pod, place: usize) -> Result<Option<Text>, OutOfMemory>
    ensures { IfOk result (λ name. name ≡ slice_get pod.now.claims place) }
{
    match pod.claims.as_slice().get(place) {
        None => Ok(None),
        Some(name) => Ok(Some(name.copy(alloc)?)),
    }
}

/// The next step, where this claim is the next one of the pod. It takes no memory.
pub(crate) fn step_by(ready: &[ReadyClaim], name: Option<Text>) -> AgentStep
    ensures { result ≡ next_step ready.now name }
{
    match name {
        None => AgentStep::MountsPod,
        Some(name) => {
            if is_claim_read(&name, ready) {
                return AgentStep::Parked;
            }
            AgentStep::ReadsClaim(name)
        }
    }
}

/// Whether the claim of this name is among those that were found ready.
fn is_claim_read(name: &Text, ready: &[ReadyClaim]) -> bool
    ensures { result ≡ is_claim_read name.now ready.now }
{
    for one in ready {
        if one.claim.is(name.as_str()) {
            return true;
        }
    }
    false
}

/// Whether the volume of this name is that of a claim that was found ready.
fn is_volume_read(name: &Text, ready: &[ReadyClaim]) -> bool
    ensures { result ≡ is_volume_read name.now ready.now }
{
    for one in ready {
        if one.volume.is(name.as_str()) {
            return true;
        }
    }
    false
}

/// The UIDs of the claims that were found ready, in order.
pub(crate) fn uids_of(alloc: Global, ready: &[ReadyClaim]) -> Result<Items<Uid>, OutOfMemory>
    ensures { IfOk result (λ uids. uids ≡ uids_of ready.now) }
{
    let mut uids = Items::new(alloc);
    for one in ready {
        uids.push(one.uid)?;
    }
    Ok(uids)
}

/// Whether the claim stays, is protected, completed and bound.
fn is_ready(claim: &Claim) -> bool
    ensures { result ≡ is_agent_ready claim.now }
{
    !is_deleting(&claim.meta)
        && is_protected_claim(claim)
        && is_completed(claim)
        && is_claim_bound(claim.phase)
}

fn is_claim_bound(phase: ClaimPhase) -> bool
    ensures { result ≡ is_claim_bound phase }
{
    match phase {
        ClaimPhase::Bound => true,
        _ => false,
    }
}

/// What is to be done after the claim of this name was read.
pub(crate) fn after_claim(
    alloc: Global,
    name: &Text,
    ready: &[ReadyClaim],
    reply: &Reply,
) -> Result<AgentStep, OutOfMemory>
    ensures { IfOk result (λ step. step ≡ after_claim name.now ready.now reply.now) }
{
    match reply {
        Reply::Found(Object::Claim(claim)) => {
            if is_ready(claim) && !is_volume_read(&claim.volume_name, ready) {
                let name = name.copy(alloc)?;
                return Ok(AgentStep::ReadsVolume(name, claim.get().copy(alloc)?));
            }
            Ok(AgentStep::Parked)
        }
        _ => Ok(AgentStep::Parked),
    }
}

/// The claim that the answer shows to be ready: its volume was found carrying it.
pub(crate) fn ready_by(
    alloc: Global,
    step: &AgentStep,
    reply: &Reply,
) -> Result<Option<ReadyClaim>, OutOfMemory>
    ensures { IfOk result (λ ready. ready ≡ ready_by step.now reply.now) }
{
    match (step, reply) {
        (AgentStep::ReadsVolume(name, claim), Reply::Found(Object::Volume(volume))) => {
            if carries(volume, claim) {
                return ready_claim(alloc, name, claim);
            }
            Ok(None)
        }
        _ => Ok(None),
    }
}

fn ready_claim(alloc: Global, name: &Text, claim: &Claim) -> Result<Option<ReadyClaim>, OutOfMemory>
    ensures { IfOk result (λ ready. ready ≡ ready_claim name.now claim.now claim.now.meta.uid) }
{
    match claim.meta.uid {
        None => Ok(None),
        Some(uid) => Ok(Some(ReadyClaim {
            claim: name.copy(alloc)?,
            uid,
            volume: claim.volume_name.copy(alloc)?,
        })),
    }
}

pub(crate) fn pod_key(alloc: Global, pod: &Pod) -> Result<Key, OutOfMemory>
    ensures { IfOk result (λ key. key ≡ pod_key pod.now.meta.namespace pod.now.meta.name) }
{
    Ok(Key {
        kind: Kind::Pod,
        namespace: pod.meta.namespace.copy(alloc)?,
        name: pod.meta.name.copy(alloc)?,
    })
}
