//! Where the index shows that an agent may make a call.

ghost use Rattle.std.specs.Prelude.{◌≡◌, ◌≤◌, [], ℕ, List, IfSome, IsTrue, Some, is_some, length, reverse, true};
ghost use Rattle.kube_objects.specs.declared.objects.Object.TheVariants as objects;
ghost use Rattle.call_types.specs.declared.entry.Entry.{Entry};
ghost use Rattle.call_types.specs.declared.reply.Reply.TheVariants as replies;
ghost use Rattle.binder_model.specs.AgentLicence.{AreReadReady, IsEndingPod, IsPodOn, IsReadReady, MayMount, MayReadMounts, MayUnmount, WasShownReady, epoch_in, last_epoch, never_finished, since_epoch};
ghost use Rattle.binder_model.specs.ObjectKeys.{claim_key};
ghost use Rattle.binder_model.specs.Told.{ToldPod as WasTold};
ghost use Rattle.informer_cache.specs.All.{AllStandFor};
ghost use Rattle.evidence_agent.specs.Places.Steps.Since.{IsPodList, gets};
ghost use Rattle.evidence_agent.specs.Pods.{AreTold};
ghost use Rattle.evidence_agent.specs.Indexed.{IsAgentIndexOf};
ghost use Rattle.evidence_agent.specs.Steps.Seen.{AreReadBehind, IsListed, IsRead, IsShown, IsStaying, IsStayingPod, IsTakenAt, IsToMount, IsVolumeRead, key_with_parts};

use crate::by_place::topics::{About, Matter};
use crate::index::AgentIndex;
use crate::pods::ToldPod;
use call_types::entry::Entry;
use call_types::reply::Reply;
use call_types::request::Request;
use evidence_pages::newest::newest_of;
use evidence_pages::parts::KeyParts;
use informer_cache::caches::Caches;
use kube_types::bindings::{
    carries, is_completed, is_deleting, is_protected_claim, is_scheduled, is_uid,
};
use kube_types::copies::Plain;
use kube_types::key::same_kind;
use kube_types::objects::{Claim, Object, Pod};
use kube_types::parts::Kind;
use kube_types::text::Text;
use kube_types::uid::Uid;
use licence_agent::mounting::is_claim_bound;

// the last epoch

/// The epoch of the node that the entry tells.
fn told_epoch(node: &Text, entry: &Entry) -> Option<u64>
    ensures { IfSome result (λ epoch. epoch_in node.now entry.now ≡ Some epoch) }
{
    if !entry.told {
        return None;
    }
    match &entry.request {
        Request::TakeNode { node: taken } => match &entry.reply {
            Reply::Epoch(told) => {
                if taken.is(node.as_str()) {
                    Some(*told)
                } else {
                    None
                }
            }
            _ => None,
        },
        _ => None,
    }
}

/// Where the last epoch of the node was told, and which one.
fn last_taken(index: &AgentIndex, entries: &[Entry], node: &Text) -> Option<(usize, u64)>
    requires { IsAgentIndexOf index.now (reverse entries.now) }
    ensures { IfSome result (λ r. IsTakenAt (reverse entries.now) node.now r.1 r.0) }
{
    let about = About::object(Matter::Taken, Kind::Node, "", node.as_str());
    match index.lasts.place(&about) {
        None => None,
        Some(place) => {
            if place >= entries.len() {
                return None;
            }
            match told_epoch(node, &entries[place]) {
                None => None,
                Some(epoch) => Some((place, epoch)),
            }
        }
    }
}

/// Where the last epoch of the node was told, where it is this one.
pub(crate) fn taken_at(
    index: &AgentIndex,
    entries: &[Entry],
    node: &Text,
    epoch: u64,
) -> Option<usize>
    requires { IsAgentIndexOf index.now (reverse entries.now) }
    ensures { IfSome result (IsTakenAt (reverse entries.now) node.now epoch) }
{
    match last_taken(index, entries, node) {
        None => None,
        Some((place, told)) => { if told == epoch { Some(place) } else { None } }
    }
}

/// Whether the index shows that the node was taken.
pub(crate) fn is_taken(index: &AgentIndex, entries: &[Entry], node: &Text) -> bool
    requires { IsAgentIndexOf index.now (reverse entries.now) }
    ensures { IsTrue result → is_some (last_epoch node.now (reverse entries.now)) ≡ true }
{
    match last_taken(index, entries, node) {
        None => false,
        Some((_place, _epoch)) => true,
    }
}

/// Whether the index shows that the epoch is the last one of the node.
pub fn is_current(index: &AgentIndex, entries: &[Entry], node: &Text, epoch: u64) -> bool
    requires { IsAgentIndexOf index.now (reverse entries.now) }
    ensures { IsTrue result → MayReadMounts (reverse entries.now) node.now epoch }
{
    match taken_at(index, entries, node, epoch) {
        None => false,
        Some(_place) => true,
    }
}

// reads behind a place

/// Whether the entry tells a read of the key.
fn tells_get(kind: Kind, namespace: &str, name: &str, entry: &Entry) -> bool
    ensures { IsTrue result → gets (key_with_parts kind namespace.now name.now) entry.now ≡ true }
{
    if !entry.told {
        return false;
    }
    match &entry.request {
        Request::Get { key } => {
            same_kind(key.kind, kind) && key.namespace.is(namespace) && key.name.is(name)
        }
        _ => false,
    }
}

/// The last read of the key, where it stands behind the place: its place and its answer.
fn read_behind<'a>(
    index: &AgentIndex,
    entries: &'a [Entry],
    behind: usize,
    kind: Kind,
    namespace: &str,
    name: &str,
) -> Option<(usize, &'a Reply)>
    requires { IsAgentIndexOf index.now (reverse entries.now) }
    ensures { IfSome result (λ r. IsRead (reverse entries.now) (key_with_parts kind namespace.now name.now) behind r.0 r.1.now) }
{
    let about = About::object(Matter::Read, kind, namespace, name);
    match index.lasts.place(&about) {
        None => None,
        Some(place) => {
            if behind >= place {
                return None;
            }
            if place >= entries.len() {
                return None;
            }
            if !tells_get(kind, namespace, name, &entries[place]) {
                return None;
            }
            Some((place, &entries[place].reply))
        }
    }
}

/// Whether the last read of the claim's volume stands behind the place and found it carrying the claim.
fn is_volume_read(index: &AgentIndex, entries: &[Entry], behind: usize, claim: &Claim) -> bool
    requires { IsAgentIndexOf index.now (reverse entries.now) }
    ensures { IsTrue result → IsVolumeRead (reverse entries.now) claim.now behind }
{
    let name = claim.volume_name.as_str();
    match read_behind(index, entries, behind, Kind::PersistentVolume, "", name) {
        None => false,
        Some((_, reply)) => match reply {
            Reply::Found(Object::Volume(volume)) => carries(volume, claim),
            _ => false,
        },
    }
}

/// Whether the claim has the id, stays, is protected and is bound.
fn is_to_mount(claim: &Claim, uid: Uid) -> bool
    ensures { IsTrue result → IsToMount claim.now uid }
{
    is_uid(claim.meta.uid, uid)
        && !is_deleting(&claim.meta)
        && is_protected_claim(claim)
        && is_completed(claim)
        && is_claim_bound(claim.phase)
}

fn claim_found<'a>(reply: &'a Reply) -> Option<&'a Claim>
    ensures { IfSome result (λ c. reply.now ≡ replies.Found (objects.Claim c.now)) }
{
    match reply {
        Reply::Found(object) => match object {
            Object::Claim(claim) => Some(claim),
            _ => None,
        },
        _ => None,
    }
}

/// The claim that its last read found, where that read stands behind the place: its place and the claim.
fn claim_behind<'a>(
    index: &AgentIndex,
    entries: &'a [Entry],
    behind: usize,
    namespace: &str,
    name: &str,
) -> Option<(usize, &'a Claim)>
    requires { IsAgentIndexOf index.now (reverse entries.now) }
    ensures { IfSome result (λ r. IsRead (reverse entries.now) (claim_key namespace.now name.now) behind r.0 (replies.Found (objects.Claim r.1.now))) }
{
    let kind = Kind::PersistentVolumeClaim;
    match read_behind(index, entries, behind, kind, namespace, name) {
        None => None,
        Some((place, reply)) => match claim_found(reply) {
            None => None,
            Some(claim) => Some((place, claim)),
        },
    }
}

/// Whether the last read of the claim stands behind the place and found it ready, and that of its volume
/// after it.
fn is_read(
    index: &AgentIndex,
    entries: &[Entry],
    behind: usize,
    namespace: &Text,
    name: &Text,
    uid: Uid,
) -> bool
    requires { IsAgentIndexOf index.now (reverse entries.now) }
    ensures { IsTrue result → AreReadBehind (reverse entries.now) behind (λ recent. IsReadReady recent namespace.now name.now uid) }
{
    match claim_behind(index, entries, behind, namespace.as_str(), name.as_str()) {
        None => false,
        Some((place, claim)) => {
            is_to_mount(claim, uid) && is_volume_read(index, entries, place, claim)
        }
    }
}

/// Whether each of the claims, in order, is so with its id.
fn are_read(
    index: &AgentIndex,
    entries: &[Entry],
    behind: usize,
    namespace: &Text,
    names: &[Text],
    uids: &[Uid],
) -> bool
    requires { IsAgentIndexOf index.now (reverse entries.now) }
    ensures { IsTrue result → AreReadBehind (reverse entries.now) behind (λ recent. AreReadReady recent namespace.now names.now uids.now) }
{
    if names.len() != uids.len() {
        return false;
    }
    let mut place = 0;
    while place < names.len() {
        if !is_read(
            index,
            entries,
            behind,
            namespace,
            &names[place],
            uids[place],
        ) {
            return false;
        }
        place += 1;
    }
    true
}

// a pod that was told

/// Whether the entry told a list of all pods.
fn is_pod_list(entry: &Entry) -> bool
    ensures { IsTrue result → IsPodList entry.now }
{
    if !entry.told {
        return false;
    }
    match &entry.request {
        Request::List {
            kind: Kind::Pod,
            namespace: None,
        } => match &entry.reply {
            Reply::Listed {
                items: _,
                version: _,
            } => true,
            _ => false,
        },
        _ => false,
    }
}

/// Whether a list of all pods was told between the two places.
fn is_listed(index: &AgentIndex, entries: &[Entry], taken: usize, shown: usize) -> bool
    ensures { IsTrue result → IsListed (reverse entries.now) taken shown }
{
    let about = About::object(Matter::Listed, Kind::Pod, "", "");
    match index.lasts.place(&about) {
        None => false,
        Some(place) => {
            if taken >= place {
                return false;
            }
            if place > shown {
                return false;
            }
            if place >= entries.len() {
                return false;
            }
            is_pod_list(&entries[place])
        }
    }
}

/// Whether the pod has the id and stands, scheduled, on the node.
fn is_pod_on(uid: Uid, node: &Text, pod: &Pod) -> bool
    ensures { IsTrue result → IsPodOn uid node.now pod.now }
{
    is_uid(pod.meta.uid, uid) && pod.node.same(node) && is_scheduled(pod)
}

/// Whether the newest told of the pod's key has the id and stays.
fn is_newest_staying(caches: &Caches, uid: Uid, pod: &Pod) -> bool
    ensures { (mine : List Entry) → AllStandFor caches.now mine → IsTrue result → IsStaying mine uid pod.now }
{
    let key = KeyParts {
        kind: Kind::Pod,
        namespace: pod.meta.namespace.as_str(),
        name: pod.meta.name.as_str(),
    };
    match newest_of(caches, &key) {
        None => false,
        Some(found) => is_staying(uid, found),
    }
}

fn is_staying(uid: Uid, found: &Object) -> bool
    ensures { IsTrue result → IsStayingPod uid found.now }
{
    match found {
        Object::Pod(latest) => is_uid(latest.meta.uid, uid) && !is_deleting(&latest.meta),
        _ => false,
    }
}

/// Whether by this telling of the pod, which stands behind the place of the epoch, its claims may be
/// mounted.
fn is_shown(
    index: &AgentIndex,
    caches: &Caches,
    entries: &[Entry],
    taken: usize,
    node: &Text,
    uid: Uid,
    claims: &[Uid],
    told: &ToldPod,
) -> bool
    requires index { IsAgentIndexOf index.now (reverse entries.now) }
    requires known { AllStandFor caches.now (reverse entries.now) }
    ensures { IsTrue result → IsShown (reverse entries.now) taken node.now uid claims.now told.now }
{
    if !is_listed(index, entries, taken, told.place) {
        return false;
    }
    if !is_pod_on(uid, node, &told.pod) {
        return false;
    }
    if !is_newest_staying(caches, uid, &told.pod) {
        return false;
    }
    let namespace = &told.pod.meta.namespace;
    let names = told.pod.claims.as_slice();
    are_read(index, entries, told.place, namespace, names, claims)
}

/// Whether one of the tellings of the pod shows that its claims may be mounted.
fn shows_among(
    index: &AgentIndex,
    caches: &Caches,
    entries: &[Entry],
    taken: usize,
    node: &Text,
    uid: Uid,
    claims: &[Uid],
    tellings: &[ToldPod],
) -> bool
    requires index { IsAgentIndexOf index.now (reverse entries.now) }
    requires known { AllStandFor caches.now (reverse entries.now) }
    requires told { AreTold tellings.now (reverse entries.now) }
    ensures { IsTrue result → ((epoch : ℕ) → IsTakenAt (reverse entries.now) node.now epoch taken → WasShownReady (reverse entries.now) node.now uid claims.now [] (since_epoch node.now (reverse entries.now))) }
{
    for told in tellings {
        if is_shown(index, caches, entries, taken, node, uid, claims, told) {
            return true;
        }
    }
    false
}

/// Whether the pod was told before the place, or without a node.
fn is_early(told: &ToldPod, listed: usize) -> bool {
    if told.place < listed {
        return true;
    }
    !is_scheduled(&told.pod)
}

/// Where the tellings begin that are not early. A pod that has a node keeps it, so no early one is behind them.
fn first_late(tellings: &[ToldPod], listed: usize) -> usize
    ensures { result ≤ length tellings.now }
{
    let mut low = 0;
    let mut high = tellings.len();
    while low < high {
        let middle = low + (high - low) / 2;
        if is_early(&tellings[middle], listed) {
            low = middle + 1;
        } else {
            high = middle;
        }
    }
    low
}

/// The tellings from the last list of all pods on, where the pod has a node.
fn late<'a>(index: &AgentIndex, tellings: &'a [ToldPod]) -> &'a [ToldPod]
    ensures { (mine : List Entry) → AreTold tellings.now mine → AreTold result.now mine }
{
    match index
        .lasts
        .place(&About::object(Matter::Listed, Kind::Pod, "", ""))
    {
        None => &[],
        Some(listed) => {
            let (_early, late) = tellings.split_at(first_late(tellings, listed));
            late
        }
    }
}

/// The same; the tellings from the last list of all pods on are looked at first.
fn shows_mount(
    index: &AgentIndex,
    caches: &Caches,
    entries: &[Entry],
    taken: usize,
    node: &Text,
    uid: Uid,
    claims: &[Uid],
    tellings: &[ToldPod],
) -> bool
    requires index { IsAgentIndexOf index.now (reverse entries.now) }
    requires known { AllStandFor caches.now (reverse entries.now) }
    requires told { AreTold tellings.now (reverse entries.now) }
    ensures { IsTrue result → ((epoch : ℕ) → IsTakenAt (reverse entries.now) node.now epoch taken → WasShownReady (reverse entries.now) node.now uid claims.now [] (since_epoch node.now (reverse entries.now))) }
{
    let late = late(index, tellings);
    if shows_among(index, caches, entries, taken, node, uid, claims, late) {
        return true;
    }
    shows_among(index, caches, entries, taken, node, uid, claims, tellings)
}

/// Whether the index shows that the seat never asked to finish the pod.
fn never_finished(index: &AgentIndex, entries: &[Entry], uid: Uid) -> bool
    requires { IsAgentIndexOf index.now (reverse entries.now) }
    ensures { IsTrue result → never_finished uid (reverse entries.now) ≡ true }
{
    match index.lasts.place(&About::pod(Matter::Finished, uid)) {
        None => true,
        Some(_) => false,
    }
}

/// Whether the index shows that the pod's claims may be mounted.
pub fn may_mount(
    index: &AgentIndex,
    caches: &Caches,
    entries: &[Entry],
    node: &Text,
    epoch: u64,
    uid: Uid,
    claims: &[Uid],
) -> bool
    requires index { IsAgentIndexOf index.now (reverse entries.now) }
    requires known { AllStandFor caches.now (reverse entries.now) }
    ensures { IsTrue result → MayMount (reverse entries.now) node.now epoch uid claims.now }
{
    if !never_finished(index, entries, uid) {
        return false;
    }
    let tellings = index.pods.told(uid);
    match taken_at(index, entries, node, epoch) {
        None => false,
        Some(taken) => { shows_mount(index, caches, entries, taken, node, uid, claims, tellings) }
    }
}

// unmounting

/// The pod with the id, scheduled, on the node, deleting.
fn is_ending(uid: Uid, node: &Text, pod: &Pod) -> bool
    ensures { IsTrue result → IsEndingPod uid node.now pod.now }
{
    is_uid(pod.meta.uid, uid) && pod.node.same(node) && is_scheduled(pod) && is_deleting(&pod.meta)
}

/// Whether one of the tellings is of the pod, scheduled, on the node, deleting. The last ones are looked at first, since a
/// deletion is not taken back.
pub(crate) fn told_ending(tellings: &[ToldPod], node: &Text, uid: Uid) -> bool
    ensures { (mine : List Entry) → AreTold tellings.now mine → IsTrue result → WasTold (IsEndingPod uid node.now) mine }
{
    let mut left = tellings.len();
    while left > 0 {
        left -= 1;
        if is_ending(uid, node, &tellings[left].pod) {
            return true;
        }
    }
    false
}

/// Whether the index shows that the pod may be unmounted.
pub fn may_unmount(index: &AgentIndex, entries: &[Entry], node: &Text, epoch: u64, uid: Uid) -> bool
    requires { IsAgentIndexOf index.now (reverse entries.now) }
    ensures { IsTrue result → MayUnmount (reverse entries.now) node.now epoch uid }
{
    is_current(index, entries, node, epoch) && told_ending(index.pods.told(uid), node, uid)
}
