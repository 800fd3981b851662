//! Where a node agent may mount a pod's claims.

ghost use Rattle.std.specs.Prelude.{◌≡◌, ◌↔◌, ◌+◌, IsTrue, MatchOption, Some, [], drop, reverse, take, true};
ghost use Rattle.binder_model.specs.AgentLicence.{AreReadReady, IsPodOn, IsReadReady, IsReadyPod, ListedPods, MayMount, WasShownReady, is_finish_of, is_pod_list, never_finished};
ghost use Rattle.binder_model.specs.BindWrites.{is_claim_bound};
ghost use Rattle.binder_model.specs.Told.{IsPodWith, TellsObject};
ghost use Rattle.licence_agent.specs.Mounting.{IsClaimReady, IsFirstList, IsFirstReady, IsSameShown, IsShownIn, IsVolumeRead};

use call_types::entry::Entry;
use call_types::reply::Reply;
use call_types::request::Request;
use kube_types::bindings::{carries, is_completed, is_deleting, is_protected_claim, is_scheduled};
use kube_types::objects::{Claim, Object, Pod};
use kube_types::parts::{ClaimPhase, Kind};
use kube_types::uid::Uid;
use licence_rows::newest::newest_pod_named;
use licence_rows::parts::is_known;
use licence_scans::entries::EntryTest;
use licence_scans::lasts::{last_get, last_taken};
use licence_scans::rows::{OfPods, PodTest, told_pod};
use licence_scans::told::tells;
use plain_data::copies::Plain;
use plain_data::text::Text;

/// Whether a claim of this phase is bound.
pub fn is_claim_bound(phase: ClaimPhase) -> bool
    ensures { result ≡ is_claim_bound phase }
{
    match phase {
        ClaimPhase::Bound => true,
        _ => false,
    }
}

fn is_finish_of(pod: Uid, request: &Request) -> bool
    ensures { result ≡ is_finish_of pod request.now }
{
    match request {
        Request::FinishPod {
            key: _,
            uid,
            node: _,
            epoch: _,
        } => uid.0 == pod.0,
        _ => false,
    }
}

/// Whether the seat never asked to finish the pod.
#[tactic(auto, using(model_laws::proofs::Evidence::newest_first))]
fn never_finished(mine: &[Entry], pod: Uid) -> bool
    ensures { result ≡ never_finished pod (reverse mine.now) }
{
    let mut left = mine.len();
    while left > 0 {
        left -= 1;
        if is_finish_of(pod, &mine[left].request) {
            return false;
        }
    }
    true
}

/// The pod with the UID, scheduled, on the node.
fn is_pod_on(uid: Uid, node: &Text, pod: &Pod) -> bool
    ensures { IsTrue result ↔ IsPodOn uid node.now pod.now }
{
    if !is_known(&pod.meta, uid) {
        return false;
    }
    if !pod.node.same(node) {
        return false;
    }
    is_scheduled(pod)
}

/// Whether the last Get of the claim's volume found it carrying the claim.
fn is_volume_read(since: &[Entry], claim: &Claim) -> bool
    ensures { IsTrue result ↔ IsVolumeRead (reverse since.now) claim.now }
{
    match last_get(
        since,
        Kind::PersistentVolume,
        "",
        claim.volume_name.as_str(),
    ) {
        None => false,
        Some((reply, _)) => match reply {
            Reply::Found(Object::Volume(volume)) => carries(volume, claim),
            _ => false,
        },
    }
}

fn is_claim_ready(since: &[Entry], claim: &Claim, uid: Uid) -> bool
    ensures { IsTrue result ↔ IsClaimReady (reverse since.now) claim.now uid }
{
    if !is_known(&claim.meta, uid) {
        return false;
    }
    if is_deleting(&claim.meta) {
        return false;
    }
    if !is_protected_claim(claim) {
        return false;
    }
    if !is_completed(claim) {
        return false;
    }
    if !is_claim_bound(claim.phase) {
        return false;
    }
    is_volume_read(since, claim)
}

/// Whether the last Get of the claim found it ready, and the last Get of its volume after that found it
/// carrying the claim.
fn is_read_ready(recent: &[Entry], namespace: &Text, name: &Text, uid: Uid) -> bool
    ensures { IsTrue result ↔ IsReadReady (reverse recent.now) namespace.now name.now uid }
{
    match last_get(
        recent,
        Kind::PersistentVolumeClaim,
        namespace.as_str(),
        name.as_str(),
    ) {
        None => false,
        Some((reply, since)) => match reply {
            Reply::Found(Object::Claim(claim)) => is_claim_ready(since, claim, uid),
            _ => false,
        },
    }
}

fn are_read_ready(recent: &[Entry], namespace: &Text, names: &[Text], uids: &[Uid]) -> bool
    ensures { IsTrue result ↔ AreReadReady (reverse recent.now) namespace.now names.now uids.now }
{
    if names.len() != uids.len() {
        return false;
    }
    let mut place = 0;
    while place < names.len() {
        if !is_read_ready(recent, namespace, &names[place], uids[place]) {
            return false;
        }
        place += 1;
    }
    true
}

/// Whether the pod that was told may be mounted by what was read since.
fn is_ready_pod(
    mine: &[Entry],
    recent: &[Entry],
    node: &Text,
    uid: Uid,
    claims: &[Uid],
    shown: &Pod,
) -> bool
    ensures { IsTrue result ↔ IsReadyPod (reverse mine.now) (reverse recent.now) node.now uid claims.now shown.now }
{
    if !is_pod_on(uid, node, shown) {
        return false;
    }
    if !are_read_ready(
        recent,
        &shown.meta.namespace,
        shown.claims.as_slice(),
        claims,
    ) {
        return false;
    }
    let namespace = shown.meta.namespace.as_str();
    let name = shown.meta.name.as_str();
    match newest_pod_named(mine, namespace, name) {
        None => false,
        Some(latest) => {
            if !is_known(&latest.meta, uid) {
                return false;
            }
            !is_deleting(&latest.meta)
        }
    }
}

/// The pod is told as the given one is: with the UID, on the node, of the same name and the same claims.
#[derive(Drop)]
struct SameShown<'a> {
    uid: Uid,
    node: &'a Text,
    shown: &'a Pod,
}

impl<'a> PodTest for SameShown<'a> {
    ghost allows = { λ t p. IsSameShown t.node.now t.uid t.shown.now p };

    fn test(&self, pod: &Pod) -> bool {
        if !is_pod_on(self.uid, self.node, pod) {
            return false;
        }
        if !pod.meta.namespace.same(&self.shown.meta.namespace) {
            return false;
        }
        if !pod.meta.name.same(&self.shown.meta.name) {
            return false;
        }
        pod.claims.same(&self.shown.claims)
    }
}

/// The entries before the place.
fn before_place(entries: &[Entry], place: usize) -> &[Entry]
    ensures { result.now ≡ take place entries.now }
{
    if place >= entries.len() {
        return entries;
    }
    let (before, _) = entries.split_at(place);
    before
}

/// The entries behind the place.
fn behind_place(entries: &[Entry], place: usize) -> &[Entry]
    ensures { result.now ≡ drop (place + 1) entries.now }
{
    if place >= entries.len() {
        return &[];
    }
    let (_, behind) = entries.split_at(place + 1);
    behind
}

/// The pod, told by the entry at the place, may be mounted by what was read since, and was not told so by
/// an earlier entry.
#[derive(Drop)]
struct FirstReady<'a> {
    mine: &'a [Entry],
    listed: &'a [Entry],
    place: usize,
    node: &'a Text,
    uid: Uid,
    claims: &'a [Uid],
}

impl<'a> PodTest for FirstReady<'a> {
    ghost allows = { λ t p. IsFirstReady (reverse t.mine.now) (reverse (drop (t.place + 1) t.listed.now)) (reverse (take t.place t.listed.now)) t.node.now t.uid t.claims.now p };

    fn test(&self, pod: &Pod) -> bool {
        if !is_pod_on(self.uid, self.node, pod) {
            return false;
        }
        let same = SameShown {
            uid: self.uid,
            node: self.node,
            shown: pod,
        };
        if told_pod(&same, before_place(self.listed, self.place)) {
            return false;
        }
        let recent = behind_place(self.listed, self.place);
        is_ready_pod(self.mine, recent, self.node, self.uid, self.claims, pod)
    }
}

/// The entry told a list of all pods.
#[derive(Drop)]
struct PodList {}

impl EntryTest for PodList {
    ghost allows = { λ t e. (e.told ≡ true) × (is_pod_list e.request e.reply ≡ true) };

    fn test(&self, entry: &Entry) -> bool {
        if !entry.told {
            return false;
        }
        is_pod_list(&entry.request, &entry.reply)
    }
}

fn is_pod_list(request: &Request, reply: &Reply) -> bool
    ensures { result ≡ is_pod_list request.now reply.now }
{
    match request {
        Request::List {
            kind: Kind::Pod,
            namespace: None,
        } => match reply {
            Reply::Listed {
                items: _,
                version: _,
            } => true,
            _ => false,
        },
        _ => false,
    }
}

/// Where the first list of all pods stands that was told.
#[tactic(auto, using(model_laws::proofs::Evidence::newest_first))]
fn first_list(since: &[Entry]) -> Option<usize>
    ensures { MatchOption result (ListedPods (reverse since.now) → ⊥) (IsFirstList since.now) }
{
    let test = PodList {};
    let mut place = 0;
    while place < since.len() {
        if test.test(&since[place]) {
            return Some(place);
        }
        place += 1;
    }
    None
}

/// Whether the entry, which stands at the place, told such a pod as the first.
fn is_shown_first(
    mine: &[Entry],
    listed: &[Entry],
    place: usize,
    node: &Text,
    uid: Uid,
    claims: &[Uid],
    entry: &Entry,
) -> bool
    ensures { IsTrue result ↔ TellsObject (IsPodWith (IsFirstReady (reverse mine.now) (reverse (drop (place + 1) listed.now)) (reverse (take place listed.now)) node.now uid claims.now)) entry.now }
{
    let test = FirstReady {
        mine,
        listed,
        place,
        node,
        uid,
        claims,
    };
    let pods = OfPods { test: &test };
    tells(&pods, entry)
}

/// Whether one of the entries told a pod that may be mounted by what was read since. A pod that was told so
/// twice is tried at the earlier entry alone, since more was read after that.
fn is_shown_in(mine: &[Entry], listed: &[Entry], node: &Text, uid: Uid, claims: &[Uid]) -> bool
    ensures { IsTrue result ↔ IsShownIn (reverse mine.now) node.now uid claims.now [] (reverse listed.now) }
{
    let mut place = 0;
    while place < listed.len() {
        if is_shown_first(mine, listed, place, node, uid, claims, &listed[place]) {
            return true;
        }
        place += 1;
    }
    false
}

/// Whether among the entries since the epoch one told such a pod, and it or an earlier one was a list of
/// all pods.
fn was_shown_ready(mine: &[Entry], since: &[Entry], node: &Text, uid: Uid, claims: &[Uid]) -> bool
    ensures { IsTrue result ↔ WasShownReady (reverse mine.now) node.now uid claims.now [] (reverse since.now) }
{
    match first_list(since) {
        None => false,
        Some(place) => {
            let (_, listed) = since.split_at(place);
            is_shown_in(mine, listed, node, uid, claims)
        }
    }
}

/// Whether the pod's claims may be mounted.
pub fn may_mount(mine: &[Entry], node: &Text, epoch: u64, uid: Uid, claims: &[Uid]) -> bool
    ensures { IsTrue result ↔ MayMount (reverse mine.now) node.now epoch uid claims.now }
{
    if !never_finished(mine, uid) {
        return false;
    }
    match last_taken(mine, node) {
        None => false,
        Some((last, since)) => {
            if last != epoch {
                return false;
            }
            was_shown_ready(mine, since, node, uid, claims)
        }
    }
}
