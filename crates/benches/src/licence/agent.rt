//! Rounds of a node agent: a pod comes, its claim and its volume are read, it is mounted; it is to end, and
//! is unmounted and finished.

use crate::licence::bench::Bench;
use crate::licence::objects::{NODE, bound, pod};
use call_types::reply::{Change, MountRow, Reply};
use call_types::request::Request;
use kube_types::copies::{OutOfMemory, Plain};
use kube_types::items::Items;
use kube_types::key::key_of;
use kube_types::objects::{Object, Pod};
use kube_types::parts::Kind;
use kube_types::shared::Shared;
use kube_types::text::Text;
use kube_types::uid::Uid;
use sample_objects::keys::uid_of;
use sample_objects::parts::mark_deleted;

fn node(bench: &Bench) -> Result<Text, OutOfMemory> {
    Text::new(bench.alloc, NODE)
}

/// The object is read.
fn get(bench: &mut Bench, object: Object) -> Result<(), OutOfMemory> {
    let key = key_of(bench.alloc, &object)?;
    bench.call(Request::Get { key }, Reply::Found(object))
}

/// The pod is mounted with the claim.
fn mount(bench: &mut Bench, pod: Uid, claim: Uid) -> Result<(), OutOfMemory> {
    let mut claims = Items::new(bench.alloc);
    claims.push(claim)?;
    let mut rows = Items::new(bench.alloc);
    rows.push(MountRow {
        pod,
        claims: claims.copy(bench.alloc)?,
    })?;
    let request = Request::Mount {
        node: node(bench)?,
        epoch: 1,
        pod,
        claims,
    };
    bench.call(request, Reply::Mounted(rows))
}

/// The pod is unmounted and finished.
fn finish(bench: &mut Bench, uid: Uid, pod: &Pod) -> Result<(), OutOfMemory> {
    let alloc = bench.alloc;
    let request = Request::Unmount {
        node: node(bench)?,
        epoch: 1,
        pod: uid,
    };
    bench.call(request, Reply::Mounted(Items::new(alloc)))?;
    let object = Object::Pod(Shared::new(alloc, pod.copy(alloc)?)?);
    let request = Request::FinishPod {
        key: key_of(alloc, &object)?,
        uid,
        node: node(bench)?,
        epoch: 1,
    };
    bench.next();
    bench.call(request, Reply::Left(object))
}

/// A watch of the pods tells this one.
fn watch(bench: &mut Bench, from: u64, change: Change, pod: &Pod) -> Result<u64, OutOfMemory> {
    let object = Object::Pod(Shared::new(bench.alloc, pod.copy(bench.alloc)?)?);
    bench.watch_one(Kind::Pod, from, change, object)
}

fn round(bench: &mut Bench, from: u64, number: u64) -> Result<u64, OutOfMemory> {
    let version = bench.next();
    let (volume, claim) = bound(bench.alloc, number, version)?;
    let uid = uid_of(version);
    let mut pod = pod(bench.alloc, number, version)?;
    let from = watch(bench, from, Change::Added, &pod)?;
    get(bench, Object::Claim(Shared::new(bench.alloc, claim)?))?;
    get(bench, Object::Volume(Shared::new(bench.alloc, volume)?))?;
    mount(bench, uid, uid)?;
    mark_deleted(bench.alloc, &mut pod.meta)?;
    pod.meta.version = bench.next();
    let from = watch(bench, from, Change::Modified, &pod)?;
    finish(bench, uid, &pod)?;
    watch(bench, from, Change::Deleted, &pod)
}

/// The node is taken, the pods and the mounts are told, and then rounds.
pub fn run(bench: &mut Bench) -> Result<(), OutOfMemory> {
    let request = Request::TakeNode { node: node(bench)? };
    bench.call(request, Reply::Epoch(1))?;
    bench.list_none(Kind::Pod)?;
    let request = Request::Mounts {
        node: node(bench)?,
        epoch: 1,
    };
    bench.call(request, Reply::Mounted(Items::new(bench.alloc)))?;
    let mut from = 0;
    for number in 0..(bench.limit / 8).saturating_add(1) {
        from = round(bench, from, number)?;
    }
    Ok(())
}
