//! Rounds of ops: a claim comes for which no pool has the bytes, and its node is cleared; another comes, and
//! a volume is made for it, which is released, fails to be erased, and is erased and deleted.

use crate::licence::bench::{Bench, tell};
use crate::licence::objects::{CLAIMS, VOLUMES, ZONE, class, data, made, node, selected};
use call_types::reply::{Change, Refusal, Reply};
use call_types::request::{NewStatus, Request};
use kube_types::bindings::SELECTED_NODE;
use kube_types::copies::{OutOfMemory, Plain};
use kube_types::items::Items;
use kube_types::key::{key_of, meta_of};
use kube_types::objects::{Claim, Object, Volume};
use kube_types::parts::{Kind, VolumePhase};
use kube_types::shared::Shared;
use kube_types::text::Text;
use sample_objects::keys::{data_name, uid_of};
use sample_objects::parts::{PROVISIONER, zone_labels};

/// The versions that the watches reached.
#[derive(Drop)]
struct Reached {
    volumes: u64,
    claims: u64,
}

/// A claim comes, for which the node was chosen.
fn admit(bench: &mut Bench, reached: &mut Reached, number: u64) -> Result<Claim, OutOfMemory> {
    let version = bench.next();
    let claim = selected(bench.alloc, number, version)?;
    let object = Object::Claim(Shared::new(bench.alloc, claim.copy(bench.alloc)?)?);
    reached.claims = bench.watch_one(CLAIMS, reached.claims, Change::Added, object)?;
    Ok(claim)
}

fn provision(bench: &mut Bench, claim: &Claim, reply: Reply) -> Result<(), OutOfMemory> {
    let alloc = bench.alloc;
    let request = Request::Provision {
        name: data_name(alloc, claim.meta.uid)?,
        provisioner: Text::new(alloc, PROVISIONER)?,
        bytes: claim.amount.bytes,
        labels: Some(zone_labels(alloc, ZONE)?),
    };
    bench.call(request, reply)
}

/// No pool has the bytes, and the node is cleared.
fn clear(bench: &mut Bench, reached: &mut Reached, number: u64) -> Result<(), OutOfMemory> {
    let alloc = bench.alloc;
    let mut claim = admit(bench, reached, number)?;
    provision(
        bench,
        &claim,
        Reply::Refused(Refusal::Exhausted { free: 0 }),
    )?;
    let version = claim.meta.version;
    claim
        .meta
        .annotations
        .drop_key(&Text::new(alloc, SELECTED_NODE)?);
    let request = Request::Update {
        object: Object::Claim(Shared::new(alloc, claim.copy(alloc)?)?),
        version: Some(version),
    };
    claim.meta.version = bench.next();
    bench.call(
        request,
        Reply::Done(Object::Claim(Shared::new(alloc, claim)?)),
    )
}

/// Data are provisioned for the claim, and the volume over them is created.
fn create(bench: &mut Bench, claim: &Claim, number: u64) -> Result<Volume, OutOfMemory> {
    let alloc = bench.alloc;
    let reply = Reply::Provisioned {
        id: data(alloc, number)?,
        topology: None,
    };
    provision(bench, claim, reply)?;
    let mut volume = made(alloc, number, claim)?;
    let object = Object::Volume(Shared::new(alloc, volume.copy(alloc)?)?);
    volume.meta.version = bench.next();
    volume.meta.uid = Some(uid_of(volume.meta.version));
    let created = Object::Volume(Shared::new(alloc, volume.copy(alloc)?)?);
    bench.call(Request::Create { object }, Reply::Done(created))?;
    Ok(volume)
}

/// The volume is released, which a watch tells.
fn release(
    bench: &mut Bench,
    reached: &mut Reached,
    volume: &mut Volume,
) -> Result<(), OutOfMemory> {
    let alloc = bench.alloc;
    let mut events = Items::new(alloc);
    volume.phase = VolumePhase::Bound;
    volume.meta.version = bench.next();
    let object = Object::Volume(Shared::new(alloc, volume.copy(alloc)?)?);
    tell(&mut events, Change::Modified, object, volume.meta.version)?;
    volume.phase = VolumePhase::Released;
    volume.meta.version = bench.next();
    let object = Object::Volume(Shared::new(alloc, volume.copy(alloc)?)?);
    tell(&mut events, Change::Modified, object, volume.meta.version)?;
    reached.volumes = bench.watch(VOLUMES, reached.volumes, events)?;
    Ok(())
}

fn get(bench: &mut Bench, volume: &Volume) -> Result<(), OutOfMemory> {
    let object = Object::Volume(Shared::new(bench.alloc, volume.copy(bench.alloc)?)?);
    let key = key_of(bench.alloc, &object)?;
    bench.call(Request::Get { key }, Reply::Found(object))
}

/// Erasing fails, and the phase is written.
fn fail(bench: &mut Bench, volume: &mut Volume, number: u64) -> Result<(), OutOfMemory> {
    let alloc = bench.alloc;
    let request = Request::Erase {
        id: data(alloc, number)?,
    };
    bench.call(request, Reply::Refused(Refusal::BackFault { planned: 1 }))?;
    let key = key_of(
        alloc,
        &Object::Volume(Shared::new(alloc, volume.copy(alloc)?)?),
    )?;
    let request = Request::UpdateStatus {
        key,
        status: NewStatus::Volume(VolumePhase::Failed),
        version: Some(volume.meta.version),
    };
    volume.phase = VolumePhase::Failed;
    volume.meta.version = bench.next();
    let object = Object::Volume(Shared::new(alloc, volume.copy(alloc)?)?);
    bench.call(request, Reply::Done(object))
}

/// The data are erased, and the volume is deleted.
fn delete(bench: &mut Bench, volume: &Volume, number: u64) -> Result<(), OutOfMemory> {
    let alloc = bench.alloc;
    let request = Request::Erase {
        id: data(alloc, number)?,
    };
    bench.call(request, Reply::Erased { removed: true })?;
    let object = Object::Volume(Shared::new(alloc, volume.copy(alloc)?)?);
    let request = Request::Delete {
        key: key_of(alloc, &object)?,
        uid: meta_of(&object).uid,
    };
    bench.next();
    bench.call(request, Reply::Done(object))
}

fn round(bench: &mut Bench, reached: &mut Reached, number: u64) -> Result<(), OutOfMemory> {
    let other = number.saturating_add(1_000_000);
    clear(bench, reached, other)?;
    let claim = admit(bench, reached, number)?;
    let mut volume = create(bench, &claim, number)?;
    release(bench, reached, &mut volume)?;
    get(bench, &volume)?;
    fail(bench, &mut volume, number)?;
    get(bench, &volume)?;
    delete(bench, &volume, number)
}

/// Lists of the kinds that ops follows, and then rounds.
pub fn run(bench: &mut Bench) -> Result<(), OutOfMemory> {
    let version = bench.next();
    let class = Object::Class(Shared::new(bench.alloc, class(bench.alloc, version)?)?);
    let version = bench.next();
    let node = Object::Node(Shared::new(bench.alloc, node(bench.alloc, version)?)?);
    bench.list_one(Kind::StorageClass, class)?;
    bench.list_one(Kind::Node, node)?;
    bench.list_none(VOLUMES)?;
    bench.list_none(CLAIMS)?;
    let mut reached = Reached {
        volumes: bench.version,
        claims: bench.version,
    };
    for number in 0..(bench.limit / 13).saturating_add(1) {
        round(bench, &mut reached, number)?;
    }
    Ok(())
}
