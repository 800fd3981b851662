//! Rounds of a binder: a volume and a claim come, are bound by four writes, and these are watched.

use crate::licence::bench::{Bench, tell};
use crate::licence::objects::{CLAIMS, VOLUMES, claim, volume};
use bind_writes::next_write;
use call_types::reply::{Change, Event, Reply};
use call_types::request::{NewStatus, Request};
use kube_types::copies::{OutOfMemory, Plain, copy_option};
use kube_types::items::Items;
use kube_types::objects::{Claim, Object, Volume};
use kube_types::parts::Kind;
use kube_types::shared::Shared;
use std::alloc::Global;

/// A volume and a claim, as they stand.
#[derive(Drop)]
struct Pair {
    volume: Volume,
    claim: Claim,
}

impl Pair {
    /// The volume as it is after the write, or the claim.
    fn write(
        &mut self,
        alloc: Global,
        request: &Request,
        version: u64,
    ) -> Result<Object, OutOfMemory> {
        match request {
            Request::Update {
                object: Object::Volume(new),
                version: _,
            } => self.volume = new.get().copy(alloc)?,
            Request::Update {
                object: Object::Claim(new),
                version: _,
            } => self.claim = new.get().copy(alloc)?,
            Request::UpdateStatus {
                key: _,
                status,
                version: _,
            } => self.write_status(alloc, status)?,
            _ => {}
        }
        self.stored(alloc, is_volume_write(request), version)
    }

    fn write_status(&mut self, alloc: Global, status: &NewStatus) -> Result<(), OutOfMemory> {
        match status {
            NewStatus::Volume(phase) => self.volume.phase = *phase,
            NewStatus::Claim {
                phase,
                modes,
                amount,
            } => {
                self.claim.phase = *phase;
                self.claim.got_modes = *modes;
                self.claim.got = copy_option(alloc, amount)?;
            }
        }
        Ok(())
    }

    /// What was written, at its new version.
    fn stored(
        &mut self,
        alloc: Global,
        is_volume: bool,
        version: u64,
    ) -> Result<Object, OutOfMemory> {
        if is_volume {
            self.volume.meta.version = version;
            Ok(Object::Volume(Shared::new(alloc, self.volume.copy(alloc)?)?))
        } else {
            self.claim.meta.version = version;
            Ok(Object::Claim(Shared::new(alloc, self.claim.copy(alloc)?)?))
        }
    }
}

fn is_volume_write(request: &Request) -> bool {
    match request {
        Request::Update {
            object: Object::Volume(_),
            version: _,
        } => true,
        Request::UpdateStatus {
            key: _,
            status: NewStatus::Volume(_),
            version: _,
        } => true,
        _ => false,
    }
}

/// The versions that the watches reached.
#[derive(Drop)]
struct Reached {
    volumes: u64,
    claims: u64,
}

/// A new volume and a new claim, which the binder is told.
fn admit(bench: &mut Bench, reached: &mut Reached, round: u64) -> Result<Pair, OutOfMemory> {
    let version = bench.next();
    let volume = volume(bench.alloc, round, version)?;
    let object = Object::Volume(Shared::new(bench.alloc, volume.copy(bench.alloc)?)?);
    reached.volumes = bench.watch_one(VOLUMES, reached.volumes, Change::Added, object)?;
    let version = bench.next();
    let claim = claim(bench.alloc, round, version)?;
    let object = Object::Claim(Shared::new(bench.alloc, claim.copy(bench.alloc)?)?);
    reached.claims = bench.watch_one(CLAIMS, reached.claims, Change::Added, object)?;
    Ok(Pair { volume, claim })
}

/// The next write of the binding.
fn bind(bench: &mut Bench, pair: &mut Pair, told: &mut Items<Event>) -> Result<(), OutOfMemory> {
    let alloc = bench.alloc;
    match next_write(alloc, &pair.volume, &pair.claim)? {
        None => Ok(()),
        Some(request) => {
            let version = bench.next();
            let object = pair.write(alloc, &request, version)?;
            tell(told, Change::Modified, object.copy(alloc)?, version)?;
            bench.call(request, Reply::Done(object))
        }
    }
}

fn round(bench: &mut Bench, reached: &mut Reached, number: u64) -> Result<(), OutOfMemory> {
    let mut pair = admit(bench, reached, number)?;
    let mut told = Items::new(bench.alloc);
    bind(bench, &mut pair, &mut told)?;
    bind(bench, &mut pair, &mut told)?;
    reached.volumes = bench.watch(VOLUMES, reached.volumes, told)?;
    let mut told = Items::new(bench.alloc);
    bind(bench, &mut pair, &mut told)?;
    bind(bench, &mut pair, &mut told)?;
    reached.claims = bench.watch(CLAIMS, reached.claims, told)?;
    Ok(())
}

/// Three lists, and then rounds.
pub fn run(bench: &mut Bench) -> Result<(), OutOfMemory> {
    bench.list_none(VOLUMES)?;
    bench.list_none(CLAIMS)?;
    bench.list_none(Kind::StorageClass)?;
    let mut reached = Reached {
        volumes: 0,
        claims: 0,
    };
    for number in 0..(bench.limit / 8).saturating_add(1) {
        round(bench, &mut reached, number)?;
    }
    Ok(())
}
