//! The lists of an index, in their orders.

ghost use Rattle.std.specs.Prelude.{◌≡◌, ◌<◌, ◌&&◌, true, OnOk, OnErr};
ghost use Rattle.std.specs.Ordering.{is_eq};
ghost use Rattle.plain_data.specs.Rows.{put, without};
ghost use Rattle.std.specs.Vec.{vec_capacity, vec_len};
ghost use Rattle.volume_index.specs.VolumeIndex.{is_any, is_free, is_owned};
ghost use Rattle.volume_index.specs.VolumeOrders.{AreInOrder, by_owner, by_size};
ghost use Rattle.volume_index.specs.Steps.IndexEdits.{put_if, without_if, without_unless};

use crate::order::{compare_by_owner, compare_by_size, owner_place, size_place};
use kube_objects::objects::Volume;
use kube_parts::parts::VolumePhase;
use plain_data::copies::{OutOfMemory, Plain};
use plain_data::rows::put_at;
use plain_data::shared::Shared;
use std::alloc::Global;

/// Whether the volume is Available, and names no claim.
pub(crate) fn is_free(volume: &Volume) -> bool
    ensures { result ≡ is_free volume.now }
{
    match volume.phase {
        VolumePhase::Available => volume.claim_ref.is_none(),
        _ => false,
    }
}

/// Whether the volume names a claim.
pub(crate) fn is_owned(volume: &Volume) -> bool
    ensures { result ≡ is_owned volume.now }
{
    volume.claim_ref.is_some()
}

fn put_by_size(
    alloc: Global,
    volumes: &mut Vec<Shared<Volume>>,
    volume: Shared<Volume>,
) -> Result<Shared<Volume>, OutOfMemory>
    requires { AreInOrder by_size volumes.old.items }
    ensures ok { OnOk result (volumes.new.items ≡ put by_size (λ v. v) volume volumes.old.items) }
    ensures err { OnErr result (volumes.new.items ≡ volumes.old.items) }
    ensures order { AreInOrder by_size volumes.new.items }
{
    let place = size_place(volumes, &volume);
    put_at(alloc, volumes, place, volume)
}

fn put_by_owner(
    alloc: Global,
    volumes: &mut Vec<Shared<Volume>>,
    volume: Shared<Volume>,
) -> Result<Shared<Volume>, OutOfMemory>
    requires { AreInOrder by_owner volumes.old.items }
    ensures ok { OnOk result (volumes.new.items ≡ put by_owner (λ v. v) volume volumes.old.items) }
    ensures err { OnErr result (volumes.new.items ≡ volumes.old.items) }
    ensures order { AreInOrder by_owner volumes.new.items }
{
    let place = owner_place(volumes, &volume);
    put_at(alloc, volumes, place, volume)
}

/// Takes the volume out of a list in the order of sizes.
pub(crate) fn take_by_size(volumes: &mut Vec<Shared<Volume>>, volume: &Shared<Volume>)
    requires { AreInOrder by_size volumes.old.items }
    ensures without { volumes.new.items ≡ without by_size (λ v. v) volume.now volumes.old.items }
    ensures order { AreInOrder by_size volumes.new.items }
{
    match size_place(volumes, volume) {
        Ok(at) => drop(volumes.remove(at)),
        Err(_) => {}
    }
}

fn take_by_owner(volumes: &mut Vec<Shared<Volume>>, volume: &Shared<Volume>)
    requires { AreInOrder by_owner volumes.old.items }
    ensures without { volumes.new.items ≡ without by_owner (λ v. v) volume.now volumes.old.items }
    ensures order { AreInOrder by_owner volumes.new.items }
{
    match owner_place(volumes, volume) {
        Ok(at) => drop(volumes.remove(at)),
        Err(_) => {}
    }
}

/// Puts the volume among all of them, where there is room for one more.
pub(crate) fn put_all(volumes: &mut Vec<Shared<Volume>>, volume: Shared<Volume>)
    requires order { AreInOrder by_size volumes.old.items }
    requires room { vec_len volumes.old < vec_capacity volumes.old }
    ensures put { volumes.new.items ≡ put_if by_size is_any volume volumes.old.items }
    ensures order { AreInOrder by_size volumes.new.items }
{
    match size_place(volumes, &volume) {
        Ok(at) => volumes[at] = volume,
        Err(at) => {
            // There is room, so this does not fail.
            let _ = volumes.insert(at, volume);
        }
    }
}

/// Puts the volume among the free ones, if it is free.
pub(crate) fn put_free(
    alloc: Global,
    volumes: &mut Vec<Shared<Volume>>,
    volume: &Shared<Volume>,
) -> Result<(), OutOfMemory>
    requires { AreInOrder by_size volumes.old.items }
    ensures ok { OnOk result (volumes.new.items ≡ put_if by_size is_free volume.now volumes.old.items) }
    ensures err { OnErr result (volumes.new.items ≡ volumes.old.items) }
    ensures order { AreInOrder by_size volumes.new.items }
{
    if is_free(volume) {
        let own = volume.copy(alloc)?;
        let _ = put_by_size(alloc, volumes, own)?;
        Ok(())
    } else {
        Ok(())
    }
}

/// Puts the volume among those that name a claim, if it names one.
pub(crate) fn put_owned(
    alloc: Global,
    volumes: &mut Vec<Shared<Volume>>,
    volume: &Shared<Volume>,
) -> Result<(), OutOfMemory>
    requires { AreInOrder by_owner volumes.old.items }
    ensures ok { OnOk result (volumes.new.items ≡ put_if by_owner is_owned volume.now volumes.old.items) }
    ensures err { OnErr result (volumes.new.items ≡ volumes.old.items) }
    ensures owned { OnErr result (is_owned volume.now ≡ true) }
    ensures order { AreInOrder by_owner volumes.new.items }
{
    if is_owned(volume) {
        let own = volume.copy(alloc)?;
        let _ = put_by_owner(alloc, volumes, own)?;
        Ok(())
    } else {
        Ok(())
    }
}

/// Takes the volume out of the free ones, if it is free.
pub(crate) fn take_free(volumes: &mut Vec<Shared<Volume>>, volume: &Shared<Volume>)
    requires { AreInOrder by_size volumes.old.items }
    ensures without { volumes.new.items ≡ without_if by_size is_free volume.now volumes.old.items }
    ensures order { AreInOrder by_size volumes.new.items }
{
    if is_free(volume) {
        take_by_size(volumes, volume)
    }
}

/// Takes the volume out of those that name a claim, if it names one.
pub(crate) fn take_owned(volumes: &mut Vec<Shared<Volume>>, volume: &Shared<Volume>)
    requires { AreInOrder by_owner volumes.old.items }
    ensures without { volumes.new.items ≡ without_if by_owner is_owned volume.now volumes.old.items }
    ensures order { AreInOrder by_owner volumes.new.items }
{
    if is_owned(volume) {
        take_by_owner(volumes, volume)
    }
}

/// Whether the second volume stands where the first did among the free ones, and so in place of it.
fn stays_free(before: &Volume, after: &Volume) -> bool
    ensures { result ≡ (is_free after.now && is_eq (by_size before.now after.now)) }
{
    is_free(after) && compare_by_size(before, after).is_eq()
}

/// The same among those that name a claim.
fn stays_owned(before: &Volume, after: &Volume) -> bool
    ensures { result ≡ (is_owned after.now && is_eq (by_owner before.now after.now)) }
{
    is_owned(after) && compare_by_owner(before, after).is_eq()
}

/// Takes a volume out of all of them, unless the one that was put in since stands in its place.
pub(crate) fn leave_all(
    volumes: &mut Vec<Shared<Volume>>,
    before: &Shared<Volume>,
    after: &Shared<Volume>,
)
    requires { AreInOrder by_size volumes.old.items }
    ensures without { volumes.new.items ≡ without_unless by_size is_any before.now after.now volumes.old.items }
    ensures order { AreInOrder by_size volumes.new.items }
{
    if !compare_by_size(before, after).is_eq() {
        take_by_size(volumes, before)
    }
}

/// The same for the free ones.
pub(crate) fn leave_free(
    volumes: &mut Vec<Shared<Volume>>,
    before: &Shared<Volume>,
    after: &Shared<Volume>,
)
    requires { AreInOrder by_size volumes.old.items }
    ensures without { volumes.new.items ≡ without_unless by_size is_free before.now after.now volumes.old.items }
    ensures order { AreInOrder by_size volumes.new.items }
{
    if !stays_free(before, after) {
        take_free(volumes, before)
    }
}

/// The same for those that name a claim.
pub(crate) fn leave_owned(
    volumes: &mut Vec<Shared<Volume>>,
    before: &Shared<Volume>,
    after: &Shared<Volume>,
)
    requires { AreInOrder by_owner volumes.old.items }
    ensures without { volumes.new.items ≡ without_unless by_owner is_owned before.now after.now volumes.old.items }
    ensures order { AreInOrder by_owner volumes.new.items }
{
    if !stays_owned(before, after) {
        take_owned(volumes, before)
    }
}
