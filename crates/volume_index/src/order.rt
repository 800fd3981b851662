//! The orders in which volumes stand in an index, and places in them.

ghost use Rattle.std.specs.Prelude.{◌≡◌, ◌≤◌, length, IfOk, IfErr};
ghost use Rattle.std.specs.List.Sorted.{IsSearchInRange};
ghost use Rattle.std.specs.Ordering.{ordering_then};
ghost use Rattle.kube_objects.specs.Bindings.{count_one, mode_count};
ghost use Rattle.plain_data.specs.Rows.{IsAt, IsGap};
ghost use Rattle.volume_index.specs.VolumeOrders.{AreInOrder, by_owner, by_size, name_cmp, need_cmp, owner_cmp, owner_of, size_cmp, size_of};
ghost use Rattle.volume_index.specs.IndexPlaces.{IsOwnerStart, IsSizeStart};

use kube_objects::bindings::{class_of_volume, count_one, mode_count};
use kube_objects::objects::Volume;
use plain_data::rows::{Ranked, place_of};
use plain_data::shared::Shared;
use std::cmp::Ordering;

/// A class, a volume mode, a number of access modes and a number of bytes.
#[derive(Clone, Copy)]
pub struct SizeFrom<'a> {
    pub class: &'a str,
    pub block: bool,
    pub modes: u8,
    pub bytes: u64,
}

/// The order of a volume and a size.
fn compare_size(volume: &Volume, size: &SizeFrom) -> Ordering
    ensures { result ≡ size_cmp (size_of volume.now) (record { class = size.now.class.now; block = size.now.block; modes = size.now.modes; bytes = size.now.bytes }) }
{
    class_of_volume(volume)
        .cmp(size.class)
        .then(count_one(volume.block).cmp(&count_one(size.block)))
        .then(mode_count(volume.modes).cmp(&size.modes))
        .then(volume.amount.bytes.cmp(&size.bytes))
}

impl<'a> Ranked<SizeFrom<'a>> for Shared<Volume> {
    ghost use Rattle.volume_index.specs.VolumeOrders.{size_of};
    ghost use Rattle.volume_index.specs.IndexPlaces.{rank_by_size};

    ghost rank = { λ v k. rank_by_size (record { class = k.class.now; block = k.block; modes = k.modes; bytes = k.bytes }) v };

    fn rank(&self, key: &SizeFrom<'a>) -> Ordering {
        if compare_size(self, key).is_lt() {
            Ordering::Less
        } else {
            Ordering::Greater
        }
    }
}

/// Where the volumes begin that are not before this size.
pub fn size_start(volumes: &[Shared<Volume>], size: &SizeFrom) -> usize
    requires { AreInOrder by_size volumes.now }
    ensures bound { result ≤ length volumes.now }
    ensures start { IsSizeStart (record { class = size.now.class.now; block = size.now.block; modes = size.now.modes; bytes = size.now.bytes }) volumes.now result }
{
    match place_of(volumes, size) {
        Ok(at) => at,
        Err(at) => at,
    }
}

/// The namespace and the name of a claim.
#[derive(Clone, Copy)]
pub struct OwnerFrom<'a> {
    pub namespace: &'a str,
    pub name: &'a str,
}

/// The order of the claim that the volume refers to and of another.
fn compare_owner(volume: &Volume, owner: &OwnerFrom) -> Ordering
    ensures { result ≡ owner_cmp (owner_of volume.now) (record { namespace = owner.now.namespace.now; name = owner.now.name.now }) }
{
    match &volume.claim_ref {
        None => "".cmp(owner.namespace).then("".cmp(owner.name)),
        Some(reference) => reference
            .namespace
            .as_str()
            .cmp(owner.namespace)
            .then(reference.name.as_str().cmp(owner.name)),
    }
}

impl<'a> Ranked<OwnerFrom<'a>> for Shared<Volume> {
    ghost use Rattle.volume_index.specs.IndexPlaces.{rank_by_owner};

    ghost rank = { λ v k. rank_by_owner (record { namespace = k.namespace.now; name = k.name.now }) v };

    fn rank(&self, key: &OwnerFrom<'a>) -> Ordering {
        if compare_owner(self, key).is_lt() {
            Ordering::Less
        } else {
            Ordering::Greater
        }
    }
}

/// Where the volumes begin that refer to this claim or to later ones.
pub fn owner_start(volumes: &[Shared<Volume>], owner: &OwnerFrom) -> usize
    requires { AreInOrder by_owner volumes.now }
    ensures bound { result ≤ length volumes.now }
    ensures start { IsOwnerStart (record { namespace = owner.now.namespace.now; name = owner.now.name.now }) volumes.now result }
{
    match place_of(volumes, owner) {
        Ok(at) => at,
        Err(at) => at,
    }
}

/// The order of names.
fn compare_names(left: &Volume, right: &Volume) -> Ordering
    ensures { result ≡ name_cmp left.now right.now }
{
    left.meta.name.as_str().cmp(right.meta.name.as_str()).then(
        left.meta
            .namespace
            .as_str()
            .cmp(right.meta.namespace.as_str()),
    )
}

/// The first order, or the order of names where that tells nothing.
fn or_names(order: Ordering, left: &Volume, right: &Volume) -> Ordering
    ensures { result ≡ ordering_then order (name_cmp left.now right.now) }
{
    match order {
        Ordering::Less => Ordering::Less,
        Ordering::Equal => compare_names(left, right),
        Ordering::Greater => Ordering::Greater,
    }
}

/// The size of a volume.
fn size_in<'a>(volume: &'a Volume) -> SizeFrom<'a>
    ensures class { result.class.now ≡ (size_of volume.now).class }
    ensures block { result.block ≡ (size_of volume.now).block }
    ensures modes { result.modes ≡ (size_of volume.now).modes }
    ensures bytes { result.bytes ≡ (size_of volume.now).bytes }
{
    SizeFrom {
        class: class_of_volume(volume),
        block: volume.block,
        modes: mode_count(volume.modes),
        bytes: volume.amount.bytes,
    }
}

/// The order by size, then name.
pub(crate) fn compare_by_size(left: &Volume, right: &Volume) -> Ordering
    ensures { result ≡ by_size left.now right.now }
{
    or_names(compare_size(left, &size_in(right)), left, right)
}

/// The order of volumes that a claim prefers alike otherwise: by number of modes, then bytes, then name.
pub(crate) fn compare_need(left: &Volume, right: &Volume) -> Ordering
    ensures { result ≡ need_cmp left.now right.now }
{
    let order = mode_count(left.modes)
        .cmp(&mode_count(right.modes))
        .then(left.amount.bytes.cmp(&right.amount.bytes));
    or_names(order, left, right)
}

/// The order of the claims that two volumes refer to.
fn compare_owners(left: &Volume, right: &Volume) -> Ordering
    ensures { result ≡ owner_cmp (owner_of left.now) (owner_of right.now) }
{
    match &right.claim_ref {
        None => compare_owner(
            left,
            &OwnerFrom {
                namespace: "",
                name: "",
            },
        ),
        Some(reference) => compare_owner(
            left,
            &OwnerFrom {
                namespace: reference.namespace.as_str(),
                name: reference.name.as_str(),
            },
        ),
    }
}

/// The order by the claims that volumes refer to, then as claims prefer volumes.
pub(crate) fn compare_by_owner(left: &Volume, right: &Volume) -> Ordering
    ensures { result ≡ by_owner left.now right.now }
{
    match compare_owners(left, right) {
        Ordering::Less => Ordering::Less,
        Ordering::Equal => compare_need(left, right),
        Ordering::Greater => Ordering::Greater,
    }
}

/// A volume among those in the order of sizes, with its size, which is found once for a search.
#[derive(Clone, Copy)]
struct BySize<'a> {
    size: SizeFrom<'a>,
    volume: &'a Shared<Volume>,
}

impl<'a> Ranked<BySize<'a>> for Shared<Volume> {
    ghost use Rattle.std.specs.Ordering.{ordering_then};
    ghost use Rattle.volume_index.specs.VolumeOrders.{name_cmp, size_cmp, size_of};

    ghost rank = { λ v k. ordering_then (size_cmp (size_of v) (record { class = k.size.class.now; block = k.size.block; modes = k.size.modes; bytes = k.size.bytes })) (name_cmp v k.volume.now) };

    fn rank(&self, key: &BySize<'a>) -> Ordering {
        or_names(compare_size(self, &key.size), self, key.volume)
    }
}

/// A volume among those in the order of claims.
#[derive(Clone, Copy)]
struct ByOwner<'a> {
    volume: &'a Shared<Volume>,
}

impl<'a> Ranked<ByOwner<'a>> for Shared<Volume> {
    ghost use Rattle.volume_index.specs.VolumeOrders.{by_owner};

    ghost rank = { λ v k. by_owner v k.volume.now };

    fn rank(&self, key: &ByOwner<'a>) -> Ordering {
        compare_by_owner(self, key.volume)
    }
}

/// Where the volume stands in the order of sizes, or would stand.
pub(crate) fn size_place(
    volumes: &[Shared<Volume>],
    volume: &Shared<Volume>,
) -> Result<usize, usize>
    requires { AreInOrder by_size volumes.now }
    ensures bound { IsSearchInRange result (length volumes.now) }
    ensures at { IfOk result (IsAt by_size (λ v. v) volume.now volumes.now) }
    ensures gap { IfErr result (IsGap by_size (λ v. v) volume.now volumes.now) }
{
    let size = size_in(volume);
    place_of(volumes, &BySize { size, volume })
}

/// Where the volume stands in the order of claims, or would stand.
pub(crate) fn owner_place(
    volumes: &[Shared<Volume>],
    volume: &Shared<Volume>,
) -> Result<usize, usize>
    requires { AreInOrder by_owner volumes.now }
    ensures bound { IsSearchInRange result (length volumes.now) }
    ensures at { IfOk result (IsAt by_owner (λ v. v) volume.now volumes.now) }
    ensures gap { IfErr result (IsGap by_owner (λ v. v) volume.now volumes.now) }
{
    place_of(volumes, &ByOwner { volume })
}
