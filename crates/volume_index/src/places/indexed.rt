//! The volume of a number among those of a class and volume mode, or among those that refer to a claim, by an index where there
//! is one.

ghost use Rattle.std.specs.Prelude.{◌≡◌, ◌≤◌, true, IfNone, IfSome, Some, filter, length};
ghost use Rattle.std.specs.List.{Contains};
ghost use Rattle.std.specs.Option.{option_copied};
ghost use Rattle.volume_index.specs.Steps.VolumePlaces.{AreCountedFrom, AreOwned, IsNthKept, IsNthShown, IsPlaceOf};
ghost use Rattle.volume_index.specs.VolumePlaces.{count_before, has_size, is_of_claim};

use crate::index::VolumeIndex;
use crate::order::{OwnerFrom, SizeFrom, owner_start, size_start};
use crate::places::nth::nth_place;
use crate::places::wanted::{OfClaim, OfSize, Wanted};
use kube_objects::key::{kind_index, kind_of, meta_of};
use kube_objects::objects::{Object, Volume};
use kube_parts::parts::Kind;
use plain_data::rows::{Ranked, place_of};
use plain_data::shared::Shared;
use plain_data::text::Text;
use std::cmp::Ordering;

/// A volume that is looked for by its name.
#[derive(Clone, Copy)]
struct SoughtPlace<'a> {
    volume: &'a Volume,
}

impl<'a> Ranked<SoughtPlace<'a>> for Object {
    ghost use Rattle.kube_objects.specs.declared.objects.Object.TheVariants.{Volume as VolumeObject};
    ghost use Rattle.kube_objects.specs.Keys.{key_of, key_cmp};

    ghost rank = { λ o k. key_cmp (key_of o) (key_of (VolumeObject k.volume.now)) };

    fn rank(&self, key: &SoughtPlace<'a>) -> Ordering {
        let (meta, other) = (meta_of(self), &key.volume.meta);
        kind_index(kind_of(self))
            .cmp(&kind_index(Kind::PersistentVolume))
            .then(meta.namespace.as_str().cmp(other.namespace.as_str()))
            .then(meta.name.as_str().cmp(other.name.as_str()))
    }
}

/// The place of a volume among the volumes.
fn place_in(objects: &[Object], volume: &Volume) -> Option<usize>
    ensures { IsPlaceOf objects.now volume.now result }
{
    match place_of(objects, &SoughtPlace { volume }) {
        Ok(at) => Some(at),
        Err(_) => None,
    }
}

/// The volume of this number among the wanted ones of a list, in which these stand together from a place on.
fn kept_at<'v, W: Wanted>(
    kept: &'v [Shared<Volume>],
    wanted: &W,
    start: usize,
    nth: usize,
) -> Option<&'v Shared<Volume>>
    requires bound { start ≤ length kept.now }
    requires counted { AreCountedFrom (W.test wanted.now) kept.now start }
    ensures held { IfSome (option_copied result) (λ v. Contains kept.now v) }
    ensures passes { IfSome (option_copied result) (λ v. W.test wanted.now v ≡ true) }
    ensures before { IfSome (option_copied result) (λ v. count_before v (filter (W.test wanted.now) kept.now) ≡ nth) }
    ensures none { IfNone result (length (filter (W.test wanted.now) kept.now) ≤ nth) }
{
    if nth >= kept.len() - start {
        return None;
    }
    let volume = &kept[start + nth];
    if wanted.wants(volume.get()) {
        Some(volume)
    } else {
        None
    }
}

/// The place of that volume among the volumes.
fn kept_place<W: Wanted>(
    objects: &[Object],
    kept: &[Shared<Volume>],
    wanted: &W,
    start: usize,
    nth: usize,
) -> Option<usize>
    requires bound { start ≤ length kept.now }
    requires counted { AreCountedFrom (W.test wanted.now) kept.now start }
    ensures { IsNthKept (W.test wanted.now) kept.now objects.now nth result }
{
    match kept_at(kept, wanted, start, nth) {
        None => None,
        Some(volume) => place_in(objects, volume),
    }
}

/// The place of the volume of this number among those that refer to the claim, where the index stands for the volumes.
fn owned_place(
    objects: &[Object],
    index: &VolumeIndex,
    claim: &OfClaim,
    nth: usize,
) -> Option<usize>
    requires { AreOwned index.now }
    ensures { IsNthShown (Some index.now) (is_of_claim claim.now.namespace.now claim.now.name.now) objects.now nth result }
{
    let owner = OwnerFrom {
        namespace: claim.namespace,
        name: claim.name,
    };
    let owned = index.owned();
    let start = owner_start(owned, &owner);
    kept_place(objects, owned, claim, start, nth)
}

/// The place of the volume of this number among those of the volume mode and the class, where the index stands for the volumes.
fn sized_place(objects: &[Object], index: &VolumeIndex, size: &OfSize, nth: usize) -> Option<usize>
    ensures { IsNthShown (Some index.now) (has_size size.now.block size.now.class.now) objects.now nth result }
{
    let least = SizeFrom {
        class: size.class,
        block: size.block,
        modes: 0,
        bytes: 0,
    };
    let all = index.all();
    let start = size_start(all, &least);
    kept_place(objects, all, size, start, nth)
}

/// The place of the volume of this number, from 0, among those that refer to the claim, whatever its UID.
pub fn nth_for(
    objects: &[Object],
    index: Option<&VolumeIndex>,
    namespace: &Text,
    name: &Text,
    nth: usize,
) -> Option<usize>
    requires { IfSome (option_copied index) (λ i. AreOwned i) }
    ensures { IsNthShown (option_copied index.entry) (is_of_claim namespace.now name.now) objects.now nth result }
{
    let claim = OfClaim {
        namespace: namespace.as_str(),
        name: name.as_str(),
    };
    match index {
        Some(index) => owned_place(objects, index, &claim, nth),
        None => nth_place(objects, &claim, nth),
    }
}

/// The place of the volume of this number, from 0, among those of the volume mode and the class.
pub fn nth_by_size(
    objects: &[Object],
    index: Option<&VolumeIndex>,
    block: bool,
    class: &Text,
    nth: usize,
) -> Option<usize>
    ensures { IsNthShown (option_copied index.entry) (has_size block class.now) objects.now nth result }
{
    let size = OfSize {
        block,
        class: class.as_str(),
    };
    match index {
        Some(index) => sized_place(objects, index, &size, nth),
        None => nth_place(objects, &size, nth),
    }
}
