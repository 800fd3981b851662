//! The first of the wanted volumes behind another.

ghost use Rattle.std.specs.Prelude.{◌≡◌, ◌+◌, ◌&&◌, slice_get};
ghost use Rattle.std.specs.Option.{option_copied};
ghost use Rattle.volume_index.specs.Steps.VolumePlaces.{IsNextVolume, IsNextVolumeBelow, is_before_place, is_behind};
ghost use Rattle.volume_index.specs.VolumeIndex.{as_volume};

use crate::order::compare_need;
use crate::places::wanted::Wanted;
use kube_objects::objects::{Object, Volume};

/// The place of the first of the wanted volumes behind this one, or of the first of all.
pub(crate) fn next_place<W: Wanted>(
    objects: &[Object],
    wanted: &W,
    behind: Option<&Volume>,
) -> Option<usize>
    ensures { IsNextVolume (W.test wanted.now) objects.now (option_copied behind.entry) result }
{
    let mut first = None;
    for place in 0..objects.len() {
        first = earlier(objects, wanted, behind, first, place);
    }
    first
}

/// The first of those up to this place and with it, where `before` is the first of those before.
fn earlier<W: Wanted>(
    objects: &[Object],
    wanted: &W,
    behind: Option<&Volume>,
    before: Option<usize>,
    place: usize,
) -> Option<usize>
    requires { IsNextVolumeBelow (W.test wanted.now) objects.now (option_copied behind) place before }
    ensures { IsNextVolumeBelow (W.test wanted.now) objects.now (option_copied behind.entry) (place + 1) result }
{
    match volume_at(objects, place) {
        None => before,
        Some(volume) => {
            if !is_wanted(wanted, behind, volume) {
                before
            } else if is_before_place(objects, volume, before) {
                Some(place)
            } else {
                before
            }
        }
    }
}

/// The volume at a place.
pub(crate) fn volume_at(objects: &[Object], place: usize) -> Option<&Volume>
    ensures { option_copied result ≡ as_volume (slice_get objects.now place) }
{
    match objects.get(place) {
        Some(Object::Volume(volume)) => Some(volume),
        _ => None,
    }
}

/// Whether the volume is wanted, and stands behind the other.
fn is_wanted<W: Wanted>(wanted: &W, behind: Option<&Volume>, volume: &Volume) -> bool
    ensures { result ≡ (W.test wanted.now volume.now && is_behind (option_copied behind.entry) volume.now) }
{
    wanted.wants(volume) && is_behind(behind, volume)
}

/// Whether the volume stands behind the other, if there is another.
fn is_behind(other: Option<&Volume>, volume: &Volume) -> bool
    ensures { result ≡ is_behind (option_copied other.entry) volume.now }
{
    match other {
        None => true,
        Some(other) => compare_need(other, volume).is_lt(),
    }
}

/// Whether the volume comes before the one that was the first before.
fn is_before_place(objects: &[Object], volume: &Volume, before: Option<usize>) -> bool
    ensures { result ≡ is_before_place objects.now volume.now before }
{
    match before {
        None => true,
        Some(place) => match volume_at(objects, place) {
            None => true,
            Some(other) => compare_need(volume, other).is_lt(),
        },
    }
}
