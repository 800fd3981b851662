//! The volume of a number.

ghost use Rattle.volume_index.specs.Steps.VolumePlaces.{IsNthOf, IsThenNthOf};

use crate::places::next::{next_place, volume_at};
use crate::places::wanted::Wanted;
use kube_objects::objects::Object;

/// The place of the wanted volume of this number, from 0.
pub(crate) fn nth_place<W: Wanted>(objects: &[Object], wanted: &W, nth: usize) -> Option<usize>
    ensures { IsNthOf (W.test wanted.now) objects.now nth result }
{
    let mut at = first_place(objects, wanted);
    let mut number = 0;
    while number < nth {
        match at {
            None => return None,
            Some(place) => at = place_behind(objects, wanted, place),
        }
        number += 1;
    }
    at
}

/// The place of the first of the wanted volumes.
fn first_place<W: Wanted>(objects: &[Object], wanted: &W) -> Option<usize>
    ensures { IsNthOf (W.test wanted.now) objects.now 0 result }
{
    next_place(objects, wanted, None)
}

/// The place of the next wanted volume behind the one at this place.
fn place_behind<W: Wanted>(objects: &[Object], wanted: &W, place: usize) -> Option<usize>
    ensures { IsThenNthOf (W.test wanted.now) objects.now place result }
{
    match volume_at(objects, place) {
        None => None,
        Some(volume) => next_place(objects, wanted, Some(volume)),
    }
}
