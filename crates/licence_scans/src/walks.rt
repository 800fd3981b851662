//! Whether a list is another with one named change, without memory.

ghost use Rattle.std.specs.Prelude.{◌≡◌, ◌↔◌, IsTrue, [], ◌∷◌, ◌++◌, drop};
ghost use Rattle.std.specs.declared.cmp.Ordering.TheVariants.{Less};
ghost use Rattle.plain_data.specs.Pairs.{put_pair, text_cmp, without_key};
ghost use Rattle.binder_model.specs.Edits.{without_name};

use crate::puts::{is_pair, is_put};
use plain_data::copies::{Plain, same_all};
use plain_data::text::Text;
use std::cmp::Ordering;

/// Whether the names are the old ones and then this one.
pub fn is_appended(name: &str, old: &[Text], new: &[Text]) -> bool
    ensures { IsTrue result ↔ (new.now ≡ old.now ++ name.now ∷ []) }
{
    let mut place = 0;
    while place < old.len() {
        if place >= new.len() {
            return false;
        }
        if !new[place].same(&old[place]) {
            return false;
        }
        place += 1;
    }
    is_only(name, new, place)
}

fn is_text(item: &Text, name: &str) -> bool
    ensures { IsTrue result ↔ (item.now ≡ name.now) }
{
    item.as_str() == name
}

/// Whether from the place on this name stands alone.
fn is_only(name: &str, names: &[Text], place: usize) -> bool
    ensures { IsTrue result ↔ (drop place names.now ≡ name.now ∷ []) }
{
    if place >= names.len() {
        return false;
    }
    if !is_text(&names[place], name) {
        return false;
    }
    same_all(&names[place + 1..], &[])
}

/// Whether the names are the old ones without each place at which this one stood.
pub fn is_without_name(name: &str, old: &[Text], new: &[Text]) -> bool
    ensures { IsTrue result ↔ (new.now ≡ without_name name.now old.now) }
{
    let mut place = 0;
    for item in old {
        if !item.is(name) {
            if place >= new.len() {
                return false;
            }
            if !new[place].same(item) {
                return false;
            }
            place += 1;
        }
    }
    is_rest(new, place, &[])
}

/// Whether the pairs are the old ones without the pair of this key.
pub fn is_without_key(key: &str, old: &[(Text, Text)], new: &[(Text, Text)]) -> bool
    ensures { IsTrue result ↔ (new.now ≡ without_key key.now old.now) }
{
    let mut place = 0;
    while place < old.len() {
        match old[place].0.as_str().cmp(key) {
            Ordering::Equal => {
                return is_rest(new, place, &old[place + 1..]);
            }
            _ => {
                if place >= new.len() {
                    return false;
                }
                if !new[place].same(&old[place]) {
                    return false;
                }
                place += 1;
            }
        }
    }
    is_rest(new, place, &[])
}

/// Whether the items from the place on are these.
fn is_rest<T: Plain>(new: &[T], place: usize, rest: &[T]) -> bool
    ensures { IsTrue result ↔ (drop place new.now ≡ rest.now) }
{
    if place >= new.len() {
        return rest.is_empty();
    }
    same_all(&new[place..], rest)
}

/// Whether the pairs from the place on are this pair, and then the others with a second pair put among
/// them.
fn goes_on_put(
    new: &[(Text, Text)],
    place: usize,
    first: &str,
    first_value: &str,
    second: &str,
    second_value: &str,
    rest: &[(Text, Text)],
) -> bool
    ensures { IsTrue result ↔ (drop place new.now ≡ (first.now, first_value.now) ∷ put_pair second.now second_value.now rest.now) }
{
    if place >= new.len() {
        return false;
    }
    if !is_pair(&new[place], first, first_value) {
        return false;
    }
    is_put(second, second_value, rest, &new[place + 1..])
}

/// Whether the new pairs are the old ones with two pairs put among them, the first of the lower key.
pub fn is_put_twice(
    first: &str,
    first_value: &str,
    second: &str,
    second_value: &str,
    old: &[(Text, Text)],
    new: &[(Text, Text)],
) -> bool
    requires { text_cmp first.now second.now ≡ Less }
    ensures { IsTrue result ↔ (new.now ≡ put_pair first.now first_value.now (put_pair second.now second_value.now old.now)) }
{
    let mut place = 0;
    while place < old.len() {
        match old[place].0.as_str().cmp(first) {
            Ordering::Less => {
                if place >= new.len() {
                    return false;
                }
                if !new[place].same(&old[place]) {
                    return false;
                }
                place += 1;
            }
            Ordering::Equal => {
                return goes_on_put(
                    new,
                    place,
                    first,
                    first_value,
                    second,
                    second_value,
                    &old[place + 1..],
                );
            }
            Ordering::Greater => {
                return goes_on_put(
                    new,
                    place,
                    first,
                    first_value,
                    second,
                    second_value,
                    &old[place..],
                );
            }
        }
    }
    goes_on_put(new, place, first, first_value, second, second_value, &[])
}
