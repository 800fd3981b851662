//! Whether pairs are others with one pair put among them, without memory.

ghost use Rattle.std.specs.Prelude.{◌≡◌, ◌↔◌, IsTrue, ◌∷◌, drop};
ghost use Rattle.plain_data.specs.Pairs.{put_pair};

use plain_data::copies::{Plain, same_all};
use plain_data::text::Text;
use std::cmp::Ordering;

pub(crate) fn is_pair(pair: &(Text, Text), key: &str, value: &str) -> bool
    ensures { IsTrue result ↔ (pair.now ≡ (key.now, value.now)) }
{
    if pair.0.as_str() != key {
        return false;
    }
    pair.1.as_str() == value
}

/// Whether the pairs from a place on are the pair and then these.
fn goes_on(
    new: &[(Text, Text)],
    place: usize,
    key: &str,
    value: &str,
    rest: &[(Text, Text)],
) -> bool
    ensures { IsTrue result ↔ (drop place new.now ≡ (key.now, value.now) ∷ rest.now) }
{
    if place >= new.len() {
        return false;
    }
    if !is_pair(&new[place], key, value) {
        return false;
    }
    same_all(&new[place + 1..], rest)
}

/// Whether the new pairs are the old ones with this pair put among them.
pub fn is_put(key: &str, value: &str, old: &[(Text, Text)], new: &[(Text, Text)]) -> bool
    ensures { IsTrue result ↔ (new.now ≡ put_pair key.now value.now old.now) }
{
    let mut place = 0;
    while place < old.len() {
        match old[place].0.as_str().cmp(key) {
            Ordering::Less => {
                if place >= new.len() {
                    return false;
                }
                if !new[place].same(&old[place]) {
                    return false;
                }
                place += 1;
            }
            Ordering::Equal => {
                return goes_on(new, place, key, value, &old[place + 1..]);
            }
            Ordering::Greater => {
                return goes_on(new, place, key, value, &old[place..]);
            }
        }
    }
    goes_on(new, place, key, value, &[])
}
