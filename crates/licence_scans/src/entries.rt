//! The last entry of which a condition holds, and what stood before it.

ghost use Rattle.std.specs.Prelude.{◌↔◌, IsTrue, MatchOption, reverse};
ghost use Rattle.call_types.specs.declared.entry.Entry.{Entry};
ghost use Rattle.binder_model.specs.Told.{After, SomeOf, ToldObject};
ghost use Rattle.licence_scans.specs.Last.{IsLast};

use crate::told::{ObjectTest, told_early};
use call_types::entry::Entry;

/// A condition on an entry.
pub trait EntryTest {
    ghost allows: { Self → Entry → Type 0 };

    fn test(&self, entry: &Entry) -> bool
        ensures { IsTrue result ↔ allows self.now entry.now };
}

/// Where the last of the entries of which the condition holds stands. The newest entries are looked
/// at first.
pub fn last_place<T: EntryTest>(test: &T, mine: &[Entry]) -> Option<usize>
    ensures { MatchOption result (SomeOf (T.allows test.now) (reverse mine.now) → ⊥) (IsLast (T.allows test.now) mine.now) }
{
    let mut left = mine.len();
    while left > 0 {
        left -= 1;
        if test.test(&mine[left]) {
            return Some(left);
        }
    }
    None
}

/// Whether the condition holds of some entry.
pub fn some_entry<T: EntryTest>(test: &T, mine: &[Entry]) -> bool
    ensures { IsTrue result ↔ SomeOf (T.allows test.now) (reverse mine.now) }
{
    match last_place(test, mine) {
        None => false,
        Some(_) => true,
    }
}

/// Whether the second condition holds of an entry after an object was told of which the first holds. The last
/// such entry is looked for from the end, and the object from the beginning.
pub fn after<T: ObjectTest, U: EntryTest>(told: &T, entry: &U, mine: &[Entry]) -> bool
    ensures { IsTrue result ↔ After (ToldObject (T.allows told.now)) (U.allows entry.now) (reverse mine.now) }
{
    match last_place(entry, mine) {
        None => false,
        Some(place) => told_early(told, &mine[..place]),
    }
}
