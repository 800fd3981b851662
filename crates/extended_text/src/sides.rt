//! Lines of the side, and extended scripts.

ghost use Rattle.std.specs.Prelude.{◌≡◌};
ghost use Rattle.extended_text.specs.Sides.{side_named};

use kube_types::copies::{OutOfMemory, Plain};
use kube_types::items::Items;
use kube_types::key::Key;
use kube_types::words::{Worded, value_named};
use script_text::script::Script;
use side_calls::quotas::Quota;
use std::alloc::Global;

/// What a line of the side does, by its member `do`.
#[derive(Clone, Copy)]
pub enum SideWord {
    Quota,
    Reserve,
    Grow,
}

impl Worded for SideWord {
    ghost use Rattle.extended_text.specs.Sides.{side_word};

    ghost word = { side_word };

    fn word(&self) -> &str {
        match self {
            SideWord::Quota => "quota",
            SideWord::Reserve => "reserve",
            SideWord::Grow => "grow",
        }
    }
}

/// What the word says to do, where it is one of the side.
pub fn side_named(word: &str) -> Option<SideWord>
    ensures { result ≡ side_named word.now }
{
    value_named(&[SideWord::Quota, SideWord::Reserve, SideWord::Grow], word)
}

/// A line of the side.
pub enum SideLine {
    /// A namespace has a quota, from the start.
    Quota(Quota),
    /// So many bytes are there for growth, from the start.
    Reserve { bytes: u64 },
    /// A user asks that the claim of the key have so many bytes.
    Grow { user: u64, key: Key, bytes: u64 },
}

impl Drop for SideLine {
    fn drop(self) {
        match self {
            SideLine::Quota(quota) => drop(quota),
            SideLine::Reserve { bytes: _ } => {}
            SideLine::Grow {
                user: _,
                key,
                bytes: _,
            } => drop(key),
        }
    }
}

impl Plain for SideLine {
    fn copy(&self, alloc: Global) -> Result<SideLine, OutOfMemory> {
        match self {
            SideLine::Quota(quota) => Ok(SideLine::Quota(quota.copy(alloc)?)),
            SideLine::Reserve { bytes } => Ok(SideLine::Reserve { bytes: *bytes }),
            SideLine::Grow { user, key, bytes } => Ok(SideLine::Grow {
                user: *user,
                key: key.copy(alloc)?,
                bytes: *bytes,
            }),
        }
    }

    fn same(&self, other: &SideLine) -> bool {
        match (self, other) {
            (SideLine::Quota(left), SideLine::Quota(right)) => left.same(right),
            (SideLine::Reserve { bytes }, SideLine::Reserve { bytes: other_bytes }) => {
                *bytes == *other_bytes
            }
            (
                SideLine::Grow { user, key, bytes },
                SideLine::Grow {
                    user: other_user,
                    key: other_key,
                    bytes: other_bytes,
                },
            ) => *user == *other_user && *bytes == *other_bytes && key.same(other_key),
            _ => false,
        }
    }
}

/// A line of the side, and its number in the text, counted from 1.
pub struct NumberedSide {
    pub number: u64,
    pub line: SideLine,
}

impl Drop for NumberedSide {
    fn drop(self) {
        let NumberedSide { number: _, line } = self;
        drop(line);
    }
}

/// A line of the side, its number in the text, and how many lines of the script come before it.
pub struct PlacedSide {
    pub before: usize,
    pub number: u64,
    pub line: SideLine,
}

impl Drop for PlacedSide {
    fn drop(self) {
        let PlacedSide {
            before: _,
            number: _,
            line,
        } = self;
        drop(line);
    }
}

/// What an extended script says: its script, the quotas in the order of their lines, the bytes for growth, and all lines of
/// the side in their order.
pub struct Extended {
    pub script: Script,
    pub quotas: Items<Quota>,
    pub reserve: u64,
    pub sides: Items<PlacedSide>,
}

impl Drop for Extended {
    fn drop(self) {
        let Extended {
            script,
            quotas,
            reserve: _,
            sides,
        } = self;
        drop(script);
        drop(quotas);
        drop(sides);
    }
}
