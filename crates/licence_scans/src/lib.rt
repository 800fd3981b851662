//! What a seat was told, asked of its own entries: the conditions that the rows of the licence share.
//!
//! Promises: `told::told_object`, `rows::told_volume_at`, `entries::after`, `newest::newest`, `lasts::last_get` and
//! `following::is_from` answer exactly as the definitions say of the entries, and `changes` exactly whether an object is
//! another with one named change. Nothing takes memory. Not said: which row asks which condition.
#![tactic(auto)]

pub mod at;
pub mod changes;
pub mod entries;
pub mod following;
pub mod lasts;
pub mod newest;
pub mod puts;
pub mod rows;
pub mod shared;
pub mod told;
pub mod walks;
