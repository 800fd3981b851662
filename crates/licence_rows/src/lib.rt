//! What the rows of the licence ask of objects, and of a page of what a seat was told.
//!
//! Promises: each test holds exactly where the definition's row does, after the entries that it is given. The binder's
//! writes are `binder::Take`, `Bind`, `Complete`, `Show`, `Free`, `Release`, `Unbind` and `Lose`, those of the protection
//! controllers `guards::GuardVolume`, `UnguardVolume`, `GuardClaim` and `UnguardClaim`. `found::last_found` is the volume
//! that a read found last over some data, and `versions` tells a told object of a version. Nothing takes memory. Not said:
//! which entries are to be given; that is `licence_writes`'s to say.
#![tactic(auto)]

pub mod asking;
pub mod binder;
pub mod found;
pub mod guards;
pub mod ids;
pub mod newest;
pub mod parts;
pub mod scheduler;
pub mod versions;
