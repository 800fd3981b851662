//! Objects in the order of their keys; and all types of objects under one name.
//!
//! Promises: rows in the order of their keys are found, put and taken by key (`table`). A `Lookup` is a list of objects in
//! that order, no key twice. Its `volume_by_size` and `volume_for` give the place of the volume before which so many of the
//! wanted ones stand, by number of access modes, bytes and name; or none, exactly where there are not so many (`IsNth`). They
//! take no memory, and go by the index of the look-up where it shows one. The default class is the newest that is marked so,
//! of two the first by name (`defaults`). Not said: that an object is valid, or that anybody made it; how long a call takes.
#![tactic(auto)]

pub mod defaults;
pub mod lookup;
pub mod plain;
pub mod table;

pub use kube_objects::{bindings, data, key, objects};
pub use kube_parts::{names, parts, uid, words};
pub use plain_data::{copies, items, pairs, rows, shared, text};
