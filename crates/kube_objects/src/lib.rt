//! The objects of the store: volumes, claims, classes, pods and nodes, and their keys.
//!
//! Promises: each type is copied and compared as a value. The words of bindings (completed, for, carries, protected,
//! uses) are those of the definitions (`bindings`). A key is the kind, namespace and name of an object, and keys have one
//! order (`key`). Not said: that an object is valid, or that anybody made it.
#![tactic(auto)]

pub mod bindings;
pub mod data;
pub mod key;
pub mod objects;
