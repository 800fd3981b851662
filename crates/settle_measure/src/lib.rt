//! The variant: what a world has still to do, as a number.
//!
//! Each object has so much left to do: a volume its way to Bound, its deletion and its guard; a claim its class, a volume, its
//! completion and its status; a pod its node, its mount and its end (`specs/Left/Measure`). Promises: the sum is bounded by how
//! many claims, volumes and pods there are (`left_is_bounded`). Each lasting write of a controller, made on the store as it is,
//! lowers it, but for the node of a claim, which leaves it alone (`binding_laws`, `upkeep_laws`). A planned fault that came is
//! not ahead any more (`back_fault_pays`). Examples are computed, among them writes that must not lower the number. Not said:
//! that writes are made so.
#![tactic(auto)]

pub mod binding_laws;
pub mod left_laws;
pub mod upkeep_laws;
