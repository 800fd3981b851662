//! What the side of an extended run is asked and answers; quotas of namespaces, and rows of sizes of claims that grew.
//!
//! Promises: a copy equals its source and `same` is equality, of each value that is kept (`Plain`); a row of sizes is ranked
//! by keys and by claims in the order of keys. Not said: what the side answers, nor what it keeps after an answer, which is
//! for `side_model` to define. Where a later part of the side asks or answers more, the two enums get its variants.
#![tactic(auto)]

pub mod asks;
pub mod quotas;
pub mod sizes;
