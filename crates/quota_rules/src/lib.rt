//! Quotas of namespaces: what the claims of a namespace use together, and whether more is allowed.
//!
//! Promises: `quotas::Quotas` counts a claim from the write that makes it until it has left, with its request and all its
//! growth (`note`, `grown`); `used` is the sum over the claims of a namespace; `allows` refuses exactly what would pass a
//! limit of its quota, of bytes before claims. Not said: that what is counted is what stands in a world, which `side_laws`
//! says; nor how long a sum takes: each goes through all that is counted.
#![tactic(auto)]

pub mod counted;
pub mod quotas;
