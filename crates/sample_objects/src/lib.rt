//! Objects and keys by a few plain words, and requests as lines of words, for cases and benchmarks. Where a word is empty,
//! what it names is absent.
//!
//! `lines::request` reads a request: a verb and its words, and for an object its manifest. A key is three words there:
//! `class`, `node`, `volume`, `claim` or `pod`, the namespace and the name; `-` stands for what is empty or absent, and a
//! number for the id of that serial.
//!
//! Promises: `keys::volume_key`, `claim_key` and `pod_key` are the keys of these names; each object has the
//! name, the id and the version that it was asked for (`volumes`, `claims`, `pods`, and `parts::meta`), a claim
//! names the volume, a pod the node, and a volume is in the phase. Not said: what else stands in them, which is
//! what the code says; that a store would take them, or that anybody made them; of lines of words nothing but what the
//! code says, since they are read in cases alone: not that a request is valid.
#![tactic(auto)]

pub mod claims;
pub mod keyed;
pub mod keys;
pub mod lines;
pub mod nodes;
pub mod parts;
pub mod pods;
pub mod setups;
pub mod volumes;
pub mod words;
