//! What holds of the history of a whole replay, and of a whole run on threads.
//!
//! Promises: its printed text has one meaning (`printable_laws`); each whole round of its drains that begins with something
//! due has an entry that lasts, and its pods are on nodes that the script names (`drains_laws`); its rounds are short, and
//! its last drain ends settled with the stated budget under the premises that stand there (`settles_laws`). Not said: that a
//! smaller budget is enough, and how long anything takes.
#![tactic(auto)]

pub mod drains_laws;
pub mod printable_laws;
pub mod settles_laws;
