//! What the rows of the provisioner and reclaimer ask of objects, and of a page of what its seat was told.
//!
//! Promises: `create::creates`, `ops::may_delete`, `ops::was_exhausted` and the tests `ops::Asked` and `ops::Fail` hold of
//! the entries that they are given exactly where the definition's part does; nothing takes memory. Not said: which
//! entries are to be given; that is `licence_writes`'s to say.

pub mod create;
pub mod ops;
