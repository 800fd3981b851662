//! Manifests read as objects, and the printing of `object_print` under the same name.
//!
//! Promises: `read_object` and `read_list` give the object that the text stands for, or the first refusal in
//! the order of the table of manifests. That reading and printing fit together is said in `object_laws`. Not
//! said: that an object is valid for the store.
#![tactic(auto)]

pub mod errors;
pub mod extra;
pub mod kind_readers;
pub mod listing;
pub mod member_readers;
pub mod meta_readers;
pub mod part_readers;
pub mod reading;

pub use crate::listing::read_list;
pub use crate::reading::read_object;
pub use object_print::print_object;
