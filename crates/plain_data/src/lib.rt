//! Values that can be copied and compared: texts, bytes, lists, pairs in the order of their keys, and
//! values that several owners hold.
//!
//! Promises: a copy equals its source and `same` is equality (`copies::Plain`); `Pairs` has no key twice, and its
//! calls find, put and drop by key; `rows::place_of` and `put_at` find and fill a place among rows in any order.
//! What is written to a `Shared` value its other owners do not see. Contracts see texts and lists as lists, never their
//! capacity, and a shared value as the value. Not said: how much memory a value takes, how many owners it has, and when
//! a call is out of memory.
#![tactic(auto)]

pub mod copies;
pub mod items;
pub mod pairs;
pub mod rows;
pub mod shared;
pub mod text;
