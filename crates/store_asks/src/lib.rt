//! What a program that is attached asks of the store, line by line.
//!
//! Promises: `asks::ask_in` gives the ask of a value, whatever order its members stand in and whatever others stand beside
//! them; else the first member at fault, in the order ask, kind, seat, told. Not said: that the seat may ask so.
#![tactic(auto)]

pub mod asks;
pub mod errors;
