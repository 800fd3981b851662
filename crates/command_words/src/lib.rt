//! The words of the command line.
//!
//! `reading::read_words` gives the command and the options exactly where the words are of the grammar of
//! `specs/Grammar.antt`, with just the values that it gives, and `Usage` exactly where they are not. Not said: when a
//! call is out of memory, which may come in place of either answer.
#![tactic(auto)]

pub mod examples;
pub mod reading;
pub mod words;
