//! The definitions of the side of an extended run: the one list of steps of the world and of its side, what the side keeps
//! after each step, what it answers, and what is to hold at each point.
//!
//! Promises: nothing, as no code stands here. The laws of these definitions stand in `side_laws`, examples of them in
//! `side_examples`. Not said: that code meets the definitions.
#![tactic(auto)]
