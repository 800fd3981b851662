//! An index of volumes, and the nth volume of a class or of a claim by it.
//!
//! Promises: an index stands for the volumes that were put into it and not taken out since (`StandsFor`); an edit of it that
//! is out of memory leaves it as it was (`index`). Among the rows of a table the nth volume of a class and mode, by number of
//! access modes, bytes and name, or of a claim, is found with an index and without one (`places`, `IsNth`). An index that is
//! kept stands for the volumes among the rows that it follows (`Keeps`); whoever is told that there was no memory for an
//! entry has no index any more (`kept`). Not said: how long a look-up takes.
#![tactic(auto)]

pub mod index;
pub mod kept;
mod lists;
pub mod order;
pub mod places;
