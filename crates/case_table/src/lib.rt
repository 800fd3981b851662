//! Exact decision tables: each list of conditions fits exactly one row.
//!
//! Promises: `Table::new` takes rows exactly where they are total and exclusive, and else names the least
//! gap, or else the least overlap; `pick` is total. Not said: what the conditions and actions mean.
#![tactic(auto)]

mod conditions;
mod overlaps;
mod rows;
mod table;

pub use rows::{CaseRow, Need};
pub use table::{CaseTable, TableError};
