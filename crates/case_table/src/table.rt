//! Exact tables.

ghost use Rattle.std.specs.Prelude.{ℕ, ◌≡◌, ◌<◌, ◌≤◌, ◌↔◌, IsOk, IfOk, IfErr, IfSome, IfNone};
ghost use Rattle.case_table.specs.Cases.{EachFits, IsExact, Overlaps, action_of};
ghost use Rattle.case_table.specs.Errors.{Tells};

use crate::conditions::least_gap;
use crate::overlaps::least_overlap;
use crate::rows::{CaseRow, fits};
use std::marker::Model;

/// A table in which each list of conditions fits exactly one row. Contracts see its rows.
#[derive(Drop)]
pub struct CaseTable<const K: usize, const N: usize> {
    rows: [CaseRow<K>; N],
}

impl<const K: usize, const N: usize> Model for CaseTable<K, N> {
    ghost use Rattle.std.specs.Prelude.{List};
    ghost use Rattle.case_table.specs.declared.rows.CaseRow.{CaseRow};
    ghost use Rattle.case_table.specs.Cases.{IsExact};

    ghost Value = { List (CaseRow K) };

    ghost view = { λ t. t.rows };

    ghost invariant = { λ t. IsExact t.rows };
}

/// Why rows make no table.
#[derive(Clone, Copy, Debug)]
pub enum TableError<const K: usize> {
    /// No row fits these conditions, and they are the least such list, as a binary number of which
    /// the first condition is the most significant digit.
    Gap([bool; K]),
    /// The rows at these two places fit one list of conditions.
    Overlap(usize, usize),
}

/// The least list of conditions that no row fits; where there is none, the least pair of rows that fit one list.
fn first_fault<const K: usize>(rows: &[CaseRow<K>]) -> Option<TableError<K>>
    requires { K ≤ 12 }
    ensures fault { IfSome result (Tells rows.now) }
    ensures total { IfNone result (EachFits rows.now) }
    ensures exclusive { IfNone result ((i j : ℕ) → i < j → Overlaps rows.now i j → ⊥) }
{
    match least_gap(rows) {
        Some(conditions) => Some(TableError::Gap(conditions)),
        None => match least_overlap(rows) {
            Some((first, second)) => Some(TableError::Overlap(first, second)),
            None => None,
        },
    }
}

impl<const K: usize, const N: usize> CaseTable<K, N> {
    /// The table of the rows, where each list of conditions fits exactly one. Else the least list
    /// that no row fits; where there is none, the least pair of rows that fit one list.
    pub fn new(rows: [CaseRow<K>; N]) -> Result<CaseTable<K, N>, TableError<K>>
        requires conditions { K ≤ 12 }
        requires rows { N ≤ 4096 }
        ensures ok { IsOk result ↔ IsExact rows.entry }
        ensures table { IfOk result (λ table. table ≡ rows.entry) }
        ensures error { IfErr result (Tells rows.entry) }
    {
        match first_fault(&rows) {
            Some(fault) => Err(fault),
            None => Ok(CaseTable { rows }),
        }
    }

    /// The table of rows of which each list of conditions fits exactly one.
    pub fn exact(rows: [CaseRow<K>; N]) -> CaseTable<K, N>
        requires { IsExact rows }
        ensures { result ≡ rows.entry }
    {
        CaseTable { rows }
    }

    /// The action of the row that the conditions fit.
    pub fn pick(&self, conditions: [bool; K]) -> u8
        ensures { result ≡ action_of self.now conditions.entry }
    {
        for i in 0..N {
            if fits(&self.rows[i].needs, &conditions) {
                return self.rows[i].action;
            }
        }
        0
    }
}
