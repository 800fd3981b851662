//! Lists of conditions, and the least one that no row fits.

ghost use Rattle.std.specs.Prelude.{◌≡◌, ◌<◌, ◌≤◌, ◌^◌, IfSome, IfNone, length};
ghost use Rattle.case_table.specs.Cases.{EachFits, IsLeastGap, binary, some_row_fits};

use crate::rows::{CaseRow, fits};

fn power(n: usize) -> usize
    requires { n ≤ 12 }
    ensures { result ≡ 2 ^ n }
{
    1 << n
}

/// The list of conditions whose binary number is this one.
pub(crate) fn conditions_of<const K: usize>(number: usize) -> [bool; K]
    requires few { K ≤ 12 }
    requires below { number < 2 ^ K }
    ensures number { binary result ≡ number }
    ensures whole { length result ≡ K }
{
    let mut conditions = [false; K];
    let mut rest = number;
    for i in 0..K {
        let weight = power(K - 1 - i);
        if weight <= rest {
            conditions[i] = true;
            rest -= weight;
        }
    }
    conditions
}

pub(crate) fn some_row_fits<const K: usize>(rows: &[CaseRow<K>], conditions: &[bool; K]) -> bool
    ensures { result ≡ some_row_fits rows.now conditions.now }
{
    for row in rows {
        if fits(&row.needs, conditions) {
            return true;
        }
    }
    false
}

/// The least list of conditions that no row fits.
pub(crate) fn least_gap<const K: usize>(rows: &[CaseRow<K>]) -> Option<[bool; K]>
    requires { K ≤ 12 }
    ensures gap { IfSome result (IsLeastGap rows.now) }
    ensures none { IfNone result (EachFits rows.now) }
{
    for number in 0..power(K) {
        let conditions = conditions_of::<K>(number);
        if !some_row_fits(rows, &conditions) {
            return Some(conditions);
        }
    }
    None
}
