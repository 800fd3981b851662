//! The least pair of rows that fit one list of conditions.

ghost use Rattle.std.specs.Prelude.{ℕ, ◌≡◌, ◌<◌, IfSome, IfNone, length};
ghost use Rattle.std.specs.Bool.{OnTrue, OnFalse};
ghost use Rattle.case_table.specs.Cases.{IsLeastOverlap, Overlaps};
ghost use Rattle.case_table.specs.Steps.Sharing.{meets, shared};

use crate::rows::{CaseRow, Need};

fn meets(first: Need, second: Need) -> bool
    ensures { result ≡ meets first second }
{
    match (first, second) {
        (Need::Yes, Need::No) => false,
        (Need::No, Need::Yes) => false,
        _ => true,
    }
}

/// Whether one list of conditions meets both needs.
fn share<const K: usize>(first: &[Need; K], second: &[Need; K]) -> bool
    ensures answer { result ≡ shared first.now second.now }
    ensures first { length first.now ≡ K }
    ensures second { length second.now ≡ K }
{
    for i in 0..K {
        if !meets(first[i], second[i]) {
            return false;
        }
    }
    true
}

/// Whether the rows at two places fit one list of conditions.
fn overlap<const K: usize>(rows: &[CaseRow<K>], first: usize, second: usize) -> bool
    requires first { first < length rows.now }
    requires second { second < length rows.now }
    ensures yes { OnTrue result (Overlaps rows.now first second) }
    ensures no { OnFalse result (Overlaps rows.now first second → ⊥) }
{
    share(&rows[first].needs, &rows[second].needs)
}

/// The first later row that fits one list of conditions with the row at this place.
fn overlap_with<const K: usize>(rows: &[CaseRow<K>], first: usize) -> Option<usize>
    requires { first < length rows.now }
    ensures later { IfSome result (λ second. first < second) }
    ensures overlap { IfSome result (Overlaps rows.now first) }
    ensures least { IfSome result (λ second. (j : ℕ) → first < j → j < second → Overlaps rows.now first j → ⊥) }
    ensures none { IfNone result ((j : ℕ) → first < j → Overlaps rows.now first j → ⊥) }
{
    for second in first + 1..rows.len() {
        if overlap(rows, first, second) {
            return Some(second);
        }
    }
    None
}

/// The least pair of rows that fit one list of conditions.
pub(crate) fn least_overlap<const K: usize>(rows: &[CaseRow<K>]) -> Option<(usize, usize)>
    ensures least { IfSome result (λ pair. IsLeastOverlap rows.now pair.0 pair.1) }
    ensures none { IfNone result ((i j : ℕ) → i < j → Overlaps rows.now i j → ⊥) }
{
    for first in 0..rows.len() {
        match overlap_with(rows, first) {
            Some(second) => return Some((first, second)),
            None => {}
        }
    }
    None
}
