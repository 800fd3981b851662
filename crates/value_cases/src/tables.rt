//! Lines of decision tables: their rows.

use crate::words::word;
use case_table::{CaseRow, CaseTable, Need, TableError};
use plain_data::copies::OutOfMemory;
use std::alloc::Global;

// Row `y`, `n` or `a` (any) for each condition, with its place from 1 as its action.
fn need(letter: Option<&u8>) -> Need {
    match letter {
        Some(b'y') => Need::Yes,
        Some(b'n') => Need::No,
        _ => Need::Any,
    }
}

fn row_of_one(word: &str, action: u8) -> CaseRow<1> {
    CaseRow {
        needs: [need(word.as_bytes().first())],
        action,
    }
}

fn row_of_two(word: &str, action: u8) -> CaseRow<2> {
    CaseRow {
        needs: [need(word.as_bytes().first()), need(word.as_bytes().get(1))],
        action,
    }
}

fn flag(holds: bool) -> &'static str {
    if holds { "y" } else { "n" }
}

fn of_one(alloc: Global, error: TableError<1>) -> Result<String, OutOfMemory> {
    match error {
        TableError::Overlap(first, second) => Ok(format!(in alloc; "Overlap {first} {second}")?),
        TableError::Gap(conditions) => {
            let letter = flag(conditions[0]);
            Ok(format!(in alloc; "Gap {letter}")?)
        }
    }
}

fn of_two(alloc: Global, error: TableError<2>) -> Result<String, OutOfMemory> {
    match error {
        TableError::Overlap(first, second) => Ok(format!(in alloc; "Overlap {first} {second}")?),
        TableError::Gap(conditions) => {
            let first = flag(conditions[0]);
            let second = flag(conditions[1]);
            Ok(format!(in alloc; "Gap {first}{second}")?)
        }
    }
}

fn single(alloc: Global, row: &str) -> Result<String, OutOfMemory> {
    match CaseTable::<1, 1>::new([row_of_one(row, 1)]) {
        Err(error) => of_one(alloc, error),
        Ok(table) => {
            let no = table.pick([false]);
            let yes = table.pick([true]);
            Ok(format!(in alloc; "picks {no} {yes}")?)
        }
    }
}

fn pair(alloc: Global, first: &str, second: &str) -> Result<String, OutOfMemory> {
    match CaseTable::<1, 2>::new([row_of_one(first, 1), row_of_one(second, 2)]) {
        Err(error) => of_one(alloc, error),
        Ok(table) => {
            let no = table.pick([false]);
            let yes = table.pick([true]);
            Ok(format!(in alloc; "picks {no} {yes}")?)
        }
    }
}

// Two rows of two conditions.
fn two(alloc: Global, first: &str, second: &str) -> Result<String, OutOfMemory> {
    match CaseTable::<2, 2>::new([row_of_two(first, 1), row_of_two(second, 2)]) {
        Err(error) => of_two(alloc, error),
        Ok(table) => picks(alloc, &table),
    }
}

fn picks<const N: usize>(alloc: Global, table: &CaseTable<2, N>) -> Result<String, OutOfMemory> {
    let first = table.pick([false, false]);
    let second = table.pick([false, true]);
    let third = table.pick([true, false]);
    let fourth = table.pick([true, true]);
    Ok(format!(in alloc; "picks {first} {second} {third} {fourth}")?)
}

fn three(alloc: Global, first: &str, second: &str, third: &str) -> Result<String, OutOfMemory> {
    let rows = [
        row_of_two(first, 1),
        row_of_two(second, 2),
        row_of_two(third, 3),
    ];
    match CaseTable::<2, 3>::new(rows) {
        Err(error) => of_two(alloc, error),
        Ok(table) => picks(alloc, &table),
    }
}

/// What a table of one, two or three rows picks for the lists of conditions in order, or why the rows
/// make none.
pub fn answer(alloc: Global, text: &str) -> Result<String, OutOfMemory> {
    let mut words = text.split(' ');
    match (words.next(), words.next(), words.next()) {
        (Some(row), None, _) => single(alloc, row),
        (Some(first), Some(second), None) => {
            if first.len() == 2 {
                two(alloc, first, second)
            } else {
                pair(alloc, first, second)
            }
        }
        (Some(first), Some(second), Some(third)) => three(alloc, first, second, third),
        _ => word(alloc, "no rows"),
    }
}
