//! The places of the side's lines among those of the script.

ghost use Rattle.std.specs.Prelude.{◌≡◌, nat_lt, IfOk, map};
ghost use Rattle.std.specs.List.{count_by};
ghost use Rattle.extended_text.specs.Extended.{placed};

use crate::sides::{NumberedSide, PlacedSide};
use kube_types::copies::{OutOfMemory, Plain};
use kube_types::items::Items;
use std::alloc::Global;

/// How many of these numbers are below the number.
fn count_below(numbers: &[u64], number: u64) -> usize
    ensures { result ≡ count_by (λ n. nat_lt n number) numbers.now }
{
    let mut count = 0;
    for other in numbers {
        if *other < number {
            count += 1;
        }
    }
    count
}

fn placed(alloc: Global, numbers: &[u64], side: &NumberedSide) -> Result<PlacedSide, OutOfMemory>
    ensures { IfOk result (λ p. p ≡ placed numbers.now side.now) }
{
    Ok(PlacedSide {
        before: count_below(numbers, side.number),
        number: side.number,
        line: side.line.copy(alloc)?,
    })
}

/// The lines with their places among the lines of these numbers.
pub(crate) fn placed_all(
    alloc: Global,
    numbers: &[u64],
    sides: &[NumberedSide],
) -> Result<Items<PlacedSide>, OutOfMemory>
    ensures { IfOk result (λ all. all ≡ map (placed numbers.now) sides.now) }
{
    let mut all = Items::new(alloc);
    for side in sides {
        all.push(placed(alloc, numbers, side)?)?;
    }
    Ok(all)
}
