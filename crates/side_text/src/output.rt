//! The text of an extended run.

ghost use Rattle.std.specs.Prelude.{◌≡◌, IfOk, OnOk, map, string_bytes};
ghost use Rattle.history_text.specs.Output.{with_line, with_lines};
ghost use Rattle.side_text.specs.Entries.{side_line};
ghost use Rattle.side_text.specs.Output.{extended_text, rest_lines, side_lines, size_line};

use crate::entries::{PlacedEntry, print_entry};
use call_types::entry::Entry;
use call_types::setup::Setup;
use history_text::histories::print_before;
use history_text::lines::{Lines, push_final};
use history_text::summaries::full_name;
use history_text::summary::Summary;
use kube_types::copies::OutOfMemory;
use kube_types::objects::Object;
use piece_print::pieces::PieceText;
use side_calls::sizes::SizeRow;
use std::alloc::Global;

fn push_entries(
    lines: &mut Lines,
    alloc: Global,
    entries: &[PlacedEntry],
) -> Result<(), OutOfMemory>
    ensures ok { OnOk result (lines.new ≡ with_lines lines.old (map side_line entries.now)) }
{
    for entry in entries {
        lines.push(print_entry(alloc, entry)?.as_slice())?;
    }
    Ok(())
}

#[tactic(auto, unfolding(crate::specs::Output::size_line))]
fn size_line(alloc: Global, row: &SizeRow) -> Result<String, OutOfMemory>
    ensures { IfOk result (λ s. string_bytes s ≡ size_line row.now) }
{
    let name = full_name(alloc, &row.key)?;
    Ok(format!(in alloc;
        "size {} asked {} given {} volume {} data {}",
        name.as_str(),
        row.asked,
        row.given,
        row.volume,
        row.stored
    )?)
}

fn push_sizes(lines: &mut Lines, alloc: Global, sizes: &[SizeRow]) -> Result<(), OutOfMemory>
    ensures ok { OnOk result (lines.new ≡ with_lines lines.old (map size_line sizes.now)) }
{
    for row in sizes {
        lines.push(size_line(alloc, row)?.as_bytes())?;
    }
    Ok(())
}

/// Puts the lines of the side at the end.
#[tactic(auto, using(history_text::proofs::LineLists::with_lines_append), unfolding(crate::specs::Output::side_lines))]
pub fn push_side(
    lines: &mut Lines,
    alloc: Global,
    entries: &[PlacedEntry],
    sizes: &[SizeRow],
) -> Result<(), OutOfMemory>
    ensures ok { OnOk result (lines.new ≡ with_lines lines.old (side_lines entries.now sizes.now)) }
{
    lines.push(b"side")?;
    push_entries(lines, alloc, entries)?;
    lines.push(b"end side")?;
    push_sizes(lines, alloc, sizes)
}

/// Puts the lines of the side at the end, and then the final objects and the summary.
#[tactic(auto, using(history_text::proofs::LineLists::with_lines_append), unfolding(crate::specs::Output::rest_lines))]
fn push_rest(
    lines: &mut Lines,
    alloc: Global,
    told: &[PlacedEntry],
    sizes: &[SizeRow],
    objects: &[Object],
    summary: &Summary,
) -> Result<(), OutOfMemory>
    ensures ok { OnOk result (lines.new ≡ with_lines lines.old (rest_lines told.now sizes.now objects.now summary.now)) }
{
    push_side(lines, alloc, told, sizes)?;
    push_final(lines, alloc, objects, summary)
}

/// The text of a run: its history, its side, the final objects and the summary.
#[tactic(auto, using(history_text::proofs::LineLists::with_lines_behind))]
pub fn print_all(
    alloc: Global,
    setup: &Setup,
    entries: &[Entry],
    told: &[PlacedEntry],
    sizes: &[SizeRow],
    objects: &[Object],
    summary: &Summary,
) -> Result<PieceText, OutOfMemory>
    ensures { IfOk result (λ text. text ≡ extended_text setup.now entries.now told.now sizes.now objects.now summary.now) }
{
    let mut lines = Lines::new(alloc);
    push_rest(&mut lines, alloc, told, sizes, objects, summary)?;
    print_before(alloc, setup, entries, lines.into_bytes())
}
