//! The text of a history, in which the text of each object stands once in memory.

ghost use Rattle.std.specs.Prelude.{◌≡◌, ◌++◌, OnOk, IfOk, codes, map};
ghost use Rattle.json_text.specs.Writing.{with_text, with_value};
ghost use Rattle.piece_print.specs.Writing.{text_in, whole};
ghost use Rattle.history_text.specs.Entries.{entry_line, setup_data, setup_line};
ghost use Rattle.history_text.specs.Output.{with_line, with_lines, history_lines, history_text, final_lines};

use crate::entries::write_entry;
use crate::lines::print_objects_and_summary;
use crate::setups::write_setup;
use crate::summary::Summary;
use call_types::entry::Entry;
use call_types::setup::Setup;
use kube_types::copies::OutOfMemory;
use kube_types::objects::Object;
use kube_types::text::Bytes;
use piece_print::pieces::PieceText;
use piece_print::writing::JsonPieces;
use std::alloc::Global;

#[tactic(auto, using(piece_print::proofs::Behind::value_behind))]
fn put_setup(out: &mut JsonPieces<'_>, setup: &Setup) -> Result<(), OutOfMemory>
    ensures ok { OnOk result (whole out.new ≡ with_value (setup_data setup.now) (whole out.old)) }
{
    write_setup(&mut out.tail, setup)
}

#[tactic(auto, using(crate::proofs::LineLists::ends_value), unfolding(crate::specs::Entries::setup_line))]
fn push_setup(out: &mut JsonPieces<'_>, setup: &Setup) -> Result<(), OutOfMemory>
    ensures ok { OnOk result (text_in out.new ≡ with_line (text_in out.old) (setup_line setup.now)) }
{
    out.begin_line();
    put_setup(out, setup)?;
    out.end_line()
}

#[tactic(auto, using(crate::proofs::LineLists::ends_value), unfolding(crate::specs::Entries::entry_line))]
fn push_entry<'a>(out: &mut JsonPieces<'a>, entry: &'a Entry) -> Result<(), OutOfMemory>
    ensures ok { OnOk result (text_in out.new ≡ with_line (text_in out.old) (entry_line entry.now)) }
{
    out.begin_line();
    write_entry(out, entry)?;
    out.end_line()
}

fn push_entries<'a>(out: &mut JsonPieces<'a>, entries: &'a [Entry]) -> Result<(), OutOfMemory>
    ensures ok { OnOk result (text_in out.new ≡ with_lines (text_in out.old) (map entry_line entries.now)) }
{
    for entry in entries {
        push_entry(out, entry)?;
    }
    Ok(())
}

#[tactic(auto, using(piece_print::proofs::Behind::text_behind))]
fn put_word(out: &mut JsonPieces<'_>, word: &str) -> Result<(), OutOfMemory>
    ensures ok { OnOk result (whole out.new ≡ with_text word.now (whole out.old)) }
{
    out.tail.raw(word.as_bytes())
}

#[tactic(auto, using(crate::proofs::LineLists::ends_text))]
fn push_end(out: &mut JsonPieces<'_>) -> Result<(), OutOfMemory>
    ensures ok { OnOk result (text_in out.new ≡ with_line (text_in out.old) (codes "end")) }
{
    out.begin_line();
    put_word(out, "end")?;
    out.end_line()
}

#[tactic(auto, using(crate::proofs::LineLists::with_lines_append), unfolding(crate::specs::Output::history_lines))]
fn push_history<'a>(
    out: &mut JsonPieces<'a>,
    setup: &Setup,
    entries: &'a [Entry],
) -> Result<(), OutOfMemory>
    ensures ok { OnOk result (text_in out.new ≡ with_lines (text_in out.old) (history_lines setup.now entries.now)) }
{
    push_setup(out, setup)?;
    push_entries(out, entries)?;
    push_end(out)
}

/// The text of a history, in one piece.
pub fn print_history(alloc: Global, setup: &Setup, entries: &[Entry]) -> Result<Bytes, OutOfMemory>
    ensures { IfOk result (λ b. b ≡ history_text setup.now entries.now) }
{
    let mut out = JsonPieces::plain(alloc);
    push_history(&mut out, setup, entries)?;
    out.into_bytes()
}

/// The text of a history, and this text behind it.
pub fn print_before(
    alloc: Global,
    setup: &Setup,
    entries: &[Entry],
    rest: Bytes,
) -> Result<PieceText, OutOfMemory>
    ensures { IfOk result (λ text. text ≡ history_text setup.now entries.now ++ rest) }
{
    let mut out = JsonPieces::new(alloc);
    push_history(&mut out, setup, entries)?;
    out.into_text(rest)
}

/// The text of a history, of the final objects and of the summary.
#[tactic(auto, using(crate::proofs::LineLists::with_lines_behind))]
pub fn print_all(
    alloc: Global,
    setup: &Setup,
    entries: &[Entry],
    objects: &[Object],
    summary: &Summary,
) -> Result<PieceText, OutOfMemory>
    ensures { IfOk result (λ text. text ≡ with_lines (history_text setup.now entries.now) (final_lines objects.now summary.now)) }
{
    let rest = print_objects_and_summary(alloc, objects, summary)?;
    print_before(alloc, setup, entries, rest)
}
