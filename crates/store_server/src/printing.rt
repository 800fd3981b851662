//! The lines that are answered.

ghost use Rattle.std.specs.Prelude.{◌≡◌, [], IfOk, Some, string_bytes};
ghost use Rattle.binder_model.specs.Due.{IsFirstDue};
ghost use Rattle.binder_model.specs.World.{world as world_of};
ghost use Rattle.history_text.specs.Entries.{entry_line, setup_line};
ghost use Rattle.history_text.specs.Output.{with_line, with_lines};
ghost use Rattle.store_server.specs.Answers.{bad_line, refused_line};
ghost use Rattle.store_server.specs.Closing.{Closes, closing_summary, closing_lines, ending_of};

use call_types::entry::Entry;
use call_types::setup::Setup;
use history_text::counts::summary_of;
use history_text::entries::print_beside;
use history_text::lines::{Lines, push_final};
use history_text::setups::print_setup;
use history_text::summary::{Ending, Summary};
use kube_types::copies::OutOfMemory;
use kube_types::key::Key;
use kube_types::names::{Due, LicenceRule};
use kube_types::text::Bytes;
use piece_print::recent::Recent;
use settle_check::due;
use std::alloc::Global;
use store_lines::faults::{LineFault, fault_text};
use world_core::world::World;

/// The line, and a line feed.
fn ended(alloc: Global, line: &[u8]) -> Result<Bytes, OutOfMemory>
    ensures { IfOk result (λ text. text ≡ with_line [] line.now) }
{
    let mut lines = Lines::new(alloc);
    lines.push(line)?;
    Ok(lines.into_bytes())
}

#[tactic(auto, unfolding(crate::specs::Answers::bad_line))]
fn bad_line(alloc: Global, number: u64, fault: LineFault) -> Result<String, OutOfMemory>
    ensures { IfOk result (λ text. string_bytes text ≡ bad_line number fault) }
{
    let reason = fault_text(alloc, fault)?;
    Ok(format!(in alloc; "{{\"bad\":{{\"line\":{number},\"reason\":\"{reason}\"}}}}")?)
}

#[tactic(auto, unfolding(crate::specs::Answers::refused_line))]
fn refused_line(alloc: Global, seat: u64, rule: LicenceRule) -> Result<String, OutOfMemory>
    ensures { IfOk result (λ text. string_bytes text ≡ refused_line seat rule) }
{
    let rule = rule.name();
    Ok(format!(in alloc; "{{\"refused\":{{\"rule\":\"{rule}\",\"seat\":{seat}}}}}")?)
}

/// The answer to a line of this number that is at fault.
pub fn bad_text(alloc: Global, number: u64, fault: LineFault) -> Result<Bytes, OutOfMemory>
    ensures { IfOk result (λ text. text ≡ with_line [] (bad_line number fault)) }
{
    let line = bad_line(alloc, number, fault)?;
    ended(alloc, line.as_bytes())
}

/// The answer to a seat whose request the rule refuses.
pub fn refused_text(alloc: Global, seat: u64, rule: LicenceRule) -> Result<Bytes, OutOfMemory>
    ensures { IfOk result (λ text. text ≡ with_line [] (refused_line seat rule)) }
{
    let line = refused_line(alloc, seat, rule)?;
    ended(alloc, line.as_bytes())
}

/// The answer to a setup: its own line.
pub fn setup_text(alloc: Global, setup: &Setup) -> Result<Bytes, OutOfMemory>
    ensures { IfOk result (λ text. text ≡ with_line [] (setup_line setup.now)) }
{
    let line = print_setup(alloc, setup)?;
    ended(alloc, line.as_slice())
}

/// The answer to an ask: the line of its entry.
pub fn entry_text(alloc: Global, recent: &mut Recent, entry: &Entry) -> Result<Bytes, OutOfMemory>
    ensures { IfOk result (λ text. text ≡ with_line [] (entry_line entry.now)) }
{
    let line = print_beside(alloc, recent, entry)?;
    ended(alloc, line.as_slice())
}

// ---- the end

fn ending_of(first: Option<(Key, Due)>) -> Ending
    ensures { result ≡ ending_of first }
{
    match first {
        None => Ending::Settled,
        Some((key, due)) => Ending::Unsettled { calls: 0, key, due },
    }
}

/// The numbers of a world, and the first action that is due in it.
#[tactic(auto, unfolding(crate::specs::Closing::closing_summary))]
fn closing_summary(world: &World, first: Option<(Key, Due)>) -> Summary
    ensures { result ≡ closing_summary (world_of world.now.setup world.now.past) first }
{
    let counts = world.devices().counts();
    summary_of(
        world.store().objects(),
        world.store().version(),
        counts.mounted,
        counts.stored,
        counts.calls,
        ending_of(first),
    )
}

/// The text that ends a history: the line end, the objects and the numbers of the world.
pub fn closing_text(alloc: Global, world: &World) -> Result<Bytes, OutOfMemory>
    ensures { IfOk result (Closes world.now.setup world.now.past) }
{
    let first = due(alloc, world)?;
    let summary = closing_summary(world, first);
    let mut lines = Lines::new(alloc);
    lines.push(b"end")?;
    push_final(&mut lines, alloc, world.store().objects(), &summary)?;
    Ok(lines.into_bytes())
}
