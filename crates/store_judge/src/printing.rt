//! What is printed of the faults of a history.

ghost use Rattle.std.specs.Prelude.{◌≡◌, [], ◌∷◌, IfOk, OnOk, string_bytes, if◌then◌else◌};
ghost use Rattle.std.specs.List.{list_any};
ghost use Rattle.history_text.specs.Output.{with_lines};
ghost use Rattle.store_judge.specs.Shown.{fault_line, fault_lines, is_shown, judge_lines, yes_line};

use crate::faults::EntryFault;
use history_text::lines::Lines;
use kube_types::copies::OutOfMemory;
use kube_types::text::{Bytes, Names};
use std::alloc::Global;

/// How faults are printed: as JSON or in words, and without which rules.
pub struct JudgeOptions {
    pub json: bool,
    pub without: Names,
}

impl Drop for JudgeOptions {
    fn drop(self) {
        let JudgeOptions { json: _, without } = self;
        drop(without);
    }
}

#[tactic(auto, unfolding(crate::specs::Shown::fault_line))]
fn fault_line(alloc: Global, json: bool, fault: EntryFault) -> Result<String, OutOfMemory>
    ensures { IfOk result (λ text. string_bytes text ≡ fault_line json fault) }
{
    let entry = fault.entry;
    let rule = fault.rule.name();
    if json {
        Ok(format!(in alloc; "{{\"entry\":{entry},\"rule\":\"{rule}\"}}")?)
    } else {
        Ok(format!(in alloc; "entry {entry} {rule}")?)
    }
}

#[tactic(auto, unfolding(crate::specs::Shown::yes_line))]
fn yes_line(alloc: Global, json: bool, count: u64) -> Result<String, OutOfMemory>
    ensures { IfOk result (λ text. string_bytes text ≡ yes_line json count) }
{
    if json {
        Ok(format!(in alloc; "{{\"yes\":{count}}}")?)
    } else {
        Ok(format!(in alloc; "yes {count} entries")?)
    }
}

fn is_shown(options: &JudgeOptions, fault: EntryFault) -> bool
    ensures { result ≡ is_shown options.now fault }
{
    !options.without.contains(fault.rule.name())
}

/// Whether a fault is shown.
pub(crate) fn shows(options: &JudgeOptions, faults: &[EntryFault]) -> bool
    ensures { result ≡ list_any (is_shown options.now) faults.now }
{
    for fault in faults {
        if is_shown(options, *fault) {
            return true;
        }
    }
    false
}

fn push_fault(
    lines: &mut Lines,
    alloc: Global,
    options: &JudgeOptions,
    fault: EntryFault,
) -> Result<(), OutOfMemory>
    ensures { OnOk result (lines.new ≡ with_lines lines.old (if is_shown options.now fault then fault_line options.now.json fault ∷ [] else [])) }
{
    if is_shown(options, fault) {
        let line = fault_line(alloc, options.json, fault)?;
        lines.push(line.as_bytes())?;
    }
    Ok(())
}

fn push_faults(
    lines: &mut Lines,
    alloc: Global,
    options: &JudgeOptions,
    faults: &[EntryFault],
) -> Result<(), OutOfMemory>
    ensures { OnOk result (lines.new ≡ with_lines lines.old (fault_lines options.now faults.now)) }
{
    for fault in faults {
        push_fault(lines, alloc, options, *fault)?;
    }
    Ok(())
}

/// The text of all faults of so many entries.
pub(crate) fn judge_text(
    alloc: Global,
    options: &JudgeOptions,
    count: u64,
    faults: &[EntryFault],
) -> Result<Bytes, OutOfMemory>
    ensures { IfOk result (λ text. text ≡ with_lines [] (judge_lines options.now count faults.now)) }
{
    let mut lines = Lines::new(alloc);
    if faults.is_empty() {
        let line = yes_line(alloc, options.json, count)?;
        lines.push(line.as_bytes())?;
    } else {
        push_faults(&mut lines, alloc, options, faults)?;
    }
    Ok(lines.into_bytes())
}
