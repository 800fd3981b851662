//! The text of a script.

ghost use Rattle.std.specs.Prelude.{◌≡◌, [], OnOk, IfOk, decimal, map, option_map, unwrap_or};
ghost use Rattle.history_text.specs.Output.{with_line, with_lines};
ghost use Rattle.script_print.specs.Printing.{line_text, pool_text, pool_lines, fault_text, import_text, script_lines, script_text};

use crate::lines::{write_fault, write_import, write_line, write_pool};
use call_types::setup::Pool;
use history_text::lines::Lines;
use itoa::Buffer;
use json_text::writing::JsonText;
use kube_types::copies::OutOfMemory;
use kube_types::objects::Object;
use kube_types::text::{Bytes, Text};
use script_text::script::{Line, Script};
use std::alloc::Global;

#[tactic(auto, using(json_text::proofs::Closing::alone), unfolding(crate::specs::Printing::line_text))]
fn push_line(lines: &mut Lines, alloc: Global, line: &Line) -> Result<(), OutOfMemory>
    ensures ok { OnOk result (lines.new ≡ with_line lines.old (line_text line.now)) }
{
    let mut out = JsonText::new(alloc);
    write_line(&mut out, line)?;
    lines.push(out.as_slice())
}

fn push_lines(lines: &mut Lines, alloc: Global, script: &[Line]) -> Result<(), OutOfMemory>
    ensures ok { OnOk result (lines.new ≡ with_lines lines.old (map line_text script.now)) }
{
    for line in script {
        push_line(lines, alloc, line)?;
    }
    Ok(())
}

#[tactic(auto, using(json_text::proofs::Closing::alone), unfolding(crate::specs::Printing::fault_text))]
fn push_fault(lines: &mut Lines, alloc: Global, call: u64) -> Result<(), OutOfMemory>
    ensures ok { OnOk result (lines.new ≡ with_line lines.old (fault_text call)) }
{
    let mut out = JsonText::new(alloc);
    write_fault(&mut out, call)?;
    lines.push(out.as_slice())
}

fn push_faults(lines: &mut Lines, alloc: Global, faults: &[u64]) -> Result<(), OutOfMemory>
    ensures ok { OnOk result (lines.new ≡ with_lines lines.old (map fault_text faults.now)) }
{
    for call in faults {
        push_fault(lines, alloc, *call)?;
    }
    Ok(())
}

#[tactic(auto, using(json_text::proofs::Closing::alone), unfolding(crate::specs::Printing::import_text))]
fn push_import(lines: &mut Lines, alloc: Global, object: &Object) -> Result<(), OutOfMemory>
    ensures ok { OnOk result (lines.new ≡ with_line lines.old (import_text object.now)) }
{
    let mut out = JsonText::new(alloc);
    write_import(&mut out, object)?;
    lines.push(out.as_slice())
}

fn push_imports(lines: &mut Lines, alloc: Global, imports: &[Object]) -> Result<(), OutOfMemory>
    ensures ok { OnOk result (lines.new ≡ with_lines lines.old (map import_text imports.now)) }
{
    for object in imports {
        push_import(lines, alloc, object)?;
    }
    Ok(())
}

#[tactic(auto, using(json_text::proofs::Closing::alone), unfolding(crate::specs::Printing::pool_text))]
fn push_pool(lines: &mut Lines, alloc: Global, pool: &Pool, size: &str) -> Result<(), OutOfMemory>
    ensures ok { OnOk result (lines.new ≡ with_line lines.old (pool_text pool.now size.now)) }
{
    let mut out = JsonText::new(alloc);
    write_pool(&mut out, pool, size)?;
    lines.push(out.as_slice())
}

fn push_sized(
    lines: &mut Lines,
    alloc: Global,
    pool: &Pool,
    size: Option<&Text>,
) -> Result<(), OutOfMemory>
    ensures ok { OnOk result (lines.new ≡ with_line lines.old (pool_text pool.now (unwrap_or (option_map (λ s. s.now) size.entry) (decimal pool.now.bytes)))) }
{
    match size {
        Some(size) => push_pool(lines, alloc, pool, size.as_str()),
        None => {
            let mut buffer = Buffer::new();
            push_pool(lines, alloc, pool, buffer.format(pool.bytes))
        }
    }
}

fn push_pools(
    lines: &mut Lines,
    alloc: Global,
    pools: &[Pool],
    sizes: &[Text],
) -> Result<(), OutOfMemory>
    ensures ok { OnOk result (lines.new ≡ with_lines lines.old (pool_lines pools.now sizes.now)) }
{
    for (i, pool) in pools.iter().enumerate() {
        push_sized(lines, alloc, pool, sizes.get(i))?;
    }
    Ok(())
}

/// The text of a script: its pools, its faults, its imported objects and its lines, each a line.
#[tactic(auto, using(history_text::proofs::LineLists::with_lines_append), unfolding(crate::specs::Printing::script_lines))]
pub fn print_script(alloc: Global, script: &Script) -> Result<Bytes, OutOfMemory>
    ensures { IfOk result (λ b. b ≡ script_text script.now) }
{
    let mut lines = Lines::new(alloc);
    push_pools(
        &mut lines,
        alloc,
        script.setup.pools.as_slice(),
        script.sizes.as_slice(),
    )?;
    push_faults(&mut lines, alloc, script.setup.faults.as_slice())?;
    push_imports(&mut lines, alloc, script.setup.imports.as_slice())?;
    push_lines(&mut lines, alloc, script.lines.as_slice())?;
    Ok(lines.into_bytes())
}
