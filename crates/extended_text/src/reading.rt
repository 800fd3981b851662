//! Extended scripts from texts.

ghost use Rattle.std.specs.Prelude.{◌≡◌, ◌++◌, [], ◌∷◌, IfOk, OnOk, map};
ghost use Rattle.script_lines.specs.Answers.{ScriptGives};
ghost use Rattle.script_text.specs.Said.{agents_of, nodes_of};
ghost use Rattle.extended_text.specs.Extended.{blanked, earlier_of, extended_of, first_fault, if_side, sides_in};
ghost use Rattle.extended_text.specs.Sides.{side_in};
ghost use Rattle.extended_text.specs.Steps.Read.{read_so_far};

use crate::line_readers::side_in;
use crate::progress::SidesRead;
use crate::sides::Extended;
use kube_types::copies::OutOfMemory;
use script_lines::errors::{BadLine, LineError, ScriptError};
use script_text::reading::{lines_of, read_lines};
use std::alloc::Global;

// ---- the two halves of a text

/// Takes a line of this number: the side's, of which nothing is left to the script, or the script's.
fn take_line<'a>(
    alloc: Global,
    script: &mut Vec<&'a [u8]>,
    sides: &mut SidesRead,
    number: u64,
    line: &'a [u8],
) -> Result<(), OutOfMemory>
    ensures script { OnOk result (map (λ line. line.now) script.new.items ≡ map (λ line. line.now) script.old.items ++ blanked line.now ∷ []) }
    ensures sides { OnOk result (read_so_far sides.new ≡ if_side (read_so_far sides.old) number (side_in line.now)) }
{
    match side_in(alloc, line) {
        Ok(side) => {
            script.push(&[])?;
            sides.take(alloc, number, &side)
        }
        Err(LineError::OutOfMemory) => Err(OutOfMemory),
        Err(LineError::Refused(_)) => {
            script.push(line)?;
            Ok(())
        }
    }
}

/// What the side's lines say; the lines as the script's reader is given them are put behind these.
fn sides_in<'a>(
    alloc: Global,
    lines: &[&'a [u8]],
    script: &mut Vec<&'a [u8]>,
) -> Result<SidesRead, OutOfMemory>
    requires { script.old.items ≡ [] }
    ensures script { IfOk result (λ _. map (λ line. line.now) script.new.items ≡ map blanked (map (λ line. line.now) lines.now)) }
    ensures sides { IfOk result (λ sides. read_so_far sides ≡ sides_in (map (λ line. line.now) lines.now)) }
{
    let mut sides = SidesRead::new(alloc);
    let mut number = 1;
    for line in lines {
        take_line(alloc, script, &mut sides, number, line)?;
        number += 1;
    }
    Ok(sides)
}

// ---- both together

fn first_fault(one: BadLine, other: BadLine) -> BadLine
    ensures { result ≡ first_fault one other }
{
    if other.line < one.line { other } else { one }
}

/// The fault of the script's half, or that of the side's, which comes first.
fn earlier_of(bad: BadLine, sides: &SidesRead) -> BadLine
    ensures { result ≡ earlier_of bad (read_so_far sides.now) }
{
    match sides.fault {
        Some(other) => first_fault(bad, other),
        None => bad,
    }
}

/// The extended script of a text. A text is lines that end in a line feed; the last may lack it.
#[tactic(auto, unfolding(crate::specs::Extended::extended_of))]
pub fn read_extended(alloc: Global, text: &[u8]) -> Result<Extended, ScriptError>
    ensures gives { ScriptGives result (extended_of text.now) }
    ensures nodes { IfOk result (λ e. e.script.node_names ≡ nodes_of (agents_of e.script.setup.imports e.script.lines)) }
{
    let lines = lines_of(alloc, text)?;
    let mut script = Vec::new(alloc);
    let sides = sides_in(alloc, &lines, &mut script)?;
    match read_lines(alloc, &script) {
        Ok(numbered) => sides.with_script(alloc, numbered),
        Err(ScriptError::OutOfMemory) => Err(ScriptError::OutOfMemory),
        Err(ScriptError::BadLine(bad)) => Err(ScriptError::BadLine(earlier_of(bad, &sides))),
    }
}
