//! What one line is.

ghost use Rattle.std.specs.Prelude.{IfOk};
ghost use Rattle.serde_json.specs.View.{view};
ghost use Rattle.json_text.specs.Trees.{tree_data};
ghost use Rattle.object_text.specs.Reading.{value_of};
ghost use Rattle.script_text.specs.Grammar.{script_of};
ghost use Rattle.history_lines.specs.Entries.{setup_of};
ghost use Rattle.store_asks.specs.Asks.{ask_in};
ghost use Rattle.store_lines.specs.Faults.{StoreLineGives, StoreLineGivesBy};
ghost use Rattle.store_lines.specs.Lines.{HasImports, as_ask, as_call, as_setup, call_among, call_of, json_in, line_by, line_of, object_in};

use crate::faults::{LineFault, StoreLineError};
use call_types::request::SeatKind;
use call_types::setup::Setup;
use history_lines::errors::Unread;
use history_lines::setups::setup_of;
use json_text::tree::Tree;
use kube_types::copies::Plain;
use object_text::errors::ObjectError;
use object_text::reading::value_of;
use script_text::errors::ScriptError;
use script_text::reading::read_script;
use script_text::script::Line;
use serde_json::Value;
use std::alloc::Global;
use store_asks::asks::{StoreAsk, ask_in};
use store_asks::errors::AskError;

/// The most bytes of a line: 4 MiB.
const MOST_LINE_BYTES: usize = 4_194_304;

/// What a line is: the setup with which the world begins, or what a seat asks, as a user's line of a script does too.
#[derive(Drop)]
pub enum StoreLine {
    Setup(Setup),
    Ask(StoreAsk),
}

/// The value of a line: JSON in UTF-8.
fn json_in(alloc: Global, line: &[u8]) -> Result<Tree, StoreLineError>
    ensures { StoreLineGivesBy tree_data result (json_in (value_of line.now)) }
{
    match value_of(alloc, line) {
        Ok(tree) => Ok(tree),
        Err(ObjectError::OutOfMemory) => Err(StoreLineError::OutOfMemory),
        Err(_) => Err(StoreLineError::Refused(LineFault::NotJson)),
    }
}

fn object_in(alloc: Global, line: &[u8]) -> Result<Tree, StoreLineError>
    ensures { StoreLineGivesBy tree_data result (object_in line.now) }
{
    let tree = json_in(alloc, line)?;
    if tree.value().as_object().is_none() {
        return Err(StoreLineError::Refused(LineFault::NotObject));
    }
    Ok(tree)
}

// ---- the three kinds of lines

fn as_setup(alloc: Global, line: &[u8]) -> Result<StoreLine, StoreLineError>
    ensures { StoreLineGives result (as_setup (setup_of line.now)) }
{
    match setup_of(alloc, line) {
        Ok(setup) => Ok(StoreLine::Setup(setup)),
        Err(Unread::NotCanonical) => Err(StoreLineError::Refused(LineFault::BadSetup)),
        Err(Unread::OutOfMemory) => Err(StoreLineError::OutOfMemory),
    }
}

fn as_ask(alloc: Global, value: &Value) -> Result<StoreLine, StoreLineError>
    ensures { StoreLineGives result (as_ask (ask_in (view value.now))) }
{
    match ask_in(alloc, value) {
        Ok(asked) => Ok(StoreLine::Ask(asked)),
        Err(AskError::BadMember(member)) => {
            Err(StoreLineError::Refused(LineFault::BadAsk(member)))
        }
        Err(AskError::OutOfMemory) => Err(StoreLineError::OutOfMemory),
    }
}

/// The call of a script's line; the seat of a user is told all.
fn call_of(alloc: Global, line: &Line) -> Result<StoreLine, StoreLineError>
    ensures { StoreLineGives result (call_of line.now) }
{
    match line {
        Line::Call { user, request } => Ok(StoreLine::Ask(StoreAsk {
            seat: *user,
            kind: SeatKind::User,
            request: request.copy(alloc)?,
            told: true,
        })),
        _ => Err(StoreLineError::Refused(LineFault::NotCall)),
    }
}

fn call_among(alloc: Global, lines: &[Line]) -> Result<StoreLine, StoreLineError>
    ensures { StoreLineGives result (call_among lines.now) }
{
    match lines {
        [line] => call_of(alloc, line),
        _ => Err(StoreLineError::Refused(LineFault::NotCall)),
    }
}

fn as_call(alloc: Global, line: &[u8]) -> Result<StoreLine, StoreLineError>
    ensures { StoreLineGives result (as_call (script_of line.now)) }
{
    match read_script(alloc, line) {
        Ok(script) => call_among(alloc, script.lines.as_slice()),
        Err(ScriptError::BadLine(bad)) => {
            Err(StoreLineError::Refused(LineFault::BadScript(bad.reason)))
        }
        Err(ScriptError::OutOfMemory) => Err(StoreLineError::OutOfMemory),
    }
}

// ---- any line

fn line_by(alloc: Global, line: &[u8], value: &Value) -> Result<StoreLine, StoreLineError>
    ensures { StoreLineGives result (line_by line.now (view value.now)) }
{
    if value.get("ask").is_some() {
        return as_ask(alloc, value);
    }
    if value.get("do").is_some() {
        return as_call(alloc, line);
    }
    if value.get("setup").is_some() {
        return as_setup(alloc, line);
    }
    Err(StoreLineError::Refused(LineFault::UnknownLine))
}

#[tactic(auto, unfolding(crate::specs::Lines::line_of))]
fn line_of(alloc: Global, line: &[u8]) -> Result<StoreLine, StoreLineError>
    ensures { StoreLineGives result (line_of line.now) }
{
    if line.len() > MOST_LINE_BYTES {
        return Err(StoreLineError::Refused(LineFault::TooLong));
    }
    let tree = object_in(alloc, line)?;
    line_by(alloc, line, tree.value())
}

/// What a line is, by the first of the members ask, do and setup that stands in it. A world may begin with the imports of
/// a setup that is read.
#[tactic(auto, using(crate::proofs::Setups::reads_pass))]
pub fn read_line(alloc: Global, line: &[u8]) -> Result<StoreLine, StoreLineError>
    ensures gives { StoreLineGives result (line_of line.now) }
    ensures imports { IfOk result HasImports }
{
    line_of(alloc, line)
}
