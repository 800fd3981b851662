//! Scripts from texts.

ghost use Rattle.std.specs.Prelude.{◌≡◌, IfOk, OnOk, map, option_map};
ghost use Rattle.std.specs.List.{list_all};
ghost use Rattle.serde_json.specs.View.{view};
ghost use Rattle.json_text.specs.Trees.{tree_data};
ghost use Rattle.object_text.specs.Reading.{value_of};
ghost use Rattle.script_lines.specs.Answers.{MemberGives, MemberGivesBy, ScriptGives, taken_in_line};
ghost use Rattle.script_text.specs.Said.{agents_of, and_node, created_node, meaning_node, nodes_of};
ghost use Rattle.script_text.specs.LineReaders.{meaning_of};
ghost use Rattle.script_text.specs.Grammar.{agents_in, and_filled, and_line, is_blank, line_value, lines_of, node_from, own_object, read_lines_of, read_numbered_of, said_in, script_of};
ghost use Rattle.script_text.specs.Steps.Indexed.{ProgressStands, Takes, said_by};
ghost use Rattle.script_text.specs.Steps.Known.{IfNamed, IsKnown, SaidGives, names_actor};

use crate::index::{imported_node, node_name, put_node};
use crate::line_readers::{as_import, as_line, create_line, meaning_by, verb_at};
use crate::progress::Progress;
use crate::script::{Line, Meaning, Numbered, Script};
use call_types::request::Request;
use json_text::tree::Tree;
use kube_types::copies::OutOfMemory;
use kube_types::pairs::Pairs;
use kube_types::text::Text;
use object_text::reading::value_of;
use script_lines::errors::{BadLine, LineError, Reason, ScriptError};
use script_lines::members::object_at;
use script_lines::verbs::Verb;
use serde_json::Value;
use std::alloc::{AllocError, Global};

const MOST_LINE_BYTES: usize = 16384;

const MOST_LINES: u64 = 4096;

// ---- one line

fn is_blank(byte: u8) -> bool
    ensures { result ≡ is_blank byte }
{
    byte == b' ' || byte == b'\t'
}

fn are_blank(line: &[u8]) -> bool
    ensures { result ≡ list_all is_blank line.now }
{
    for byte in line {
        if !is_blank(*byte) {
            return false;
        }
    }
    true
}

#[tactic(auto, using(script_lines::proofs::Taken::taken_fails))]
fn json_of(alloc: Global, line: &[u8]) -> Result<Tree, LineError>
    ensures { MemberGivesBy tree_data result (taken_in_line (value_of line.now)) }
{
    Ok(value_of(alloc, line)?)
}

fn line_value(alloc: Global, line: &[u8]) -> Result<Tree, LineError>
    ensures { MemberGivesBy tree_data result (line_value line.now) }
{
    let tree = json_of(alloc, line)?;
    if tree.value().as_object().is_none() {
        return Err(LineError::Refused(Reason::NotObject));
    }
    Ok(tree)
}

// ---- the agents of the whole text

/// What a line creates or imports, by its own members alone.
#[tactic(auto, using(crate::proofs::LineResults::line_gives, crate::proofs::LineResults::import_gives), unfolding(crate::specs::Grammar::own_object))]
fn own_object(alloc: Global, line: &[u8]) -> Result<Meaning, LineError>
    ensures { MemberGives result (own_object line.now) }
{
    if line.len() > MOST_LINE_BYTES {
        return Err(LineError::Refused(Reason::TooLong));
    }
    let tree = line_value(alloc, line)?;
    let verb = verb_at(tree.value())?;
    match verb {
        Verb::Create => as_line(create_line(alloc, tree.value())),
        Verb::Import => as_import(object_at(alloc, tree.value())),
        _ => Err(LineError::Refused(Reason::UnknownDo)),
    }
}

/// The node that a line creates.
fn created_node(line: &Line) -> Option<&Text>
    ensures { option_map (λ n. n.now) result ≡ created_node line.now }
{
    match line {
        Line::Call {
            user: _,
            request: Request::Create { object },
        } => node_name(object),
        _ => None,
    }
}

/// The node that what a line means gives.
fn meaning_node(meaning: &Meaning) -> Option<&Text>
    ensures { option_map (λ n. n.now) result ≡ meaning_node meaning.now }
{
    match meaning {
        Meaning::Pool { pool: _, size: _ } => None,
        Meaning::Fault { call: _ } => None,
        Meaning::Import(object) => imported_node(object),
        Meaning::Line(line) => created_node(line),
    }
}

fn put_line_node(alloc: Global, agents: &mut Pairs, line: &[u8]) -> Result<(), OutOfMemory>
    ensures ok { OnOk result (agents.new ≡ and_node agents.old (node_from (own_object line.now))) }
{
    match own_object(alloc, line) {
        Ok(meaning) => match meaning_node(&meaning) {
            Some(node) => put_node(alloc, agents, node),
            None => Ok(()),
        },
        Err(LineError::Refused(_)) => Ok(()),
        Err(LineError::OutOfMemory) => Err(OutOfMemory),
    }
}

fn agents_in(alloc: Global, lines: &[&[u8]]) -> Result<Pairs, OutOfMemory>
    ensures { IfOk result (λ agents. agents ≡ agents_in (map (λ line. line.now) lines.now)) }
{
    let mut agents = Pairs::new(alloc);
    for line in lines {
        put_line_node(alloc, &mut agents, line)?;
    }
    Ok(agents)
}

/// The agents of the whole text, once they were looked for.
pub struct KnownAgents {
    pub found: bool,
    pub agents: Pairs,
}

impl Drop for KnownAgents {
    fn drop(self) {
        let KnownAgents { found: _, agents } = self;
        drop(agents);
    }
}

fn find_agents(alloc: Global, lines: &[&[u8]], known: &mut KnownAgents) -> Result<(), OutOfMemory>
    requires { IsKnown known.old (map (λ line. line.now) lines.now) }
    ensures ok { OnOk result (known.new.agents ≡ agents_in (map (λ line. line.now) lines.now)) }
    ensures known { IsKnown known.new (map (λ line. line.now) lines.now) }
{
    if !known.found {
        known.agents = agents_in(alloc, lines)?;
        known.found = true;
    }
    Ok(())
}

/// Whether a line with this word names an actor.
fn names_actor(verb: Verb) -> bool
    ensures { result ≡ names_actor verb }
{
    match verb {
        Verb::Lose => true,
        Verb::Restart => true,
        Verb::Turn => true,
        _ => false,
    }
}

fn agents_for(
    alloc: Global,
    lines: &[&[u8]],
    known: &mut KnownAgents,
    verb: Verb,
) -> Result<(), OutOfMemory>
    requires { IsKnown known.old (map (λ line. line.now) lines.now) }
    ensures ok { OnOk result (IfNamed verb (known.new.agents ≡ agents_in (map (λ line. line.now) lines.now))) }
    ensures known { IsKnown known.new (map (λ line. line.now) lines.now) }
{
    if names_actor(verb) {
        find_agents(alloc, lines, known)?;
    }
    Ok(())
}

/// What a line means, after what was said before.
#[tactic(auto, using(crate::proofs::Meanings::same_meaning), unfolding(crate::specs::LineReaders::meaning_of))]
fn meaning_of(
    alloc: Global,
    lines: &[&[u8]],
    known: &mut KnownAgents,
    progress: &Progress,
    value: &Value,
) -> Result<Meaning, LineError>
    requires known { IsKnown known.old (map (λ line. line.now) lines.now) }
    requires stands { ProgressStands progress.now }
    ensures gives { MemberGives result (meaning_of (agents_in (map (λ line. line.now) lines.now)) (said_by progress.now) (view value.now)) }
    ensures known { IsKnown known.new (map (λ line. line.now) lines.now) }
{
    let verb = verb_at(value)?;
    agents_for(alloc, lines, known, verb)?;
    meaning_by(alloc, verb, &known.agents, progress, value)
}

// ---- the text

#[tactic(auto, unfolding(crate::specs::Grammar::and_filled))]
fn take_filled(
    alloc: Global,
    lines: &[&[u8]],
    known: &mut KnownAgents,
    progress: &mut Progress,
    number: u64,
    line: &[u8],
) -> Result<(), LineError>
    requires known { IsKnown known.old (map (λ line. line.now) lines.now) }
    requires stands { ProgressStands progress.old }
    ensures takes { Takes result progress.new (and_filled (agents_in (map (λ line. line.now) lines.now)) (said_by progress.old) number line.now) }
    ensures known { IsKnown known.new (map (λ line. line.now) lines.now) }
{
    let tree = line_value(alloc, line)?;
    let meaning = meaning_of(alloc, lines, known, progress, tree.value())?;
    if number > MOST_LINES {
        return Err(LineError::Refused(Reason::TooManyLines));
    }
    meaning.take(alloc, progress, number)
}

/// Takes a line of this number, unless it is refused.
#[tactic(auto, unfolding(crate::specs::Grammar::and_line))]
fn take_line(
    alloc: Global,
    lines: &[&[u8]],
    known: &mut KnownAgents,
    progress: &mut Progress,
    number: u64,
    line: &[u8],
) -> Result<(), LineError>
    requires known { IsKnown known.old (map (λ line. line.now) lines.now) }
    requires stands { ProgressStands progress.old }
    ensures takes { Takes result progress.new (and_line (agents_in (map (λ line. line.now) lines.now)) (said_by progress.old) number line.now) }
    ensures known { IsKnown known.new (map (λ line. line.now) lines.now) }
{
    if line.len() > MOST_LINE_BYTES {
        return Err(LineError::Refused(Reason::TooLong));
    }
    if are_blank(line) {
        return Ok(());
    }
    take_filled(alloc, lines, known, progress, number, line)
}

/// The parts between line feeds. It takes the room for all lines at once, and is refused where that is.
pub fn lines_of(alloc: Global, text: &[u8]) -> Result<Vec<&[u8]>, AllocError>
    ensures { IfOk result (λ lines. map (λ line. line.now) lines.items ≡ lines_of text.now) }
{
    let ends = text.iter().filter(|byte| **byte == 10).count();
    let mut lines = Vec::with_capacity(alloc, ends.saturating_add(1))?;
    lines.extend(text.split(|byte| *byte == 10))?;
    Ok(lines)
}

fn said_in(alloc: Global, lines: &[&[u8]]) -> Result<Progress, ScriptError>
    ensures gives { SaidGives result (said_in (map (λ line. line.now) lines.now)) }
{
    let mut progress = Progress::new(alloc);
    let mut known = KnownAgents {
        found: false,
        agents: Pairs::new(alloc),
    };
    let mut number = 1;
    for line in lines {
        match take_line(alloc, lines, &mut known, &mut progress, number, line) {
            Ok(()) => {}
            Err(LineError::OutOfMemory) => return Err(ScriptError::OutOfMemory),
            Err(LineError::Refused(reason)) => {
                return Err(ScriptError::BadLine(BadLine {
                    line: number,
                    reason,
                }));
            }
        }
        number += 1;
    }
    Ok(progress)
}

/// The script of these lines, with the number that each has among them, from 1. They have no line feeds.
pub fn read_lines(alloc: Global, lines: &[&[u8]]) -> Result<Numbered, ScriptError>
    ensures gives { ScriptGives result (read_lines_of (map (λ line. line.now) lines.now)) }
    ensures nodes { IfOk result (λ n. n.script.node_names ≡ nodes_of (agents_of n.script.setup.imports n.script.lines)) }
{
    let progress = said_in(alloc, lines)?;
    Ok(progress.into_numbered(alloc)?)
}

/// The script of a text, with the number that each of its lines has there. A text is lines that end in a
/// line feed; the last may lack it.
#[tactic(auto, unfolding(crate::specs::Grammar::read_numbered_of))]
pub fn read_numbered(alloc: Global, text: &[u8]) -> Result<Numbered, ScriptError>
    ensures gives { ScriptGives result (read_numbered_of text.now) }
    ensures nodes { IfOk result (λ n. n.script.node_names ≡ nodes_of (agents_of n.script.setup.imports n.script.lines)) }
{
    let lines = lines_of(alloc, text)?;
    read_lines(alloc, &lines)
}

/// The script of a text.
pub fn read_script(alloc: Global, text: &[u8]) -> Result<Script, ScriptError>
    ensures gives { ScriptGives result (script_of text.now) }
    ensures nodes { IfOk result (λ s. s.node_names ≡ nodes_of (agents_of s.setup.imports s.lines)) }
{
    let numbered = read_numbered(alloc, text)?;
    Ok(numbered.into_script())
}
