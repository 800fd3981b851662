//! What each line means, by its member `do`.

ghost use Rattle.std.specs.Prelude.{◌≡◌};
ghost use Rattle.serde_json.specs.View.{view};
ghost use Rattle.script_lines.specs.declared.errors.Reason.TheVariants.{BadValue};
ghost use Rattle.script_lines.specs.Answers.{MemberGives, unless};
ghost use Rattle.script_text.specs.Steps.Results.{import_result, line_result};
ghost use Rattle.script_text.specs.LineReaders.{create_line, condition_of, update_line, edit_line, delete_line, get_line, list_line, time_line, pool_line, fault_line, import_line, lose_line, restart_line, turn_line, verb_from, verb_at, meaning_by};
ghost use Rattle.script_lines.specs.declared.line_member.LineMember.TheVariants as members;
ghost use Rattle.script_lines.specs.Actors.{actor_word};
ghost use Rattle.script_lines.specs.Members.{new_call_at};
ghost use Rattle.script_text.specs.Said.{begins, has_begun, losses_of, restarts_of};
ghost use Rattle.script_lines.specs.Verbs.{verb_named};
ghost use Rattle.script_text.specs.Steps.Indexed.{ProgressStands, said_by};

use crate::progress::Progress;
use crate::script::{Line, Meaning};
use call_types::request::Request;
use call_types::setup::Pool;
use field_rules::check_import;
use kube_types::copies::Plain;
use kube_types::key::meta_of;
use kube_types::objects::{Object, Version};
use kube_types::pairs::Pairs;
use object_text::errors::Member;
use script_lines::actors::Actor;
use script_lines::edits::edit_at;
use script_lines::errors::{LineError, Reason};
use script_lines::imports::import_reason;
use script_lines::line_member::LineMember;
use script_lines::members::{
    actor_at, call_at, condition_at, count_at, key_at, kind_at, object_at, size_at, text_at,
    topology_at, user_at, when_at, word_at,
};
use script_lines::verbs::{Verb, verb_named};
use serde_json::Value;
use std::alloc::Global;

/// How many calls one turn may have.
const MOST_TURN: u64 = 1000;

// ---- users' calls

#[tactic(auto, unfolding(crate::specs::LineReaders::create_line))]
pub(crate) fn create_line(alloc: Global, line: &Value) -> Result<Line, LineError>
    ensures { MemberGives result (create_line (view line.now)) }
{
    let object = object_at(alloc, line)?;
    let user = user_at(line)?;
    Ok(Line::Call {
        user,
        request: Request::Create { object },
    })
}

fn condition_of(object: &Object) -> Option<Version>
    ensures { result ≡ condition_of object.now }
{
    let version = meta_of(object).version;
    if version == 0 { None } else { Some(version) }
}

#[tactic(auto, unfolding(crate::specs::LineReaders::update_line))]
fn update_line(alloc: Global, line: &Value) -> Result<Line, LineError>
    ensures { MemberGives result (update_line (view line.now)) }
{
    let object = object_at(alloc, line)?;
    let user = user_at(line)?;
    let version = condition_of(&object);
    Ok(Line::Call {
        user,
        request: Request::Update { object, version },
    })
}

#[tactic(auto, unfolding(crate::specs::LineReaders::edit_line))]
fn edit_line(alloc: Global, line: &Value) -> Result<Line, LineError>
    ensures { MemberGives result (edit_line (view line.now)) }
{
    let key = key_at(alloc, line)?;
    let edit = edit_at(alloc, line)?;
    let user = user_at(line)?;
    Ok(Line::Call {
        user,
        request: Request::Edit { key, edit },
    })
}

#[tactic(auto, unfolding(crate::specs::LineReaders::delete_line))]
fn delete_line(alloc: Global, line: &Value) -> Result<Line, LineError>
    ensures { MemberGives result (delete_line (view line.now)) }
{
    let key = key_at(alloc, line)?;
    let uid = condition_at(line)?;
    let user = user_at(line)?;
    Ok(Line::Call {
        user,
        request: Request::Delete { key, uid },
    })
}

#[tactic(auto, unfolding(crate::specs::LineReaders::get_line))]
fn get_line(alloc: Global, line: &Value) -> Result<Line, LineError>
    ensures { MemberGives result (get_line (view line.now)) }
{
    let key = key_at(alloc, line)?;
    let user = user_at(line)?;
    Ok(Line::Call {
        user,
        request: Request::Get { key },
    })
}

#[tactic(auto, unfolding(crate::specs::LineReaders::list_line))]
fn list_line(line: &Value) -> Result<Line, LineError>
    ensures { MemberGives result (list_line (view line.now)) }
{
    let kind = kind_at(line)?;
    let user = user_at(line)?;
    Ok(Line::Call {
        user,
        request: Request::List {
            kind,
            namespace: None,
        },
    })
}

#[tactic(auto, unfolding(crate::specs::LineReaders::time_line))]
fn time_line(alloc: Global, line: &Value) -> Result<Line, LineError>
    ensures { MemberGives result (time_line (view line.now)) }
{
    let at = text_at(alloc, line, LineMember::At)?;
    let user = user_at(line)?;
    Ok(Line::Call {
        user,
        request: Request::SetTime { at },
    })
}

// ---- what is there from the start

#[tactic(auto, unfolding(crate::specs::LineReaders::pool_line))]
fn pool_line(alloc: Global, line: &Value) -> Result<Meaning, LineError>
    ensures { MemberGives result (pool_line (view line.now)) }
{
    let name = text_at(alloc, line, LineMember::Of(Member::Name))?;
    let provisioner = text_at(alloc, line, LineMember::Of(Member::Provisioner))?;
    let amount = size_at(alloc, line)?;
    let size = amount.text.copy(alloc)?;
    let topology = topology_at(alloc, line)?;
    Ok(Meaning::Pool {
        size,
        pool: Pool {
            name,
            provisioner,
            bytes: amount.bytes,
            topology,
        },
    })
}

fn new_call(call: u64, given: bool, member: LineMember) -> Result<u64, LineError>
    ensures { MemberGives result (unless given (BadValue member) call) }
{
    if given {
        Err(LineError::Refused(Reason::BadValue(member)))
    } else {
        Ok(call)
    }
}

#[tactic(auto, unfolding(crate::specs::LineReaders::fault_line))]
fn fault_line(progress: &Progress, line: &Value) -> Result<Meaning, LineError>
    requires { ProgressStands progress.now }
    ensures { MemberGives result (fault_line progress.now.faults.items (view line.now)) }
{
    let call = call_at(line, LineMember::Call)?;
    let call = new_call(call, progress.has_fault(call), LineMember::Call)?;
    Ok(Meaning::Fault { call })
}

/// Whether the calls begin with the line: what comes from there on is not there from the start.
fn begins(line: &Line) -> bool
    ensures { result ≡ begins line.now }
{
    match line {
        Line::Call {
            user: _,
            request: _,
        } => true,
        Line::Lose {
            actor: _,
            call: _,
            after: _,
        } => false,
        Line::Restart { actor: _, after: _ } => false,
        Line::Turn { actor: _, calls: _ } => true,
        Line::Drain => true,
    }
}

fn has_begun(lines: &[Line]) -> bool
    ensures { result ≡ has_begun lines.now }
{
    lines.iter().any(begins)
}

/// An object of an older store: before any call, and none that the objects before it refuse.
#[tactic(auto, unfolding(crate::specs::LineReaders::import_line))]
fn import_line(alloc: Global, progress: &Progress, line: &Value) -> Result<Meaning, LineError>
    ensures { MemberGives result (import_line progress.now.lines progress.now.imports (view line.now)) }
{
    let object = object_at(alloc, line)?;
    if has_begun(progress.lines.as_slice()) {
        return Err(LineError::Refused(Reason::BadValue(LineMember::Do)));
    }
    match check_import(progress.imports.as_slice(), &object) {
        Ok(()) => Ok(Meaning::Import(object)),
        Err(fault) => Err(LineError::Refused(import_reason(fault))),
    }
}

// ---- actors

fn new_loss(
    alloc: Global,
    progress: &Progress,
    actor: &Actor,
    line: &Value,
) -> Result<u64, LineError>
    requires { ProgressStands progress.now }
    ensures { MemberGives result (new_call_at members.Call (losses_of (actor_word actor.now) progress.now.lines) (view line.now)) }
{
    let call = call_at(line, LineMember::Call)?;
    let name = actor.name(alloc)?;
    new_call(call, progress.has_loss(&name, call), LineMember::Call)
}

#[tactic(auto, unfolding(crate::specs::LineReaders::lose_line))]
fn lose_line(
    alloc: Global,
    agents: &Pairs,
    progress: &Progress,
    line: &Value,
) -> Result<Line, LineError>
    requires { ProgressStands progress.now }
    ensures { MemberGives result (lose_line agents.now progress.now.lines (view line.now)) }
{
    let actor = actor_at(alloc, agents, line)?;
    let call = new_loss(alloc, progress, &actor, line)?;
    let after = when_at(line)?;
    Ok(Line::Lose { actor, call, after })
}

fn new_restart(
    alloc: Global,
    progress: &Progress,
    actor: &Actor,
    line: &Value,
) -> Result<u64, LineError>
    requires { ProgressStands progress.now }
    ensures { MemberGives result (new_call_at members.After (restarts_of (actor_word actor.now) progress.now.lines) (view line.now)) }
{
    let after = call_at(line, LineMember::After)?;
    let name = actor.name(alloc)?;
    new_call(after, progress.has_restart(&name, after), LineMember::After)
}

#[tactic(auto, unfolding(crate::specs::LineReaders::restart_line))]
fn restart_line(
    alloc: Global,
    agents: &Pairs,
    progress: &Progress,
    line: &Value,
) -> Result<Line, LineError>
    requires { ProgressStands progress.now }
    ensures { MemberGives result (restart_line agents.now progress.now.lines (view line.now)) }
{
    let actor = actor_at(alloc, agents, line)?;
    let after = new_restart(alloc, progress, &actor, line)?;
    Ok(Line::Restart { actor, after })
}

#[tactic(auto, unfolding(crate::specs::LineReaders::turn_line))]
fn turn_line(alloc: Global, agents: &Pairs, line: &Value) -> Result<Line, LineError>
    ensures { MemberGives result (turn_line agents.now (view line.now)) }
{
    let actor = actor_at(alloc, agents, line)?;
    let calls = count_at(line, LineMember::Calls, MOST_TURN)?;
    Ok(Line::Turn { actor, calls })
}

// ---- any line

fn known_verb(word: &str) -> Result<Verb, LineError>
    ensures { MemberGives result (verb_from (verb_named word.now)) }
{
    match verb_named(word) {
        Some(verb) => Ok(verb),
        None => Err(LineError::Refused(Reason::UnknownDo)),
    }
}

/// What a line does.
pub(crate) fn verb_at(line: &Value) -> Result<Verb, LineError>
    ensures { MemberGives result (verb_at (view line.now)) }
{
    let word = word_at(line, LineMember::Do)?;
    known_verb(word)
}

/// An object that was read, as what its line means.
pub(crate) fn as_import(read: Result<Object, LineError>) -> Result<Meaning, LineError>
    ensures { result ≡ import_result read }
{
    match read {
        Ok(object) => Ok(Meaning::Import(object)),
        Err(e) => Err(e),
    }
}

/// A line that was read, as what it means.
pub(crate) fn as_line(read: Result<Line, LineError>) -> Result<Meaning, LineError>
    ensures { result ≡ line_result read }
{
    match read {
        Ok(line) => Ok(Meaning::Line(line)),
        Err(e) => Err(e),
    }
}

/// What a line with this word means, with the agents of the whole text and after what was said before.
#[tactic(auto, using(crate::proofs::LineResults::line_gives))]
pub(crate) fn meaning_by(
    alloc: Global,
    verb: Verb,
    agents: &Pairs,
    progress: &Progress,
    line: &Value,
) -> Result<Meaning, LineError>
    requires { ProgressStands progress.now }
    ensures { MemberGives result (meaning_by verb agents.now (said_by progress.now) (view line.now)) }
{
    match verb {
        Verb::Create => as_line(create_line(alloc, line)),
        Verb::Update => as_line(update_line(alloc, line)),
        Verb::Edit => as_line(edit_line(alloc, line)),
        Verb::Delete => as_line(delete_line(alloc, line)),
        Verb::Get => as_line(get_line(alloc, line)),
        Verb::List => as_line(list_line(line)),
        Verb::Time => as_line(time_line(alloc, line)),
        Verb::Pool => pool_line(alloc, line),
        Verb::Fault => fault_line(progress, line),
        Verb::Import => import_line(alloc, progress, line),
        Verb::Lose => as_line(lose_line(alloc, agents, progress, line)),
        Verb::Restart => as_line(restart_line(alloc, agents, progress, line)),
        Verb::Turn => as_line(turn_line(alloc, agents, line)),
        Verb::Drain => Ok(Meaning::Line(Line::Drain)),
    }
}
