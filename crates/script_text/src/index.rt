//! What is counted and looked up of the lines so far.

ghost use Rattle.std.specs.Prelude.{◌≡◌, [], ◌∷◌, ◌++◌, true, false, Some, OnOk, option_map};
ghost use Rattle.script_text.specs.declared.script.Line.TheVariants.{Lose, Restart, Turn};
ghost use Rattle.script_lines.specs.Actors.{with_node};
ghost use Rattle.script_text.specs.Said.{node_name, imported_node, and_node, created, has_begun};
ghost use Rattle.script_text.specs.Grammar.{create_limit, line_limit, object_limit};
ghost use Rattle.script_text.specs.Steps.Indexed.{IsIndex, Notes};

use crate::numbers::Numbers;
use crate::script::Line;
use call_types::request::Request;
use kube_types::bindings::is_empty;
use kube_types::copies::OutOfMemory;
use kube_types::objects::Object;
use kube_types::pairs::Pairs;
use kube_types::text::Text;
use script_lines::actors::{Actor, agent_name};
use script_lines::errors::{LineError, Reason};
use std::alloc::Global;

const MOST_OBJECTS: u64 = 1024;

const MOST_NODES: usize = 8;

const MOST_RESTARTS: usize = 3;

const MOST_LOSSES: usize = 64;

const MOST_CALLS: u64 = 28000;

/// The agents of the nodes that lines create or import, the numbers of calls that lines lose or after which
/// they begin a new life, by the names of the actors, how many objects lines create or import, and how many
/// calls turns have.
pub struct Index {
    pub agents: Pairs,
    pub losses: Numbers,
    pub restarts: Numbers,
    pub objects: u64,
    pub calls: u64,
}

impl Drop for Index {
    fn drop(self) {
        let Index {
            agents,
            losses,
            restarts,
            objects: _,
            calls: _,
        } = self;
        drop(agents);
        drop(losses);
        drop(restarts);
    }
}

/// The index of no objects and no lines.
pub(crate) fn no_index(alloc: Global) -> Index
    ensures { IsIndex result [] [] }
{
    Index {
        agents: Pairs::new(alloc),
        losses: Numbers::new(alloc),
        restarts: Numbers::new(alloc),
        objects: 0,
        calls: 0,
    }
}

/// Puts the agent of the node among the agents.
pub(crate) fn put_node(alloc: Global, agents: &mut Pairs, node: &Text) -> Result<(), OutOfMemory>
    ensures ok { OnOk result (agents.new ≡ with_node node.now agents.old) }
{
    let name = agent_name(alloc, node)?;
    agents.set(&name, node)
}

/// The name of the node that the object is.
pub(crate) fn node_name(object: &Object) -> Option<&Text>
    ensures { option_map (λ n. n.now) result ≡ node_name object.now }
{
    match object {
        Object::Node(node) => Some(&node.meta.name),
        _ => None,
    }
}

/// The name of the node that an imported object is, or on which it is scheduled.
pub(crate) fn imported_node(object: &Object) -> Option<&Text>
    ensures { option_map (λ n. n.now) result ≡ imported_node object.now }
{
    match object {
        Object::Node(node) => Some(&node.meta.name),
        Object::Pod(pod) => {
            if is_empty(&pod.node) {
                None
            } else {
                Some(&pod.node)
            }
        }
        _ => None,
    }
}

fn note_node(alloc: Global, agents: &mut Pairs, node: Option<&Text>) -> Result<(), OutOfMemory>
    ensures ok { OnOk result (agents.new ≡ and_node agents.old (option_map (λ n. n.now) node.entry)) }
{
    match node {
        Some(node) => put_node(alloc, agents, node),
        None => Ok(()),
    }
}

/// Puts an imported object that comes after these into the index, unless it passes a limit. No call came
/// before it.
pub(crate) fn note_import(
    alloc: Global,
    index: &mut Index,
    _imports: &[Object],
    _lines: &[Line],
    object: &Object,
) -> Result<(), LineError>
    requires index { IsIndex index.old _imports.now _lines.now }
    requires early { has_begun _lines.now ≡ false }
    ensures { Notes result index.new (_imports.now ++ object.now ∷ []) _lines.now (object_limit (_imports.now ++ object.now ∷ []) _lines.now) }
{
    if index.objects >= MOST_OBJECTS {
        return Err(LineError::Refused(Reason::TooManyObjects));
    }
    index.objects += 1;
    note_node(alloc, &mut index.agents, imported_node(object))?;
    if index.agents.as_slice().len() > MOST_NODES {
        return Err(LineError::Refused(Reason::TooManyNodes));
    }
    Ok(())
}

fn note_create(
    alloc: Global,
    index: &mut Index,
    _imports: &[Object],
    _before: &[Line],
    line: &Line,
    object: &Object,
) -> Result<(), LineError>
    requires index { IsIndex index.old _imports.now _before.now }
    requires created { created line.now ≡ Some object.now }
    ensures { Notes result index.new _imports.now (_before.now ++ line.now ∷ []) (create_limit _imports.now (_before.now ++ line.now ∷ []) true) }
{
    if index.objects >= MOST_OBJECTS {
        return Err(LineError::Refused(Reason::TooManyObjects));
    }
    index.objects += 1;
    note_node(alloc, &mut index.agents, node_name(object))?;
    if index.agents.as_slice().len() > MOST_NODES {
        return Err(LineError::Refused(Reason::TooManyNodes));
    }
    Ok(())
}

fn created(line: &Line) -> Option<&Object>
    ensures { option_map (λ o. o.now) result ≡ created line.now }
{
    match line {
        Line::Call {
            user: _,
            request: Request::Create { object },
        } => Some(object),
        _ => None,
    }
}

fn note_lose(
    alloc: Global,
    index: &mut Index,
    _imports: &[Object],
    _before: &[Line],
    actor: &Actor,
    call: u64,
    after: bool,
) -> Result<(), LineError>
    requires { IsIndex index.old _imports.now _before.now }
    ensures { Notes result index.new _imports.now (_before.now ++ Lose actor.now call after ∷ []) (line_limit _imports.now (_before.now ++ Lose actor.now call after ∷ []) (Lose actor.now call after)) }
{
    let name = actor.name(alloc)?;
    index.losses.add(&name, call)?;
    if index.losses.count(name.as_str()) > MOST_LOSSES {
        return Err(LineError::Refused(Reason::TooManyLosses));
    }
    Ok(())
}

fn note_restart(
    alloc: Global,
    index: &mut Index,
    _imports: &[Object],
    _before: &[Line],
    actor: &Actor,
    after: u64,
) -> Result<(), LineError>
    requires { IsIndex index.old _imports.now _before.now }
    ensures { Notes result index.new _imports.now (_before.now ++ Restart actor.now after ∷ []) (line_limit _imports.now (_before.now ++ Restart actor.now after ∷ []) (Restart actor.now after)) }
{
    let name = actor.name(alloc)?;
    index.restarts.add(&name, after)?;
    if index.restarts.count(name.as_str()) > MOST_RESTARTS {
        return Err(LineError::Refused(Reason::TooManyRestarts));
    }
    Ok(())
}

fn note_turn(
    index: &mut Index,
    _imports: &[Object],
    _before: &[Line],
    actor: &Actor,
    calls: u64,
) -> Result<(), LineError>
    requires { IsIndex index.old _imports.now _before.now }
    ensures { Notes result index.new _imports.now (_before.now ++ Turn actor.now calls ∷ []) (line_limit _imports.now (_before.now ++ Turn actor.now calls ∷ []) (Turn actor.now calls)) }
{
    match index.calls.checked_add(calls) {
        Some(all) => {
            if all > MOST_CALLS {
                return Err(LineError::Refused(Reason::TooManyTurns));
            }
            index.calls = all;
            Ok(())
        }
        None => Err(LineError::Refused(Reason::TooManyTurns)),
    }
}

/// Puts a line that comes after these into the index, unless it passes a limit.
pub(crate) fn note_line(
    alloc: Global,
    index: &mut Index,
    imports: &[Object],
    before: &[Line],
    line: &Line,
) -> Result<(), LineError>
    requires { IsIndex index.old imports.now before.now }
    ensures { Notes result index.new imports.now (before.now ++ line.now ∷ []) (line_limit imports.now (before.now ++ line.now ∷ []) line.now) }
{
    match line {
        Line::Call {
            user: _,
            request: _,
        } => match created(line) {
            Some(object) => note_create(alloc, index, imports, before, line, object),
            None => Ok(()),
        },
        Line::Lose { actor, call, after } => {
            note_lose(alloc, index, imports, before, actor, *call, *after)
        }
        Line::Restart { actor, after } => note_restart(
            alloc, index, imports, before, actor, *after,
        ),
        Line::Turn { actor, calls } => note_turn(index, imports, before, actor, *calls),
        Line::Drain => Ok(()),
    }
}
