//! Passes over the kinds that an actor follows.

ghost use Rattle.std.specs.Prelude.{◌≡◌, ◌<◌, List, length, slice_get, true};
ghost use Rattle.call_types.specs.declared.reply.Event.{Event};
ghost use Rattle.worker_core.specs.Absorbs.{is_passing, pass_after, watched};
ghost use Rattle.worker_core.specs.States.{read_of_kind};
ghost use Rattle.worker_core.specs.Turns.{first_unlisted, is_listed};

use crate::turn::Pass;
use call_types::reply::Reply;
use call_types::request::Request;
use informer_cache::cache::NextRead;
use informer_cache::caches::Caches;
use kube_types::key::same_kind;
use kube_types::parts::Kind;

fn is_listed(caches: &Caches, kind: Kind) -> bool
    ensures { result ≡ is_listed caches.now kind }
{
    match caches.ask(kind) {
        NextRead::List => false,
        NextRead::Watch { from: _ } => true,
    }
}

/// The first of the kinds that is not listed.
pub(crate) fn first_unlisted(caches: &Caches, kinds: &[Kind]) -> Option<Kind>
    ensures { result ≡ first_unlisted caches.now kinds.now }
{
    for kind in kinds {
        if !is_listed(caches, *kind) {
            return Some(*kind);
        }
    }
    None
}

/// The list of a kind, or the watch of it, as its cache asks it.
pub(crate) fn read_of_kind(caches: &Caches, kind: Kind) -> Request
    ensures { result ≡ read_of_kind caches.now kind }
{
    match caches.ask(kind) {
        NextRead::List => Request::List {
            kind,
            namespace: None,
        },
        NextRead::Watch { from } => Request::Watch { kind, from },
    }
}

/// Whether a pass at this place of the kinds watches this kind next.
pub(crate) fn is_passing(kinds: &[Kind], place: usize, kind: Kind) -> bool
    ensures passing { result ≡ is_passing (slice_get kinds.now place) kind }
    ensures within { result ≡ true → place < length kinds.now }
{
    if place >= kinds.len() {
        return false;
    }
    match kinds.get(place) {
        None => false,
        Some(next) => same_kind(*next, kind),
    }
}

/// The pass after an answer.
pub(crate) fn pass_after(pass: Pass, passes: bool, request: &Request, reply: &Reply) -> Pass
    requires { passes ≡ true → pass.behind < 5 }
    ensures { result ≡ pass_after pass passes request.now reply.now }
{
    match (request, reply) {
        (Request::Watch { kind: _, from: _ }, Reply::Events(events)) => {
            watched(pass, passes, events.events.as_slice().len())
        }
        (Request::Watch { kind: _, from: _ }, _) => Pass {
            behind: pass.behind,
            event: true,
        },
        _ => pass,
    }
}

fn watched(pass: Pass, passes: bool, count: usize) -> Pass
    requires { passes ≡ true → pass.behind < 5 }
    ensures { (es : List Event) → length es ≡ count → result ≡ watched pass passes es }
{
    let behind = if passes && count != 64 {
        pass.behind + 1
    } else {
        pass.behind
    };
    Pass {
        behind,
        event: pass.event || count != 0,
    }
}
