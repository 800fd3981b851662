//! What an actor asks, as a request of its seat.

ghost use Rattle.actor_rounds.specs.Answers.Asked.{IsAskOf};

use call_types::ask::Ask;
use call_types::request::{Request, SeatKind};
use kube_types::parts::Kind;
use std::mem;
use worker_core::turn::Next;

/// The call that an actor gave, with the kind of its seat. Nothing is copied.
pub fn ask_of(next: Next, kind: SeatKind) -> Option<Ask>
    ensures { IsAskOf kind next result }
{
    let mut next = next;
    match &mut next {
        Next::Call(request) => {
            let left = Request::List {
                kind: Kind::Node,
                namespace: None,
            };
            Some(Ask {
                kind,
                request: mem::replace(request, left),
            })
        }
        Next::Idle => None,
    }
}
