//! The parts of a turn.

use call_types::reply::Reply;
use call_types::request::Request;
use kube_types::parts::Kind;

/// The pass under way, or the last one: how many kinds it has behind it, and whether it had an event.
#[derive(Clone, Copy, Debug, PartialEq, Eq)]
pub struct Pass {
    pub behind: usize,
    pub event: bool,
}

/// The call that was given: that of the task under way, one of the actor's start, or the read of a kind.
#[derive(Clone, Copy, Debug, PartialEq, Eq)]
pub enum Given {
    Task,
    Start,
    Read(Kind),
}

/// What an actor asks next.
pub enum Next {
    Call(Request),
    Idle,
}

impl Drop for Next {
    fn drop(self) {
        match self {
            Next::Call(request) => drop(request),
            Next::Idle => {}
        }
    }
}

/// What came of a call: its answer was told, or it was lost, before its effect or after it.
pub enum Outcome {
    Told(Reply),
    Lost,
}

impl Drop for Outcome {
    fn drop(self) {
        match self {
            Outcome::Told(reply) => drop(reply),
            Outcome::Lost => {}
        }
    }
}
