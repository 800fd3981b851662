//! Lines of judgements by what a seat was told: each is an entry that is noted, or a request that is judged, and `noted`
//! is written, or `allowed`, or the rule that refuses.
//! `new KIND` begins a seat that was told nothing; a binder's, where there is no kind.
//!
//! `-` stands for what is absent. Claims and pods are of the namespace `default`, and the volumes of a
//! binder have the protection finalizer.

mod agents;
mod binder;
mod ops;
mod scheduler;
mod seat;
mod words;

use crate::evidence::seat::Answer;
pub use crate::evidence::seat::Seat;
use crate::evidence::words::{Words, word};
use call_types::request::SeatKind;
use std::alloc::Global;

fn seat_kind(word: &str) -> SeatKind {
    match word {
        "agent" => SeatKind::Agent,
        "ops" => SeatKind::Ops,
        "scheduler" => SeatKind::Scheduler,
        _ => SeatKind::Binder,
    }
}

/// What is written for a line.
pub fn answer(alloc: Global, seat: &mut Seat, line: &str) -> Answer {
    let mut words = Words { rest: line };
    let verb = word(&mut words);
    if verb == "new" {
        *seat = Seat::new(alloc, seat_kind(word(&mut words)));
        return Ok("new");
    }
    match seat.kind {
        SeatKind::Agent => agents::answer(seat, verb, &mut words),
        SeatKind::Ops => ops::answer(seat, verb, &mut words),
        SeatKind::Scheduler => scheduler::answer(seat, verb, &mut words),
        _ => binder::answer(seat, verb, &mut words),
    }
}
