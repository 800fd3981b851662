//! Workers: whoever has seats of a shared world and makes their calls.

ghost use Rattle.std.specs.Prelude.{ℕ, All, IfOk, List};
ghost use Rattle.call_types.specs.declared.entry.Entry.{Entry};
ghost use Rattle.shared_world.specs.Passes.{IsOf};
ghost use Rattle.shared_work.specs.Seats.{AreKept, AreNew, HasLeft, seats_of};

use kube_types::copies::OutOfMemory;
use shared_world::shared::{SharedWorld, WorldPass};
use std::sync::Wait;

/// Makes the calls of its seats, with a pass for each. A seat is its number and its entries, the newest first.
pub trait Worker {
    /// What it needs of its seats before it works.
    ghost needs: { Self → List (ℕ × List Entry) → Type 0 };

    /// What it makes of its seats, from those before to those after.
    ghost does: { Self → List (ℕ × List Entry) → List (ℕ × List Entry) → Type 0 };

    /// What holds of each history that has all that its passes know after its work.
    ghost leaves: { Self → List Entry → Type 0 };

    /// Works with new passes of a world of which so many were made, and hands them back.
    fn work<R: Wait>(
        self,
        rt: &R,
        shared: &SharedWorld,
        made: u64,
        passes: Vec<WorldPass>,
    ) -> Result<Vec<WorldPass>, OutOfMemory>
        requires new { AreNew shared.now made passes.items }
        requires needs { needs self (seats_of passes.items) }
        ensures of { IfOk result (λ after. All (IsOf shared.now) after.items) }
        ensures kept { IfOk result (λ after. AreKept passes.items after.items) }
        ensures does { IfOk result (λ after. does self (seats_of passes.items) (seats_of after.items)) }
        ensures leaves { IfOk result (λ after. HasLeft (leaves self) after.items) };
}

/// A worker of one of two kinds.
#[derive(Drop)]
pub enum OneOf<A, B> {
    First(A),
    Second(B),
}

impl<A: Worker, B: Worker> Worker for OneOf<A, B> {
    ghost use Rattle.shared_work.specs.Kinds.{does_of, leaves_of, needs_of};

    ghost needs = { λ worker before. needs_of A.needs B.needs worker before };

    ghost does = { λ worker before after. does_of A.does B.does worker before after };

    ghost leaves = { λ worker past. leaves_of A.leaves B.leaves worker past };

    fn work<R: Wait>(
        self,
        rt: &R,
        shared: &SharedWorld,
        made: u64,
        passes: Vec<WorldPass>,
    ) -> Result<Vec<WorldPass>, OutOfMemory> {
        match self {
            OneOf::First(worker) => worker.work(rt, shared, made, passes),
            OneOf::Second(worker) => worker.work(rt, shared, made, passes),
        }
    }
}
