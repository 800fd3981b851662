//! The first of some rows that asks for something.

ghost use Rattle.std.specs.Prelude.{◌≡◌, ◌<◌, IfNone, IfOk, IfSome, Option, is_some, length};
ghost use Rattle.snapshot_bind.specs.declared.calls.SnapAsk.{SnapAsk};
ghost use Rattle.snapshot_worker.specs.Workers.{first_ask};
ghost use Rattle.snapshot_worker.specs.Steps.Firsts.{IsFirstAsking, NoneAsks};

use kube_types::copies::OutOfMemory;
use snapshot_bind::calls::SnapAsk;
use std::alloc::Global;

/// What a row asks for.
pub trait Asking<X> {
    ghost asks: { Self → X → Option SnapAsk };

    /// Whether it asks for something. It takes no memory.
    fn has_ask(&self, row: &X) -> bool
        ensures { result ≡ is_some (asks self.now row.now) };

    fn ask(&self, alloc: Global, row: &X) -> Result<Option<SnapAsk>, OutOfMemory>
        ensures { IfOk result (λ ask. ask ≡ asks self.now row.now) };
}

/// The place of the first row that asks for something.
pub fn first_asking<X, T: Asking<X>>(rule: &T, rows: &[X]) -> Option<usize>
    ensures bound { IfSome result (λ at. at < length rows.now) }
    ensures first { IfSome result (IsFirstAsking (T.asks rule.now) rows.now) }
    ensures none { IfNone result (NoneAsks (T.asks rule.now) rows.now) }
{
    for (at, row) in rows.iter().enumerate() {
        if rule.has_ask(row) {
            return Some(at);
        }
    }
    None
}

/// What the first row that asks asks for.
pub fn first_ask<X, T: Asking<X>>(
    alloc: Global,
    rule: &T,
    rows: &[X],
) -> Result<Option<SnapAsk>, OutOfMemory>
    ensures { IfOk result (λ ask. ask ≡ first_ask (T.asks rule.now) rows.now) }
{
    match first_asking(rule, rows) {
        Some(at) => rule.ask(alloc, &rows[at]),
        None => Ok(None),
    }
}
