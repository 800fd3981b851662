//! A seat's own entries, and imports that pass.

ghost use Rattle.std.specs.Prelude.{◌≡◌, IfOk, IsTrue, reverse};
ghost use Rattle.binder_model.specs.Imports.{ImportsPass};
ghost use Rattle.binder_model.specs.Told.{own};

use call_types::entry::Entry;
use field_rules::check_import;
use kube_types::objects::Object;
use plain_data::copies::{OutOfMemory, Plain};
use std::alloc::Global;

/// The entries of the seat, the oldest first.
#[tactic(auto, using(model_laws::proofs::Evidence::newest_first, crate::proofs::Seats::pushed))]
pub fn own(alloc: Global, entries: &[Entry], seat: u64) -> Result<Vec<Entry>, OutOfMemory>
    ensures { IfOk result (λ mine. reverse mine.items ≡ own seat (reverse entries.now)) }
{
    let mut mine = Vec::new(alloc);
    for entry in entries {
        if entry.seat == seat {
            mine.push(entry.copy(alloc)?)?;
        }
    }
    Ok(mine)
}

/// Whether each import passes after those before it.
pub fn pass(imports: &[Object]) -> bool
    ensures { IsTrue result → ImportsPass imports.now }
{
    let mut place = 0;
    while place < imports.len() {
        let (before, _) = imports.split_at(place);
        if check_import(before, &imports[place]).is_err() {
            return false;
        }
        place += 1;
    }
    true
}
