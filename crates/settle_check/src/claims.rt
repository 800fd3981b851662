//! What is due for a claim, by its table, but for provisioning.

ghost use Rattle.std.specs.Prelude.{◌≡◌, is_none};
ghost use Rattle.std.specs.Option.{option_copied};
ghost use Rattle.binder_model.specs.BinderDue.{claim_due};
ghost use Rattle.binder_model.specs.Due.{claim_guard_due, or_due};
ghost use Rattle.claim_sync.specs.ClaimDecision.{named_volume};
ghost use Rattle.settle_check.specs.ClaimDues.{claim_due_rows};
ghost use Rattle.settle_check.specs.Steps.OnStore.{claim_conditions};

use crate::numbers::due_numbered;
use case_table::CaseTable;
use claim_sync::{as_volume, class_place, conditions_on, has_best};
use kube_types::names::Due;
use kube_types::objects::{Claim, Volume};
use kube_types::parts::Kind;
use protect_sync::due::claim_guard_due;
use version_store::store::Store;
use volume_match::row_named;

/// What protection has to do for the claim, else what the binder has to do.
pub(crate) fn kept_due(store: &Store, claim: &Claim, table: &CaseTable<12, 18>) -> Option<Due>
    requires { table.now ≡ claim_due_rows }
    ensures { result ≡ or_due (claim_guard_due store.now.rows claim.now) (claim_due store.now.rows claim.now) }
{
    let conditions = claim_conditions(store, claim);
    due_numbered(table.pick(conditions))
}

/// The volume that the claim names.
fn named_volume<'a>(store: &'a Store, claim: &Claim) -> Option<&'a Volume>
    ensures { option_copied result ≡ named_volume store.now.rows claim.now }
{
    let row = row_named(
        store,
        Kind::PersistentVolume,
        "",
        claim.volume_name.as_str(),
    );
    as_volume(row)
}

/// Whether protection has nothing to do for the claim.
fn is_guarded(store: &Store, claim: &Claim) -> bool
    ensures { result ≡ is_none (claim_guard_due store.now.rows claim.now) }
{
    claim_guard_due(store, claim).is_none()
}

/// The conditions of the table.
fn claim_conditions(store: &Store, claim: &Claim) -> [bool; 12]
    ensures { result ≡ claim_conditions store.now.rows claim.now }
{
    let guarded = is_guarded(store, claim);
    let matched = has_best(store, claim);
    let assignable = class_place(store, claim).is_some();
    let volume = named_volume(store, claim);
    let on = conditions_on(claim, matched, assignable, true, true, volume);
    [
        guarded, on[0], on[1], on[2], on[3], on[4], on[5], on[6], on[8], on[9], on[10], on[11],
    ]
}
