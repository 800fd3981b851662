//! What is due for a volume, by its table.

ghost use Rattle.std.specs.Prelude.{◌≡◌};
ghost use Rattle.std.specs.Option.{option_copied};
ghost use Rattle.binder_model.specs.BinderDue.{volume_due};
ghost use Rattle.binder_model.specs.Due.{or_due, reclaim_due, volume_guard_due};
ghost use Rattle.settle_check.specs.Steps.OnStore.{claim_referred, volume_conditions};
ghost use Rattle.settle_check.specs.VolumeDues.{volume_due_rows};

use crate::numbers::due_numbered;
use case_table::CaseTable;
use kube_types::bindings::{is_deleting, is_protected_volume};
use kube_types::names::Due;
use kube_types::objects::{Claim, Ref, Volume};
use kube_types::parts::Kind;
use reclaim_ops::due::is_delete;
use version_store::store::Store;
use volume_match::row_named;
use volume_sync::{claim_with, conditions_on};

/// What is due for the volume: what the binder has to do comes first, and protection last.
pub(crate) fn due_of_volume(
    store: &Store,
    volume: &Volume,
    table: &CaseTable<11, 21>,
) -> Option<Due>
    requires { table.now ≡ volume_due_rows }
    ensures { result ≡ or_due (volume_due store.now.rows volume.now) (or_due (reclaim_due volume.now) (volume_guard_due volume.now)) }
{
    let claim = claim_of(store, &volume.claim_ref);
    let conditions = volume_conditions(volume, claim);
    due_numbered(table.pick(conditions))
}

/// The claim that the reference names with its UID.
fn claim_of<'a>(store: &'a Store, reference: &Option<Ref>) -> Option<&'a Claim>
    ensures { option_copied result ≡ claim_referred store.now.rows reference.now }
{
    match reference {
        None => None,
        Some(reference) => match reference.uid {
            None => None,
            Some(uid) => {
                let row = row_named(
                    store,
                    Kind::PersistentVolumeClaim,
                    reference.namespace.as_str(),
                    reference.name.as_str(),
                );
                claim_with(uid, row)
            }
        },
    }
}

/// The conditions of the table, where the volume's reference names this claim.
fn volume_conditions(volume: &Volume, claim: Option<&Claim>) -> [bool; 11]
    ensures { result ≡ volume_conditions volume.now (option_copied claim.entry) }
{
    let on = conditions_on(volume, true, claim);
    [
        on[0],
        on[1],
        on[2],
        on[3],
        on[5],
        on[6],
        on[7],
        on[8],
        is_delete(volume.policy),
        is_deleting(&volume.meta),
        is_protected_volume(volume),
    ]
}
