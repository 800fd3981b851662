//! The table of what is due for a claim, but for provisioning, made from the binder's.

ghost use Rattle.std.specs.Prelude.{◌≡◌};
ghost use Rattle.case_table.specs.Cases.{IsExact};
ghost use Rattle.claim_sync.specs.ClaimLaw.{due_of as claim_step_due};
ghost use Rattle.settle_check.specs.ClaimDues.{claim_binder_row, claim_due_rows, guard_row};

use crate::numbers::due_number;
use case_table::Need::{Any, No, Yes};
use case_table::{CaseRow, CaseTable, Need};
use claim_sync::{ClaimStep, claim_rows};
use kube_types::names::Due;

/// To read the volume is never due.
fn claim_step_due(step: ClaimStep) -> Option<Due>
    ensures { result ≡ claim_step_due step }
{
    match step {
        ClaimStep::Nothing | ClaimStep::ReadVolume => None,
        ClaimStep::Bind => Some(Due::Bind),
        ClaimStep::AssignClass => Some(Due::AssignClass),
        ClaimStep::Lost => Some(Due::Lost),
    }
}

/// The row of claims for which protection has something to do, by whether they are deleting.
fn guard_row(deleting: Need, action: Due) -> CaseRow<12>
    ensures { result ≡ guard_row deleting action }
{
    CaseRow {
        needs: [
            No, Any, deleting, Any, Any, Any, Any, Any, Any, Any, Any, Any,
        ],
        action: due_number(Some(action)),
    }
}

/// A row of the binder's table, but for whether the volume was asked for, where protection has nothing to do.
fn binder_row(row: CaseRow<12>) -> CaseRow<12>
    ensures { result ≡ claim_binder_row row }
{
    let on = row.needs;
    CaseRow {
        needs: [
            Yes, on[0], on[1], on[2], on[3], on[4], on[5], on[6], on[8], on[9], on[10], on[11],
        ],
        action: due_number(claim_step_due(ClaimStep::numbered(row.action))),
    }
}

/// The rows of what is due for a claim: those of protection, then those of the binder's table, but for the one in which the
/// volume is still to be asked for. The conditions, in order: the claim's protection finalizer is as it is to be; those of the
/// binder's table, but for the one that the volume was asked for by itself.
pub fn claim_due_rows() -> [CaseRow<12>; 18]
    ensures rows { result ≡ claim_due_rows }
    ensures exact { IsExact result }
{
    let rows = claim_rows();
    [
        guard_row(No, Due::Guard),
        guard_row(Yes, Due::Unguard),
        binder_row(rows[0]),
        binder_row(rows[1]),
        binder_row(rows[2]),
        binder_row(rows[3]),
        binder_row(rows[4]),
        binder_row(rows[5]),
        binder_row(rows[6]),
        binder_row(rows[7]),
        binder_row(rows[8]),
        binder_row(rows[9]),
        binder_row(rows[11]),
        binder_row(rows[12]),
        binder_row(rows[13]),
        binder_row(rows[14]),
        binder_row(rows[15]),
        binder_row(rows[16]),
    ]
}

/// The table of these rows.
pub fn claim_due_table() -> CaseTable<12, 18>
    ensures { result ≡ claim_due_rows }
{
    CaseTable::exact(claim_due_rows())
}
