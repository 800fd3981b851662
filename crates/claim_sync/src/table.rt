//! The table of the decisions on a claim.

ghost use Rattle.std.specs.Prelude.{◌≡◌};
ghost use Rattle.case_table.specs.Cases.{IsExact};
ghost use Rattle.claim_sync.specs.ClaimTable.{claim_rows, completed_rows, row, unbound_rows};

use crate::action::ClaimStep;
use case_table::Need::{Any, No, Yes};
use case_table::{CaseRow, CaseTable, Need};

fn row(needs: [Need; 12], step: ClaimStep) -> CaseRow<12>
    ensures { result ≡ row needs step }
{
    CaseRow {
        needs,
        action: step.number(),
    }
}

/// The rows of claims that are not completed.
#[tactic(auto, unfolding(crate::specs::ClaimTable::unbound_rows))]
fn unbound_rows() -> [CaseRow<12>; 8]
    ensures { result ≡ unbound_rows }
{
    [
        row(
            [No, Yes, Any, Any, Any, Any, Any, Any, Any, Any, Any, Any],
            ClaimStep::Nothing,
        ),
        row(
            [No, No, No, Yes, Any, Any, Any, Any, Any, Any, Any, Any],
            ClaimStep::Bind,
        ),
        row(
            [No, No, No, No, Yes, Any, Any, Any, Any, Any, Any, Any],
            ClaimStep::AssignClass,
        ),
        row(
            [No, No, No, No, No, Any, Any, Any, Any, Any, Any, Any],
            ClaimStep::Nothing,
        ),
        row(
            [No, No, Yes, Any, Any, Any, No, Any, Any, Any, Any, Any],
            ClaimStep::Nothing,
        ),
        row(
            [No, No, Yes, Any, Any, Any, Yes, Any, Yes, Any, Any, Any],
            ClaimStep::Nothing,
        ),
        row(
            [No, No, Yes, Any, Any, Any, Yes, Any, No, Yes, Any, Any],
            ClaimStep::Bind,
        ),
        row(
            [No, No, Yes, Any, Any, Any, Yes, Any, No, No, Any, Any],
            ClaimStep::Nothing,
        ),
    ]
}

/// The rows of completed claims.
#[tactic(auto, unfolding(crate::specs::ClaimTable::completed_rows))]
fn completed_rows() -> [CaseRow<12>; 9]
    ensures { result ≡ completed_rows }
{
    [
        row(
            [Yes, Any, No, Any, Any, No, Any, Any, Any, Any, Any, Any],
            ClaimStep::Lost,
        ),
        row(
            [Yes, Any, No, Any, Any, Yes, Any, Any, Any, Any, Any, Any],
            ClaimStep::Nothing,
        ),
        row(
            [Yes, Any, Yes, Any, Any, No, No, No, Any, Any, Any, Any],
            ClaimStep::ReadVolume,
        ),
        row(
            [Yes, Any, Yes, Any, Any, No, No, Yes, Any, Any, Any, Any],
            ClaimStep::Lost,
        ),
        row(
            [Yes, Any, Yes, Any, Any, Yes, No, Any, Any, Any, Any, Any],
            ClaimStep::Nothing,
        ),
        row(
            [Yes, Any, Yes, Any, Any, No, Yes, Any, Any, Any, Yes, Any],
            ClaimStep::Lost,
        ),
        row(
            [Yes, Any, Yes, Any, Any, Yes, Yes, Any, Any, Any, Yes, Any],
            ClaimStep::Nothing,
        ),
        row(
            [Yes, Any, Yes, Any, Any, Any, Yes, Any, Any, Any, No, Yes],
            ClaimStep::Bind,
        ),
        row(
            [Yes, Any, Yes, Any, Any, Any, Yes, Any, Any, Any, No, No],
            ClaimStep::Nothing,
        ),
    ]
}

/// The rows: those of claims that are not completed, then those of completed claims. The conditions,
/// in order: the claim is completed; it is deleting; it names a volume; a match exists; a class may be
/// assigned; the phase is Lost; the volume is seen; it was asked for by itself; the volume is deleting,
/// or lacks its protection finalizer, or is Released or Failed; it may be bound by name; its reference
/// has another UID; a write of the binding would change something and may be made.
pub fn claim_rows() -> [CaseRow<12>; 17]
    ensures rows { result ≡ claim_rows }
    ensures exact { IsExact result }
{
    let unbound = unbound_rows();
    let completed = completed_rows();
    [
        unbound[0],
        unbound[1],
        unbound[2],
        unbound[3],
        unbound[4],
        unbound[5],
        unbound[6],
        unbound[7],
        completed[0],
        completed[1],
        completed[2],
        completed[3],
        completed[4],
        completed[5],
        completed[6],
        completed[7],
        completed[8],
    ]
}

/// The table of these rows.
pub fn claim_table() -> CaseTable<12, 17>
    ensures { result ≡ claim_rows }
{
    CaseTable::exact(claim_rows())
}
