//! The table of the decisions on a volume.

ghost use Rattle.std.specs.Prelude.{◌≡◌};
ghost use Rattle.case_table.specs.Cases.{IsExact};
ghost use Rattle.volume_sync.specs.VolumeTable.{free_rows, referred_rows, row, volume_rows};

use crate::action::VolumeAction;
use case_table::Need::{Any, No, Yes};
use case_table::{CaseRow, CaseTable, Need};

fn row(needs: [Need; 9], action: VolumeAction) -> CaseRow<9>
    ensures { result ≡ row needs action }
{
    CaseRow {
        needs,
        action: action.number(),
    }
}

/// The rows of volumes without the UID of a claim.
#[tactic(auto, unfolding(crate::specs::VolumeTable::free_rows))]
fn free_rows() -> [CaseRow<9>; 2]
    ensures { result ≡ free_rows }
{
    [
        row(
            [No, Yes, Any, Any, Any, Any, Any, Any, Any],
            VolumeAction::Nothing,
        ),
        row(
            [No, No, Any, Any, Any, Any, Any, Any, Any],
            VolumeAction::Available,
        ),
    ]
}

/// The rows of volumes with the UID of a claim.
#[tactic(auto, unfolding(crate::specs::VolumeTable::referred_rows))]
fn referred_rows() -> [CaseRow<9>; 8]
    ensures { result ≡ referred_rows }
{
    [
        row(
            [Yes, Any, No, No, No, Any, Any, Any, Any],
            VolumeAction::ReadClaim,
        ),
        row(
            [Yes, Any, No, No, Yes, Any, Any, Any, Any],
            VolumeAction::Release,
        ),
        row(
            [Yes, Any, Yes, Any, Any, Any, Any, Any, Any],
            VolumeAction::Nothing,
        ),
        row(
            [Yes, Any, No, Yes, Any, Yes, Any, Any, Any],
            VolumeAction::QueueClaim,
        ),
        row(
            [Yes, Any, No, Yes, Any, No, Yes, Yes, Any],
            VolumeAction::Nothing,
        ),
        row(
            [Yes, Any, No, Yes, Any, No, Yes, No, Any],
            VolumeAction::Bound,
        ),
        row(
            [Yes, Any, No, Yes, Any, No, No, Any, Yes],
            VolumeAction::Release,
        ),
        row(
            [Yes, Any, No, Yes, Any, No, No, Any, No],
            VolumeAction::Unbind,
        ),
    ]
}

/// The rows: those of volumes without the UID of a claim, then those of volumes with one. The
/// conditions, in order: the reference has a UID; the phase is Available; the phase is Released or
/// Failed; a claim of that UID is seen; it was asked for by itself; it names no volume; it names this
/// one; this one is Bound, or lacks its protection finalizer; this one was provisioned, and has policy
/// Delete.
pub fn volume_rows() -> [CaseRow<9>; 10]
    ensures rows { result ≡ volume_rows }
    ensures exact { IsExact result }
{
    let free = free_rows();
    let referred = referred_rows();
    [
        free[0],
        free[1],
        referred[0],
        referred[1],
        referred[2],
        referred[3],
        referred[4],
        referred[5],
        referred[6],
        referred[7],
    ]
}

/// The table of these rows.
pub fn volume_table() -> CaseTable<9, 10>
    ensures { result ≡ volume_rows }
{
    CaseTable::exact(volume_rows())
}
