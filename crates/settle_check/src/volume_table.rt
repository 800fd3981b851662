//! The table of what is due for a volume, made from the binder's.

ghost use Rattle.std.specs.Prelude.{◌≡◌};
ghost use Rattle.case_table.specs.Cases.{IsExact};
ghost use Rattle.volume_sync.specs.VolumeLaw.{due_of_action as volume_action_due};
ghost use Rattle.settle_check.specs.VolumeDues.{volume_binder_row, ended_rows, idle_rows, row_with, settled_rows, volume_due_rows, with_settled};

use crate::numbers::due_number;
use case_table::Need::{Any, No, Yes};
use case_table::{CaseRow, CaseTable, Need};
use kube_types::names::Due;
use volume_sync::{VolumeAction, volume_rows};

/// To read or to queue the claim is never due.
fn volume_action_due(action: VolumeAction) -> Option<Due>
    ensures { result ≡ volume_action_due action }
{
    match action {
        VolumeAction::Nothing | VolumeAction::ReadClaim | VolumeAction::QueueClaim => None,
        VolumeAction::Available => Some(Due::Available),
        VolumeAction::Bound => Some(Due::Bound),
        VolumeAction::Release => Some(Due::Release),
        VolumeAction::Unbind => Some(Due::Unbind),
    }
}

/// The row, but for whether the claim was asked for, and with what it needs of the policy, of deletion and of the finalizer.
fn row_with(row: CaseRow<9>, more: [Need; 3], action: Option<Due>) -> CaseRow<11>
    ensures { result ≡ row_with row more action }
{
    let on = row.needs;
    CaseRow {
        needs: [
            on[0], on[1], on[2], on[3], on[5], on[6], on[7], on[8], more[0], more[1], more[2],
        ],
        action: due_number(action),
    }
}

/// A row in which the binder has something to do.
fn binder_row(row: CaseRow<9>) -> CaseRow<11>
    ensures { result ≡ volume_binder_row row }
{
    row_with(
        row,
        [Any, Any, Any],
        volume_action_due(VolumeAction::numbered(row.action)),
    )
}

/// Of the row's volumes those that are Bound or lack their finalizer, or the others.
fn with_settled(row: CaseRow<9>, settled: Need) -> CaseRow<9>
    ensures { result ≡ with_settled row settled }
{
    let mut needs = row.needs;
    needs[7] = settled;
    CaseRow {
        needs,
        action: row.action,
    }
}

/// A row in which the binder has nothing to do, and that is reclaimed in no case.
#[tactic(auto, unfolding(crate::specs::VolumeDues::idle_rows))]
fn idle_rows(row: CaseRow<9>) -> [CaseRow<11>; 4]
    ensures { result ≡ idle_rows row }
{
    [
        row_with(row, [Any, No, No], Some(Due::Guard)),
        row_with(row, [Any, No, Yes], None),
        row_with(with_settled(row, No), [Any, Yes, Any], Some(Due::Unguard)),
        row_with(with_settled(row, Yes), [Any, Yes, Any], None),
    ]
}

/// The row of volumes that are Released or Failed, with the UID of a claim.
#[tactic(auto, unfolding(crate::specs::VolumeDues::ended_rows))]
fn ended_rows(row: CaseRow<9>) -> [CaseRow<11>; 5]
    ensures { result ≡ ended_rows row }
{
    [
        row_with(row, [Yes, No, Any], Some(Due::Reclaim)),
        row_with(row, [No, No, No], Some(Due::Guard)),
        row_with(row, [No, No, Yes], None),
        row_with(with_settled(row, No), [Any, Yes, Any], Some(Due::Unguard)),
        row_with(with_settled(row, Yes), [Any, Yes, Any], None),
    ]
}

/// The row of volumes that are Bound or lack their finalizer.
#[tactic(auto, unfolding(crate::specs::VolumeDues::settled_rows))]
fn settled_rows(row: CaseRow<9>) -> [CaseRow<11>; 3]
    ensures { result ≡ settled_rows row }
{
    [
        row_with(row, [Any, No, No], Some(Due::Guard)),
        row_with(row, [Any, No, Yes], None),
        row_with(row, [Any, Yes, Any], None),
    ]
}

/// The rows of what is due for a volume: those of the binder's table in which it has something to do, then those of reclaiming
/// and of protection. The conditions, in order: those of the binder's table, but for the one that the claim was asked for
/// by itself; the policy is Delete; the volume is deleting; it has its protection finalizer.
pub fn volume_due_rows() -> [CaseRow<11>; 21]
    ensures rows { result ≡ volume_due_rows }
    ensures exact { IsExact result }
{
    let rows = volume_rows();
    let free = idle_rows(rows[0]);
    let ended = ended_rows(rows[4]);
    let awaited = idle_rows(rows[5]);
    let settled = settled_rows(rows[6]);
    [
        binder_row(rows[1]),
        binder_row(rows[3]),
        binder_row(rows[7]),
        binder_row(rows[8]),
        binder_row(rows[9]),
        free[0],
        free[1],
        free[2],
        free[3],
        ended[0],
        ended[1],
        ended[2],
        ended[3],
        ended[4],
        awaited[0],
        awaited[1],
        awaited[2],
        awaited[3],
        settled[0],
        settled[1],
        settled[2],
    ]
}

/// The table of these rows.
pub fn volume_due_table() -> CaseTable<11, 21>
    ensures { result ≡ volume_due_rows }
{
    CaseTable::exact(volume_due_rows())
}
