//! Which row judges a controller's request, and whether it allows it.

ghost use Rattle.call_types.specs.declared.request.SeatKind.TheVariants as seats;
ghost use Rattle.binder_model.specs.Licence.{RowAllows};
ghost use Rattle.licence_record.specs.Judged.{Judges};

use crate::reading::may_read;
use call_types::request::{Request, SeatKind};
use licence_record::record::Record;
use licence_writes::binder::{binder_status, binder_update};
use licence_writes::guards::{claim_protect_update, volume_protect_update};
use licence_writes::ops::{ops_create, ops_status, ops_update};
use licence_writes::provision::may_provision;
use licence_writes::reclaim::{may_delete, may_erase};
use licence_writes::scheduler::{may_assign, scheduler_update};

fn binder_may<R: Record>(seat: &R, request: &Request) -> bool
    ensures { Judges (R.whole seat.now) result (RowAllows seats.Binder (R.told seat.now) request.now) }
{
    match request {
        Request::Update { object, version } => binder_update(seat, object, *version),
        Request::UpdateStatus {
            key,
            status,
            version,
        } => binder_status(seat, key, status, *version),
        _ => may_read(seat, SeatKind::Binder, request),
    }
}

fn ops_may<R: Record>(seat: &R, request: &Request) -> bool
    ensures { Judges (R.whole seat.now) result (RowAllows seats.Ops (R.told seat.now) request.now) }
{
    match request {
        Request::Provision {
            name,
            provisioner,
            bytes,
            labels,
        } => may_provision(seat, name, provisioner, *bytes, labels),
        Request::Create { object } => ops_create(seat, object),
        Request::Erase { id } => may_erase(seat, id),
        Request::UpdateStatus {
            key,
            status,
            version,
        } => ops_status(seat, key, status, *version),
        Request::Delete { key, uid } => may_delete(seat, key, *uid),
        Request::Update { object, version } => ops_update(seat, object, *version),
        _ => may_read(seat, SeatKind::Ops, request),
    }
}

fn scheduler_may<R: Record>(seat: &R, request: &Request) -> bool
    ensures { Judges (R.whole seat.now) result (RowAllows seats.Scheduler (R.told seat.now) request.now) }
{
    match request {
        Request::Update { object, version } => scheduler_update(seat, object, *version),
        Request::BindPod { key, uid, node } => may_assign(seat, key, *uid, node),
        _ => may_read(seat, SeatKind::Scheduler, request),
    }
}

fn volume_protect_may<R: Record>(seat: &R, request: &Request) -> bool
    ensures { Judges (R.whole seat.now) result (RowAllows seats.VolumeProtect (R.told seat.now) request.now) }
{
    match request {
        Request::Update { object, version } => volume_protect_update(seat, object, *version),
        _ => may_read(seat, SeatKind::VolumeProtect, request),
    }
}

fn claim_protect_may<R: Record>(seat: &R, request: &Request) -> bool
    ensures { Judges (R.whole seat.now) result (RowAllows seats.ClaimProtect (R.told seat.now) request.now) }
{
    match request {
        Request::Update { object, version } => claim_protect_update(seat, object, *version),
        _ => may_read(seat, SeatKind::ClaimProtect, request),
    }
}

fn agent_may<R: Record>(seat: &R, request: &Request) -> bool
    ensures { Judges (R.whole seat.now) result (RowAllows seats.Agent (R.told seat.now) request.now) }
{
    match request {
        Request::TakeNode { node: _ } => true,
        Request::Mounts { node, epoch } => seat.is_current(node, *epoch),
        Request::Mount {
            node,
            epoch,
            pod,
            claims,
        } => seat.may_mount(node, *epoch, *pod, claims.as_slice()),
        Request::Unmount { node, epoch, pod } => seat.may_unmount(node, *epoch, *pod),
        Request::FinishPod {
            key,
            uid,
            node,
            epoch,
        } => seat.may_finish(key, *uid, node, *epoch),
        _ => may_read(seat, SeatKind::Agent, request),
    }
}

/// Whether the row of the request allows it.
pub(crate) fn row_allows<R: Record>(kind: SeatKind, seat: &R, request: &Request) -> bool
    ensures { Judges (R.whole seat.now) result (RowAllows kind (R.told seat.now) request.now) }
{
    match kind {
        SeatKind::User => true,
        SeatKind::Binder => binder_may(seat, request),
        SeatKind::Ops => ops_may(seat, request),
        SeatKind::Scheduler => scheduler_may(seat, request),
        SeatKind::ClaimProtect => claim_protect_may(seat, request),
        SeatKind::VolumeProtect => volume_protect_may(seat, request),
        SeatKind::Agent => agent_may(seat, request),
    }
}
