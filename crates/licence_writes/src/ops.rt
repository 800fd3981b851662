//! Where the provisioner and reclaimer may write.

ghost use Rattle.call_types.specs.declared.request.NewStatus.TheVariants as statuses;
ghost use Rattle.call_types.specs.declared.request.Request.TheVariants as requests;
ghost use Rattle.call_types.specs.declared.request.SeatKind.TheVariants as seats;
ghost use Rattle.binder_model.specs.Licence.{RowAllows};
ghost use Rattle.licence_record.specs.Judged.{Judges};

use crate::create::may_create;
use crate::reclaim::may_fail;
use crate::unserved::may_clear_node;
use call_types::request::NewStatus;
use kube_types::key::Key;
use kube_types::objects::{Object, Version};
use kube_types::parts::VolumePhase;
use licence_record::record::Record;

fn ops_phase<R: Record>(seat: &R, key: &Key, phase: VolumePhase, given: Option<Version>) -> bool
    ensures { Judges (R.whole seat.now) result (RowAllows seats.Ops (R.told seat.now) (requests.UpdateStatus key.now (statuses.Volume phase) given)) }
{
    match phase {
        VolumePhase::Failed => may_fail(seat, key, given),
        VolumePhase::Pending => false,
        VolumePhase::Available => false,
        VolumePhase::Bound => false,
        VolumePhase::Released => false,
    }
}

/// Whether ops may write the status.
pub fn ops_status<R: Record>(
    seat: &R,
    key: &Key,
    status: &NewStatus,
    given: Option<Version>,
) -> bool
    ensures { Judges (R.whole seat.now) result (RowAllows seats.Ops (R.told seat.now) (requests.UpdateStatus key.now status.now given)) }
{
    match status {
        NewStatus::Volume(phase) => ops_phase(seat, key, *phase, given),
        _ => false,
    }
}

/// Whether ops may create the object.
pub fn ops_create<R: Record>(seat: &R, object: &Object) -> bool
    ensures { Judges (R.whole seat.now) result (RowAllows seats.Ops (R.told seat.now) (requests.Create object.now)) }
{
    match object {
        Object::Volume(new) => may_create(seat, new),
        _ => false,
    }
}

/// Whether ops may write the object.
pub fn ops_update<R: Record>(seat: &R, object: &Object, given: Option<Version>) -> bool
    ensures { Judges (R.whole seat.now) result (RowAllows seats.Ops (R.told seat.now) (requests.Update object.now given)) }
{
    match object {
        Object::Claim(new) => may_clear_node(seat, new, given),
        _ => false,
    }
}
