//! Where the binder may write.

ghost use Rattle.kube_objects.specs.declared.objects.Object.TheVariants as objects;
ghost use Rattle.call_types.specs.declared.request.NewStatus.TheVariants as statuses;
ghost use Rattle.call_types.specs.declared.request.Request.TheVariants as requests;
ghost use Rattle.call_types.specs.declared.request.SeatKind.TheVariants as seats;
ghost use Rattle.binder_model.specs.BinderLicence.{MayBind, MayComplete, MayFree, MayLose, MayRelease, MayShow, MayTake, MayUnbind};
ghost use Rattle.binder_model.specs.Licence.{AtClaim, AtClaimKey, AtVolume, AtVolumeKey, RowAllows};
ghost use Rattle.licence_record.specs.Judged.{Judges};

use crate::assign::may_assign_class;
use crate::pages::{Claimed, called, carried, named, referred};
use crate::status::{claim_status, volume_status};
use call_types::request::NewStatus;
use evidence_pages::sought::Sought;
use kube_types::bindings::is_completed;
use kube_types::key::Key;
use kube_types::objects::{Amount, Claim, Object, Ref, Version, Volume};
use kube_types::parts::{ClaimPhase, Kind, Modes, VolumePhase};
use licence_record::record::Record;
use licence_rows::binder::{Bind, Complete, Free, Lose, Release, Show, Take, Unbind};
use licence_rows::parts::ref_uid;
use licence_scans::rows::{told_claim_at, told_volume_at};

// what is sought on the page of the other object

/// The claim to which the volume shall refer.
fn sought_of(reference: &Option<Ref>) -> Sought {
    match ref_uid(reference) {
        None => Sought::All,
        Some(uid) => Sought::Claim(uid),
    }
}

/// A volume that is Bound for the claim.
fn sought_bound(claim: &Claim) -> Sought {
    match claim.meta.uid {
        None => Sought::All,
        Some(uid) => Sought::Bound(uid),
    }
}

fn bytes_of(amount: &Option<Amount>) -> Option<u64> {
    match amount {
        None => None,
        Some(amount) => Some(amount.bytes),
    }
}

// volumes

/// Whether a claim's reference may be written on the volume.
pub(crate) fn takes<R: Record>(seat: &R, new: &Volume, given: Option<Version>) -> bool
    ensures { Judges (R.whole seat.now) result (AtVolume (R.told seat.now) new.now given (λ o. MayTake (R.told seat.now) o new.now)) }
{
    let namespace = &new.meta.namespace;
    let name = &new.meta.name;
    let page = seat.about(
        Kind::PersistentVolume,
        namespace.as_str(),
        name.as_str(),
        Sought::Version(given),
    );
    let mine = referred(seat, page, &new.claim_ref, sought_of(&new.claim_ref));
    let row = Take { mine, new };
    told_volume_at(&row, page, given, namespace, name)
}

fn unbinds<R: Record>(seat: &R, new: &Volume, given: Option<Version>) -> bool
    ensures { Judges (R.whole seat.now) result (AtVolume (R.told seat.now) new.now given (λ o. MayUnbind (R.told seat.now) o new.now)) }
{
    let namespace = &new.meta.namespace;
    let name = &new.meta.name;
    let page = seat.about(
        Kind::PersistentVolume,
        namespace.as_str(),
        name.as_str(),
        Sought::Version(given),
    );
    let mine = carried(seat, page, given, Claimed::Named);
    let row = Unbind { mine, new };
    told_volume_at(&row, page, given, namespace, name)
}

fn frees<R: Record>(seat: &R, key: &Key, given: Option<Version>) -> bool
    ensures { Judges (R.whole seat.now) result (AtVolumeKey (R.told seat.now) key.now given (λ o. MayFree o)) }
{
    let page = seat.about(
        Kind::PersistentVolume,
        key.namespace.as_str(),
        key.name.as_str(),
        Sought::Version(given),
    );
    volume_status(&Free {}, page, key, given)
}

fn binds<R: Record>(seat: &R, key: &Key, given: Option<Version>) -> bool
    ensures { Judges (R.whole seat.now) result (AtVolumeKey (R.told seat.now) key.now given (λ o. MayBind (R.told seat.now) o)) }
{
    let page = seat.about(
        Kind::PersistentVolume,
        key.namespace.as_str(),
        key.name.as_str(),
        Sought::Version(given),
    );
    let mine = carried(seat, page, given, Claimed::Nameless);
    volume_status(&Bind { mine }, page, key, given)
}

/// Whether what is sought of the volume's claim shows that phase Released may be written.
fn releases_by<R: Record>(seat: &R, key: &Key, given: Option<Version>, claimed: Claimed) -> bool
    ensures { Judges (R.whole seat.now) result (AtVolumeKey (R.told seat.now) key.now given (λ o. MayRelease (R.told seat.now) o)) }
{
    let page = seat.about(
        Kind::PersistentVolume,
        key.namespace.as_str(),
        key.name.as_str(),
        Sought::Version(given),
    );
    let mine = carried(seat, page, given, claimed);
    volume_status(&Release { mine }, page, key, given)
}

/// Whether phase Released may be written, since the claim was read gone or was told with another volume.
fn releases<R: Record>(seat: &R, key: &Key, given: Option<Version>) -> bool
    ensures { Judges (R.whole seat.now) result (AtVolumeKey (R.told seat.now) key.now given (λ o. MayRelease (R.told seat.now) o)) }
{
    if releases_by(seat, key, given, Claimed::Released) {
        return true;
    }
    releases_by(seat, key, given, Claimed::Named)
}

// claims

fn completes<R: Record>(seat: &R, new: &Claim, given: Option<Version>) -> bool
    ensures { Judges (R.whole seat.now) result (AtClaim (R.told seat.now) new.now given (λ o. MayComplete (R.told seat.now) o new.now)) }
{
    let namespace = &new.meta.namespace;
    let name = &new.meta.name;
    let page = seat.about(
        Kind::PersistentVolumeClaim,
        namespace.as_str(),
        name.as_str(),
        Sought::Version(given),
    );
    let mine = called(seat, &new.volume_name, sought_bound(new));
    let row = Complete { mine, new };
    told_claim_at(&row, page, given, namespace, name)
}

fn shows_bound<R: Record>(
    seat: &R,
    key: &Key,
    modes: Modes,
    amount: &Option<Amount>,
    given: Option<Version>,
) -> bool
    ensures { Judges (R.whole seat.now) result (AtClaimKey (R.told seat.now) key.now given (λ o. MayShow (R.told seat.now) o modes amount.now)) }
{
    let page = seat.about(
        Kind::PersistentVolumeClaim,
        key.namespace.as_str(),
        key.name.as_str(),
        Sought::Version(given),
    );
    let mine = named(seat, page, given, bytes_of(amount));
    let row = Show {
        mine,
        modes,
        amount,
    };
    claim_status(&row, page, key, given)
}

fn loses<R: Record>(
    seat: &R,
    key: &Key,
    modes: Modes,
    amount: &Option<Amount>,
    given: Option<Version>,
) -> bool
    ensures { Judges (R.whole seat.now) result (AtClaimKey (R.told seat.now) key.now given (λ o. MayLose (R.told seat.now) o modes amount.now)) }
{
    let page = seat.about(
        Kind::PersistentVolumeClaim,
        key.namespace.as_str(),
        key.name.as_str(),
        Sought::Version(given),
    );
    let mine = named(seat, page, given, None);
    let row = Lose {
        mine,
        modes,
        amount,
    };
    claim_status(&row, page, key, given)
}

// which row

fn binder_phase<R: Record>(seat: &R, key: &Key, phase: VolumePhase, given: Option<Version>) -> bool
    ensures { Judges (R.whole seat.now) result (RowAllows seats.Binder (R.told seat.now) (requests.UpdateStatus key.now (statuses.Volume phase) given)) }
{
    match phase {
        VolumePhase::Available => frees(seat, key, given),
        VolumePhase::Bound => binds(seat, key, given),
        VolumePhase::Released => releases(seat, key, given),
        VolumePhase::Pending => false,
        VolumePhase::Failed => false,
    }
}

fn binder_claim_phase<R: Record>(
    seat: &R,
    key: &Key,
    phase: ClaimPhase,
    modes: Modes,
    amount: &Option<Amount>,
    given: Option<Version>,
) -> bool
    ensures { Judges (R.whole seat.now) result (RowAllows seats.Binder (R.told seat.now) (requests.UpdateStatus key.now (statuses.Claim phase modes amount.now) given)) }
{
    match phase {
        ClaimPhase::Bound => shows_bound(seat, key, modes, amount, given),
        ClaimPhase::Lost => loses(seat, key, modes, amount, given),
        ClaimPhase::Pending => false,
    }
}

/// Whether the binder may write the status.
pub fn binder_status<R: Record>(
    seat: &R,
    key: &Key,
    status: &NewStatus,
    given: Option<Version>,
) -> bool
    ensures { Judges (R.whole seat.now) result (RowAllows seats.Binder (R.told seat.now) (requests.UpdateStatus key.now status.now given)) }
{
    match status {
        NewStatus::Volume(phase) => binder_phase(seat, key, *phase, given),
        NewStatus::Claim {
            phase,
            modes,
            amount,
        } => binder_claim_phase(seat, key, *phase, *modes, amount, given),
    }
}

fn binder_volume<R: Record>(seat: &R, new: &Volume, given: Option<Version>) -> bool
    ensures { Judges (R.whole seat.now) result (RowAllows seats.Binder (R.told seat.now) (requests.Update (objects.Volume new.now) given)) }
{
    match ref_uid(&new.claim_ref) {
        None => unbinds(seat, new, given),
        Some(_) => takes(seat, new, given),
    }
}

fn binder_claim<R: Record>(seat: &R, new: &Claim, given: Option<Version>) -> bool
    ensures { Judges (R.whole seat.now) result (RowAllows seats.Binder (R.told seat.now) (requests.Update (objects.Claim new.now) given)) }
{
    if is_completed(new) {
        completes(seat, new, given)
    } else {
        may_assign_class(seat, new, given)
    }
}

/// Whether the binder may write the object.
pub fn binder_update<R: Record>(seat: &R, object: &Object, given: Option<Version>) -> bool
    ensures { Judges (R.whole seat.now) result (RowAllows seats.Binder (R.told seat.now) (requests.Update object.now given)) }
{
    match object {
        Object::Volume(new) => binder_volume(seat, new, given),
        Object::Claim(new) => binder_claim(seat, new, given),
        _ => false,
    }
}
