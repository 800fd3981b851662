//! Where the protection controllers may write.

ghost use Rattle.kube_objects.specs.declared.objects.Object.TheVariants as objects;
ghost use Rattle.call_types.specs.declared.request.Request.TheVariants as requests;
ghost use Rattle.call_types.specs.declared.request.SeatKind.TheVariants as seats;
ghost use Rattle.binder_model.specs.Licence.{AtClaim, AtVolume, GuardsClaim, GuardsVolume, RowAllows};
ghost use Rattle.binder_model.specs.GuardLicence.{MayUnguardClaim, MayUnguardVolume};
ghost use Rattle.licence_record.specs.Judged.{Judges};

use evidence_pages::sought::Sought;
use kube_types::bindings::{is_protected_claim, is_protected_volume};
use kube_types::objects::{Claim, Object, Version, Volume};
use kube_types::parts::Kind;
use licence_record::record::Record;
use licence_rows::guards::{GuardClaim, GuardVolume, UnguardClaim, UnguardVolume};
use licence_scans::rows::{told_claim_at, told_volume_at};

fn guards_volume<R: Record>(seat: &R, new: &Volume, given: Option<Version>) -> bool
    ensures { Judges (R.whole seat.now) result (AtVolume (R.told seat.now) new.now given (λ o. GuardsVolume o new.now)) }
{
    let namespace = &new.meta.namespace;
    let name = &new.meta.name;
    let page = seat.about(
        Kind::PersistentVolume,
        namespace.as_str(),
        name.as_str(),
        Sought::Version(given),
    );
    told_volume_at(&GuardVolume { new }, page, given, namespace, name)
}

fn unguards_volume<R: Record>(seat: &R, new: &Volume, given: Option<Version>) -> bool
    ensures { Judges (R.whole seat.now) result (AtVolume (R.told seat.now) new.now given (λ o. MayUnguardVolume o new.now)) }
{
    let namespace = &new.meta.namespace;
    let name = &new.meta.name;
    let page = seat.about(
        Kind::PersistentVolume,
        namespace.as_str(),
        name.as_str(),
        Sought::Version(given),
    );
    told_volume_at(&UnguardVolume { new }, page, given, namespace, name)
}

fn guards_claim<R: Record>(seat: &R, new: &Claim, given: Option<Version>) -> bool
    ensures { Judges (R.whole seat.now) result (AtClaim (R.told seat.now) new.now given (λ o. GuardsClaim o new.now)) }
{
    let namespace = &new.meta.namespace;
    let name = &new.meta.name;
    let page = seat.about(
        Kind::PersistentVolumeClaim,
        namespace.as_str(),
        name.as_str(),
        Sought::Version(given),
    );
    told_claim_at(&GuardClaim { new }, page, given, namespace, name)
}

/// That no pod uses the claim.
fn sought_unused(claim: &Claim) -> Sought {
    match claim.meta.uid {
        None => Sought::All,
        Some(uid) => Sought::Unused(uid),
    }
}

fn unguards_claim<R: Record>(seat: &R, new: &Claim, given: Option<Version>) -> bool
    ensures { Judges (R.whole seat.now) result (AtClaim (R.told seat.now) new.now given (λ o. MayUnguardClaim (R.told seat.now) o new.now)) }
{
    let namespace = &new.meta.namespace;
    let name = &new.meta.name;
    let page = seat.about(
        Kind::PersistentVolumeClaim,
        namespace.as_str(),
        name.as_str(),
        Sought::Version(given),
    );
    let mine = seat.about(Kind::Pod, namespace.as_str(), "", sought_unused(new));
    let row = UnguardClaim { mine, new };
    told_claim_at(&row, page, given, namespace, name)
}

// which row

fn protects_volume<R: Record>(seat: &R, new: &Volume, given: Option<Version>) -> bool
    ensures { Judges (R.whole seat.now) result (RowAllows seats.VolumeProtect (R.told seat.now) (requests.Update (objects.Volume new.now) given)) }
{
    if is_protected_volume(new) {
        guards_volume(seat, new, given)
    } else {
        unguards_volume(seat, new, given)
    }
}

fn protects_claim<R: Record>(seat: &R, new: &Claim, given: Option<Version>) -> bool
    ensures { Judges (R.whole seat.now) result (RowAllows seats.ClaimProtect (R.told seat.now) (requests.Update (objects.Claim new.now) given)) }
{
    if is_protected_claim(new) {
        guards_claim(seat, new, given)
    } else {
        unguards_claim(seat, new, given)
    }
}

/// Whether volume protection may write the object.
pub fn volume_protect_update<R: Record>(seat: &R, object: &Object, given: Option<Version>) -> bool
    ensures { Judges (R.whole seat.now) result (RowAllows seats.VolumeProtect (R.told seat.now) (requests.Update object.now given)) }
{
    match object {
        Object::Volume(new) => protects_volume(seat, new, given),
        _ => false,
    }
}

/// Whether claim protection may write the object.
pub fn claim_protect_update<R: Record>(seat: &R, object: &Object, given: Option<Version>) -> bool
    ensures { Judges (R.whole seat.now) result (RowAllows seats.ClaimProtect (R.told seat.now) (requests.Update object.now given)) }
{
    match object {
        Object::Claim(new) => protects_claim(seat, new, given),
        _ => false,
    }
}
