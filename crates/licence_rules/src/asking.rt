//! Which single objects the binder and ops may read, by what they were told newest.

ghost use Rattle.std.specs.Prelude.{◌≡◌, IsTrue, reverse, true, ⊤};
ghost use Rattle.kube_objects.specs.Bindings.{is_completed};
ghost use Rattle.binder_model.specs.Reading.{AsksForClaim, AsksForEnded, AsksForVolume};
ghost use Rattle.binder_model.specs.Told.{IsVolumeWith, newest, object_of};
ghost use Rattle.evidence_pages.specs.Parts.{IsPart};
ghost use Rattle.licence_record.specs.Judged.{Judges};
ghost use Rattle.licence_rows.specs.Asking.{IsLacking};

use call_types::entry::Entry;
use kube_types::bindings::is_completed;
use kube_types::key::Key;
use kube_types::objects::{Claim, Object, Volume};
use licence_record::newest::{newest_volume_of, some_newest};
use licence_record::record::Record;
use licence_record::sure::{OfRecordedClaims, SureClaim, SureTest};
use licence_rows::asking::{NamesClaim, NamesVolume, is_to_erase};
use licence_scans::rows::{OfClaims as OfSomeClaims, OfVolumes};

/// Whether the volume names a claim with a UID, and what was told newest of the key is none with this.
fn is_lacking<R: Record>(seat: &R, key: &Key, volume: &Volume) -> bool
    ensures { Judges (R.whole seat.now) result (IsLacking (object_of (newest (R.told seat.now) key.now)) volume.now) }
{
    match &volume.claim_ref {
        None => false,
        Some(reference) => match reference.uid {
            None => false,
            Some(uid) => seat.lacks_claim(key, uid),
        },
    }
}

/// The object is such a volume.
#[derive(Drop)]
struct Lacks<'a, R> {
    seat: &'a R,
    key: &'a Key,
}

impl<'a, R: Record> SureTest for Lacks<'a, R> {
    ghost allows = { λ t o. IsVolumeWith (IsLacking (object_of (newest (R.told t.seat.now) t.key.now))) o };

    ghost sure = { λ t. R.whole t.seat.now };

    fn test(&self, object: &Object) -> bool {
        match object {
            Object::Volume(volume) => is_lacking(self.seat, self.key, volume),
            _ => false,
        }
    }
}

/// Whether the binder may read the claim of the key.
pub(crate) fn asks_for_claim<R: Record>(seat: &R, page: &[Entry], key: &Key) -> bool
    requires part { IsPart (reverse page.now) (R.told seat.now) }
    requires all { R.whole seat.now → reverse page.now ≡ R.told seat.now }
    ensures { Judges (R.whole seat.now) result (AsksForClaim (R.told seat.now) key.now) }
{
    let names = NamesClaim { key };
    let may = OfVolumes { test: &names };
    let row = Lacks { seat, key };
    some_newest(&may, &row, page, seat)
}

/// The claim is completed.
#[derive(Drop)]
struct Completed {}

impl SureClaim for Completed {
    ghost allows = { λ t c. is_completed c ≡ true };

    ghost sure = { λ t. ⊤ };

    fn test(&self, claim: &Claim) -> bool {
        is_completed(claim)
    }
}

/// Whether the binder may read the volume of the key.
pub(crate) fn asks_for_volume<R: Record>(seat: &R, page: &[Entry], key: &Key) -> bool
    requires part { IsPart (reverse page.now) (R.told seat.now) }
    requires all { R.whole seat.now → reverse page.now ≡ R.told seat.now }
    ensures { Judges (R.whole seat.now) result (AsksForVolume (R.told seat.now) key.now) }
{
    let names = NamesVolume { key };
    let completed = Completed {};
    let may = OfSomeClaims { test: &names };
    let row = OfRecordedClaims { test: &completed };
    some_newest(&may, &row, page, seat)
}

/// Whether ops may read the volume of the key.
pub(crate) fn asks_for_ended<R: Record>(seat: &R, key: &Key) -> bool
    ensures { Judges (R.whole seat.now) result (AsksForEnded (R.told seat.now) key.now) }
{
    match newest_volume_of(seat, key) {
        None => false,
        Some(volume) => is_to_erase(volume),
    }
}
