//! Where a volume may be created.

ghost use Rattle.std.specs.Prelude.{◌≡◌, IsTrue, Some, reverse};
ghost use Rattle.binder_model.specs.OpsLicence.{MayCreate};
ghost use Rattle.licence_writes.specs.OpsRows.Providing.{Creates};
ghost use Rattle.licence_record.specs.Judged.{Judges};

use crate::roles::create::creates as page_creates;
use evidence_pages::sought::Sought;
use kube_types::bindings::class_of_claim;
use kube_types::objects::{Claim, Class, Ref, Volume};
use kube_types::uid::Uid;
use licence_record::newest::{newest_claim, newest_class};
use licence_record::record::Record;

/// Whether the volume is the one that is made for the claim, over data that were given for it.
fn creates<R: Record>(seat: &R, claim: &Claim, uid: Uid, class: &Class, new: &Volume) -> bool
    ensures { Judges (R.whole seat.now) result (Creates (R.told seat.now) claim.now uid class.now new.now) }
{
    let page = seat.provisioned(&new.meta.name, Sought::Provisioned);
    page_creates(page, claim, uid, class, new)
}

/// Whether the volume, which names the claim of this UID, may be created.
fn create_for<R: Record>(seat: &R, reference: &Ref, uid: Uid, new: &Volume) -> bool
    requires refers { new.now.claim_ref ≡ Some reference.now }
    requires known { reference.now.uid ≡ Some uid }
    ensures { Judges (R.whole seat.now) result (MayCreate (R.told seat.now) new.now) }
{
    let namespace = reference.namespace.as_str();
    let name = reference.name.as_str();
    match newest_claim(seat, namespace, name) {
        None => false,
        Some(claim) => match newest_class(seat, class_of_claim(claim)) {
            None => false,
            Some(class) => creates(seat, claim, uid, class, new),
        },
    }
}

/// Whether the volume may be created.
pub fn may_create<R: Record>(seat: &R, new: &Volume) -> bool
    ensures { Judges (R.whole seat.now) result (MayCreate (R.told seat.now) new.now) }
{
    match &new.claim_ref {
        None => false,
        Some(reference) => match reference.uid {
            None => false,
            Some(uid) => create_for(seat, reference, uid, new),
        },
    }
}
