//! Where the binder may give a claim the default class.

ghost use Rattle.std.specs.Prelude.{◌≡◌, ◌↔◌, [], IsTrue, true};
ghost use Rattle.kube_objects.specs.Bindings.{lacks_class};
ghost use Rattle.binder_model.specs.BinderLicence.{MayAssignClass};
ghost use Rattle.binder_model.specs.Licence.{AtClaim};
ghost use Rattle.licence_record.specs.Judged.{Judges};

use evidence_pages::sought::Sought;
use kube_types::bindings::{is_completed, is_deleting, lacks_class};
use kube_types::objects::{Claim, Version};
use kube_types::parts::Kind;
use licence_record::record::Record;
use licence_record::sure::{SureClaim, told_claim_at};
use licence_scans::changes::is_claim_class;

/// The claim may get the class of the new one.
#[derive(Drop)]
struct AssignClass<'a, R> {
    seat: &'a R,
    new: &'a Claim,
}

impl<'a, R: Record> SureClaim for AssignClass<'a, R> {
    ghost allows = { λ t c. MayAssignClass (R.told t.seat.now) c t.new.now };

    ghost sure = { λ t. R.whole t.seat.now };

    fn test(&self, claim: &Claim) -> bool {
        assigns(self.seat, claim, self.new)
    }
}

/// Whether the claim names no volume.
fn is_unnamed(claim: &Claim) -> bool
    ensures { IsTrue result ↔ (claim.now.volume_name ≡ []) }
{
    claim.volume_name.as_str().is_empty()
}

/// Whether the claim names no class. The empty class is one.
fn is_classless(claim: &Claim) -> bool
    ensures { IsTrue result ↔ (lacks_class claim.now ≡ true) }
{
    lacks_class(claim)
}

fn assigns<R: Record>(seat: &R, old: &Claim, new: &Claim) -> bool
    ensures { Judges (R.whole seat.now) result (MayAssignClass (R.told seat.now) old.now new.now) }
{
    if is_completed(old) {
        return false;
    }
    if is_deleting(&old.meta) {
        return false;
    }
    if !is_unnamed(old) {
        return false;
    }
    if !is_classless(old) {
        return false;
    }
    if !is_claim_class(old, new) {
        return false;
    }
    match &new.class {
        None => false,
        Some(name) => seat.is_default(name.as_str()),
    }
}

/// Whether the claim may get the class of the new one.
pub fn may_assign_class<R: Record>(seat: &R, new: &Claim, given: Option<Version>) -> bool
    ensures { Judges (R.whole seat.now) result (AtClaim (R.told seat.now) new.now given (λ o. MayAssignClass (R.told seat.now) o new.now)) }
{
    let namespace = &new.meta.namespace;
    let name = &new.meta.name;
    let row = AssignClass { seat, new };
    let page = seat.about(
        Kind::PersistentVolumeClaim,
        namespace.as_str(),
        name.as_str(),
        Sought::Version(given),
    );
    told_claim_at(&row, page, given, namespace, name)
}
