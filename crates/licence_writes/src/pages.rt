//! Which entries a row at a told object reads beside those that speak of the object itself.

ghost use Rattle.std.specs.Prelude.{◌≡◌, reverse};
ghost use Rattle.evidence_pages.specs.Parts.{IsPart};

use call_types::entry::Entry;
use evidence_pages::sought::Sought;
use kube_types::objects::{Claim, Ref, Version, Volume};
use kube_types::parts::Kind;
use kube_types::text::Text;
use licence_record::record::Record;
use licence_rows::parts::ref_uid;
use licence_rows::versions::{claim_at, volume_at};

/// What is sought of the claim of the reference. Where there is no reference, it is the page.
pub(crate) fn referred<'a, R: Record>(
    seat: &'a R,
    page: &'a [Entry],
    reference: &Option<Ref>,
    sought: Sought,
) -> &'a [Entry]
    requires part { IsPart (reverse page.now) (R.told seat.now) }
    requires all { R.whole seat.now → reverse page.now ≡ R.told seat.now }
    ensures part { IsPart (reverse result.now) (R.told seat.now) }
    ensures all { R.whole seat.now → reverse result.now ≡ R.told seat.now }
{
    match reference {
        None => page,
        Some(reference) => seat.about(
            Kind::PersistentVolumeClaim,
            reference.namespace.as_str(),
            reference.name.as_str(),
            sought,
        ),
    }
}

/// What a row at a volume seeks of the claim to which the volume refers.
#[derive(Clone, Copy)]
pub(crate) enum Claimed {
    /// That it names no volume.
    Nameless,
    /// That it names a volume.
    Named,
    /// That it was read and was not found.
    Released,
}

/// The same by the UIDs of the volume and of the claim.
fn sought_for(claimed: Claimed, volume: &Volume) -> Sought {
    match (ref_uid(&volume.claim_ref), volume.meta.uid) {
        (Some(claim), Some(uid)) => match claimed {
            Claimed::Nameless => Sought::Nameless(claim),
            Claimed::Named => Sought::Named(claim),
            Claimed::Released => Sought::Released { volume: uid, claim },
        },
        _ => Sought::All,
    }
}

/// What is sought of the claim to which a volume of the version refers that the page tells. Where there is none,
/// it is the page.
pub(crate) fn carried<'a, R: Record>(
    seat: &'a R,
    page: &'a [Entry],
    given: Option<Version>,
    claimed: Claimed,
) -> &'a [Entry]
    requires part { IsPart (reverse page.now) (R.told seat.now) }
    requires all { R.whole seat.now → reverse page.now ≡ R.told seat.now }
    ensures part { IsPart (reverse result.now) (R.told seat.now) }
    ensures all { R.whole seat.now → reverse result.now ≡ R.told seat.now }
{
    match volume_at(page, given) {
        None => page,
        Some(volume) => referred(seat, page, &volume.claim_ref, sought_for(claimed, volume)),
    }
}

/// What is sought of the volume of this name.
pub(crate) fn called<'a, R: Record>(seat: &'a R, name: &Text, sought: Sought) -> &'a [Entry]
    ensures part { IsPart (reverse result.now) (R.told seat.now) }
    ensures all { R.whole seat.now → reverse result.now ≡ R.told seat.now }
{
    seat.about(Kind::PersistentVolume, "", name.as_str(), sought)
}

/// What a row at a claim seeks of its volume: that it is Bound with so many bytes, or that it was not found.
fn sought_by(claim: &Claim, bytes: Option<u64>) -> Sought {
    match claim.meta.uid {
        None => Sought::All,
        Some(uid) => match bytes {
            None => Sought::Lost(uid),
            Some(bytes) => Sought::Shown(uid, bytes),
        },
    }
}

/// What is sought of the volume which a claim of the version names that the page tells: one that is Bound for it with
/// so many bytes, or that none was found. Where there is no such claim, it is the page.
pub(crate) fn named<'a, R: Record>(
    seat: &'a R,
    page: &'a [Entry],
    given: Option<Version>,
    bytes: Option<u64>,
) -> &'a [Entry]
    requires part { IsPart (reverse page.now) (R.told seat.now) }
    requires all { R.whole seat.now → reverse page.now ≡ R.told seat.now }
    ensures part { IsPart (reverse result.now) (R.told seat.now) }
    ensures all { R.whole seat.now → reverse result.now ≡ R.told seat.now }
{
    match claim_at(page, given) {
        None => page,
        Some(claim) => called(seat, &claim.volume_name, sought_by(claim, bytes)),
    }
}
