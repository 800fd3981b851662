//! Claims and volumes by their UID, a claim's own volume, and the pod that has a volume mounted.

ghost use Rattle.std.specs.Prelude.{◌≡◌};
ghost use Rattle.std.specs.Option.{option_copied};
ghost use Rattle.std.specs.List.{list_any};
ghost use Rattle.attach_law.specs.Attached.{claim_with, own_volume, volume_with};
ghost use Rattle.attach_law.specs.Calls.{carries_uid, mounts_volume, user_of};

use call_types::reply::MountRow;
use kube_types::bindings::{carries, is_uid};
use kube_types::lookup::Lookup;
use kube_types::objects::{Claim, Object, Volume};
use kube_types::parts::Kind;
use kube_types::uid::Uid;
use volume_match::row_named;

/// The claim of this UID among these objects.
fn claim_in(objects: &[Object], uid: Uid) -> Option<&Claim>
    ensures { option_copied result ≡ claim_with uid objects.now }
{
    for object in objects {
        match object {
            Object::Claim(claim) => {
                if is_uid(claim.meta.uid, uid) {
                    return Some(claim);
                }
            }
            _ => (),
        }
    }
    None
}

/// The volume of this UID among these objects.
fn volume_in(objects: &[Object], uid: Uid) -> Option<&Volume>
    ensures { option_copied result ≡ volume_with uid objects.now }
{
    for object in objects {
        match object {
            Object::Volume(volume) => {
                if is_uid(volume.meta.uid, uid) {
                    return Some(volume);
                }
            }
            _ => (),
        }
    }
    None
}

/// The claim of this UID.
#[tactic(auto, using(crate::proofs::OfKind::claim_of_kind))]
pub(crate) fn claim_with<L: Lookup>(lookup: &L, uid: Uid) -> Option<&Claim>
    ensures { option_copied result ≡ claim_with uid (L.rows lookup.now) }
{
    claim_in(lookup.of_kind(Kind::PersistentVolumeClaim), uid)
}

/// The volume of this UID.
#[tactic(auto, using(crate::proofs::OfKind::volume_of_kind))]
pub(crate) fn volume_with<L: Lookup>(lookup: &L, uid: Uid) -> Option<&Volume>
    ensures { option_copied result ≡ volume_with uid (L.rows lookup.now) }
{
    volume_in(lookup.of_kind(Kind::PersistentVolume), uid)
}

/// The volume that the claim names, where it carries the claim.
pub(crate) fn own_volume<'a, L: Lookup>(lookup: &'a L, claim: &Claim) -> Option<&'a Volume>
    ensures { option_copied result ≡ own_volume (L.rows lookup.now) claim.now }
{
    match row_named(
        lookup,
        Kind::PersistentVolume,
        "",
        claim.volume_name.as_str(),
    ) {
        Some(Object::Volume(volume)) => {
            if carries(volume, claim) {
                Some(volume)
            } else {
                None
            }
        }
        _ => None,
    }
}

/// Whether the volume of the first UID carries the claim of the second.
fn carries_uid<L: Lookup>(lookup: &L, volume: Uid, claim: Uid) -> bool
    ensures { result ≡ carries_uid (L.rows lookup.now) volume claim }
{
    match (volume_with(lookup, volume), claim_with(lookup, claim)) {
        (Some(volume), Some(claim)) => carries(volume, claim),
        _ => false,
    }
}

/// Whether the volume carries one of these claims.
fn carries_one<L: Lookup>(lookup: &L, volume: Uid, claims: &[Uid]) -> bool
    ensures { result ≡ list_any (carries_uid (L.rows lookup.now) volume) claims.now }
{
    for claim in claims {
        if carries_uid(lookup, volume, *claim) {
            return true;
        }
    }
    false
}

/// Whether the mount has a claim that the volume carries.
fn mounts_volume<L: Lookup>(lookup: &L, volume: Uid, row: &MountRow) -> bool
    ensures { result ≡ mounts_volume (L.rows lookup.now) volume row.now }
{
    carries_one(lookup, volume, row.claims.as_slice())
}

/// The pod of the first of these mounts that has the volume.
pub(crate) fn user_of<L: Lookup>(lookup: &L, volume: Uid, mounts: &[MountRow]) -> Option<Uid>
    ensures { result ≡ user_of (L.rows lookup.now) volume mounts.now }
{
    for row in mounts {
        if mounts_volume(lookup, volume, row) {
            return Some(row.pod);
        }
    }
    None
}
