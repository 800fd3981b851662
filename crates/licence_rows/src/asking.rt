//! What the reads of single objects ask of an object.

ghost use Rattle.std.specs.Prelude.{◌≡◌, ◌↔◌, IsTrue};
ghost use Rattle.std.specs.Option.{option_copied};
ghost use Rattle.binder_model.specs.ObjectKeys.{claim_key, volume_key};
ghost use Rattle.binder_model.specs.OpsLicence.{IsToErase};
ghost use Rattle.binder_model.specs.Reading.{LacksUid};
ghost use Rattle.licence_rows.specs.Asking.{IsNamingClaim};

use crate::parts::{is_delete, is_known, ref_uid};
use kube_types::bindings::{is_deleting, is_ended};
use kube_types::key::Key;
use kube_types::objects::{Claim, Object, Ref, Volume};
use kube_types::parts::Kind;
use kube_types::uid::Uid;
use licence_scans::rows::{ClaimTest, VolumeTest};
use plain_data::copies::Plain;

/// Whether the key is that of the claim.
fn is_claim_key(key: &Key, reference: &Ref) -> bool
    ensures { IsTrue result ↔ (key.now ≡ claim_key reference.now.namespace reference.now.name) }
{
    if !key.kind.same(&Kind::PersistentVolumeClaim) {
        return false;
    }
    if !key.namespace.same(&reference.namespace) {
        return false;
    }
    key.name.same(&reference.name)
}

/// Whether the key is that of the volume that the claim names.
pub fn is_volume_key(key: &Key, claim: &Claim) -> bool
    ensures { IsTrue result ↔ (key.now ≡ volume_key claim.now.volume_name) }
{
    if !key.kind.same(&Kind::PersistentVolume) {
        return false;
    }
    if !key.namespace.as_str().is_empty() {
        return false;
    }
    key.name.same(&claim.volume_name)
}

/// Whether what was found is no claim with this UID.
pub fn lacks_uid(found: Option<&Object>, uid: Uid) -> bool
    ensures { IsTrue result ↔ LacksUid (option_copied found.entry) uid }
{
    match found {
        Some(Object::Claim(claim)) => !is_known(&claim.meta, uid),
        _ => true,
    }
}

/// The volume names the claim of the key.
#[derive(Drop)]
pub struct NamesClaim<'a> {
    pub key: &'a Key,
}

impl<'a> VolumeTest for NamesClaim<'a> {
    ghost allows = { λ t v. IsNamingClaim t.key.now v };

    fn test(&self, volume: &Volume) -> bool {
        if !volume.meta.namespace.as_str().is_empty() {
            return false;
        }
        match &volume.claim_ref {
            None => false,
            Some(reference) => is_claim_key(self.key, reference),
        }
    }
}

/// The claim names the volume of the key.
#[derive(Drop)]
pub struct NamesVolume<'a> {
    pub key: &'a Key,
}

impl<'a> ClaimTest for NamesVolume<'a> {
    ghost allows = { λ t c. t.key.now ≡ volume_key c.volume_name };

    fn test(&self, claim: &Claim) -> bool {
        is_volume_key(self.key, claim)
    }
}

/// Whether the volume has ended with policy Delete, for a claim, and is not deleting.
pub fn is_to_erase(volume: &Volume) -> bool
    ensures { IsTrue result ↔ IsToErase volume.now }
{
    if !is_ended(volume.phase) {
        return false;
    }
    if !is_delete(volume.policy) {
        return false;
    }
    if is_deleting(&volume.meta) {
        return false;
    }
    ref_uid(&volume.claim_ref).is_some()
}
