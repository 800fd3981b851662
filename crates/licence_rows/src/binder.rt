//! Where the binder may write.

ghost use Rattle.std.specs.Prelude.{◌≡◌, ◌↔◌, ◌⊎◌, IsTrue, [], reverse, true, Some};
ghost use Rattle.call_types.specs.declared.request.Request.TheVariants as requests;
ghost use Rattle.binder_model.specs.BinderDue.{is_reclaimed};
ghost use Rattle.binder_model.specs.ObjectKeys.{claim_key, volume_key};
ghost use Rattle.binder_model.specs.BinderLicence.{IsBoundFor, IsCompletedVersion, IsFreeFor, IsGone, IsHere, IsNotCarrying, IsReferring, IsShown, IsTaken, MayBind, MayComplete, MayFree, MayLose, MayRelease, MayShow, MayTake, MayUnbind, WasReadGone, WasReadLost};
ghost use Rattle.binder_model.specs.Told.{TellsLive, ToldClaim};
ghost use Rattle.binder_model.specs.At.{IsElsewhere};

use crate::parts::{Elsewhere, is_bound, is_known, is_reclaimed, is_same_object, ref_uid};
use call_types::entry::Entry;
use call_types::reply::{Refusal, Reply};
use call_types::request::Request;
use kube_types::bindings::{carries, is_completed, is_ended, is_protected_volume, names_claim};
use kube_types::objects::{Amount, Claim, Object, Ref, Volume};
use kube_types::parts::{Kind, Modes};
use kube_types::uid::Uid;
use licence_scans::changes::{is_completed_with, is_taken_for, is_unbound};
use licence_scans::entries::{EntryTest, after};
use licence_scans::rows::{ClaimTest, OfClaims, OfVolumes, VolumeTest, told_claim, told_volume};
use plain_data::copies::{Plain, same_option};

// a claim's reference

fn is_free_for(reference: &Option<Ref>, claim: &Claim) -> bool
    ensures { IsTrue result ↔ IsFreeFor reference.now claim.now }
{
    match reference {
        None => true,
        Some(reference) => {
            if !names_claim(reference, claim) {
                return false;
            }
            reference.uid.is_none()
        }
    }
}

/// The claim whose reference the new volume has.
#[derive(Drop)]
struct Taken<'a> {
    old: &'a Volume,
    new: &'a Volume,
}

impl<'a> ClaimTest for Taken<'a> {
    ghost allows = { λ t c. IsTaken t.old.now t.new.now c };

    fn test(&self, claim: &Claim) -> bool {
        if !claim.meta.uid.is_some() {
            return false;
        }
        if !is_free_for(&self.old.claim_ref, claim) {
            return false;
        }
        is_taken_for(self.old, claim, self.new)
    }
}

/// A claim's reference may be written on the volume.
#[derive(Drop)]
pub struct Take<'a> {
    pub mine: &'a [Entry],
    pub new: &'a Volume,
}

impl<'a> VolumeTest for Take<'a> {
    ghost allows = { λ t v. MayTake (reverse t.mine.now) v t.new.now };

    fn test(&self, volume: &Volume) -> bool {
        if is_ended(volume.phase) {
            return false;
        }
        let test = Taken {
            old: volume,
            new: self.new,
        };
        told_claim(&test, self.mine)
    }
}

// phase Bound

/// The claim has the UID and names this volume or none.
#[derive(Drop)]
struct Here<'a> {
    volume: &'a Volume,
    uid: Uid,
}

impl<'a> ClaimTest for Here<'a> {
    ghost allows = { λ t c. IsHere t.volume.now.meta.name t.uid c };

    fn test(&self, claim: &Claim) -> bool {
        if !is_known(&claim.meta, self.uid) {
            return false;
        }
        if claim.volume_name.as_str().is_empty() {
            return true;
        }
        claim.volume_name.same(&self.volume.meta.name)
    }
}

fn told_here(mine: &[Entry], volume: &Volume, uid: Uid) -> bool
    ensures { IsTrue result ↔ ToldClaim (IsHere volume.now.meta.name uid) (reverse mine.now) }
{
    let test = Here { volume, uid };
    told_claim(&test, mine)
}

/// Phase Bound may be written on the volume.
#[derive(Drop)]
pub struct Bind<'a> {
    pub mine: &'a [Entry],
}

impl<'a> VolumeTest for Bind<'a> {
    ghost allows = { λ t v. MayBind (reverse t.mine.now) v };

    fn test(&self, volume: &Volume) -> bool {
        let phase = volume.phase;
        if is_ended(phase) {
            return false;
        }
        if !is_protected_volume(volume) {
            return false;
        }
        match ref_uid(&volume.claim_ref) {
            None => false,
            Some(uid) => told_here(self.mine, volume, uid),
        }
    }
}

// completing a claim

/// The volume carries the claim, is Bound, and is one with which the new claim is completed.
#[derive(Drop)]
struct BoundFor<'a> {
    old: &'a Claim,
    new: &'a Claim,
}

impl<'a> VolumeTest for BoundFor<'a> {
    ghost allows = { λ t v. IsBoundFor t.old.now t.new.now v };

    fn test(&self, volume: &Volume) -> bool {
        let bound = is_bound(volume.phase);
        if !bound {
            return false;
        }
        if !carries(volume, self.old) {
            return false;
        }
        if !is_named_by(self.old, volume) {
            return false;
        }
        is_completed_with(self.old, volume, self.new)
    }
}

/// Whether the claim names this volume or none.
fn is_named_by(claim: &Claim, volume: &Volume) -> bool
    ensures { IsTrue result ↔ ((claim.now.volume_name ≡ []) ⊎ (claim.now.volume_name ≡ volume.now.meta.name)) }
{
    if claim.volume_name.as_str().is_empty() {
        return true;
    }
    claim.volume_name.same(&volume.meta.name)
}

/// The claim may be completed.
#[derive(Drop)]
pub struct Complete<'a> {
    pub mine: &'a [Entry],
    pub new: &'a Claim,
}

impl<'a> ClaimTest for Complete<'a> {
    ghost allows = { λ t c. MayComplete (reverse t.mine.now) c t.new.now };

    fn test(&self, claim: &Claim) -> bool {
        let test = BoundFor {
            old: claim,
            new: self.new,
        };
        told_volume(&test, self.mine)
    }
}

/// The status is that of a told version of the claim's volume.
#[derive(Drop)]
struct Shown<'a> {
    claim: &'a Claim,
    modes: Modes,
    amount: &'a Option<Amount>,
}

impl<'a> VolumeTest for Shown<'a> {
    ghost allows = { λ t v. IsShown t.claim.now t.modes t.amount.now v };

    fn test(&self, volume: &Volume) -> bool {
        if !volume.meta.name.same(&self.claim.volume_name) {
            return false;
        }
        if !is_bound(volume.phase) {
            return false;
        }
        if !carries(volume, self.claim) {
            return false;
        }
        if !self.modes.same(&volume.modes) {
            return false;
        }
        match self.amount {
            None => false,
            Some(amount) => amount.same(&volume.amount),
        }
    }
}

/// Phase Bound with this status may be written on the claim.
#[derive(Drop)]
pub struct Show<'a> {
    pub mine: &'a [Entry],
    pub modes: Modes,
    pub amount: &'a Option<Amount>,
}

impl<'a> ClaimTest for Show<'a> {
    ghost allows = { λ t c. MayShow (reverse t.mine.now) c t.modes t.amount.now };

    fn test(&self, claim: &Claim) -> bool {
        if !is_completed(claim) {
            return false;
        }
        let test = Shown {
            claim,
            modes: self.modes,
            amount: self.amount,
        };
        told_volume(&test, self.mine)
    }
}

// phase Available

/// Phase Available may be written on the volume.
#[derive(Drop)]
pub struct Free {}

impl VolumeTest for Free {
    ghost allows = { λ t v. MayFree v };

    fn test(&self, volume: &Volume) -> bool {
        ref_uid(&volume.claim_ref).is_none()
    }
}

// phase Released, and unbinding

/// This volume, told with the reference.
#[derive(Drop)]
struct Referring<'a> {
    old: &'a Volume,
    reference: &'a Ref,
}

impl<'a> VolumeTest for Referring<'a> {
    ghost allows = { λ t v. IsReferring t.old.now t.reference.now v };

    fn test(&self, volume: &Volume) -> bool {
        if !is_same_object(&self.old.meta, &volume.meta) {
            return false;
        }
        match &volume.claim_ref {
            None => false,
            Some(reference) => reference.same(self.reference),
        }
    }
}

/// Whether no claim with the UID stood there.
fn is_gone(uid: Uid, found: &Object) -> bool
    ensures { IsTrue result ↔ IsGone uid (Some found.now) }
{
    match found {
        Object::Claim(claim) => !is_known(&claim.meta, uid),
        _ => true,
    }
}

/// A read of the claim's key found no claim of the UID.
#[derive(Drop)]
struct ReadGone<'a> {
    reference: &'a Ref,
    uid: Uid,
}

impl<'a> EntryTest for ReadGone<'a> {
    ghost allows = { λ t e. TellsLive (claim_key t.reference.now.namespace t.reference.now.name) (IsGone t.uid) e };

    fn test(&self, entry: &Entry) -> bool {
        if !entry.told {
            return false;
        }
        if !is_claim_get(&entry.request, self.reference) {
            return false;
        }
        match &entry.reply {
            Reply::Found(object) => is_gone(self.uid, object),
            Reply::Refused(Refusal::NotFound) => true,
            _ => false,
        }
    }
}

/// Whether the request reads the claim of the reference.
fn is_claim_get(request: &Request, reference: &Ref) -> bool
    ensures { IsTrue result ↔ (request.now ≡ requests.Get (claim_key reference.now.namespace reference.now.name)) }
{
    match request {
        Request::Get { key } => {
            if !key.kind.same(&Kind::PersistentVolumeClaim) {
                return false;
            }
            if !key.namespace.same(&reference.namespace) {
                return false;
            }
            key.name.same(&reference.name)
        }
        _ => false,
    }
}

fn was_read_gone(mine: &[Entry], volume: &Volume, reference: &Ref, uid: Uid) -> bool
    ensures { IsTrue result ↔ WasReadGone (reverse mine.now) volume.now reference.now uid }
{
    let test = Referring {
        old: volume,
        reference,
    };
    let told = OfVolumes { test: &test };
    let gone = ReadGone { reference, uid };
    after(&told, &gone, mine)
}

fn told_elsewhere(mine: &[Entry], volume: &Volume, uid: Uid) -> bool
    ensures { IsTrue result ↔ ToldClaim (IsElsewhere volume.now.meta.name uid) (reverse mine.now) }
{
    let test = Elsewhere { volume, uid };
    told_claim(&test, mine)
}

/// Whether the claim of the reference was read gone, or was told elsewhere and the volume goes with its
/// data.
fn is_released_for(mine: &[Entry], volume: &Volume, reference: &Ref, uid: Uid) -> bool
    ensures { IsTrue result ↔ (WasReadGone (reverse mine.now) volume.now reference.now uid ⊎ (ToldClaim (IsElsewhere volume.now.meta.name uid) (reverse mine.now) × (is_reclaimed volume.now ≡ true))) }
{
    if was_read_gone(mine, volume, reference, uid) {
        return true;
    }
    if !is_reclaimed(volume) {
        return false;
    }
    told_elsewhere(mine, volume, uid)
}

/// Phase Released may be written on the volume.
#[derive(Drop)]
pub struct Release<'a> {
    pub mine: &'a [Entry],
}

impl<'a> VolumeTest for Release<'a> {
    ghost allows = { λ t v. MayRelease (reverse t.mine.now) v };

    fn test(&self, volume: &Volume) -> bool {
        if is_ended(volume.phase) {
            return false;
        }
        match &volume.claim_ref {
            None => false,
            Some(reference) => match reference.uid {
                None => false,
                Some(uid) => is_released_for(self.mine, volume, reference, uid),
            },
        }
    }
}

/// The volume may be unbound.
#[derive(Drop)]
pub struct Unbind<'a> {
    pub mine: &'a [Entry],
    pub new: &'a Volume,
}

impl<'a> VolumeTest for Unbind<'a> {
    ghost allows = { λ t v. MayUnbind (reverse t.mine.now) v t.new.now };

    fn test(&self, volume: &Volume) -> bool {
        if is_ended(volume.phase) {
            return false;
        }
        if is_reclaimed(volume) {
            return false;
        }
        if !is_unbound(volume, self.new) {
            return false;
        }
        match ref_uid(&volume.claim_ref) {
            None => false,
            Some(uid) => told_elsewhere(self.mine, volume, uid),
        }
    }
}

// phase Lost

/// This claim, told completed.
#[derive(Drop)]
struct CompletedVersion<'a> {
    old: &'a Claim,
}

impl<'a> ClaimTest for CompletedVersion<'a> {
    ghost allows = { λ t c. IsCompletedVersion t.old.now c };

    fn test(&self, claim: &Claim) -> bool {
        if !is_same_object(&self.old.meta, &claim.meta) {
            return false;
        }
        is_completed(claim)
    }
}

/// Whether no volume stood there that could be the claim's.
fn is_not_carrying(claim: &Claim, found: &Object) -> bool
    ensures { IsTrue result ↔ IsNotCarrying claim.now (Some found.now) }
{
    match found {
        Object::Volume(volume) => match ref_uid(&volume.claim_ref) {
            None => false,
            Some(uid) => !is_known(&claim.meta, uid),
        },
        _ => true,
    }
}

/// Whether the request reads the volume that the claim names.
fn is_volume_get(request: &Request, claim: &Claim) -> bool
    ensures { IsTrue result ↔ (request.now ≡ requests.Get (volume_key claim.now.volume_name)) }
{
    match request {
        Request::Get { key } => {
            if !key.kind.same(&Kind::PersistentVolume) {
                return false;
            }
            if !key.namespace.as_str().is_empty() {
                return false;
            }
            key.name.same(&claim.volume_name)
        }
        _ => false,
    }
}

/// A read of the claim's volume found none that carries it.
#[derive(Drop)]
struct ReadLost<'a> {
    claim: &'a Claim,
}

impl<'a> EntryTest for ReadLost<'a> {
    ghost allows = { λ t e. TellsLive (volume_key t.claim.now.volume_name) (IsNotCarrying t.claim.now) e };

    fn test(&self, entry: &Entry) -> bool {
        if !entry.told {
            return false;
        }
        if !is_volume_get(&entry.request, self.claim) {
            return false;
        }
        match &entry.reply {
            Reply::Found(object) => is_not_carrying(self.claim, object),
            Reply::Refused(Refusal::NotFound) => true,
            _ => false,
        }
    }
}

fn was_read_lost(mine: &[Entry], claim: &Claim) -> bool
    ensures { IsTrue result ↔ WasReadLost (reverse mine.now) claim.now }
{
    let test = CompletedVersion { old: claim };
    let told = OfClaims { test: &test };
    let read = ReadLost { claim };
    after(&told, &read, mine)
}

/// Phase Lost with this status may be written on the claim.
#[derive(Drop)]
pub struct Lose<'a> {
    pub mine: &'a [Entry],
    pub modes: Modes,
    pub amount: &'a Option<Amount>,
}

impl<'a> ClaimTest for Lose<'a> {
    ghost allows = { λ t c. MayLose (reverse t.mine.now) c t.modes t.amount.now };

    fn test(&self, claim: &Claim) -> bool {
        if !is_completed(claim) {
            return false;
        }
        if !self.modes.same(&claim.got_modes) {
            return false;
        }
        if !same_option(self.amount, &claim.got) {
            return false;
        }
        if claim.volume_name.as_str().is_empty() {
            return true;
        }
        was_read_lost(self.mine, claim)
    }
}
