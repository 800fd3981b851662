//! Where the protection controllers may write.

ghost use Rattle.std.specs.Prelude.{◌≡◌, ◌↔◌, IsTrue, Some, reverse};
ghost use Rattle.binder_model.specs.GuardLicence.{IsDeletingVersion, IsPodList, MayGuard, MayUnguardClaim, MayUnguardVolume, TellsUnused};
ghost use Rattle.kube_parts.specs.declared.parts.Kind.TheVariants as kinds;
ghost use Rattle.call_types.specs.declared.request.Request.TheVariants as requests;
ghost use Rattle.binder_model.specs.Told.{After, ToldClaim};
ghost use Rattle.binder_model.specs.Licence.{GuardsClaim, GuardsVolume};

use crate::parts::{is_bound, is_same_object};
use call_types::entry::Entry;
use call_types::reply::Reply;
use call_types::request::Request;
use kube_types::bindings::{PV_PROTECTION, PVC_PROTECTION, is_deleting, some_uses};
use kube_types::objects::{Claim, Meta, Volume};
use kube_types::parts::Kind;
use licence_scans::changes::{is_claim_meta, is_guarded, is_unguarded, is_volume_meta};
use licence_scans::entries::{EntryTest, after};
use licence_scans::rows::{ClaimTest, OfClaims, VolumeTest};
use plain_data::copies::Plain;
use plain_data::text::Text;

/// Whether the finalizer may be added.
fn may_guard(name: &str, old: &Meta, new: &Meta) -> bool
    ensures { IsTrue result ↔ MayGuard name.now old.now new.now }
{
    if is_deleting(old) {
        return false;
    }
    if old.finalizers.contains(name) {
        return false;
    }
    is_guarded(name, old, new)
}

fn guards_volume(old: &Volume, new: &Volume) -> bool
    ensures { IsTrue result ↔ GuardsVolume old.now new.now }
{
    if !is_volume_meta(old, new) {
        return false;
    }
    may_guard(PV_PROTECTION, &old.meta, &new.meta)
}

fn guards_claim(old: &Claim, new: &Claim) -> bool
    ensures { IsTrue result ↔ GuardsClaim old.now new.now }
{
    if !is_claim_meta(old, new) {
        return false;
    }
    may_guard(PVC_PROTECTION, &old.meta, &new.meta)
}

/// Whether the finalizer of a volume may be dropped.
fn unguards_volume(old: &Volume, new: &Volume) -> bool
    ensures { IsTrue result ↔ MayUnguardVolume old.now new.now }
{
    if !is_deleting(&old.meta) {
        return false;
    }
    if is_bound(old.phase) {
        return false;
    }
    if !is_volume_meta(old, new) {
        return false;
    }
    is_unguarded(PV_PROTECTION, &old.meta, &new.meta)
}

/// The volume's finalizer may be added.
#[derive(Drop)]
pub struct GuardVolume<'a> {
    pub new: &'a Volume,
}

impl<'a> VolumeTest for GuardVolume<'a> {
    ghost allows = { λ t v. GuardsVolume v t.new.now };

    fn test(&self, volume: &Volume) -> bool {
        guards_volume(volume, self.new)
    }
}

/// The volume's finalizer may be dropped.
#[derive(Drop)]
pub struct UnguardVolume<'a> {
    pub new: &'a Volume,
}

impl<'a> VolumeTest for UnguardVolume<'a> {
    ghost allows = { λ t v. MayUnguardVolume v t.new.now };

    fn test(&self, volume: &Volume) -> bool {
        unguards_volume(volume, self.new)
    }
}

/// This claim, told deleting.
#[derive(Drop)]
struct DeletingVersion<'a> {
    old: &'a Claim,
}

impl<'a> ClaimTest for DeletingVersion<'a> {
    ghost allows = { λ t c. IsDeletingVersion t.old.now c };

    fn test(&self, claim: &Claim) -> bool {
        if !is_same_object(&self.old.meta, &claim.meta) {
            return false;
        }
        is_deleting(&claim.meta)
    }
}

/// Whether the answer is a list that told no pod which uses the claim.
fn lists_unused(claim: &Claim, namespace: &Text, reply: &Reply) -> bool
    ensures { IsTrue result ↔ IsPodList claim.now (requests.List kinds.Pod (Some namespace.now)) reply.now }
{
    match reply {
        Reply::Listed { items, version: _ } => {
            if !namespace.same(&claim.meta.namespace) {
                return false;
            }
            !some_uses(claim, items.as_slice())
        }
        _ => false,
    }
}

/// A list of the pods of the claim's namespace told none that uses it.
#[derive(Drop)]
struct Unused<'a> {
    claim: &'a Claim,
}

impl<'a> EntryTest for Unused<'a> {
    ghost allows = { λ t e. TellsUnused t.claim.now e };

    fn test(&self, entry: &Entry) -> bool {
        if !entry.told {
            return false;
        }
        match &entry.request {
            Request::List {
                kind: Kind::Pod,
                namespace: Some(namespace),
            } => lists_unused(self.claim, namespace, &entry.reply),
            _ => false,
        }
    }
}

/// Whether the finalizer of a claim may be dropped.
fn unguards_claim(mine: &[Entry], old: &Claim, new: &Claim) -> bool
    ensures { IsTrue result ↔ MayUnguardClaim (reverse mine.now) old.now new.now }
{
    if !is_deleting(&old.meta) {
        return false;
    }
    if !is_claim_meta(old, new) {
        return false;
    }
    if !is_unguarded(PVC_PROTECTION, &old.meta, &new.meta) {
        return false;
    }
    was_unused(mine, old)
}

fn was_unused(mine: &[Entry], claim: &Claim) -> bool
    ensures { IsTrue result ↔ After (ToldClaim (IsDeletingVersion claim.now)) (TellsUnused claim.now) (reverse mine.now) }
{
    let test = DeletingVersion { old: claim };
    let told = OfClaims { test: &test };
    let list = Unused { claim };
    after(&told, &list, mine)
}

/// The claim's finalizer may be added.
#[derive(Drop)]
pub struct GuardClaim<'a> {
    pub new: &'a Claim,
}

impl<'a> ClaimTest for GuardClaim<'a> {
    ghost allows = { λ t c. GuardsClaim c t.new.now };

    fn test(&self, claim: &Claim) -> bool {
        guards_claim(claim, self.new)
    }
}

/// The claim's finalizer may be dropped.
#[derive(Drop)]
pub struct UnguardClaim<'a> {
    pub mine: &'a [Entry],
    pub new: &'a Claim,
}

impl<'a> ClaimTest for UnguardClaim<'a> {
    ghost allows = { λ t c. MayUnguardClaim (reverse t.mine.now) c t.new.now };

    fn test(&self, claim: &Claim) -> bool {
        unguards_claim(self.mine, claim, self.new)
    }
}
