//! The decision on a volume.

ghost use Rattle.std.specs.Prelude.{◌≡◌, is_some};
ghost use Rattle.std.specs.Option.{option_copied};
ghost use Rattle.kube_objects.specs.Bindings.{is_available};
ghost use Rattle.binder_model.specs.BinderDue.{is_reclaimed};
ghost use Rattle.volume_sync.specs.VolumeDecision.{refers_by_uid, volume_decision};
ghost use Rattle.volume_sync.specs.Conditions.{is_settled, names, names_none, conditions_on};

use crate::action::VolumeAction;
use crate::seen::seen_claim;
use crate::table::volume_table;
use kube_types::bindings::{PROVISIONED_BY, is_empty, is_ended, is_protected_volume};
use kube_types::lookup::{Live, Lookup};
use kube_types::objects::{Claim, Volume};
use kube_types::parts::{Policy, VolumePhase};

/// What to do about the volume. Where the look-up lacks a claim of the UID that
/// is in the volume's reference, it is `live` that tells of the claim.
pub fn decide_volume<L: Lookup>(lookup: &L, volume: &Volume, live: Live) -> VolumeAction
    ensures { result ≡ volume_decision (L.rows lookup.now) volume.now live.entry }
{
    let claim = seen_claim(lookup, volume, live);
    let conditions = conditions_on(volume, live.is_asked(), claim);
    VolumeAction::numbered(volume_table().pick(conditions))
}

/// The conditions of the table, on the claim that is seen.
pub fn conditions_on(volume: &Volume, asked: bool, claim: Option<&Claim>) -> [bool; 9]
    ensures { result ≡ conditions_on volume.now asked (option_copied claim.entry) }
{
    [
        has_uid(volume),
        is_available(volume.phase),
        is_ended(volume.phase),
        is_seen(claim),
        asked,
        names_none(claim),
        names(claim, volume),
        is_settled(volume),
        is_reclaimed(volume),
    ]
}

fn is_seen(claim: Option<&Claim>) -> bool
    ensures { result ≡ is_some (option_copied claim.entry) }
{
    match claim {
        None => false,
        Some(_) => true,
    }
}

fn has_uid(volume: &Volume) -> bool
    ensures { result ≡ refers_by_uid volume.now }
{
    match &volume.claim_ref {
        None => false,
        Some(reference) => reference.uid.is_some(),
    }
}

fn is_available(phase: VolumePhase) -> bool
    ensures { result ≡ is_available phase }
{
    match phase {
        VolumePhase::Available => true,
        _ => false,
    }
}

fn names_none(claim: Option<&Claim>) -> bool
    ensures { result ≡ names_none (option_copied claim.entry) }
{
    match claim {
        None => false,
        Some(claim) => is_empty(&claim.volume_name),
    }
}

fn names(claim: Option<&Claim>, volume: &Volume) -> bool
    ensures { result ≡ names (option_copied claim.entry) volume.now }
{
    match claim {
        None => false,
        Some(claim) => claim.volume_name.is(volume.meta.name.as_str()),
    }
}

/// Whether phase Bound is there already, or may not be written.
fn is_settled(volume: &Volume) -> bool
    ensures { result ≡ is_settled volume.now }
{
    match volume.phase {
        VolumePhase::Bound => true,
        _ => !is_protected_volume(volume),
    }
}

/// Whether the volume was provisioned, and goes with its claim.
fn is_reclaimed(volume: &Volume) -> bool
    ensures { result ≡ is_reclaimed volume.now }
{
    match volume.policy {
        Policy::Delete => volume.meta.annotations.get(PROVISIONED_BY).is_some(),
        _ => false,
    }
}
