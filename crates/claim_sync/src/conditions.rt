//! The conditions of the table on a claim.

ghost use Rattle.std.specs.Prelude.{◌≡◌, ◌&&◌, None, Some, is_none, is_some};
ghost use Rattle.std.specs.Option.{option_copied};
ghost use Rattle.binder_model.specs.BindWrites.{next_write};
ghost use Rattle.claim_sync.specs.ClaimDecision.{has_write, is_blocked, is_open_to, may_assign};
ghost use Rattle.claim_sync.specs.Conditions.{claim_conditions, conditions_on, has_best};

use crate::seen::{has_other_uid, live_volume, named_volume, reads_live};
use bind_writes::next_step;
use kube_types::bindings::{
    carries, is_completed, is_deleting, is_empty, is_for, is_lost, is_protected_volume,
};
use kube_types::lookup::{Live, Lookup};
use kube_types::objects::{Claim, Volume};
use kube_types::parts::VolumePhase;
use volume_match::fits;

/// The conditions, where it is known whether a match exists and whether a class may be assigned. Those
/// on a volume are of the look-up's, or of the one that was read by itself, with which no binding is
/// made.
pub(crate) fn claim_conditions<L: Lookup>(
    lookup: &L,
    claim: &Claim,
    live: Live,
    matched: bool,
    assignable: bool,
) -> [bool; 12]
    requires matched { matched ≡ has_best (L.rows lookup.now) claim.now }
    requires assignable { assignable ≡ may_assign (L.rows lookup.now) claim.now }
    ensures { result ≡ claim_conditions (L.rows lookup.now) claim.now live.entry }
{
    let named = named_volume(lookup, claim);
    if reads_live(claim, live, named) {
        conditions_on(claim, matched, assignable, true, false, live_volume(live))
    } else {
        conditions_on(claim, matched, assignable, live.is_asked(), true, named)
    }
}

/// The conditions of the table with this volume. Those on a volume that is not seen are false. The caller says whether a
/// match exists, whether a class may be assigned, whether the volume was asked for by itself, and whether a binding may be
/// made with it.
pub fn conditions_on(
    claim: &Claim,
    matched: bool,
    assignable: bool,
    asked: bool,
    bindable: bool,
    volume: Option<&Volume>,
) -> [bool; 12]
    ensures { result ≡ conditions_on claim.now matched assignable asked bindable (option_copied volume.entry) }
{
    match volume {
        None => conditions_without(claim, matched, assignable, asked, bindable),
        Some(volume) => conditions_with(claim, matched, assignable, asked, bindable, volume),
    }
}

fn conditions_without(
    claim: &Claim,
    matched: bool,
    assignable: bool,
    asked: bool,
    bindable: bool,
) -> [bool; 12]
    ensures { result ≡ conditions_on claim.now matched assignable asked bindable None }
{
    [
        is_completed(claim),
        is_deleting(&claim.meta),
        !is_empty(&claim.volume_name),
        matched,
        assignable,
        is_lost(claim.phase),
        false,
        asked,
        false,
        false,
        false,
        false,
    ]
}

fn conditions_with(
    claim: &Claim,
    matched: bool,
    assignable: bool,
    asked: bool,
    bindable: bool,
    volume: &Volume,
) -> [bool; 12]
    ensures { result ≡ conditions_on claim.now matched assignable asked bindable (Some volume.now) }
{
    [
        is_completed(claim),
        is_deleting(&claim.meta),
        !is_empty(&claim.volume_name),
        matched,
        assignable,
        is_lost(claim.phase),
        true,
        asked,
        is_blocked(volume),
        is_open_to(volume, claim),
        has_other_uid(volume, claim),
        may_write(bindable, volume, claim),
    ]
}

/// Whether the volume may not be taken anew.
fn is_blocked(volume: &Volume) -> bool
    ensures { result ≡ is_blocked volume.now }
{
    match volume.phase {
        VolumePhase::Released | VolumePhase::Failed => true,
        _ => is_deleting(&volume.meta) || !is_protected_volume(volume),
    }
}

/// Whether the volume may be bound by name: it fits where it has no reference, and else is for the claim.
fn is_open_to(volume: &Volume, claim: &Claim) -> bool
    ensures { result ≡ is_open_to volume.now claim.now }
{
    if is_free(volume) {
        fits(volume, claim)
    } else {
        is_for(volume, claim)
    }
}

/// Whether the volume has no reference.
fn is_free(volume: &Volume) -> bool
    ensures { result ≡ is_none volume.now.claim_ref }
{
    volume.claim_ref.is_none()
}

/// Whether a binding may be made, and a write of it would change something.
fn may_write(bindable: bool, volume: &Volume, claim: &Claim) -> bool
    ensures { result ≡ (bindable && has_write volume.now claim.now) }
{
    bindable && has_write(volume, claim)
}

/// Whether a write of the binding would change something, and may be made.
fn has_write(volume: &Volume, claim: &Claim) -> bool
    ensures { result ≡ has_write volume.now claim.now }
{
    (is_free(volume) || carries(volume, claim)) && has_step(volume, claim)
}

fn has_step(volume: &Volume, claim: &Claim) -> bool
    ensures { result ≡ is_some (next_write volume.now claim.now) }
{
    match next_step(volume, claim) {
        None => false,
        Some(_) => true,
    }
}
