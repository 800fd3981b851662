//! The decision on a claim.

ghost use Rattle.std.specs.Prelude.{◌≡◌, ◌&&◌, is_some};
ghost use Rattle.kube_objects.specs.Bindings.{is_empty};
ghost use Rattle.claim_sync.specs.ClaimDecision.{AssignsClass, BindsTo, BindsVolume, claim_decision, may_assign, step_of};
ghost use Rattle.claim_sync.specs.Conditions.{has_best};

use crate::action::{ClaimAction, ClaimStep};
use crate::conditions::claim_conditions;
use crate::place::{bind_place, class_place};
use crate::table::claim_table;
use kube_types::bindings::is_empty;
use kube_types::lookup::{Live, Lookup};
use kube_types::objects::Claim;

/// What to do about the claim. Where the look-up lacks the volume of a completed claim, or shows it
/// with another UID, it is `live` that tells of the volume.
pub fn decide_claim<L: Lookup>(lookup: &L, claim: &Claim, live: Live) -> ClaimAction
    ensures step { step_of result ≡ claim_decision (L.rows lookup.now) claim.now live.entry }
    ensures place { BindsTo (L.rows lookup.now) claim.now result }
    ensures volume { BindsVolume (L.rows lookup.now) result }
    ensures class { AssignsClass (L.rows lookup.now) result }
{
    let place = bind_place(lookup, claim);
    let class = class_place(lookup, claim);
    match claim_step(lookup, claim, live, is_match(claim, place), class.is_some()) {
        ClaimStep::Nothing => ClaimAction::Nothing,
        ClaimStep::ReadVolume => ClaimAction::ReadVolume,
        ClaimStep::Lost => ClaimAction::Lost,
        ClaimStep::Bind => match place {
            Some(place) => ClaimAction::Bind(place),
            None => ClaimAction::Nothing,
        },
        ClaimStep::AssignClass => match class {
            Some(place) => ClaimAction::AssignClass(place),
            None => ClaimAction::Nothing,
        },
    }
}

/// Whether the claim names no volume, and the place is that of a match.
fn is_match(claim: &Claim, place: Option<usize>) -> bool
    ensures { result ≡ (is_empty claim.now.volume_name && is_some place) }
{
    is_empty(&claim.volume_name) && place.is_some()
}

/// The step that the table gives, where it is known whether a match exists and whether a class may be
/// assigned.
fn claim_step<L: Lookup>(
    lookup: &L,
    claim: &Claim,
    live: Live,
    matched: bool,
    assignable: bool,
) -> ClaimStep
    requires matched { matched ≡ has_best (L.rows lookup.now) claim.now }
    requires assignable { assignable ≡ may_assign (L.rows lookup.now) claim.now }
    ensures { result ≡ claim_decision (L.rows lookup.now) claim.now live.entry }
{
    let conditions = claim_conditions(lookup, claim, live, matched, assignable);
    ClaimStep::numbered(claim_table().pick(conditions))
}
