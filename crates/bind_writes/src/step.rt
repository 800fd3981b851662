//! Which write of a binding comes next.

ghost use Rattle.std.specs.Prelude.{◌≡◌, option_map};
ghost use Rattle.binder_model.specs.BindWrites.{claim_write, is_completed_with, next_write, shows_bound};
ghost use Rattle.binder_model.specs.Same.{same_amount, same_modes};
ghost use Rattle.bind_writes.specs.Writes.{write_of};

use kube_types::bindings::{carries, is_completed, is_protected_volume};
use kube_types::objects::{Amount, Claim, Volume};
use kube_types::parts::{ClaimPhase, Modes, VolumePhase};

/// The writes of a binding, in order.
#[derive(Clone, Copy, Debug, PartialEq, Eq)]
pub enum Write {
    Reference,
    Bound,
    Completion,
    ClaimStatus,
}

/// The first of the four writes that would change anything. None where none would, and where the
/// next one may not be made: over a volume that is Released or Failed, and Bound on a volume
/// without its protection finalizer.
#[tactic(auto, unfolding(binder_model::specs::BindWrites::next_write))]
pub fn next_step(volume: &Volume, claim: &Claim) -> Option<Write>
    ensures { option_map (write_of volume.now claim.now) result ≡ next_write volume.now claim.now }
{
    if !carries(volume, claim) {
        return match volume.phase {
            VolumePhase::Released | VolumePhase::Failed => None,
            _ => Some(Write::Reference),
        };
    }
    match volume.phase {
        VolumePhase::Bound => claim_step(volume, claim),
        VolumePhase::Released | VolumePhase::Failed => None,
        _ => {
            if is_protected_volume(volume) {
                Some(Write::Bound)
            } else {
                None
            }
        }
    }
}

/// The first write on the claim that would change anything.
#[tactic(auto, unfolding(binder_model::specs::BindWrites::claim_write))]
fn claim_step(volume: &Volume, claim: &Claim) -> Option<Write>
    ensures { option_map (write_of volume.now claim.now) result ≡ claim_write volume.now claim.now }
{
    if !is_completed_with(claim, volume) {
        Some(Write::Completion)
    } else if !shows_bound(claim, volume) {
        Some(Write::ClaimStatus)
    } else {
        None
    }
}

fn is_completed_with(claim: &Claim, volume: &Volume) -> bool
    ensures { result ≡ is_completed_with claim.now volume.now }
{
    is_completed(claim) && claim.volume_name.is(volume.meta.name.as_str())
}

fn shows_bound(claim: &Claim, volume: &Volume) -> bool
    ensures { result ≡ shows_bound claim.now volume.now }
{
    match (claim.phase, &claim.got) {
        (ClaimPhase::Bound, Some(got)) => {
            same_modes(claim.got_modes, volume.modes) && same_amount(got, &volume.amount)
        }
        _ => false,
    }
}

fn same_modes(left: Modes, right: Modes) -> bool
    ensures { result ≡ same_modes left right }
{
    left.rwo == right.rwo
        && left.rox == right.rox
        && left.rwx == right.rwx
        && left.rwop == right.rwop
}

fn same_amount(left: &Amount, right: &Amount) -> bool
    ensures { result ≡ same_amount left.now right.now }
{
    left.text.is(right.text.as_str()) && left.bytes == right.bytes
}
