//! The volumes that refer to a claim, by an index.

ghost use Rattle.std.specs.Prelude.{◌≡◌, ◌≤◌, ◌+◌, List, length, true, false, slice_get, Some};
ghost use Rattle.std.specs.List.{AllWithin};
ghost use Rattle.kube_objects.specs.declared.objects.Volume.{Volume as VolumeData};
ghost use Rattle.volume_index.specs.VolumeIndex.{HoldsThose, StandsFor};
ghost use Rattle.volume_index.specs.VolumeOrders.{AreInOrder, by_owner};
ghost use Rattle.volume_index.specs.IndexPlaces.{IsOwnerStart};
ghost use Rattle.volume_match.specs.Passing.{refers_to_claim};
ghost use Rattle.volume_match.specs.Steps.Choices.{claim_owner, ref_is_to};

use kube_types::bindings::names_claim;
use kube_types::objects::{Claim, Volume};
use kube_types::shared::Shared;
use volume_index::index::VolumeIndex;
use volume_index::order::{OwnerFrom, owner_start};

/// Whether the volume's reference has the namespace and the name of the claim.
pub(crate) fn is_named(volume: &Volume, claim: &Claim) -> bool
    ensures { result ≡ ref_is_to claim.now volume.now.claim_ref }
{
    match &volume.claim_ref {
        None => false,
        Some(reference) => names_claim(reference, claim),
    }
}

/// Where the volumes begin that refer to the claim or to later ones.
pub(crate) fn own_start(owned: &[Shared<Volume>], claim: &Claim) -> usize
    requires { AreInOrder by_owner owned.now }
    ensures bound { result ≤ length owned.now }
    ensures start { IsOwnerStart (claim_owner claim.now) owned.now result }
{
    let owner = OwnerFrom {
        namespace: claim.meta.namespace.as_str(),
        name: claim.meta.name.as_str(),
    };
    owner_start(owned, &owner)
}

/// Where they end that refer to the claim, of those from this place on.
fn own_end(owned: &[Shared<Volume>], claim: &Claim, start: usize) -> usize
    requires { start ≤ length owned.now }
    ensures from { start ≤ result }
    ensures bound { result ≤ length owned.now }
    ensures named { AllWithin (λ v. refers_to_claim claim.now v ≡ true) owned.now start result }
    ensures next { (v : VolumeData) → slice_get owned.now result ≡ Some v → refers_to_claim claim.now v ≡ false }
{
    for place in start..owned.len() {
        let volume = owned[place].get();
        if !is_named(volume, claim) {
            return place;
        }
    }
    owned.len()
}

/// The volumes that refer to the claim by its namespace and name, those of the index alone. It looks at no others, and takes no
/// memory.
pub fn referring_to<'a>(index: &'a VolumeIndex, claim: &Claim) -> &'a [Shared<Volume>]
    ensures { (volumes : List VolumeData) → StandsFor index.now volumes → HoldsThose (refers_to_claim claim.now) volumes result.now }
{
    let owned = index.owned();
    let start = own_start(owned, claim);
    let end = own_end(owned, claim, start);
    &owned[start..end]
}
