//! The decisions after an object was read by itself.

ghost use Rattle.std.specs.Prelude.{◌≡◌, []};
ghost use Rattle.std.specs.Option.{option_copied};
ghost use Rattle.kube_objects.specs.Bindings.{is_available};
ghost use Rattle.claim_sync.specs.ClaimDecision.{step_of};
ghost use Rattle.volume_sync.specs.VolumeDecision.{refers_by_uid};
ghost use Rattle.binder_machines.specs.Machines.{claim_read, volume_read};

use claim_sync::{ClaimAction, decide_claim};
use kube_types::key::Key;
use kube_types::lookup::{Live, Lookup};
use kube_types::objects::{Claim, Object, Volume};
use kube_types::parts::{Kind, VolumePhase};
use volume_index::index::VolumeIndex;
use volume_sync::{VolumeAction, decide_volume};

/// A look-up that shows nothing: what was read by itself decides alone.
struct NoRows;

impl Lookup for NoRows {
    ghost use Rattle.std.specs.Prelude.{[]};

    ghost rows = { λ _. [] };

    fn count(&self, _kind: Kind) -> usize {
        0
    }

    fn of_kind(&self, _kind: Kind) -> &[Object] {
        &[]
    }

    fn at(&self, _kind: Kind, _place: usize) -> Option<&Object> {
        None
    }

    fn row(&self, _key: &Key) -> Option<&Object> {
        None
    }

    fn volumes(&self) -> Option<&VolumeIndex> {
        None
    }
}

/// The decision on the volume, where the claim of its reference was read by itself.
#[tactic(auto, using(crate::proofs::Shown::volume_alone))]
pub(crate) fn volume_read(volume: &Volume, object: Option<&Object>) -> VolumeAction
    ensures { result ≡ volume_read volume.now (option_copied object.entry) }
{
    match object {
        None => decide_volume(&NoRows, volume, Live::Absent),
        Some(object) => decide_volume(&NoRows, volume, Live::Present(object)),
    }
}

/// The decision on the claim, where the volume that it names was read by itself.
#[tactic(auto, using(crate::proofs::Shown::claim_alone))]
pub(crate) fn claim_read(claim: &Claim, object: Option<&Object>) -> ClaimAction
    ensures { step_of result ≡ claim_read claim.now (option_copied object.entry) }
{
    match object {
        None => decide_claim(&NoRows, claim, Live::Absent),
        Some(object) => decide_claim(&NoRows, claim, Live::Present(object)),
    }
}

/// Whether the volume's reference has a UID.
pub(crate) fn has_uid(volume: &Volume) -> bool
    ensures { result ≡ refers_by_uid volume.now }
{
    match &volume.claim_ref {
        None => false,
        Some(reference) => reference.uid.is_some(),
    }
}

pub(crate) fn is_available(phase: VolumePhase) -> bool
    ensures { result ≡ is_available phase }
{
    match phase {
        VolumePhase::Available => true,
        _ => false,
    }
}
