//! The summary of objects.

ghost use Rattle.std.specs.Prelude.{◌≡◌};
ghost use Rattle.history_text.specs.Summaries.{volume_place, claim_place, is_volume_in, is_claim_in, is_pod, count_volumes, count_claims, count_pods, volume_counts, claim_counts, summary_of};

use crate::summary::{ClaimCounts, Ending, Summary, VolumeCounts};
use kube_types::objects::Object;
use kube_types::parts::{ClaimPhase, VolumePhase};

fn volume_place(phase: VolumePhase) -> u8
    ensures { result ≡ volume_place phase }
{
    match phase {
        VolumePhase::Pending => 0,
        VolumePhase::Available => 1,
        VolumePhase::Bound => 2,
        VolumePhase::Released => 3,
        VolumePhase::Failed => 4,
    }
}

fn claim_place(phase: ClaimPhase) -> u8
    ensures { result ≡ claim_place phase }
{
    match phase {
        ClaimPhase::Pending => 0,
        ClaimPhase::Bound => 1,
        ClaimPhase::Lost => 2,
    }
}

/// Whether the object is a volume in this phase.
pub fn is_volume_in(phase: VolumePhase, object: &Object) -> bool
    ensures { result ≡ is_volume_in phase object.now }
{
    match object {
        Object::Volume(volume) => volume_place(volume.phase) == volume_place(phase),
        _ => false,
    }
}

/// Whether the object is a claim in this phase.
pub fn is_claim_in(phase: ClaimPhase, object: &Object) -> bool
    ensures { result ≡ is_claim_in phase object.now }
{
    match object {
        Object::Claim(claim) => claim_place(claim.phase) == claim_place(phase),
        _ => false,
    }
}

/// Whether the object is a pod.
pub fn is_pod(object: &Object) -> bool
    ensures { result ≡ is_pod object.now }
{
    matches!(object, Object::Pod(_))
}

/// The number of volumes in this phase.
pub fn count_volumes(phase: VolumePhase, objects: &[Object]) -> u64
    ensures { result ≡ count_volumes phase objects.now }
{
    let mut count = 0;
    for object in objects {
        if is_volume_in(phase, object) {
            count += 1;
        }
    }
    count
}

/// The number of claims in this phase.
pub fn count_claims(phase: ClaimPhase, objects: &[Object]) -> u64
    ensures { result ≡ count_claims phase objects.now }
{
    let mut count = 0;
    for object in objects {
        if is_claim_in(phase, object) {
            count += 1;
        }
    }
    count
}

/// The number of pods.
pub fn count_pods(objects: &[Object]) -> u64
    ensures { result ≡ count_pods objects.now }
{
    let mut count = 0;
    for object in objects {
        if is_pod(object) {
            count += 1;
        }
    }
    count
}

fn volume_counts(objects: &[Object]) -> VolumeCounts
    ensures { result ≡ volume_counts objects.now }
{
    VolumeCounts {
        pending: count_volumes(VolumePhase::Pending, objects),
        available: count_volumes(VolumePhase::Available, objects),
        bound: count_volumes(VolumePhase::Bound, objects),
        released: count_volumes(VolumePhase::Released, objects),
        failed: count_volumes(VolumePhase::Failed, objects),
    }
}

fn claim_counts(objects: &[Object]) -> ClaimCounts
    ensures { result ≡ claim_counts objects.now }
{
    ClaimCounts {
        pending: count_claims(ClaimPhase::Pending, objects),
        bound: count_claims(ClaimPhase::Bound, objects),
        lost: count_claims(ClaimPhase::Lost, objects),
    }
}

/// The summary of these objects at a version of the store, with the numbers of mounted pods, of
/// data that are there, and of device calls.
pub fn summary_of(
    objects: &[Object],
    version: u64,
    mounted: u64,
    stored: u64,
    calls: u64,
    ending: Ending,
) -> Summary
    ensures { result ≡ summary_of objects.now version mounted stored calls ending }
{
    Summary {
        writes: version,
        objects: objects.len() as u64,
        volumes: volume_counts(objects),
        claims: claim_counts(objects),
        pods: count_pods(objects),
        mounted,
        stored,
        calls,
        ending,
    }
}
