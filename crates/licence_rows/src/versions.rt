//! A told volume or claim of a version.

ghost use Rattle.std.specs.Prelude.{◌≡◌, MatchOption, Some, reverse};
ghost use Rattle.kube_objects.specs.declared.objects.Claim.{Claim as ClaimData};
ghost use Rattle.kube_objects.specs.declared.objects.Object.TheVariants as objects;
ghost use Rattle.kube_objects.specs.declared.objects.Volume.{Volume as VolumeData};
ghost use Rattle.binder_model.specs.Told.{ToldClaim, ToldVolume};

use call_types::entry::Entry;
use kube_types::objects::{Claim, Object, Version, Volume};
use licence_scans::rows::{ClaimTest, OfClaims, OfVolumes, VolumeTest};
use licence_scans::told::find_told;

/// The object has this version.
#[derive(Drop)]
struct AtVersion {
    given: Option<Version>,
}

impl VolumeTest for AtVersion {
    ghost allows = { λ t v. t.given ≡ Some v.meta.version };

    fn test(&self, volume: &Volume) -> bool {
        match self.given {
            None => false,
            Some(given) => given == volume.meta.version,
        }
    }
}

impl ClaimTest for AtVersion {
    ghost allows = { λ t c. t.given ≡ Some c.meta.version };

    fn test(&self, claim: &Claim) -> bool {
        match self.given {
            None => false,
            Some(given) => given == claim.meta.version,
        }
    }
}

/// The volume that the object is.
fn as_volume<'a>(object: &'a Object) -> Option<&'a Volume>
    ensures { MatchOption result ((volume : VolumeData) → object.now ≡ objects.Volume volume → ⊥) (λ volume. object.now ≡ objects.Volume volume.now) }
{
    match object {
        Object::Volume(volume) => Some(volume),
        _ => None,
    }
}

/// The claim that the object is.
fn as_claim<'a>(object: &'a Object) -> Option<&'a Claim>
    ensures { MatchOption result ((claim : ClaimData) → object.now ≡ objects.Claim claim → ⊥) (λ claim. object.now ≡ objects.Claim claim.now) }
{
    match object {
        Object::Claim(claim) => Some(claim),
        _ => None,
    }
}

/// A volume of the version that the entries tell, by which it is chosen what else its row needs to see. Whichever it
/// is, the row decides.
pub fn volume_at<'a>(page: &'a [Entry], given: Option<Version>) -> Option<&'a Volume>
    ensures { MatchOption result (ToldVolume (λ v. given ≡ Some v.meta.version) (reverse page.now) → ⊥) (λ volume. (given ≡ Some volume.now.meta.version) × ToldVolume (λ v. v ≡ volume.now) (reverse page.now)) }
{
    let at = AtVersion { given };
    match find_told(&OfVolumes { test: &at }, page) {
        None => None,
        Some(found) => as_volume(found),
    }
}

/// A claim of the version that the entries tell, likewise.
pub fn claim_at<'a>(page: &'a [Entry], given: Option<Version>) -> Option<&'a Claim>
    ensures { MatchOption result (ToldClaim (λ c. given ≡ Some c.meta.version) (reverse page.now) → ⊥) (λ claim. (given ≡ Some claim.now.meta.version) × ToldClaim (λ c. c ≡ claim.now) (reverse page.now)) }
{
    let at = AtVersion { given };
    match find_told(&OfClaims { test: &at }, page) {
        None => None,
        Some(found) => as_claim(found),
    }
}
