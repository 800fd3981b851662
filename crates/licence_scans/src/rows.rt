//! Told volumes, claims and pods, and writes at a told object.

ghost use Rattle.std.specs.Prelude.{◌≡◌, ◌↔◌, IsTrue, reverse};
ghost use Rattle.kube_objects.specs.declared.objects.Claim.{Claim as ClaimData};
ghost use Rattle.kube_objects.specs.declared.objects.Object.{Object};
ghost use Rattle.kube_objects.specs.declared.objects.Pod.{Pod as PodData};
ghost use Rattle.kube_objects.specs.declared.objects.Volume.{Volume as VolumeData};
ghost use Rattle.kube_objects.specs.Keys.{meta_of};
ghost use Rattle.binder_model.specs.At.{IsWrittenAt};
ghost use Rattle.binder_model.specs.Told.{IsClaimWith, IsPodWith, IsVolumeWith, ToldClaim, ToldObject, ToldPod, ToldVolume};

use crate::at::is_written_at;
use crate::shared::{SharedTest, told_shared};
use crate::told::{ObjectTest, told_object};
use call_types::entry::Entry;
use kube_types::key::meta_of;
use kube_types::objects::{Claim, Object, Pod, Version, Volume};
use plain_data::copies::Plain;
use plain_data::text::Text;

/// A condition on a volume.
pub trait VolumeTest {
    ghost allows: { Self → VolumeData → Type 0 };

    fn test(&self, volume: &Volume) -> bool
        ensures { IsTrue result ↔ allows self.now volume.now };
}

/// A condition on a claim.
pub trait ClaimTest {
    ghost allows: { Self → ClaimData → Type 0 };

    fn test(&self, claim: &Claim) -> bool
        ensures { IsTrue result ↔ allows self.now claim.now };
}

/// The object is a volume of which the condition holds.
#[derive(Drop)]
pub struct OfVolumes<'a, T> {
    pub test: &'a T,
}

impl<'a, T: VolumeTest> ObjectTest for OfVolumes<'a, T> {
    ghost allows = { λ t o. IsVolumeWith (T.allows t.test.now) o };

    fn test(&self, object: &Object) -> bool {
        match object {
            Object::Volume(volume) => self.test.test(volume),
            _ => false,
        }
    }
}

/// The object is a claim of which the condition holds.
#[derive(Drop)]
pub struct OfClaims<'a, T> {
    pub test: &'a T,
}

impl<'a, T: ClaimTest> ObjectTest for OfClaims<'a, T> {
    ghost allows = { λ t o. IsClaimWith (T.allows t.test.now) o };

    fn test(&self, object: &Object) -> bool {
        match object {
            Object::Claim(claim) => self.test.test(claim),
            _ => false,
        }
    }
}

/// A condition on a pod.
pub trait PodTest {
    ghost allows: { Self → PodData → Type 0 };

    fn test(&self, pod: &Pod) -> bool
        ensures { IsTrue result ↔ allows self.now pod.now };
}

/// The object is a pod of which the condition holds.
#[derive(Drop)]
pub struct OfPods<'a, T> {
    pub test: &'a T,
}

impl<'a, T: PodTest> ObjectTest for OfPods<'a, T> {
    ghost allows = { λ t o. IsPodWith (T.allows t.test.now) o };

    fn test(&self, object: &Object) -> bool {
        match object {
            Object::Pod(pod) => self.test.test(pod),
            _ => false,
        }
    }
}

/// Whether a pod was told of which the condition holds.
pub fn told_pod<T: PodTest>(test: &T, mine: &[Entry]) -> bool
    ensures { IsTrue result ↔ ToldPod (T.allows test.now) (reverse mine.now) }
{
    let test = OfPods { test };
    told_object(&test, mine)
}

/// Whether a volume was told of which the condition holds.
pub fn told_volume<T: VolumeTest>(test: &T, mine: &[Entry]) -> bool
    ensures { IsTrue result ↔ ToldVolume (T.allows test.now) (reverse mine.now) }
{
    let test = OfVolumes { test };
    told_object(&test, mine)
}

/// Whether a claim was told of which the condition holds.
pub fn told_claim<T: ClaimTest>(test: &T, mine: &[Entry]) -> bool
    ensures { IsTrue result ↔ ToldClaim (T.allows test.now) (reverse mine.now) }
{
    let test = OfClaims { test };
    told_object(&test, mine)
}

/// The write is at the object, and the condition holds of it.
#[derive(Drop)]
struct WrittenAt<'a, T> {
    given: Option<Version>,
    namespace: &'a Text,
    name: &'a Text,
    row: &'a T,
}

impl<'a, T: ObjectTest> SharedTest for WrittenAt<'a, T> {
    ghost allows = { λ t o. IsWrittenAt t.given t.namespace.now t.name.now (meta_of o) };

    ghost pairs = { λ t o x. o ≡ x };

    ghost holds = { λ t o. T.allows t.row.now o };

    fn may(&self, object: &Object) -> bool {
        is_written_at(self.given, self.namespace, self.name, meta_of(object))
    }

    fn alike(&self, object: &Object, other: &Object) -> bool {
        object.same(other)
    }

    fn row(&self, object: &Object) -> bool {
        self.row.test(object)
    }

    fn shares(&self) {
        let _row = self.row;
    }
}

/// Whether the write is at a told object of which the condition holds. Of all told objects that are one,
/// the condition is asked once.
fn told_object_at<T: ObjectTest>(
    row: &T,
    mine: &[Entry],
    given: Option<Version>,
    namespace: &Text,
    name: &Text,
) -> bool
    ensures { IsTrue result ↔ ToldObject (λ o. IsWrittenAt given namespace.now name.now (meta_of o) × T.allows row.now o) (reverse mine.now) }
{
    let at = WrittenAt {
        given,
        namespace,
        name,
        row,
    };
    told_shared(&at, mine)
}

/// Whether the write is at a told volume of which the condition holds.
pub fn told_volume_at<T: VolumeTest>(
    row: &T,
    mine: &[Entry],
    given: Option<Version>,
    namespace: &Text,
    name: &Text,
) -> bool
    ensures { IsTrue result ↔ ToldVolume (λ v. IsWrittenAt given namespace.now name.now v.meta × T.allows row.now v) (reverse mine.now) }
{
    let volumes = OfVolumes { test: row };
    told_object_at(&volumes, mine, given, namespace, name)
}

/// Whether the write is at a told claim of which the condition holds.
pub fn told_claim_at<T: ClaimTest>(
    row: &T,
    mine: &[Entry],
    given: Option<Version>,
    namespace: &Text,
    name: &Text,
) -> bool
    ensures { IsTrue result ↔ ToldClaim (λ c. IsWrittenAt given namespace.now name.now c.meta × T.allows row.now c) (reverse mine.now) }
{
    let claims = OfClaims { test: row };
    told_object_at(&claims, mine, given, namespace, name)
}
