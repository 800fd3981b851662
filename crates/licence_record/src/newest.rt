//! The newest told of each kind, by its name, and whether some newest told object meets a condition.

ghost use Rattle.std.specs.Prelude.{◌≡◌, IfNone, IfSome, IsTrue, reverse};
ghost use Rattle.kube_objects.specs.declared.objects.Claim.{Claim as ClaimData};
ghost use Rattle.kube_objects.specs.declared.objects.Class.{Class as ClassData};
ghost use Rattle.kube_objects.specs.declared.objects.Node.{Node as NodeData};
ghost use Rattle.kube_objects.specs.declared.objects.Pod.{Pod as PodData};
ghost use Rattle.kube_objects.specs.declared.objects.Volume.{Volume as VolumeData};
ghost use Rattle.kube_objects.specs.declared.objects.Object.TheVariants as objects;
ghost use Rattle.kube_objects.specs.Keys.{key_of};
ghost use Rattle.binder_model.specs.ObjectKeys.{claim_key, class_key, node_key, volume_key};
ghost use Rattle.binder_model.specs.Told.{IsNewest};
ghost use Rattle.licence_rows.specs.Asking.{IsNewestWith, SomeNewest};
ghost use Rattle.evidence_pages.specs.Parts.{IsPart};
ghost use Rattle.licence_record.specs.Judged.{Judges};

use crate::record::Record;
use crate::sure::{SureShared, SureTest, told_shared};
use call_types::entry::Entry;
use kube_types::key::{Key, kind_of, meta_of};
use kube_types::objects::{Claim, Class, Node, Object, Pod, Volume};
use kube_types::parts::Kind;
use licence_scans::newest::has_key_of;
use licence_scans::told::ObjectTest;

/// The newest told class of the name.
pub fn newest_class<'a, R: Record>(seat: &'a R, name: &str) -> Option<&'a Class>
    ensures some { IfSome result (λ class. IsNewest (R.told seat.now) (class_key name.now) (objects.Class class.now)) }
    ensures none { R.whole seat.now → IfNone result ((class : ClassData) → IsNewest (R.told seat.now) (class_key name.now) (objects.Class class) → ⊥) }
{
    match seat.newest(Kind::StorageClass, "", name) {
        Some(Object::Class(class)) => Some(class),
        _ => None,
    }
}

/// The newest told node of the name.
pub fn newest_node<'a, R: Record>(seat: &'a R, name: &str) -> Option<&'a Node>
    ensures some { IfSome result (λ node. IsNewest (R.told seat.now) (node_key name.now) (objects.Node node.now)) }
    ensures none { R.whole seat.now → IfNone result ((node : NodeData) → IsNewest (R.told seat.now) (node_key name.now) (objects.Node node) → ⊥) }
{
    match seat.newest(Kind::Node, "", name) {
        Some(Object::Node(node)) => Some(node),
        _ => None,
    }
}

/// The newest told claim of the namespace and name.
pub fn newest_claim<'a, R: Record>(seat: &'a R, namespace: &str, name: &str) -> Option<&'a Claim>
    ensures some { IfSome result (λ claim. IsNewest (R.told seat.now) (claim_key namespace.now name.now) (objects.Claim claim.now)) }
    ensures none { R.whole seat.now → IfNone result ((claim : ClaimData) → IsNewest (R.told seat.now) (claim_key namespace.now name.now) (objects.Claim claim) → ⊥) }
{
    match seat.newest(Kind::PersistentVolumeClaim, namespace, name) {
        Some(Object::Claim(claim)) => Some(claim),
        _ => None,
    }
}

/// The newest told volume of the name.
pub fn newest_volume<'a, R: Record>(seat: &'a R, name: &str) -> Option<&'a Volume>
    ensures some { IfSome result (λ volume. IsNewest (R.told seat.now) (volume_key name.now) (objects.Volume volume.now)) }
    ensures none { R.whole seat.now → IfNone result ((volume : VolumeData) → IsNewest (R.told seat.now) (volume_key name.now) (objects.Volume volume) → ⊥) }
{
    match seat.newest(Kind::PersistentVolume, "", name) {
        Some(Object::Volume(volume)) => Some(volume),
        _ => None,
    }
}

/// The newest told volume of the key.
pub fn newest_volume_of<'a, R: Record>(seat: &'a R, key: &Key) -> Option<&'a Volume>
    ensures some { IfSome result (λ volume. IsNewest (R.told seat.now) key.now (objects.Volume volume.now)) }
    ensures none { R.whole seat.now → IfNone result ((volume : VolumeData) → IsNewest (R.told seat.now) key.now (objects.Volume volume) → ⊥) }
{
    match seat.newest(key.kind, key.namespace.as_str(), key.name.as_str()) {
        Some(Object::Volume(volume)) => Some(volume),
        _ => None,
    }
}

/// The newest told pod of the key.
pub fn newest_pod<'a, R: Record>(seat: &'a R, key: &Key) -> Option<&'a Pod>
    ensures some { IfSome result (λ pod. IsNewest (R.told seat.now) key.now (objects.Pod pod.now)) }
    ensures none { R.whole seat.now → IfNone result ((pod : PodData) → IsNewest (R.told seat.now) key.now (objects.Pod pod) → ⊥) }
{
    match seat.newest(key.kind, key.namespace.as_str(), key.name.as_str()) {
        Some(Object::Pod(pod)) => Some(pod),
        _ => None,
    }
}

/// The newest told of the key is an object of which both conditions hold, where the first holds of one
/// that was told.
#[derive(Drop)]
struct NewestRecorded<'a, R, T, U> {
    may: &'a T,
    row: &'a U,
    seat: &'a R,
}

impl<'a, R: Record, T: ObjectTest, U: SureTest> NewestRecorded<'a, R, T, U> {
    fn has(&self, kind: Kind, namespace: &str, name: &str) -> bool
        ensures { Judges (R.whole self.now.seat.now × U.sure self.now.row.now) result (IsNewestWith (λ x. T.allows self.now.may.now x × U.allows self.now.row.now x) (R.told self.now.seat.now) (record { kind = kind; namespace = namespace.now; name = name.now })) }
    {
        match self.seat.newest(kind, namespace, name) {
            None => false,
            Some(newest) => {
                if !self.may.test(newest) {
                    return false;
                }
                self.row.test(newest)
            }
        }
    }
}

impl<'a, R: Record, T: ObjectTest, U: SureTest> SureShared for NewestRecorded<'a, R, T, U> {
    ghost allows = { λ t o. T.allows t.may.now o };

    ghost pairs = { λ t o x. key_of o ≡ key_of x };

    ghost holds = { λ t o. IsNewestWith (λ x. T.allows t.may.now x × U.allows t.row.now x) (R.told t.seat.now) (key_of o) };

    ghost sure = { λ t. R.whole t.seat.now × U.sure t.row.now };

    fn may(&self, object: &Object) -> bool {
        self.may.test(object)
    }

    fn alike(&self, object: &Object, other: &Object) -> bool {
        has_key_of(object, other)
    }

    fn row(&self, object: &Object) -> bool {
        let meta = meta_of(object);
        self.has(kind_of(object), meta.namespace.as_str(), meta.name.as_str())
    }

    fn shares(&self) {
        let _seat = self.seat;
    }
}

/// Whether the newest told of some key is an object of which both conditions hold. The keys are those of the
/// objects on the page of which the first does; the second is asked once for each, of its newest alone.
pub fn some_newest<R: Record, T: ObjectTest, U: SureTest>(
    may: &T,
    row: &U,
    page: &[Entry],
    seat: &R,
) -> bool
    requires part { IsPart (reverse page.now) (R.told seat.now) }
    requires all { R.whole seat.now → reverse page.now ≡ R.told seat.now }
    ensures { Judges (R.whole seat.now × U.sure row.now) result (SomeNewest (λ o. T.allows may.now o × U.allows row.now o) (R.told seat.now)) }
{
    let newest = NewestRecorded { may, row, seat };
    told_shared(&newest, page)
}
