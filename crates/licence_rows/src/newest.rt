//! The newest told class or pod of a name, in the list; whether a newest told object meets a condition.

ghost use Rattle.std.specs.Prelude.{◌≡◌, ◌↔◌, IfNone, IfSome, IsTrue, reverse};
ghost use Rattle.kube_objects.specs.declared.objects.Class.{Class as ClassData};
ghost use Rattle.kube_objects.specs.declared.objects.Pod.{Pod as PodData};
ghost use Rattle.kube_objects.specs.declared.objects.Object.TheVariants as objects;
ghost use Rattle.binder_model.specs.ObjectKeys.{class_key, pod_key};
ghost use Rattle.kube_objects.specs.Keys.{key_of};
ghost use Rattle.binder_model.specs.Told.{IsNewest};
ghost use Rattle.licence_rows.specs.Asking.{IsNewestWith, SomeNewest};

use call_types::entry::Entry;
use kube_types::key::{kind_of, meta_of};
use kube_types::objects::{Class, Object, Pod};
use kube_types::parts::Kind;
use licence_scans::newest::{has_key_of, newest_object};
use licence_scans::shared::{SharedTest, told_shared};
use licence_scans::told::ObjectTest;

/// The newest told class of the name.
pub fn newest_class<'a>(mine: &'a [Entry], name: &str) -> Option<&'a Class>
    ensures some { IfSome result (λ class. IsNewest (reverse mine.now) (class_key name.now) (objects.Class class.now)) }
    ensures none { IfNone result ((class : ClassData) → IsNewest (reverse mine.now) (class_key name.now) (objects.Class class) → ⊥) }
{
    match newest_object(mine, Kind::StorageClass, "", name) {
        Some(Object::Class(class)) => Some(class),
        _ => None,
    }
}

/// The newest told pod of the namespace and name.
pub fn newest_pod_named<'a>(mine: &'a [Entry], namespace: &str, name: &str) -> Option<&'a Pod>
    ensures some { IfSome result (λ pod. IsNewest (reverse mine.now) (pod_key namespace.now name.now) (objects.Pod pod.now)) }
    ensures none { IfNone result ((pod : PodData) → IsNewest (reverse mine.now) (pod_key namespace.now name.now) (objects.Pod pod) → ⊥) }
{
    match newest_object(mine, Kind::Pod, namespace, name) {
        Some(Object::Pod(pod)) => Some(pod),
        _ => None,
    }
}

/// The newest told of the key is an object of which both conditions hold, where the first holds of one
/// that was told.
#[derive(Drop)]
struct NewestOfKey<'a, T, U> {
    may: &'a T,
    row: &'a U,
    mine: &'a [Entry],
}

impl<'a, T: ObjectTest, U: ObjectTest> SharedTest for NewestOfKey<'a, T, U> {
    ghost allows = { λ t o. T.allows t.may.now o };

    ghost pairs = { λ t o x. key_of o ≡ key_of x };

    ghost holds = { λ t o. IsNewestWith (λ x. T.allows t.may.now x × U.allows t.row.now x) (reverse t.mine.now) (key_of o) };

    fn may(&self, object: &Object) -> bool {
        self.may.test(object)
    }

    fn alike(&self, object: &Object, other: &Object) -> bool {
        has_key_of(object, other)
    }

    fn row(&self, object: &Object) -> bool {
        let meta = meta_of(object);
        let namespace = meta.namespace.as_str();
        match newest_object(self.mine, kind_of(object), namespace, meta.name.as_str()) {
            None => false,
            Some(newest) => {
                if !self.may.test(newest) {
                    return false;
                }
                self.row.test(newest)
            }
        }
    }

    fn shares(&self) {
        let _mine = self.mine;
    }
}

/// Whether the newest told of some key is an object of which both conditions hold. The second is asked
/// of the newest alone, and once for each key of a told object of which the first holds.
pub fn some_newest<T: ObjectTest, U: ObjectTest>(may: &T, row: &U, mine: &[Entry]) -> bool
    ensures { IsTrue result ↔ SomeNewest (λ o. T.allows may.now o × U.allows row.now o) (reverse mine.now) }
{
    let newest = NewestOfKey { may, row, mine };
    told_shared(&newest, mine)
}
