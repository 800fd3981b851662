//! The caches, with the place at which the row of the next key is likely to stand.

ghost use Rattle.std.specs.Prelude.{◌≡◌};
ghost use Rattle.kube_objects.specs.Keys.{key_of, same_key};

use informer_cache::caches::Caches;
use kube_types::key::{Key, kind_of, meta_of, same_kind};
use kube_types::lookup::Lookup;
use kube_types::objects::Object;
use kube_types::parts::Kind;
use volume_index::index::VolumeIndex;

/// Caches whose object at this place, among those of its kind, is looked at first. Where it is the one that is looked for,
/// there is no search.
#[derive(Clone, Copy)]
pub(crate) struct Near<'a> {
    pub(crate) caches: &'a Caches,
    pub(crate) place: usize,
}

impl<'a> Lookup for Near<'a> {
    ghost use Rattle.informer_cache.specs.All.{all_objects};

    ghost rows = { λ n. all_objects n.caches.now };

    fn count(&self, kind: Kind) -> usize {
        self.caches.count(kind)
    }

    fn of_kind(&self, kind: Kind) -> &[Object] {
        self.caches.of_kind(kind)
    }

    fn at(&self, kind: Kind, place: usize) -> Option<&Object> {
        self.caches.at(kind, place)
    }

    fn row(&self, key: &Key) -> Option<&Object> {
        match self.caches.at(key.kind, self.place) {
            Some(object) => {
                if is_of(key, object) {
                    Some(object)
                } else {
                    self.caches.row(key)
                }
            }
            None => self.caches.row(key),
        }
    }

    fn volumes(&self) -> Option<&VolumeIndex> {
        self.caches.volumes()
    }
}

/// Whether the key is that of the object.
fn is_of(key: &Key, object: &Object) -> bool
    ensures { result ≡ same_key key.now (key_of object.now) }
{
    let meta = meta_of(object);
    same_kind(key.kind, kind_of(object))
        && key.namespace.as_str() == meta.namespace.as_str()
        && key.name.as_str() == meta.name.as_str()
}
