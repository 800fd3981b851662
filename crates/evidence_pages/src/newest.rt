//! The newest told of a key, in the caches.

ghost use Rattle.std.specs.Prelude.{◌≡◌, ◌↔◌, IfErr, IfOk, IsTrue, Some, length};
ghost use Rattle.std.specs.List.Sorted.{IsSearchInRange};
ghost use Rattle.std.specs.Option.{option_copied};
ghost use Rattle.kube_objects.specs.Keys.{AreRows, IsRowAt, IsRowGap, row_at};
ghost use Rattle.informer_cache.specs.All.{all_objects};
ghost use Rattle.evidence_pages.specs.Keyed.{key_by};

use crate::parts::KeyParts;
use informer_cache::caches::Caches;
use kube_types::copies::Plain;
use kube_types::key::{kind_index, kind_of, meta_of};
use kube_types::objects::Object;
use kube_types::rows::{Ranked, place_of};
use std::cmp::Ordering;

impl<'a> Ranked<KeyParts<'a>> for Object {
    ghost use Rattle.kube_objects.specs.Keys.{key_cmp, key_of};
    ghost use Rattle.evidence_pages.specs.Keyed.{key_by};

    ghost rank = { λ o k. key_cmp (key_of o) (key_by k) };

    fn rank(&self, key: &KeyParts<'a>) -> Ordering {
        let meta = meta_of(self);
        kind_index(kind_of(self))
            .cmp(&kind_index(key.kind))
            .then(meta.namespace.as_str().cmp(key.namespace))
            .then(meta.name.as_str().cmp(key.name))
    }
}

/// Where the row of the key is, or where it would stand.
fn row_place(rows: &[Object], key: &KeyParts<'_>) -> Result<usize, usize>
    requires { AreRows rows.now }
    ensures bound { IsSearchInRange result (length rows.now) }
    ensures at { IfOk result (IsRowAt rows.now (key_by key.now)) }
    ensures gap { IfErr result (IsRowGap rows.now (key_by key.now)) }
{
    place_of(rows, key)
}

/// The object of the key among rows in order.
fn row_of<'a>(rows: &'a [Object], key: &KeyParts<'_>) -> Option<&'a Object>
    requires { AreRows rows.now }
    ensures { option_copied result ≡ row_at (key_by key.now) rows.now }
{
    match row_place(rows, key) {
        Ok(at) => Some(&rows[at]),
        Err(_) => None,
    }
}

/// The newest told object of the key, unless its absence is newer.
pub fn newest_of<'a>(caches: &'a Caches, key: &KeyParts<'_>) -> Option<&'a Object>
    ensures { option_copied result ≡ row_at (key_by key.now) (all_objects caches.now) }
{
    caches.stand_together();
    row_of(caches.cache(key.kind).objects(), key)
}

/// Whether the object is the newest told of the key.
pub fn is_newest(caches: &Caches, key: &KeyParts<'_>, object: &Object) -> bool
    ensures { IsTrue result ↔ (row_at (key_by key.now) (all_objects caches.now) ≡ Some object.now) }
{
    match newest_of(caches, key) {
        None => false,
        Some(found) => found.same(object),
    }
}
