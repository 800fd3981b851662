//! Looking up an object by its name, without memory for a key.

ghost use Rattle.std.specs.Prelude.{◌≡◌, true, None, IfSome, IfNone, slice_get};
ghost use Rattle.std.specs.Option.{option_copied};
ghost use Rattle.kube_objects.specs.Keys.{row_at, rows_of};
ghost use Rattle.binder_model.specs.Matching.{waits_for_pod};
ghost use Rattle.volume_match.specs.Named.{key_with_parts, has_key_at};
ghost use Rattle.volume_match.specs.Steps.Search.{key_order_at};

use kube_types::bindings::class_of_claim;
use kube_types::key::{kind_index, kind_of, meta_of};
use kube_types::lookup::Lookup;
use kube_types::objects::{Claim, Object};
use kube_types::parts::Kind;
use std::cmp::Ordering;

/// The place, among the objects of the kind, of the one with this namespace and name.
pub fn place_named<L: Lookup>(lookup: &L, kind: Kind, namespace: &str, name: &str) -> Option<usize>
    ensures found { IfSome result (λ place. slice_get (rows_of kind (L.rows lookup.now)) place
        ≡ row_at (key_with_parts kind namespace.now name.now) (L.rows lookup.now)) }
    ensures there { IfSome result (λ place. has_key_at kind namespace.now name.now (slice_get (rows_of kind (L.rows lookup.now)) place) ≡ true) }
    ensures none { IfNone result (row_at (key_with_parts kind namespace.now name.now) (L.rows lookup.now) ≡ None) }
{
    let mut low = 0;
    let mut high = lookup.count(kind);
    // The objects of a kind stand in the order of namespace and name: each look leaves half of them.
    while low < high {
        let middle = low + (high - low) / 2;
        match key_order(lookup.at(kind, middle), kind, namespace, name) {
            Ordering::Less => low = middle + 1,
            Ordering::Equal => return Some(middle),
            Ordering::Greater => high = middle,
        }
    }
    None
}

/// The object of the kind with this namespace and name.
pub fn row_named<'a, L: Lookup>(
    lookup: &'a L,
    kind: Kind,
    namespace: &str,
    name: &str,
) -> Option<&'a Object>
    ensures { option_copied result ≡ row_at (key_with_parts kind namespace.now name.now) (L.rows lookup.now) }
{
    match place_named(lookup, kind, namespace, name) {
        Some(place) => lookup.at(kind, place),
        None => None,
    }
}

/// The order of the object's key and of the key of these parts; past the last object all is after.
pub(crate) fn key_order(
    object: Option<&Object>,
    kind: Kind,
    namespace: &str,
    name: &str,
) -> Ordering
    ensures { result ≡ key_order_at kind namespace.now name.now (option_copied object.entry) }
{
    match object {
        None => Ordering::Greater,
        Some(object) => {
            let meta = meta_of(object);
            kind_index(kind_of(object))
                .cmp(&kind_index(kind))
                .then(meta.namespace.as_str().cmp(namespace))
                .then(meta.name.as_str().cmp(name))
        }
    }
}

/// Whether the claim's class is delayed: the claim waits for a pod that uses it.
pub fn waits_for_pod<L: Lookup>(lookup: &L, claim: &Claim) -> bool
    ensures { result ≡ waits_for_pod (L.rows lookup.now) claim.now }
{
    match row_named(lookup, Kind::StorageClass, "", class_of_claim(claim)) {
        Some(Object::Class(class)) => class.delayed,
        _ => false,
    }
}
