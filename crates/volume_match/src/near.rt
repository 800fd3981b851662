//! Looking up an object at the place where it is likely to stand.

ghost use Rattle.std.specs.Prelude.{◌≡◌, true, None, Some, IfSome, IfNone, slice_get};
ghost use Rattle.std.specs.Option.{option_copied};
ghost use Rattle.kube_objects.specs.Keys.{row_at, rows_of};
ghost use Rattle.volume_match.specs.Named.{key_with_parts, has_key_at};

use crate::named::{key_order, place_named};
use kube_types::lookup::Lookup;
use kube_types::objects::Object;
use kube_types::parts::Kind;
use std::cmp::Ordering;

/// The place, among the objects of the kind, of the one with this namespace and name: that at `near` is looked at first.
pub fn place_near<L: Lookup>(
    lookup: &L,
    kind: Kind,
    namespace: &str,
    name: &str,
    near: usize,
) -> Option<usize>
    ensures found { IfSome result (λ place. slice_get (rows_of kind (L.rows lookup.now)) place
        ≡ row_at (key_with_parts kind namespace.now name.now) (L.rows lookup.now)) }
    ensures there { IfSome result (λ place. has_key_at kind namespace.now name.now (slice_get (rows_of kind (L.rows lookup.now)) place) ≡ true) }
    ensures none { IfNone result (row_at (key_with_parts kind namespace.now name.now) (L.rows lookup.now) ≡ None) }
{
    match key_order(lookup.at(kind, near), kind, namespace, name) {
        Ordering::Equal => Some(near),
        _ => place_named(lookup, kind, namespace, name),
    }
}

/// The object of the kind with this namespace and name, and its place among those of the kind. That at `near` is looked at
/// first: where it is the one, no other is looked at. Where there is no such object the place is `near`.
pub fn row_near<'a, L: Lookup>(
    lookup: &'a L,
    kind: Kind,
    namespace: &str,
    name: &str,
    near: usize,
) -> (Option<&'a Object>, usize)
    ensures row { option_copied result.0 ≡ row_at (key_with_parts kind namespace.now name.now) (L.rows lookup.now) }
    ensures place { IfSome (option_copied result.0) (λ object. slice_get (rows_of kind (L.rows lookup.now)) result.1 ≡ Some object) }
{
    match place_near(lookup, kind, namespace, name, near) {
        Some(place) => (lookup.at(kind, place), place),
        None => (None, near),
    }
}
