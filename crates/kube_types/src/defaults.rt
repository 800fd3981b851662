//! The default class.

ghost use Rattle.std.specs.Prelude.{◌≡◌, ◌+◌, slice_get};
ghost use Rattle.std.specs.Option.{option_copied};
ghost use Rattle.kube_parts.specs.declared.parts.Kind.TheVariants as kinds;
ghost use Rattle.kube_types.specs.Defaults.{IsDefaultPlace, class_cmp, is_default};
ghost use Rattle.kube_objects.specs.Keys.{rows_of};
ghost use Rattle.kube_types.specs.Steps.Scan.{IsDefaultBelow, class_at, comes_first};

use crate::lookup::Lookup;
use kube_objects::bindings::IS_DEFAULT_CLASS;
use kube_objects::objects::{Class, Object};
use kube_parts::parts::Kind;
use std::cmp::Ordering;

/// Whether the class is marked as a default one.
pub fn is_default(class: &Class) -> bool
    ensures { result ≡ is_default class.now }
{
    match class.meta.annotations.get(IS_DEFAULT_CLASS) {
        None => false,
        Some(value) => value.is("true"),
    }
}

/// The order of default classes: the newest creation first, and of one moment the first by name.
pub fn compare_classes(left: &Class, right: &Class) -> Ordering
    ensures { result ≡ class_cmp left.now right.now }
{
    let moments = right.meta.created.as_str().cmp(left.meta.created.as_str());
    let namespaces = left
        .meta
        .namespace
        .as_str()
        .cmp(right.meta.namespace.as_str());
    moments.then(namespaces.then(left.meta.name.as_str().cmp(right.meta.name.as_str())))
}

/// The place of the default class among the classes of the look-up. It takes no memory.
pub fn default_class<L: Lookup>(lookup: &L) -> Option<usize>
    ensures { IsDefaultPlace (L.rows lookup.now) result }
{
    let mut first = None;
    for place in 0..lookup.count(Kind::StorageClass) {
        first = earlier(lookup, first, place);
    }
    first
}

/// The first default class of those up to this place and with it, where `before` is the first of those before.
fn earlier<L: Lookup>(lookup: &L, before: Option<usize>, place: usize) -> Option<usize>
    requires { IsDefaultBelow (L.rows lookup.now) place before }
    ensures { IsDefaultBelow (L.rows lookup.now) (place + 1) result }
{
    match class_at(lookup, place) {
        None => before,
        Some(class) => {
            if is_default(class) && comes_first(lookup, class, before) {
                Some(place)
            } else {
                before
            }
        }
    }
}

/// The class at a place among the classes.
fn class_at<L: Lookup>(lookup: &L, place: usize) -> Option<&Class>
    ensures { option_copied result ≡ class_at (L.rows lookup.now) place }
{
    match lookup.at(Kind::StorageClass, place) {
        Some(Object::Class(class)) => Some(class),
        _ => None,
    }
}

/// Whether the class comes before the one that was the first before.
fn comes_first<L: Lookup>(lookup: &L, class: &Class, before: Option<usize>) -> bool
    ensures { result ≡ comes_first (L.rows lookup.now) class.now before }
{
    match before {
        None => true,
        Some(place) => match class_at(lookup, place) {
            None => true,
            Some(other) => compare_classes(class, other).is_lt(),
        },
    }
}
