//! The default one of the classes that were told newest, in the plain list.

ghost use Rattle.std.specs.Prelude.{◌↔◌, IsTrue, reverse};
ghost use Rattle.licence_record.specs.Defaulted.{IsBefore, IsClassWith, IsDefaultNamed, IsFirstMarked, IsMarked};

use call_types::entry::Entry;
use kube_types::defaults::{compare_classes, is_default};
use kube_types::objects::{Class, Object};
use licence_rows::newest::{newest_class, some_newest};
use licence_scans::told::ObjectTest;
use std::cmp::Ordering;

fn is_marked(class: &Class) -> bool
    ensures { IsTrue result ↔ IsMarked class.now }
{
    if !class.meta.namespace.as_str().is_empty() {
        return false;
    }
    is_default(class)
}

/// The object is a class that is marked as a default one.
#[derive(Drop)]
struct Marked {}

impl ObjectTest for Marked {
    ghost allows = { λ t o. IsClassWith IsMarked o };

    fn test(&self, object: &Object) -> bool {
        match object {
            Object::Class(class) => is_marked(class),
            _ => false,
        }
    }
}

fn is_before(class: &Class, other: &Class) -> bool
    ensures { IsTrue result ↔ IsBefore class.now other.now }
{
    match compare_classes(class, other) {
        Ordering::Greater => true,
        _ => false,
    }
}

/// The object is a class that comes before the given one.
#[derive(Drop)]
struct Before<'a> {
    class: &'a Class,
}

impl<'a> ObjectTest for Before<'a> {
    ghost allows = { λ t o. IsClassWith (IsBefore t.class.now) o };

    fn test(&self, object: &Object) -> bool {
        match object {
            Object::Class(class) => is_before(self.class, class),
            _ => false,
        }
    }
}

/// Whether the class is marked, and no marked one that was told newest comes before it.
fn is_first_marked(mine: &[Entry], class: &Class) -> bool
    ensures { IsTrue result ↔ IsFirstMarked (reverse mine.now) class.now }
{
    if !is_default(class) {
        return false;
    }
    let before = Before { class };
    !some_newest(&Marked {}, &before, mine)
}

/// Whether the class of this name is the default one.
pub(crate) fn is_default_named(mine: &[Entry], name: &str) -> bool
    ensures { IsTrue result ↔ IsDefaultNamed (reverse mine.now) name.now }
{
    match newest_class(mine, name) {
        None => false,
        Some(class) => is_first_marked(mine, class),
    }
}
