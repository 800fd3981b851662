//! Told objects of which a condition in two parts holds, the second of which asks the same of many.

ghost use Rattle.std.specs.Prelude.{◌↔◌, IsTrue, reverse};
ghost use Rattle.kube_objects.specs.declared.objects.Object.{Object};
ghost use Rattle.binder_model.specs.Told.{ToldObject};
ghost use Rattle.licence_scans.specs.Found.{IsFirstAlike};

use crate::told::{ObjectTest, tells, told_early};
use call_types::entry::Entry;
use kube_types::objects::Object;

/// A condition on an object in two parts: `may`, and `row`, which may look at all entries. Where `row`
/// holds of an object it holds of each that is alike.
pub trait SharedTest {
    ghost allows: { Self → Object → Type 0 };

    ghost pairs: { Self → Object → Object → Type 0 };

    ghost holds: { Self → Object → Type 0 };

    fn may(&self, object: &Object) -> bool
        ensures { IsTrue result ↔ allows self.now object.now };

    fn alike(&self, object: &Object, other: &Object) -> bool
        ensures { IsTrue result ↔ pairs self.now object.now other.now };

    fn row(&self, object: &Object) -> bool
        ensures { IsTrue result ↔ holds self.now object.now };

    /// That `row` holds of all that are alike or of none.
    fn shares(&self)
        ensures { (object other : Object) → pairs self.now object other → holds self.now object → holds self.now other };
}

/// The first part holds of the object, and it is alike to the given one.
#[derive(Drop)]
struct Alike<'a, T> {
    test: &'a T,
    given: &'a Object,
}

impl<'a, T: SharedTest> ObjectTest for Alike<'a, T> {
    ghost allows = { λ t o. T.allows t.test.now o × T.pairs t.test.now t.given.now o };

    fn test(&self, object: &Object) -> bool {
        if !self.test.may(object) {
            return false;
        }
        self.test.alike(self.given, object)
    }
}

/// Both parts hold of the object, and the newer entries told none that is alike.
#[derive(Drop)]
struct FirstAlike<'a, T> {
    test: &'a T,
    newer: &'a [Entry],
}

impl<'a, T: SharedTest> ObjectTest for FirstAlike<'a, T> {
    ghost allows = { λ t o. IsFirstAlike (T.allows t.test.now) (T.pairs t.test.now) (T.holds t.test.now) (reverse t.newer.now) o };

    fn test(&self, object: &Object) -> bool {
        if !self.test.may(object) {
            return false;
        }
        let alike = Alike {
            test: self.test,
            given: object,
        };
        if told_early(&alike, self.newer) {
            return false;
        }
        self.test.row(object)
    }
}

/// Whether an object was told of which both parts hold. Of objects that are alike the second part is asked
/// in one answer alone, the newest that told one. From each told object of which the first part holds, the
/// entries up to the next answer that told one alike are looked at: a pass over the list for all that are
/// alike.
pub fn told_shared<T: SharedTest>(test: &T, mine: &[Entry]) -> bool
    ensures { IsTrue result ↔ ToldObject (λ o. T.allows test.now o × T.holds test.now o) (reverse mine.now) }
{
    test.shares();
    let mut left = mine.len();
    while left > 0 {
        let (_, newer) = mine.split_at(left);
        left -= 1;
        let first = FirstAlike { test, newer };
        if tells(&first, &mine[left]) {
            return true;
        }
    }
    false
}
