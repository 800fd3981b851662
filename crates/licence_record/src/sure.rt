//! Conditions that are asked of a record, which may know too little to say no, and told objects that meet one.

ghost use Rattle.std.specs.Prelude.{◌≡◌, ◌↔◌, IsTrue, reverse};
ghost use Rattle.kube_objects.specs.declared.objects.Claim.{Claim as ClaimData};
ghost use Rattle.kube_objects.specs.declared.objects.Object.{Object};
ghost use Rattle.kube_objects.specs.Keys.{meta_of};
ghost use Rattle.binder_model.specs.At.{IsWrittenAt};
ghost use Rattle.binder_model.specs.Told.{IsClaimWith, SomeOf, TellsObject, ToldClaim, ToldObject, objects_in, objects_of_event, objects_of_events};
ghost use Rattle.licence_scans.specs.Found.{IsFirstAlike};
ghost use Rattle.licence_record.specs.Judged.{Judges};

use call_types::entry::Entry;
use call_types::reply::{Change, Event, Reply};
use kube_types::copies::Plain;
use kube_types::key::meta_of;
use kube_types::objects::{Claim, Object, Version};
use kube_types::text::Text;
use licence_scans::at::is_written_at;
use licence_scans::told::{ObjectTest, told_early};

/// A condition on an object. Its no says something only where it is `sure`.
pub trait SureTest {
    ghost allows: { Self → Object → Type 0 };

    ghost sure: { Self → Type 0 };

    fn test(&self, object: &Object) -> bool
        ensures { Judges (sure self.now) result (allows self.now object.now) };
}

fn is_some_of<T: SureTest>(test: &T, objects: &[Object]) -> bool
    ensures { Judges (T.sure test.now) result (SomeOf (T.allows test.now) objects.now) }
{
    for object in objects {
        if test.test(object) {
            return true;
        }
    }
    false
}

fn tells_event<T: SureTest>(test: &T, event: &Event) -> bool
    ensures { Judges (T.sure test.now) result (SomeOf (T.allows test.now) (objects_of_event event.now.change event.now.object)) }
{
    match event.change {
        Change::Added => test.test(&event.object),
        Change::Modified => test.test(&event.object),
        Change::Deleted => false,
    }
}

fn tell_events<T: SureTest>(test: &T, events: &[Event]) -> bool
    ensures { Judges (T.sure test.now) result (SomeOf (T.allows test.now) (objects_of_events events.now)) }
{
    for event in events {
        if tells_event(test, event) {
            return true;
        }
    }
    false
}

fn tells_in<T: SureTest>(test: &T, reply: &Reply) -> bool
    ensures { Judges (T.sure test.now) result (SomeOf (T.allows test.now) (objects_in reply.now)) }
{
    match reply {
        Reply::Done(object) => test.test(object),
        Reply::Found(object) => test.test(object),
        Reply::Listed { items, version: _ } => is_some_of(test, items.as_slice()),
        Reply::Events(events) => tell_events(test, events.events.as_slice()),
        _ => false,
    }
}

fn tells<T: SureTest>(test: &T, entry: &Entry) -> bool
    ensures { Judges (T.sure test.now) result (TellsObject (T.allows test.now) entry.now) }
{
    if !entry.told {
        return false;
    }
    tells_in(test, &entry.reply)
}

/// A condition on an object in two parts: `may`, which the object decides, and `row`, which asks a record. Where
/// `row` holds of an object it holds of each that is alike.
pub trait SureShared {
    ghost allows: { Self → Object → Type 0 };

    ghost pairs: { Self → Object → Object → Type 0 };

    ghost holds: { Self → Object → Type 0 };

    ghost sure: { Self → Type 0 };

    fn may(&self, object: &Object) -> bool
        ensures { IsTrue result ↔ allows self.now object.now };

    fn alike(&self, object: &Object, other: &Object) -> bool
        ensures { IsTrue result ↔ pairs self.now object.now other.now };

    fn row(&self, object: &Object) -> bool
        ensures { Judges (sure self.now) result (holds self.now object.now) };

    /// That `row` holds of all that are alike or of none.
    fn shares(&self)
        ensures { (object other : Object) → pairs self.now object other → holds self.now object → holds self.now other };
}

/// The first part holds of the object, and it is alike to the given one.
#[derive(Drop)]
struct RecordedAlike<'a, T> {
    test: &'a T,
    given: &'a Object,
}

impl<'a, T: SureShared> ObjectTest for RecordedAlike<'a, T> {
    ghost allows = { λ t o. T.allows t.test.now o × T.pairs t.test.now t.given.now o };

    fn test(&self, object: &Object) -> bool {
        if !self.test.may(object) {
            return false;
        }
        self.test.alike(self.given, object)
    }
}

/// Both parts hold of the object, and the newer entries told none that is alike.
#[derive(Drop)]
struct FirstRecordedAlike<'a, T> {
    test: &'a T,
    newer: &'a [Entry],
}

impl<'a, T: SureShared> SureTest for FirstRecordedAlike<'a, T> {
    ghost allows = { λ t o. IsFirstAlike (T.allows t.test.now) (T.pairs t.test.now) (T.holds t.test.now) (reverse t.newer.now) o };

    ghost sure = { λ t. T.sure t.test.now };

    fn test(&self, object: &Object) -> bool {
        if !self.test.may(object) {
            return false;
        }
        let alike = RecordedAlike {
            test: self.test,
            given: object,
        };
        if told_early(&alike, self.newer) {
            return false;
        }
        self.test.row(object)
    }
}

/// Whether an object was told of which both parts hold. The second part is asked once for all that are alike,
/// at the newest answer that told one.
pub fn told_shared<T: SureShared>(test: &T, mine: &[Entry]) -> bool
    ensures { Judges (T.sure test.now) result (ToldObject (λ o. T.allows test.now o × T.holds test.now o) (reverse mine.now)) }
{
    test.shares();
    let mut left = mine.len();
    while left > 0 {
        let (_, newer) = mine.split_at(left);
        left -= 1;
        let first = FirstRecordedAlike { test, newer };
        if tells(&first, &mine[left]) {
            return true;
        }
    }
    false
}

/// A condition on a claim. Its no says something only where it is `sure`.
pub trait SureClaim {
    ghost allows: { Self → ClaimData → Type 0 };

    ghost sure: { Self → Type 0 };

    fn test(&self, claim: &Claim) -> bool
        ensures { Judges (sure self.now) result (allows self.now claim.now) };
}

/// The object is a claim, and the condition holds of it.
#[derive(Drop)]
pub struct OfRecordedClaims<'a, T> {
    pub test: &'a T,
}

impl<'a, T: SureClaim> SureTest for OfRecordedClaims<'a, T> {
    ghost allows = { λ t o. IsClaimWith (T.allows t.test.now) o };

    ghost sure = { λ t. T.sure t.test.now };

    fn test(&self, object: &Object) -> bool {
        match object {
            Object::Claim(claim) => self.test.test(claim),
            _ => false,
        }
    }
}

/// The write is at the object, and the condition holds of it.
#[derive(Drop)]
struct RecordedAt<'a, T> {
    given: Option<Version>,
    namespace: &'a Text,
    name: &'a Text,
    row: &'a T,
}

impl<'a, T: SureTest> SureShared for RecordedAt<'a, T> {
    ghost allows = { λ t o. IsWrittenAt t.given t.namespace.now t.name.now (meta_of o) };

    ghost pairs = { λ t o x. o ≡ x };

    ghost holds = { λ t o. T.allows t.row.now o };

    ghost sure = { λ t. T.sure t.row.now };

    fn may(&self, object: &Object) -> bool {
        is_written_at(self.given, self.namespace, self.name, meta_of(object))
    }

    fn alike(&self, object: &Object, other: &Object) -> bool {
        object.same(other)
    }

    fn row(&self, object: &Object) -> bool {
        self.row.test(object)
    }

    fn shares(&self) {
        let _row = self.row;
    }
}

/// Whether the write is at a told object of which the condition holds.
fn told_object_at<T: SureTest>(
    row: &T,
    mine: &[Entry],
    given: Option<Version>,
    namespace: &Text,
    name: &Text,
) -> bool
    ensures { Judges (T.sure row.now) result (ToldObject (λ o. IsWrittenAt given namespace.now name.now (meta_of o) × T.allows row.now o) (reverse mine.now)) }
{
    let at = RecordedAt {
        given,
        namespace,
        name,
        row,
    };
    told_shared(&at, mine)
}

/// Whether the write is at a told claim of which the condition holds.
pub fn told_claim_at<T: SureClaim>(
    row: &T,
    mine: &[Entry],
    given: Option<Version>,
    namespace: &Text,
    name: &Text,
) -> bool
    ensures { Judges (T.sure row.now) result (ToldClaim (λ c. IsWrittenAt given namespace.now name.now c.meta × T.allows row.now c) (reverse mine.now)) }
{
    let claims = OfRecordedClaims { test: row };
    told_object_at(&claims, mine, given, namespace, name)
}
