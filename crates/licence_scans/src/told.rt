//! What a seat was told.

ghost use Rattle.std.specs.Prelude.{◌≡◌, ◌↔◌, ◌∷◌, [], IsTrue, MatchOption, reverse};
ghost use Rattle.kube_objects.specs.declared.objects.Object.{Object};
ghost use Rattle.call_types.specs.declared.reply.Event.{Event};
ghost use Rattle.licence_scans.specs.Found.{IsFound, IsToldFound};
ghost use Rattle.binder_model.specs.Told.{SomeOf, TellsObject, ToldObject, objects_in, objects_of_event, objects_of_events};

use call_types::entry::Entry;
use call_types::reply::{Change, Event, Reply};
use kube_types::objects::Object;

/// A condition on an object.
pub trait ObjectTest {
    ghost allows: { Self → Object → Type 0 };

    fn test(&self, object: &Object) -> bool
        ensures { IsTrue result ↔ allows self.now object.now };
}

/// The first object in the list of which the condition holds.
fn find_of<'a, T: ObjectTest>(test: &T, objects: &'a [Object]) -> Option<&'a Object>
    ensures { MatchOption result (SomeOf (T.allows test.now) objects.now → ⊥) (λ found. IsFound (T.allows test.now) objects.now found.now) }
{
    for object in objects {
        if test.test(object) {
            return Some(object);
        }
    }
    None
}

/// Whether the event tells an object of which the condition holds.
fn tells_event<T: ObjectTest>(test: &T, event: &Event) -> bool
    ensures tells { IsTrue result ↔ SomeOf (T.allows test.now) (objects_of_event event.now.change event.now.object) }
    ensures object { IsTrue result → IsFound (T.allows test.now) (objects_of_event event.now.change event.now.object) event.now.object }
{
    match event.change {
        Change::Added => test.test(&event.object),
        Change::Modified => test.test(&event.object),
        Change::Deleted => false,
    }
}

/// The first object that the events tell of which the condition holds.
fn find_of_events<'a, T: ObjectTest>(test: &T, events: &'a [Event]) -> Option<&'a Object>
    ensures { MatchOption result (SomeOf (T.allows test.now) (objects_of_events events.now) → ⊥) (λ found. IsFound (T.allows test.now) (objects_of_events events.now) found.now) }
{
    for event in events {
        if tells_event(test, event) {
            return Some(&event.object);
        }
    }
    None
}

fn find_one<'a, T: ObjectTest>(test: &T, object: &'a Object) -> Option<&'a Object>
    ensures { MatchOption result (SomeOf (T.allows test.now) (object.now ∷ []) → ⊥) (λ found. IsFound (T.allows test.now) (object.now ∷ []) found.now) }
{
    if test.test(object) {
        Some(object)
    } else {
        None
    }
}

/// The first object in the answer of which the condition holds.
fn find_in<'a, T: ObjectTest>(test: &T, reply: &'a Reply) -> Option<&'a Object>
    ensures { MatchOption result (SomeOf (T.allows test.now) (objects_in reply.now) → ⊥) (λ found. IsFound (T.allows test.now) (objects_in reply.now) found.now) }
{
    match reply {
        Reply::Done(object) => find_one(test, object),
        Reply::Found(object) => find_one(test, object),
        Reply::Listed { items, version: _ } => find_of(test, items.as_slice()),
        Reply::Events(events) => find_of_events(test, events.events.as_slice()),
        _ => None,
    }
}

/// The first object that the entry told of which the condition holds.
fn find_told_by<'a, T: ObjectTest>(test: &T, entry: &'a Entry) -> Option<&'a Object>
    ensures { MatchOption result (TellsObject (T.allows test.now) entry.now → ⊥) (λ found. T.allows test.now found.now × TellsObject (λ x. x ≡ found.now) entry.now) }
{
    if !entry.told {
        return None;
    }
    match find_in(test, &entry.reply) {
        None => None,
        Some(found) => Some(found),
    }
}

/// Whether the entry told an object of which the condition holds.
pub fn tells<T: ObjectTest>(test: &T, entry: &Entry) -> bool
    ensures { IsTrue result ↔ TellsObject (T.allows test.now) entry.now }
{
    match find_told_by(test, entry) {
        None => false,
        Some(_) => true,
    }
}

/// The newest object of which the condition holds that the seat with these entries, the oldest first, was
/// told. The newest entries are looked at first.
#[tactic(auto, using(model_laws::proofs::Evidence::newest_first))]
pub fn find_told<'a, T: ObjectTest>(test: &T, mine: &'a [Entry]) -> Option<&'a Object>
    ensures { MatchOption result (ToldObject (T.allows test.now) (reverse mine.now) → ⊥) (λ found. IsToldFound (T.allows test.now) (reverse mine.now) found.now) }
{
    let mut left = mine.len();
    while left > 0 {
        left -= 1;
        match find_told_by(test, &mine[left]) {
            Some(found) => return Some(found),
            None => {}
        }
    }
    None
}

/// Whether the seat with these entries, the oldest first, was told an object of which the condition
/// holds.
pub fn told_object<T: ObjectTest>(test: &T, mine: &[Entry]) -> bool
    ensures { IsTrue result ↔ ToldObject (T.allows test.now) (reverse mine.now) }
{
    match find_told(test, mine) {
        None => false,
        Some(_) => true,
    }
}

/// As `told_object`; the oldest entries are looked at first.
#[tactic(auto, using(model_laws::proofs::Evidence::newest_first))]
pub fn told_early<T: ObjectTest>(test: &T, mine: &[Entry]) -> bool
    ensures { IsTrue result ↔ ToldObject (T.allows test.now) (reverse mine.now) }
{
    for entry in mine {
        if tells(test, entry) {
            return true;
        }
    }
    false
}
