//! What is told of single keys: by answers to own writes, and by events.

ghost use Rattle.std.specs.Prelude.{◌≡◌, Some, None, IfSome, OnOk, option_map, if◌then◌else◌};
ghost use Rattle.std.specs.Option.{option_copied};
ghost use Rattle.kube_objects.specs.declared.key.Key.{Key};
ghost use Rattle.kube_objects.specs.Keys.{key_of};
ghost use Rattle.binder_model.specs.Told.{later, told_by_events};
ghost use Rattle.informer_cache.specs.Knowledge.{event_tells, telling_in, telling_of, tells_key, told_at};
ghost use Rattle.informer_cache.specs.Steps.Sights.{is_older};

use crate::lists::Lists;
use crate::merge::telling;
use crate::rows::Rows;
use crate::told::Told;
use call_types::reply::{Change, Event};
use kube_types::copies::{OutOfMemory, Plain};
use kube_types::key::{Key, key_of, kind_of};
use kube_types::objects::{Object, Version};
use std::alloc::Global;

/// The version at which the key was told, by itself or by a list that lacks it.
fn known_version(rows: &Rows, lists: &Lists, key: &Key) -> Option<Version>
    ensures { result ≡ option_map (λ t. t.version) (telling_in rows.now lists.now key.now) }
{
    match telling(rows, lists, key) {
        Some(told) => Some(told.version),
        None => None,
    }
}

fn is_older(version: Version, known: Option<Version>) -> bool
    ensures { result ≡ is_older version known }
{
    match known {
        Some(known) => version < known,
        None => false,
    }
}

/// Takes what is told of the key, where it is not older than what is known.
pub fn tell(
    alloc: Global,
    rows: &mut Rows,
    lists: &Lists,
    key: &Key,
    told: Told<'_>,
) -> Result<(), OutOfMemory>
    requires kind { key.now.kind ≡ rows.old.kind }
    requires object { IfSome (option_copied told.object) (λ o. key_of o ≡ key.now) }
    ensures kind { rows.new.kind ≡ rows.old.kind }
    ensures told { OnOk result ((k : Key) → telling_in rows.new lists.now k ≡ later (tells_key key.now (telling_of told.entry) k) (telling_in rows.old lists.now k)) }
{
    let known = known_version(rows, lists, key);
    if is_older(told.version, known) {
        return Ok(());
    }
    rows.store(alloc, key, told)
}

/// Takes what is told of the object's key: the object, or that it is gone.
pub fn tell_object(
    alloc: Global,
    rows: &mut Rows,
    lists: &Lists,
    object: &Object,
    version: Version,
    is_there: bool,
) -> Result<(), OutOfMemory>
    ensures kind { rows.new.kind ≡ rows.old.kind }
    ensures told { OnOk result ((k : Key) → k.kind ≡ rows.old.kind → telling_in rows.new lists.now k ≡ later (tells_key (key_of object.now) (told_at version (if is_there then Some object.now else None)) k) (telling_in rows.old lists.now k)) }
{
    if !kind_of(object).same(&rows.kind()) {
        return Ok(());
    }
    let key = key_of(alloc, object)?;
    if is_there {
        let told = Told {
            version,
            object: Some(object),
        };
        tell(alloc, rows, lists, &key, told)
    } else {
        let told = Told {
            version,
            object: None,
        };
        tell(alloc, rows, lists, &key, told)
    }
}

/// Takes that nothing stands under the key, as of this version.
pub fn tell_absent(
    alloc: Global,
    rows: &mut Rows,
    lists: &Lists,
    key: &Key,
    version: Version,
) -> Result<(), OutOfMemory>
    ensures kind { rows.new.kind ≡ rows.old.kind }
    ensures told { OnOk result ((k : Key) → k.kind ≡ rows.old.kind → telling_in rows.new lists.now k ≡ later (tells_key key.now (told_at version None) k) (telling_in rows.old lists.now k)) }
{
    if !key.kind.same(&rows.kind()) {
        return Ok(());
    }
    let told = Told {
        version,
        object: None,
    };
    tell(alloc, rows, lists, key, told)
}

fn tell_event(
    alloc: Global,
    rows: &mut Rows,
    lists: &Lists,
    event: &Event,
) -> Result<(), OutOfMemory>
    ensures kind { rows.new.kind ≡ rows.old.kind }
    ensures told { OnOk result ((k : Key) → k.kind ≡ rows.old.kind → telling_in rows.new lists.now k ≡ later (event_tells event.now k) (telling_in rows.old lists.now k)) }
{
    let is_there = match event.change {
        Change::Added => true,
        Change::Modified => true,
        Change::Deleted => false,
    };
    tell_object(alloc, rows, lists, &event.object, event.version, is_there)
}

/// Takes events. The newest come first, so that of each key only the last event is copied.
pub fn tell_events(
    alloc: Global,
    rows: &mut Rows,
    lists: &Lists,
    events: &[Event],
) -> Result<(), OutOfMemory>
    ensures kind { rows.new.kind ≡ rows.old.kind }
    ensures told { OnOk result ((k : Key) → k.kind ≡ rows.old.kind → telling_in rows.new lists.now k ≡ later (told_by_events events.now k) (telling_in rows.old lists.now k)) }
{
    let mut at = events.len();
    while at > 0 {
        at -= 1;
        tell_event(alloc, rows, lists, &events[at])?;
    }
    Ok(())
}
