//! A list that was told, merged into what is known.

ghost use Rattle.std.specs.Prelude.{◌≡◌, Some, None, true, IfOk, IsTrue, OnOk, is_some, option_map, if◌then◌else◌};
ghost use Rattle.kube_objects.specs.declared.key.Key.{Key};
ghost use Rattle.std.specs.Bool.{OnTrue};
ghost use Rattle.std.specs.Ordering.{is_lt};
ghost use Rattle.kube_objects.specs.Keys.{AreRows, key_cmp, key_of, row_at, same_key};
ghost use Rattle.binder_model.specs.Told.{first_some, later};
ghost use Rattle.informer_cache.specs.Marks.{mark_at};
ghost use Rattle.informer_cache.specs.Steps.Views.{sight_of};
ghost use Rattle.informer_cache.specs.Knowledge.{absence, telling_in, telling_of};
ghost use Rattle.informer_cache.specs.Steps.Sights.{AreRight, Fits, GoesOn, lacked_after, list_tells, seen};

use crate::lists::{Lists, covers, greater};
use crate::rows::{Rows, put_object};
use crate::told::{Told, later};
use kube_types::copies::{OutOfMemory, Plain, copy_all};
use kube_types::key::{Key, key_of, kind_index, kind_of, meta_of};
use kube_types::objects::{Object, Version};
use kube_types::table::row;
use kube_types::text::Text;
use std::alloc::Global;

/// What is known, and a list that is told: of a namespace, or of all.
#[derive(Drop)]
pub struct View<'a> {
    pub rows: &'a Rows,
    pub lists: &'a Lists,
    pub namespace: &'a Option<Text>,
    pub version: Version,
    pub items: &'a [Object],
}

/// What is known of the key.
pub fn telling<'a>(rows: &'a Rows, lists: &Lists, key: &Key) -> Option<Told<'a>>
    ensures { option_map telling_of result ≡ telling_in rows.now lists.now key.now }
{
    match rows.told(key) {
        Some(told) => Some(told),
        None => match lists.version(key) {
            Some(version) => Some(Told {
                version,
                object: None,
            }),
            None => None,
        },
    }
}

/// What the list tells of the key.
fn listed<'a>(
    namespace: &Option<Text>,
    version: Version,
    items: &'a [Object],
    key: &Key,
) -> Option<Told<'a>>
    requires { AreRows items.now }
    ensures { option_map telling_of result ≡ list_tells namespace.now version items.now key.now }
{
    if !covers(namespace, key) {
        return None;
    }
    match row(items, key) {
        Some(object) => Some(Told {
            version: meta_of(object).version,
            object: Some(object),
        }),
        None => Some(Told {
            version,
            object: None,
        }),
    }
}

/// The version of the newest list in which the key would stand, after this one.
fn version_after(view: &View<'_>, key: &Key) -> Option<Version>
    ensures { result ≡ lacked_after (sight_of view.now).lists (sight_of view.now).namespace (sight_of view.now).version key.now }
{
    let known = view.lists.version(key);
    if covers(view.namespace, key) {
        greater(Some(view.version), known)
    } else {
        known
    }
}

/// What is known of the key after the list.
fn seen<'a>(view: &View<'a>, key: &Key) -> Option<Told<'a>>
    requires { AreRows (sight_of view.now).items }
    ensures { option_map telling_of result ≡ seen (sight_of view.now) key.now }
{
    let listed = listed(view.namespace, view.version, view.items, key);
    later(listed, telling(view.rows, view.lists, key))
}

/// Whether the key is lacked by a list at this version.
fn is_lacked(told: Told<'_>, version: Option<Version>) -> bool
    ensures { IsTrue result → absence version ≡ Some (telling_of told.entry) }
{
    match (told.object, version) {
        (None, Some(version)) => told.version == version,
        _ => false,
    }
}

impl<'a> View<'a> {
    /// Puts what is known of the key into the new rows, but not what the lists tell anyway.
    fn visit(&self, alloc: Global, next: &mut Rows, key: &Key) -> Result<(), OutOfMemory>
        requires items { AreRows (sight_of self.now).items }
        requires kind { next.old.kind ≡ (sight_of self.now).rows.kind }
        requires right { AreRight (sight_of self.now) next.old }
        ensures on { OnOk result (GoesOn (sight_of self.now) next.old next.new) }
        ensures fits { OnOk result (key.now.kind ≡ (sight_of self.now).rows.kind → Fits (sight_of self.now) next.new key.now) }
    {
        if !key.kind.same(&self.rows.kind()) {
            return Ok(());
        }
        if next.told(key).is_some() {
            return Ok(());
        }
        match seen(self, key) {
            None => Ok(()),
            Some(told) => {
                if is_lacked(told, version_after(self, key)) {
                    return Ok(());
                }
                next.store(alloc, key, told)
            }
        }
    }

    /// Visits the keys of the list.
    fn visit_items(&self, alloc: Global, next: &mut Rows) -> Result<(), OutOfMemory>
        requires items { AreRows (sight_of self.now).items }
        requires kind { next.old.kind ≡ (sight_of self.now).rows.kind }
        requires right { AreRight (sight_of self.now) next.old }
        ensures on { OnOk result (GoesOn (sight_of self.now) next.old next.new) }
        ensures fits { OnOk result ((key : Key) → key.kind ≡ (sight_of self.now).rows.kind → is_some (row_at key (sight_of self.now).items) ≡ true → Fits (sight_of self.now) next.new key) }
    {
        for item in self.items {
            let key = key_of(alloc, item)?;
            self.visit(alloc, next, &key)?;
        }
        Ok(())
    }

    /// Visits the keys that were told of by themselves.
    fn visit_marks(&self, alloc: Global, next: &mut Rows) -> Result<(), OutOfMemory>
        requires items { AreRows (sight_of self.now).items }
        requires kind { next.old.kind ≡ (sight_of self.now).rows.kind }
        requires right { AreRight (sight_of self.now) next.old }
        ensures on { OnOk result (GoesOn (sight_of self.now) next.old next.new) }
        ensures fits { OnOk result ((key : Key) → key.kind ≡ (sight_of self.now).rows.kind → is_some (mark_at key (sight_of self.now).rows.marks) ≡ true → Fits (sight_of self.now) next.new key) }
    {
        for mark in self.rows.marks() {
            self.visit(alloc, next, &mark.key)?;
        }
        Ok(())
    }

    /// The rows after the list. What is visited first stands in order, and is put at the end: the list
    /// of a whole kind, or the rows, of which the list of a namespace leaves the most.
    fn merged(&self, alloc: Global) -> Result<Rows, OutOfMemory>
        requires { AreRows (sight_of self.now).items }
        ensures kind { IfOk result (λ next. next.kind ≡ (sight_of self.now).rows.kind) }
        ensures fits { IfOk result (λ next. (key : Key) → key.kind ≡ (sight_of self.now).rows.kind → Fits (sight_of self.now) next key) }
    {
        let mut next = Rows::new(alloc, self.rows.kind());
        if self.namespace.is_none() {
            self.visit_items(alloc, &mut next)?;
            self.visit_marks(alloc, &mut next)?;
            return Ok(next);
        }
        self.visit_marks(alloc, &mut next)?;
        self.visit_items(alloc, &mut next)?;
        Ok(next)
    }
}

/// Puts a copy of the object in its place in the order, if its key has no object.
fn put_first(alloc: Global, sorted: &mut Vec<Object>, object: &Object) -> Result<(), OutOfMemory>
    requires { AreRows sorted.old.items }
    ensures rows { OnOk result (AreRows sorted.new.items) }
    ensures found { OnOk result ((key : Key) → row_at key sorted.new.items ≡ first_some (row_at key sorted.old.items) (if same_key (key_of object.now) key then Some object.now else None)) }
{
    let key = key_of(alloc, object)?;
    match row(sorted, &key) {
        Some(_) => Ok(()),
        None => put_object(sorted, &key, object.copy(alloc)?),
    }
}

/// Whether the key of the first object stands before that of the second.
fn stands_before(first: &Object, second: &Object) -> bool
    ensures { result ≡ is_lt (key_cmp (key_of first.now) (key_of second.now)) }
{
    let (one, other) = (meta_of(first), meta_of(second));
    kind_index(kind_of(first))
        .cmp(&kind_index(kind_of(second)))
        .then(one.namespace.as_str().cmp(other.namespace.as_str()))
        .then(one.name.as_str().cmp(other.name.as_str()))
        .is_lt()
}

/// Whether each object stands before the next one. It takes no memory.
fn are_in_order(items: &[Object]) -> bool
    ensures { OnTrue result (AreRows items.now) }
{
    for place in 1..items.len() {
        if !stands_before(&items[place - 1], &items[place]) {
            return false;
        }
    }
    true
}

/// The first object of each key, in the order of the keys. What stands in order is not sorted again.
fn in_order(alloc: Global, items: &[Object]) -> Result<Vec<Object>, OutOfMemory>
    ensures rows { IfOk result (λ sorted. AreRows sorted.items) }
    ensures found { IfOk result (λ sorted. (key : Key) → row_at key sorted.items ≡ row_at key items.now) }
{
    if are_in_order(items) {
        return copy_all(alloc, items);
    }
    sorted(alloc, items)
}

fn sorted(alloc: Global, items: &[Object]) -> Result<Vec<Object>, OutOfMemory>
    ensures rows { IfOk result (λ sorted. AreRows sorted.items) }
    ensures found { IfOk result (λ sorted. (key : Key) → row_at key sorted.items ≡ row_at key items.now) }
{
    let mut sorted = Vec::new(alloc);
    for item in items {
        put_first(alloc, &mut sorted, item)?;
    }
    Ok(sorted)
}

/// Takes a list that was told.
pub fn take_list(
    alloc: Global,
    rows: &mut Rows,
    lists: &mut Lists,
    namespace: &Option<Text>,
    version: Version,
    items: &[Object],
) -> Result<(), OutOfMemory>
    ensures kind { rows.new.kind ≡ rows.old.kind }
    ensures told { OnOk result ((key : Key) → key.kind ≡ rows.old.kind → telling_in rows.new lists.new key ≡ later (list_tells namespace.now version items.now key) (telling_in rows.old lists.old key)) }
{
    let sorted = in_order(alloc, items)?;
    let view = View {
        rows,
        lists,
        namespace,
        version,
        items: &sorted,
    };
    let mut next = view.merged(alloc)?;
    lists.raise(alloc, namespace, version)?;
    next.keep_index_as(alloc, rows)?;
    *rows = next;
    Ok(())
}
