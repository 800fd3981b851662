//! Objects in the order of their keys.

ghost use Rattle.std.specs.Prelude.{◌≡◌, ◌≤◌, ◌+◌, [], IfOk, IfErr, IfNone, OnOk, OnErr, length, slice_get};
ghost use Rattle.std.specs.Option.{option_copied};
ghost use Rattle.std.specs.List.Sorted.{IsSearchInRange};
ghost use Rattle.kube_objects.specs.Keys.{AreRows, IsRowAt, IsRowGap, key_of, kind_index, row_at, put_row, without_row, rows_of, IsKindStart};

use crate::lookup::Lookup;
use kube_objects::key::{Key, key_of, kind_index, kind_of, same_kind};
use kube_objects::objects::Object;
use kube_parts::parts::Kind;
use plain_data::copies::OutOfMemory;
use plain_data::rows::{Ranked, place_of, put_at};
use std::alloc::Global;
use std::cmp::Ordering;
use std::marker::Model;
use volume_index::index::VolumeIndex;

/// Where the row of the key is, or where it would stand.
pub fn row_place(rows: &[Object], key: &Key) -> Result<usize, usize>
    requires { AreRows rows.now }
    ensures bound { IsSearchInRange result (length rows.now) }
    ensures at { IfOk result (IsRowAt rows.now key.now) }
    ensures gap { IfErr result (IsRowGap rows.now key.now) }
{
    place_of(rows, key)
}

/// The row of the key.
pub fn row<'a>(rows: &'a [Object], key: &Key) -> Option<&'a Object>
    requires { AreRows rows.now }
    ensures { option_copied result ≡ row_at key.now rows.now }
{
    match row_place(rows, key) {
        Ok(at) => Some(&rows[at]),
        Err(_) => None,
    }
}

/// Puts the object in place of the row of its key, or in its place in the order.
pub fn put_in(
    alloc: Global,
    rows: &mut Vec<Object>,
    key: &Key,
    object: Object,
) -> Result<Object, OutOfMemory>
    requires rows { AreRows rows.old.items }
    requires key { key.now ≡ key_of object }
    ensures told { IfOk result (λ told. told ≡ object) }
    ensures ok { OnOk result (rows.new.items ≡ put_row object rows.old.items) }
    ensures err { OnErr result (rows.new.items ≡ rows.old.items) }
    ensures rising { AreRows rows.new.items }
{
    let place = row_place(rows, key);
    put_at(alloc, rows, place, object)
}

/// Takes out the row of the key.
pub fn take_out(rows: &mut Vec<Object>, key: &Key) -> Option<Object>
    requires { AreRows rows.old.items }
    ensures taken { result ≡ row_at key.now rows.old.items }
    ensures without { rows.new.items ≡ without_row key.now rows.old.items }
    ensures none { IfNone result (rows.new.items ≡ rows.old.items) }
    ensures rising { AreRows rows.new.items }
{
    match row_place(rows, key) {
        Ok(at) => Some(rows.remove(at)),
        Err(_) => None,
    }
}

/// The kinds from a place in the order of kinds on.
#[derive(Clone, Copy)]
struct KindsFrom {
    index: u8,
}

impl Ranked<KindsFrom> for Object {
    ghost use Rattle.std.specs.Prelude.{nat_lt, if◌then◌else◌};
    ghost use Rattle.std.specs.declared.cmp.Ordering.TheVariants.{Less, Greater};
    ghost use Rattle.kube_objects.specs.Keys.{kind_index, kind_of};

    ghost rank = { λ o k. if nat_lt (kind_index (kind_of o)) k.index then Less else Greater };

    fn rank(&self, key: &KindsFrom) -> Ordering {
        if kind_index(kind_of(self)) < key.index {
            Ordering::Less
        } else {
            Ordering::Greater
        }
    }
}

/// Where the objects of the kinds from this place in the order of kinds on begin.
pub fn kind_start(rows: &[Object], index: u8) -> usize
    requires { AreRows rows.now }
    ensures bound { result ≤ length rows.now }
    ensures start { IsKindStart index rows.now result }
{
    match place_of(rows, &KindsFrom { index }) {
        Ok(at) => at,
        Err(at) => at,
    }
}

/// The objects of a kind, where they begin at `start` and those of later kinds at `end`.
pub fn between_starts<'a>(rows: &'a [Object], kind: Kind, start: usize, end: usize) -> &'a [Object]
    requires start_within { start ≤ length rows.now }
    requires end_within { end ≤ length rows.now }
    requires start { IsKindStart (kind_index kind) rows.now start }
    requires end { IsKindStart (kind_index kind + 1) rows.now end }
    ensures { result.now ≡ rows_of kind rows.now }
{
    let count = end - start;
    &rows[start..start + count]
}

/// The objects of a kind, which stand together.
pub fn of_kind<'a>(rows: &'a [Object], kind: Kind) -> &'a [Object]
    requires { AreRows rows.now }
    ensures { result.now ≡ rows_of kind rows.now }
{
    let index = kind_index(kind);
    let start = kind_start(rows, index);
    let end = kind_start(rows, index + 1);
    between_starts(rows, kind, start, end)
}

/// How many objects are of a kind.
pub fn count_of_kind(rows: &[Object], kind: Kind) -> usize
    requires { AreRows rows.now }
    ensures { result ≡ length (rows_of kind rows.now) }
{
    of_kind(rows, kind).len()
}

/// The object at a place among those of its kind, from 0.
pub fn at_of_kind<'a>(rows: &'a [Object], kind: Kind, place: usize) -> Option<&'a Object>
    requires { AreRows rows.now }
    ensures { option_copied result ≡ slice_get (rows_of kind rows.now) place }
{
    // One search: where the kind begins. What stands at the place from there on tells by itself whether it is of the kind.
    let start = kind_start(rows, kind_index(kind));
    if place >= rows.len() - start {
        return None;
    }
    let object = &rows[start + place];
    if same_kind(kind_of(object), kind) {
        Some(object)
    } else {
        None
    }
}

/// Objects in the order of their keys, no key twice. Contracts see the list of them.
#[derive(Debug, Drop)]
pub struct Table {
    rows: Vec<Object>,
}

impl Model for Table {
    ghost use Rattle.std.specs.Prelude.{List};
    ghost use Rattle.kube_objects.specs.declared.objects.Object.{Object};
    ghost use Rattle.kube_objects.specs.Keys.{AreRows};

    ghost Value = { List Object };

    ghost view = { λ t. t.rows.items };

    ghost invariant = { λ t. AreRows t.rows.items };
}

impl Table {
    /// A table without objects. It takes no memory.
    pub fn new(alloc: Global) -> Table
        ensures { result ≡ [] }
    {
        Table {
            rows: Vec::new(alloc),
        }
    }

    pub fn as_slice(&self) -> &[Object]
        ensures rows { result.now ≡ self.now }
        ensures order { AreRows self.now }
    {
        &self.rows
    }

    /// Puts the object in place of the one of its key, or in its place in the order, and answers a
    /// copy of it.
    pub fn put(&mut self, alloc: Global, object: Object) -> Result<Object, OutOfMemory>
        ensures told { IfOk result (λ told. told ≡ object) }
        ensures ok { OnOk result (self.new ≡ put_row object self.old) }
        ensures err { OnErr result (self.new ≡ self.old) }
    {
        let key = key_of(alloc, &object)?;
        put_in(alloc, &mut self.rows, &key, object)
    }

    /// Takes out the object of the key.
    pub fn take(&mut self, key: &Key) -> Option<Object>
        ensures taken { result ≡ row_at key.now self.old }
        ensures without { self.new ≡ without_row key.now self.old }
        ensures none { IfNone result (self.new ≡ self.old) }
    {
        take_out(&mut self.rows, key)
    }
}

impl Lookup for Table {
    ghost rows = { λ t. t };

    fn count(&self, kind: Kind) -> usize {
        count_of_kind(&self.rows, kind)
    }

    fn of_kind(&self, kind: Kind) -> &[Object] {
        of_kind(&self.rows, kind)
    }

    fn at(&self, kind: Kind, place: usize) -> Option<&Object> {
        at_of_kind(&self.rows, kind, place)
    }

    fn row(&self, key: &Key) -> Option<&Object> {
        row(&self.rows, key)
    }

    fn volumes(&self) -> Option<&VolumeIndex> {
        None
    }
}
