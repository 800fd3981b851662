//! What was told of keys one by one.

ghost use Rattle.std.specs.Prelude.{◌≡◌, [], Some, None, IfOk, IfErr, IfSome, OnOk, OnErr, length, option_map, if◌then◌else◌};
ghost use Rattle.std.specs.List.Sorted.{IsSearchInRange};
ghost use Rattle.std.specs.Option.{option_copied};
ghost use Rattle.kube_objects.specs.declared.key.Key.{Key};
ghost use Rattle.kube_objects.specs.Keys.{AreRows, IsRowAt, IsRowGap, key_of, put_row, row_at, same_key};
ghost use Rattle.volume_index.specs.VolumeIndex.{StandsFor, volumes_in};
ghost use Rattle.volume_index.specs.Keeping.{Keeps};
ghost use Rattle.informer_cache.specs.Marks.{AreMarks};
ghost use Rattle.informer_cache.specs.Knowledge.{AreKept, row_told, telling_of, told_at};

use crate::marks::{Mark, comes_last, put_in, version_in};
use crate::told::Told;
use kube_types::copies::{OutOfMemory, Plain};
use kube_types::key::Key;
use kube_types::objects::{Object, Version};
use kube_types::parts::Kind;
use kube_types::table::{row, row_place, take_out};
use std::alloc::Global;
use std::marker::Model;
use std::mem;
use volume_index::index::VolumeIndex;
use volume_index::kept::KeptIndex;

/// The objects of one kind in the order of their keys, and of each key that was told of by itself
/// the version at which that was. A key with a version and no object is absent. Where they are asked to, they keep an index
/// of the volumes among the objects.
pub struct Rows {
    kind: Kind,
    marks: Vec<Mark>,
    objects: Vec<Object>,
    index: KeptIndex,
}

impl Drop for Rows {
    fn drop(self) {
        let Rows {
            kind: _,
            marks,
            objects,
            index,
        } = self;
        drop(marks);
        drop(objects);
        drop(index);
    }
}

impl Model for Rows {
    ghost use Rattle.informer_cache.specs.Knowledge.{AreKept, RowState};
    ghost use Rattle.volume_index.specs.Keeping.{Keeps};

    ghost Value = { RowState };

    ghost view = { λ r. record { kind = r.kind; marks = r.marks.items; objects = r.objects.items } };

    ghost invariant = { λ r. AreKept r.kind r.marks.items r.objects.items × Keeps r.index r.objects.items };
}

/// Where the object of the key is, or where it would stand.
fn object_place(objects: &[Object], key: &Key) -> Result<usize, usize>
    requires { AreRows objects.now }
    ensures bound { IsSearchInRange result (length objects.now) }
    ensures at { IfOk result (IsRowAt objects.now key.now) }
    ensures gap { IfErr result (IsRowGap objects.now key.now) }
{
    if comes_last(objects, key) {
        return Err(objects.len());
    }
    row_place(objects, key)
}

/// Puts the object in place of the one of its key, or in its place in the order, and answers what stood there.
fn exchanged(
    objects: &mut Vec<Object>,
    key: &Key,
    object: Object,
) -> Result<Option<Object>, OutOfMemory>
    requires rows { AreRows objects.old.items }
    requires key { key_of object ≡ key.now }
    ensures before { IfOk result (λ before. before ≡ row_at key.now objects.old.items) }
    ensures ok { OnOk result (objects.new.items ≡ put_row object objects.old.items) }
    ensures err { OnErr result (objects.new.items ≡ objects.old.items) }
{
    match object_place(objects, key) {
        Ok(at) => Ok(Some(mem::replace(&mut objects[at], object))),
        Err(at) => {
            objects.insert(at, object)?;
            Ok(None)
        }
    }
}

/// Puts the object in place of the one of its key, or in its place in the order.
pub(crate) fn put_object(
    objects: &mut Vec<Object>,
    key: &Key,
    object: Object,
) -> Result<(), OutOfMemory>
    requires rows { AreRows objects.old.items }
    requires key { key_of object ≡ key.now }
    ensures ok { OnOk result (objects.new.items ≡ put_row object objects.old.items) }
    ensures err { OnErr result (objects.new.items ≡ objects.old.items) }
{
    exchanged(objects, key, object)?;
    Ok(())
}

fn mark_of(alloc: Global, key: &Key, version: Version) -> Result<Mark, OutOfMemory>
    ensures { IfOk result (λ m. (m.key ≡ key.now) × (m.version ≡ version)) }
{
    Ok(Mark {
        key: key.copy(alloc)?,
        version,
    })
}

/// The object stands under the key, as of this version.
fn put_present(
    alloc: Global,
    marks: &mut Vec<Mark>,
    objects: &mut Vec<Object>,
    index: &mut KeptIndex,
    key: &Key,
    version: Version,
    object: &Object,
) -> Result<(), OutOfMemory>
    requires kept { AreKept key.now.kind marks.old.items objects.old.items }
    requires index { Keeps index.old objects.old.items }
    requires key { key_of object.now ≡ key.now }
    ensures told { OnOk result ((k : Key) → row_told marks.new.items objects.new.items k ≡ (if same_key key.now k then Some (told_at version (Some object.now)) else row_told marks.old.items objects.old.items k)) }
    ensures kept { AreKept key.now.kind marks.new.items objects.new.items }
    ensures index { Keeps index.new objects.new.items }
{
    let copy = object.copy(alloc)?;
    let mark = mark_of(alloc, key, version)?;
    put_in(marks, mark)?;
    let before = exchanged(objects, key, copy)?;
    index.follow(alloc, before.as_ref(), Some(object))?;
    Ok(())
}

/// Nothing stands under the key, as of this version.
fn put_absent(
    alloc: Global,
    marks: &mut Vec<Mark>,
    objects: &mut Vec<Object>,
    index: &mut KeptIndex,
    key: &Key,
    version: Version,
) -> Result<(), OutOfMemory>
    requires kept { AreKept key.now.kind marks.old.items objects.old.items }
    requires index { Keeps index.old objects.old.items }
    ensures told { OnOk result ((k : Key) → row_told marks.new.items objects.new.items k ≡ (if same_key key.now k then Some (told_at version None) else row_told marks.old.items objects.old.items k)) }
    ensures kept { AreKept key.now.kind marks.new.items objects.new.items }
    ensures index { Keeps index.new objects.new.items }
{
    let mark = mark_of(alloc, key, version)?;
    put_in(marks, mark)?;
    let before = take_out(objects, key);
    index.leave(alloc, before.as_ref());
    Ok(())
}

/// What the rows tell of the key.
fn told_in<'a>(marks: &[Mark], objects: &'a [Object], key: &Key) -> Option<Told<'a>>
    requires marks { AreMarks marks.now }
    requires objects { AreRows objects.now }
    ensures { option_map telling_of result ≡ row_told marks.now objects.now key.now }
{
    match version_in(marks, key) {
        None => None,
        Some(version) => Some(Told {
            version,
            object: row(objects, key),
        }),
    }
}

impl Rows {
    /// No key was told of. It takes no memory.
    pub fn new(alloc: Global, kind: Kind) -> Rows
        ensures { result ≡ record { kind = kind; marks = []; objects = [] } }
    {
        Rows {
            kind,
            marks: Vec::new(alloc),
            objects: Vec::new(alloc),
            index: KeptIndex::none(),
        }
    }

    /// The same, with an index of the volumes. It takes no memory.
    pub fn with_index(alloc: Global, kind: Kind) -> Rows
        ensures { result ≡ record { kind = kind; marks = []; objects = [] } }
    {
        Rows {
            kind,
            marks: Vec::new(alloc),
            objects: Vec::new(alloc),
            index: KeptIndex::new(alloc),
        }
    }

    /// Keeps an index of the volumes where the earlier rows keep one.
    pub fn keep_index_as(&mut self, alloc: Global, earlier: &Rows) -> Result<(), OutOfMemory>
        ensures { self.new ≡ self.old }
    {
        if earlier.volumes().is_some() {
            self.index = KeptIndex::of(alloc, &self.objects)?;
        }
        Ok(())
    }

    pub fn kind(&self) -> Kind
        ensures { result ≡ self.now.kind }
    {
        self.kind
    }

    pub fn marks(&self) -> &[Mark]
        ensures { result.now ≡ self.now.marks }
    {
        &self.marks
    }

    /// The objects, in the order of their keys.
    pub fn objects(&self) -> &[Object]
        ensures objects { result.now ≡ self.now.objects }
        ensures kept { AreKept self.now.kind self.now.marks self.now.objects }
    {
        &self.objects
    }

    /// The index of the volumes among the objects, where one is kept.
    pub fn volumes(&self) -> Option<&VolumeIndex>
        ensures { IfSome (option_copied result) (λ index. StandsFor index (volumes_in self.now.objects)) }
    {
        self.index.get()
    }

    /// What was told of the key by itself.
    pub fn told(&self, key: &Key) -> Option<Told<'_>>
        ensures { option_map telling_of result ≡ row_told self.now.marks self.now.objects key.now }
    {
        told_in(&self.marks, &self.objects, key)
    }

    /// Takes what is told of the key in place of what was told of it before.
    pub fn store(&mut self, alloc: Global, key: &Key, told: Told<'_>) -> Result<(), OutOfMemory>
        requires kind { key.now.kind ≡ self.old.kind }
        requires object { IfSome (option_copied told.object) (λ o. key_of o ≡ key.now) }
        ensures told { OnOk result ((k : Key) → row_told self.new.marks self.new.objects k ≡ (if same_key key.now k then Some (telling_of told.entry) else row_told self.old.marks self.old.objects k)) }
        ensures kind { self.new.kind ≡ self.old.kind }
    {
        match told.object {
            Some(object) => put_present(
                alloc,
                &mut self.marks,
                &mut self.objects,
                &mut self.index,
                key,
                told.version,
                object,
            ),
            None => put_absent(
                alloc,
                &mut self.marks,
                &mut self.objects,
                &mut self.index,
                key,
                told.version,
            ),
        }
    }
}
