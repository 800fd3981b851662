//! The ordered map of the store: objects by key. A choice of this project.
//!
//! It is flat. The objects stand in a vector in the order of their keys, a key is found by halving, and the objects of a kind
//! are a slice. Beside them the map keeps where each kind begins, and an index of the volumes.

ghost use Rattle.std.specs.Prelude.{◌≡◌, ◌<◌, ◌≤◌, [], IfOk, IfSome, OnOk, OnErr, length};
ghost use Rattle.std.specs.Option.{option_copied};
ghost use Rattle.kube_objects.specs.Keys.{AreRows, IsRowAt, IsRowGap, key_of, put_row, row_at, rows_of, without_row};
ghost use Rattle.volume_index.specs.VolumeIndex.{StandsFor, volumes_in};

use crate::starts::{Starts, objects_of, starts_of};
use kube_types::copies::{OutOfMemory, Plain};
use kube_types::key::{Key, key_of};
use kube_types::objects::Object;
use kube_types::parts::Kind;
use kube_types::table::{row, row_place, take_out};
use std::alloc::Global;
use std::marker::Model;
use volume_index::index::VolumeIndex;
use volume_index::kept::KeptIndex;

/// Objects by key. Contracts see it as the list of the objects in the order of their keys.
pub struct ObjectMap {
    rows: Vec<Object>,
    starts: Starts,
    index: KeptIndex,
}

impl Drop for ObjectMap {
    fn drop(self) {
        let ObjectMap {
            rows,
            starts: _,
            index,
        } = self;
        drop(rows);
        drop(index);
    }
}

impl Model for ObjectMap {
    ghost use Rattle.std.specs.Prelude.{List};
    ghost use Rattle.kube_objects.specs.declared.objects.Object.{Object};
    ghost use Rattle.version_store.specs.Steps.Starts.{AreKept};

    ghost Value = { List Object };

    ghost view = { λ m. m.rows.items };

    ghost invariant = { λ m. AreKept m.rows.items m.starts m.index };
}

impl ObjectMap {
    /// A map without objects. It takes no memory.
    pub fn new(alloc: Global) -> ObjectMap
        ensures { result ≡ [] }
    {
        let rows = Vec::new(alloc);
        let starts = starts_of(&rows);
        ObjectMap {
            rows,
            starts,
            index: KeptIndex::new(alloc),
        }
    }

    /// The map of these objects, which stand in the order of their keys.
    pub fn of(alloc: Global, rows: Vec<Object>) -> Result<ObjectMap, OutOfMemory>
        requires { AreRows rows.items }
        ensures { IfOk result (λ map. map ≡ rows.items) }
    {
        let index = KeptIndex::of(alloc, &rows)?;
        let starts = starts_of(&rows);
        Ok(ObjectMap {
            rows,
            starts,
            index,
        })
    }

    /// The objects, in the order of their keys.
    pub fn objects(&self) -> &[Object]
        ensures objects { result.now ≡ self.now }
        ensures order { AreRows self.now }
    {
        &self.rows
    }

    /// The objects of a kind, in the order of namespace and name.
    pub fn of_kind(&self, kind: Kind) -> &[Object]
        ensures objects { result.now ≡ rows_of kind self.now }
        ensures order { AreRows self.now }
    {
        objects_of(&self.rows, self.starts, kind)
    }

    /// The object of a key.
    pub fn get(&self, key: &Key) -> Option<&Object>
        ensures object { option_copied result ≡ row_at key.now self.now }
        ensures order { AreRows self.now }
    {
        row(&self.rows, key)
    }

    /// An index of the volumes, unless there was no memory for it.
    pub fn volumes(&self) -> Option<&VolumeIndex>
        ensures { IfSome (option_copied result) (λ index. StandsFor index (volumes_in self.now)) }
    {
        self.index.get()
    }

    /// Puts the object in place of the one of its key, which stands at this place, and answers a copy of it.
    fn replace_at(
        &mut self,
        alloc: Global,
        at: usize,
        object: Object,
    ) -> Result<Object, OutOfMemory>
        requires bound { at < length self.old }
        requires at { IsRowAt self.old (key_of object) at }
        ensures told { IfOk result (λ told. told ≡ object) }
        ensures ok { OnOk result (self.new ≡ put_row object self.old) }
        ensures err { OnErr result (self.new ≡ self.old) }
    {
        let told = object.copy(alloc)?;
        self.index.follow(alloc, Some(&self.rows[at]), Some(&told))?;
        self.rows[at] = object;
        Ok(told)
    }

    /// Puts the object at the place where nothing stands under its key, and answers a copy of it.
    fn insert_at(&mut self, alloc: Global, at: usize, object: Object) -> Result<Object, OutOfMemory>
        requires bound { at ≤ length self.old }
        requires gap { IsRowGap self.old (key_of object) at }
        ensures told { IfOk result (λ told. told ≡ object) }
        ensures ok { OnOk result (self.new ≡ put_row object self.old) }
        ensures err { OnErr result (self.new ≡ self.old) }
    {
        let told = object.copy(alloc)?;
        self.index.follow(alloc, None, Some(&told))?;
        match self.rows.insert(at, object) {
            Ok(()) => {
                self.starts = starts_of(&self.rows);
                Ok(told)
            }
            Err(_) => {
                // The index has the object and the rows have not: it is given up.
                self.index = KeptIndex::none();
                Err(OutOfMemory)
            }
        }
    }

    /// Puts the object in place of the one of its key, or in its place in the order, and answers a copy of it.
    pub fn insert(&mut self, alloc: Global, object: Object) -> Result<Object, OutOfMemory>
        ensures told { IfOk result (λ told. told ≡ object) }
        ensures ok { OnOk result (self.new ≡ put_row object self.old) }
        ensures err { OnErr result (self.new ≡ self.old) }
    {
        let key = key_of(alloc, &object)?;
        match row_place(&self.rows, &key) {
            Ok(at) => self.replace_at(alloc, at, object),
            Err(at) => self.insert_at(alloc, at, object),
        }
    }

    /// Takes out the object of the key, if there is one. It takes no memory.
    pub fn remove(&mut self, alloc: Global, key: &Key) -> Option<Object>
        ensures taken { result ≡ row_at key.now self.old }
        ensures without { self.new ≡ without_row key.now self.old }
    {
        let taken = take_out(&mut self.rows, key);
        self.index.leave(alloc, taken.as_ref());
        self.starts = starts_of(&self.rows);
        taken
    }
}
