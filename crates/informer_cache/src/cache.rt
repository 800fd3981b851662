//! A cache of one kind.

ghost use Rattle.std.specs.Prelude.{◌≡◌, false, List, [], ◌∷◌, IfOk, IfSome, OnOk};
ghost use Rattle.std.specs.Option.{option_copied};
ghost use Rattle.kube_parts.specs.declared.parts.Kind.{Kind};
ghost use Rattle.kube_objects.specs.Keys.{AreRows};
ghost use Rattle.volume_index.specs.VolumeIndex.{StandsFor, volumes_in};
ghost use Rattle.call_types.specs.declared.entry.Entry.{Entry};
ghost use Rattle.binder_model.specs.Told.{tells_of};
ghost use Rattle.informer_cache.specs.Cache.{IsDone, IsLeft, IsQuiet, IsTold, Known, Learns, CacheStandsFor, ask_of, keys_in, kind_known, objects_of, tells_done, tells_left};
ghost use Rattle.informer_cache.specs.Knowledge.{AreOfKind};

use crate::learn::{from_after, keys_in, learn};
use crate::lists::Lists;
use crate::rows::Rows;
use crate::tell::{tell_absent, tell_object};
use call_types::reply::Reply;
use call_types::request::Request;
use kube_types::copies::OutOfMemory;
use kube_types::items::Items;
use kube_types::key::{Key, meta_of};
use kube_types::objects::{Object, Version};
use kube_types::parts::Kind;
use std::alloc::Global;
use std::marker::Model;
use volume_index::index::VolumeIndex;

/// The read that keeps a cache up to date.
#[derive(Clone, Copy, Debug, PartialEq, Eq)]
pub enum NextRead {
    List,
    Watch { from: Version },
}

/// What was told of the objects of one kind: of each key the newest, also of those that are absent.
pub struct Cache {
    alloc: Global,
    rows: Rows,
    lists: Lists,
    from: Option<Version>,
}

impl Drop for Cache {
    fn drop(self) {
        let Cache {
            alloc: _,
            rows,
            lists,
            from: _,
        } = self;
        drop(rows);
        drop(lists);
    }
}

impl Model for Cache {
    ghost use Rattle.informer_cache.specs.Cache.{Known};

    ghost Value = { Known };

    ghost view = { λ c. record { rows = c.rows; lists = c.lists; from = c.from } };
}

impl Cache {
    /// A cache that was told nothing. It takes no memory.
    pub fn new(alloc: Global, kind: Kind) -> Cache
        ensures kind { kind_known result ≡ kind }
        ensures stands { CacheStandsFor result [] }
    {
        Cache {
            alloc,
            rows: Rows::new(alloc, kind),
            lists: Lists::new(alloc),
            from: None,
        }
    }

    /// The same, with an index of the volumes. It takes no memory.
    pub fn with_index(alloc: Global, kind: Kind) -> Cache
        ensures kind { kind_known result ≡ kind }
        ensures stands { CacheStandsFor result [] }
    {
        Cache {
            alloc,
            rows: Rows::with_index(alloc, kind),
            lists: Lists::new(alloc),
            from: None,
        }
    }

    pub fn kind(&self) -> Kind
        ensures { result ≡ kind_known self.now }
    {
        self.rows.kind()
    }

    /// The objects, in the order of namespace and name.
    pub fn objects(&self) -> &[Object]
        ensures objects { result.now ≡ objects_of self.now }
        ensures order { AreRows (objects_of self.now) }
        ensures kind { AreOfKind (kind_known self.now) (objects_of self.now) }
    {
        self.rows.objects()
    }

    /// The index of the volumes among the objects, where one is kept.
    pub fn volumes(&self) -> Option<&VolumeIndex>
        ensures { IfSome (option_copied result) (λ index. StandsFor index (volumes_in (objects_of self.now))) }
    {
        self.rows.volumes()
    }

    /// The read that keeps the cache up to date.
    pub fn ask(&self) -> NextRead
        ensures { result ≡ ask_of self.now }
    {
        match self.from {
            None => NextRead::List,
            Some(from) => NextRead::Watch { from },
        }
    }

    /// Takes the answer to a list or a watch, and tells the keys of the objects in it: in the order of
    /// the list, or of the events.
    pub fn absorb(&mut self, request: &Request, reply: &Reply) -> Result<Items<Key>, OutOfMemory>
        ensures keys { IfOk result (λ keys. keys ≡ keys_in reply.now) }
        ensures kind { kind_known self.new ≡ kind_known self.old }
        ensures learns { OnOk result (Learns self.old self.new (tells_of request.now reply.now)) }
        ensures stands { OnOk result ((mine : List Entry) (e : Entry) → IsTold e request.now reply.now → CacheStandsFor self.old mine → CacheStandsFor self.new (e ∷ mine)) }
    {
        let keys = keys_in(self.alloc, reply)?;
        self.take(request, reply)?;
        Ok(keys)
    }

    /// Takes an answer, whatever it is an answer to.
    pub(crate) fn take(&mut self, request: &Request, reply: &Reply) -> Result<(), OutOfMemory>
        ensures kind { kind_known self.new ≡ kind_known self.old }
        ensures learns { OnOk result (Learns self.old self.new (tells_of request.now reply.now)) }
        ensures stands { OnOk result ((mine : List Entry) (e : Entry) → IsTold e request.now reply.now → CacheStandsFor self.old mine → CacheStandsFor self.new (e ∷ mine)) }
    {
        learn(self.alloc, &mut self.rows, &mut self.lists, request, reply)?;
        self.from = from_after(self.rows.kind(), request, reply, self.from);
        let _ = self.rows.objects();
        Ok(())
    }

    /// Takes the answer to an own write: the object as it was written.
    pub fn note(&mut self, object: &Object) -> Result<(), OutOfMemory>
        ensures kind { kind_known self.new ≡ kind_known self.old }
        ensures learns { OnOk result (Learns self.old self.new (tells_done object.now)) }
        ensures stands { OnOk result ((mine : List Entry) (e : Entry) → IsDone e object.now → CacheStandsFor self.old mine → CacheStandsFor self.new (e ∷ mine)) }
    {
        let version = meta_of(object).version;
        tell_object(
            self.alloc,
            &mut self.rows,
            &self.lists,
            object,
            version,
            true,
        )?;
        let _ = self.rows.objects();
        Ok(())
    }

    /// Takes the answer to an own write with which the object of the key left.
    pub fn forget(&mut self, key: &Key, version: Version) -> Result<(), OutOfMemory>
        ensures kind { kind_known self.new ≡ kind_known self.old }
        ensures learns { OnOk result (Learns self.old self.new (tells_left key.now version)) }
        ensures stands { OnOk result ((mine : List Entry) (e : Entry) → IsLeft e key.now version → CacheStandsFor self.old mine → CacheStandsFor self.new (e ∷ mine)) }
    {
        tell_absent(self.alloc, &mut self.rows, &self.lists, key, version)?;
        let _ = self.rows.objects();
        Ok(())
    }
}

/// An entry that tells nothing of the kind changes nothing: one that did not reach the seat, among
/// others.
pub fn quiet_entries()
    ensures quiet { (c : Known) (mine : List Entry) (e : Entry) → IsQuiet (kind_known c) e → CacheStandsFor c mine → CacheStandsFor c (e ∷ mine) }
    ensures untold { (kind : Kind) (e : Entry) → e.told ≡ false → IsQuiet kind e }
{}
