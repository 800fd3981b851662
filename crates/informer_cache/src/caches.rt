//! The caches of all kinds.

ghost use Rattle.std.specs.Prelude.{◌≡◌, List, [], ◌∷◌, IfOk, OnOk};
ghost use Rattle.kube_parts.specs.declared.parts.Kind.{Kind};
ghost use Rattle.kube_parts.specs.declared.parts.Kind.TheVariants as kinds;
ghost use Rattle.kube_objects.specs.declared.key.Key.{Key};
ghost use Rattle.kube_objects.specs.Keys.{AreRows, row_at, rows_of};
ghost use Rattle.call_types.specs.declared.entry.Entry.{Entry};
ghost use Rattle.informer_cache.specs.Cache.{CacheStandsFor, IsDone, IsLeft, IsTold, ask_of, keys_in, kind_known, objects_of};
ghost use Rattle.informer_cache.specs.Knowledge.{AreOfKind};
ghost use Rattle.informer_cache.specs.All.{AllStandFor, AreCaches, EachStandsFor, all_objects, cache_of};

use crate::cache::{Cache, NextRead};
use crate::learn::keys_in;
use call_types::reply::Reply;
use call_types::request::Request;
use kube_types::copies::OutOfMemory;
use kube_types::items::Items;
use kube_types::key::Key;
use kube_types::lookup::Lookup;
use kube_types::objects::{Object, Version};
use kube_types::parts::Kind;
use kube_types::table::row;
use std::alloc::Global;
use std::marker::Model;
use volume_index::index::VolumeIndex;

/// A cache of each kind. What is told goes to all of them, and each takes what is of its kind.
///
/// Where n keys of a kind were told, `row` is a binary search, and `at`, `count` and `ask` take the same
/// few steps always. `note`, `forget` and each event are a search, and where the key is new a move of
/// the rows after it. A list of a whole kind of n objects takes n searches; the list of a namespace
/// takes as many, with a copy of each row that it leaves, and a move of rows for each new key. Where an index of the
/// volumes is kept, each change of a volume changes it too, by a search and a move in each of its lists that the volume
/// enters or leaves, and a list of volumes makes it anew.
pub struct Caches {
    alloc: Global,
    classes: Cache,
    nodes: Cache,
    volumes: Cache,
    claims: Cache,
    pods: Cache,
}

impl Drop for Caches {
    fn drop(self) {
        let Caches {
            alloc: _,
            classes,
            nodes,
            volumes,
            claims,
            pods,
        } = self;
        drop(classes);
        drop(nodes);
        drop(volumes);
        drop(claims);
        drop(pods);
    }
}

impl Model for Caches {
    ghost use Rattle.informer_cache.specs.All.{AllKnown, AreCaches};

    ghost Value = { AllKnown };

    ghost view = { λ c. record { classes = c.classes; nodes = c.nodes; volumes = c.volumes; claims = c.claims; pods = c.pods } };

    ghost invariant = { λ c. AreCaches (record { classes = c.classes; nodes = c.nodes; volumes = c.volumes; claims = c.claims; pods = c.pods }) };
}

impl Caches {
    /// Caches that were told nothing. It takes no memory.
    pub fn new(alloc: Global) -> Caches
        ensures { AllStandFor result [] }
    {
        Caches::told_nothing(alloc, Cache::new(alloc, Kind::PersistentVolume))
    }

    /// The same, with an index of the volumes. It takes no memory.
    pub fn with_index(alloc: Global) -> Caches
        ensures { AllStandFor result [] }
    {
        Caches::told_nothing(alloc, Cache::with_index(alloc, Kind::PersistentVolume))
    }

    fn told_nothing(alloc: Global, volumes: Cache) -> Caches
        requires kind { kind_known volumes ≡ kinds.PersistentVolume }
        requires stands { CacheStandsFor volumes [] }
        ensures { AllStandFor result [] }
    {
        let caches = Caches::empty(alloc, volumes);
        caches.stand_together();
        caches
    }

    fn empty(alloc: Global, volumes: Cache) -> Caches
        requires kind { kind_known volumes ≡ kinds.PersistentVolume }
        requires stands { CacheStandsFor volumes [] }
        ensures { EachStandsFor result [] }
    {
        Caches {
            alloc,
            classes: Cache::new(alloc, Kind::StorageClass),
            nodes: Cache::new(alloc, Kind::Node),
            volumes,
            claims: Cache::new(alloc, Kind::PersistentVolumeClaim),
            pods: Cache::new(alloc, Kind::Pod),
        }
    }

    /// The cache of a kind.
    pub fn cache(&self, kind: Kind) -> &Cache
        ensures cache { result.now ≡ cache_of kind self.now }
        ensures kind { kind_known result.now ≡ kind }
    {
        match kind {
            Kind::StorageClass => &self.classes,
            Kind::Node => &self.nodes,
            Kind::PersistentVolume => &self.volumes,
            Kind::PersistentVolumeClaim => &self.claims,
            Kind::Pod => &self.pods,
        }
    }

    /// The read that keeps the cache of the kind up to date.
    pub fn ask(&self, kind: Kind) -> NextRead
        ensures { result ≡ ask_of (cache_of kind self.now) }
    {
        self.cache(kind).ask()
    }

    /// Takes the answer to a list or a watch, and tells the keys of the objects in it: in the order of
    /// the list, or of the events.
    pub fn absorb(&mut self, request: &Request, reply: &Reply) -> Result<Items<Key>, OutOfMemory>
        ensures keys { IfOk result (λ keys. keys ≡ keys_in reply.now) }
        ensures stands { OnOk result ((mine : List Entry) (e : Entry) → IsTold e request.now reply.now → AllStandFor self.old mine → AllStandFor self.new (e ∷ mine)) }
    {
        let keys = keys_in(self.alloc, reply)?;
        self.take_each(request, reply)?;
        self.stand_together();
        Ok(keys)
    }

    /// Takes the answer to an own write: the object as it was written.
    pub fn note(&mut self, object: &Object) -> Result<(), OutOfMemory>
        ensures { OnOk result ((mine : List Entry) (e : Entry) → IsDone e object.now → AllStandFor self.old mine → AllStandFor self.new (e ∷ mine)) }
    {
        self.note_each(object)?;
        self.stand_together();
        Ok(())
    }

    /// Takes the answer to an own write with which the object of the key left.
    pub fn forget(&mut self, key: &Key, version: Version) -> Result<(), OutOfMemory>
        ensures { OnOk result ((mine : List Entry) (e : Entry) → IsLeft e key.now version → AllStandFor self.old mine → AllStandFor self.new (e ∷ mine)) }
    {
        self.forget_each(key, version)?;
        self.stand_together();
        Ok(())
    }

    /// The objects of all kinds stand in order, those of each kind as its cache has them. It does
    /// nothing: its contract is what callers know of the caches.
    pub fn stand_together(&self)
        ensures kinds { AreCaches self.now }
        ensures order { AreRows (all_objects self.now) }
        ensures rows { (kind : Kind) → rows_of kind (all_objects self.now) ≡ objects_of (cache_of kind self.now) }
        ensures row { (key : Key) → row_at key (all_objects self.now) ≡ row_at key (objects_of (cache_of key.kind self.now)) }
    {
        let _ = &self.alloc;
        let _ = self.objects(Kind::StorageClass);
        let _ = self.objects(Kind::Node);
        let _ = self.objects(Kind::PersistentVolume);
        let _ = self.objects(Kind::PersistentVolumeClaim);
        let _ = self.objects(Kind::Pod);
    }
}

impl Caches {
    fn take_each(&mut self, request: &Request, reply: &Reply) -> Result<(), OutOfMemory>
        ensures { OnOk result ((mine : List Entry) (e : Entry) → IsTold e request.now reply.now → EachStandsFor self.old mine → EachStandsFor self.new (e ∷ mine)) }
    {
        self.classes.take(request, reply)?;
        self.nodes.take(request, reply)?;
        self.volumes.take(request, reply)?;
        self.claims.take(request, reply)?;
        self.pods.take(request, reply)
    }

    fn note_each(&mut self, object: &Object) -> Result<(), OutOfMemory>
        ensures { OnOk result ((mine : List Entry) (e : Entry) → IsDone e object.now → EachStandsFor self.old mine → EachStandsFor self.new (e ∷ mine)) }
    {
        self.classes.note(object)?;
        self.nodes.note(object)?;
        self.volumes.note(object)?;
        self.claims.note(object)?;
        self.pods.note(object)
    }

    fn forget_each(&mut self, key: &Key, version: Version) -> Result<(), OutOfMemory>
        ensures { OnOk result ((mine : List Entry) (e : Entry) → IsLeft e key.now version → EachStandsFor self.old mine → EachStandsFor self.new (e ∷ mine)) }
    {
        self.classes.forget(key, version)?;
        self.nodes.forget(key, version)?;
        self.volumes.forget(key, version)?;
        self.claims.forget(key, version)?;
        self.pods.forget(key, version)
    }

    /// The objects of a kind, in the order of namespace and name.
    fn objects(&self, kind: Kind) -> &[Object]
        ensures objects { result.now ≡ objects_of (cache_of kind self.now) }
        ensures order { AreRows (objects_of (cache_of kind self.now)) }
        ensures kind { AreOfKind kind (objects_of (cache_of kind self.now)) }
    {
        self.cache(kind).objects()
    }
}

impl Lookup for Caches {
    ghost use Rattle.informer_cache.specs.All.{all_objects};

    ghost rows = { λ c. all_objects c };

    fn count(&self, kind: Kind) -> usize {
        self.stand_together();
        self.objects(kind).len()
    }

    fn of_kind(&self, kind: Kind) -> &[Object] {
        self.stand_together();
        self.objects(kind)
    }

    fn at(&self, kind: Kind, place: usize) -> Option<&Object> {
        self.stand_together();
        self.objects(kind).get(place)
    }

    fn row(&self, key: &Key) -> Option<&Object> {
        self.stand_together();
        row(self.objects(key.kind), key)
    }

    fn volumes(&self) -> Option<&VolumeIndex> {
        self.stand_together();
        self.volumes.volumes()
    }
}
