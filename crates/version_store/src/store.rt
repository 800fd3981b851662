//! The store.

ghost use Rattle.std.specs.Prelude.{◌≡◌, ◌-◌, ◌^◌, ◌<◌, true, IfOk, OnOk, OnErr, length, slice_get};
ghost use Rattle.std.specs.Option.{option_copied};
ghost use Rattle.kube_objects.specs.Keys.{AreRows, row_at, rows_of};
ghost use Rattle.binder_model.specs.Store.{no_store};
ghost use Rattle.binder_model.specs.Imports.{base_of, rows_of_imports};
ghost use Rattle.binder_model.specs.Answers.{after, is_for_store, outcome, reply_of};
ghost use Rattle.version_store.specs.Steps.Made.{outcome_of};

use crate::imports::{base_of, rows_of_imports};
use crate::object_map::ObjectMap;
use crate::outcome::Made;
use crate::verbs::outcome;
use call_types::reply::Reply;
use call_types::request::{Request, SeatKind};
use kube_types::copies::OutOfMemory;
use kube_types::key::Key;
use kube_types::lookup::Lookup;
use kube_types::objects::{Object, Version};
use kube_types::parts::Kind;
use kube_types::text::Text;
use std::alloc::Global;
use std::marker::Model;
use volume_index::index::VolumeIndex;

/// Objects by key, and the number of their writes. Contracts see it as the objects in the order of
/// their keys, and the version.
pub struct Store {
    alloc: Global,
    objects: ObjectMap,
    version: Version,
}

impl Drop for Store {
    fn drop(self) {
        let Store {
            alloc: _,
            objects,
            version: _,
        } = self;
        drop(objects);
    }
}

impl Model for Store {
    ghost use Rattle.binder_model.specs.Store.{State};

    ghost Value = { State };

    ghost view = { λ s. record { rows = s.objects; version = s.version } };
}

impl Store {
    /// A store without objects. It takes no memory.
    pub fn new(alloc: Global) -> Store
        ensures { result ≡ no_store }
    {
        Store {
            alloc,
            objects: ObjectMap::new(alloc),
            version: 0,
        }
    }

    /// The store with which a world of these imports begins.
    pub fn from_imports(alloc: Global, imports: &[Object]) -> Result<Store, OutOfMemory>
        ensures { IfOk result (λ s. s ≡ record { rows = rows_of_imports imports.now imports.now; version = base_of imports.now }) }
    {
        let rows = rows_of_imports(alloc, imports)?;
        let objects = ObjectMap::of(alloc, rows)?;
        Ok(Store {
            alloc,
            objects,
            version: base_of(imports),
        })
    }

    /// The number of the last write: at first that with which the imports begin, and one more for each write.
    pub fn version(&self) -> Version
        ensures { result ≡ self.now.version }
    {
        self.version
    }

    /// What the request comes to here. `stale` is the current epoch of the node that a FinishPod names,
    /// where the request has another.
    pub fn outcome(
        &self,
        kind: SeatKind,
        request: &Request,
        moment: &Text,
        stale: Option<u64>,
    ) -> Result<Made, OutOfMemory>
        requires { self.now.version < 2 ^ 62 - 1 }
        ensures { IfOk result (λ made. outcome_of made ≡ outcome self.now kind request.now moment.now stale) }
    {
        outcome(
            self.alloc,
            &self.objects,
            self.version,
            kind,
            request,
            moment,
            stale,
        )
    }

    /// Makes the one write of an outcome, if any, and answers it.
    pub fn apply(&mut self, made: Made) -> Result<Reply, OutOfMemory>
        requires { self.old.version < 2 ^ 62 - 1 }
        ensures state { OnOk result (self.new ≡ after self.old (outcome_of made)) }
        ensures reply { IfOk result (λ reply. reply ≡ reply_of (outcome_of made)) }
        ensures err { OnErr result (self.new ≡ self.old) }
    {
        made.write(self.alloc, &mut self.objects, &mut self.version)
    }

    /// Answers a request that is the store's. A FinishPod's epoch has been tested before.
    pub fn call(
        &mut self,
        kind: SeatKind,
        request: &Request,
        moment: &Text,
    ) -> Result<Reply, OutOfMemory>
        requires request { is_for_store request.now ≡ true }
        requires room { self.old.version < 2 ^ 62 - 1 }
        ensures state { OnOk result (self.new ≡ after self.old (outcome self.old kind request.now moment.now None)) }
        ensures reply { IfOk result (λ reply. reply ≡ reply_of (outcome self.old kind request.now moment.now None)) }
        ensures err { OnErr result (self.new ≡ self.old) }
    {
        let made = self.outcome(kind, request, moment, None)?;
        self.apply(made)
    }

    /// The reply that `call` would give.
    pub fn answer(
        &self,
        kind: SeatKind,
        request: &Request,
        moment: &Text,
    ) -> Result<Reply, OutOfMemory>
        requires request { is_for_store request.now ≡ true }
        requires room { self.now.version < 2 ^ 62 - 1 }
        ensures { IfOk result (λ reply. reply ≡ reply_of (outcome self.now kind request.now moment.now None)) }
    {
        let made = self.outcome(kind, request, moment, None)?;
        Ok(made.into_reply())
    }

    /// The objects, in the order of their keys.
    pub fn objects(&self) -> &[Object]
        ensures { result.now ≡ self.now.rows }
    {
        self.objects.objects()
    }

    /// The objects of a kind, in the order of namespace and name.
    pub fn of_kind(&self, kind: Kind) -> &[Object]
        ensures objects { result.now ≡ rows_of kind self.now.rows }
        ensures order { AreRows self.now.rows }
    {
        self.objects.of_kind(kind)
    }

    /// The object of a key.
    pub fn row(&self, key: &Key) -> Option<&Object>
        ensures { option_copied result ≡ row_at key.now self.now.rows }
    {
        self.objects.get(key)
    }

    /// How many objects of the kind there are.
    pub fn count(&self, kind: Kind) -> usize
        ensures { result ≡ length (rows_of kind self.now.rows) }
    {
        self.of_kind(kind).len()
    }

    /// The object at a place, from 0, among those of the kind in the order of namespace and name.
    pub fn at(&self, kind: Kind, place: usize) -> Option<&Object>
        ensures { option_copied result ≡ slice_get (rows_of kind self.now.rows) place }
    {
        self.of_kind(kind).get(place)
    }
}

impl Lookup for Store {
    ghost rows = { λ s. s.rows };

    fn count(&self, kind: Kind) -> usize {
        self.of_kind(kind).len()
    }

    fn of_kind(&self, kind: Kind) -> &[Object] {
        self.objects.of_kind(kind)
    }

    fn at(&self, kind: Kind, place: usize) -> Option<&Object> {
        self.of_kind(kind).get(place)
    }

    fn row(&self, key: &Key) -> Option<&Object> {
        self.objects.get(key)
    }

    fn volumes(&self) -> Option<&VolumeIndex> {
        self.objects.volumes()
    }
}
