//! Keys as the map of the queue holds them, and as it is asked for them.

ghost use Rattle.std.specs.Prelude.{◌≡◌, ◌++◌, IfOk};
ghost use Rattle.std.proofs.Common.{ap};
ghost use Rattle.std.specs.Hash as fed;
ghost use Rattle.kube_objects.specs.declared.key.Key.{Key};
ghost use Rattle.kube_objects.specs.Keys.{key_of, kind_index, same_key};
ghost use Rattle.std.specs.Cmp.{partial_equiv_from_equiv};
ghost use Rattle.kube_objects.proofs.SameKeys.{same_key-Decides, same_key_equivalence};

use indexmap::Equivalent;
use kube_types::key::{Key, kind_index, kind_of, meta_of, same_key, same_kind};
use kube_types::objects::Object;
use kube_types::parts::Kind;
use plain_data::copies::OutOfMemory;
use plain_data::shared::Shared;
use plain_data::text::Text;
use std::alloc::Global;
use std::hash::{Hash, Hasher};
use std::marker::Model;

/// A key of the map, which others may share.
pub(crate) struct Slot {
    key: Shared<Key>,
}

impl Drop for Slot {
    fn drop(self) {
        let Slot { key } = self;
        drop(key);
    }
}

impl Model for Slot {
    ghost use Rattle.kube_objects.specs.declared.key.Key.{Key};

    ghost Value = { Key };

    ghost view = { λ s. s.key };
}

impl Slot {
    /// A key of its own, of these parts.
    pub(crate) fn new(alloc: Global, key: &AskedKey<'_>) -> Result<Slot, OutOfMemory>
        ensures { IfOk result (λ slot. slot ≡ key.now) }
    {
        let own = Key {
            kind: key.kind,
            namespace: Text::new(alloc, key.namespace)?,
            name: Text::new(alloc, key.name)?,
        };
        Ok(Slot {
            key: Shared::new(alloc, own)?,
        })
    }

    pub(crate) fn key(&self) -> &Shared<Key>
        ensures { result.now ≡ self.now }
    {
        &self.key
    }
}

impl PartialEq for Slot {
    ghost eq = { same_key };

    ghost laws = { partial_equiv_from_equiv same_key_equivalence };

    fn eq(&self, other: &Slot) -> bool {
        same_key(self.key.get(), other.key.get())
    }
}

impl Eq for Slot {
    ghost laws = { same_key_equivalence };
}

impl Hash for Slot {
    ghost hash_input = { λ k. fed.u8 (kind_index k.kind) ++ fed.str k.namespace ++ fed.str k.name };

    ghost respects_eq = { λ k q e. ap (λ (x : Key). fed.u8 (kind_index x.kind) ++ fed.str x.namespace ++ fed.str x.name) ((same_key-Decides k q).0 e) };

    fn hash<H: Hasher>(&self, state: &mut H) {
        let key = self.key.get();
        kind_index(key.kind).hash(state);
        key.namespace.as_str().hash(state);
        key.name.as_str().hash(state);
    }
}

/// A key that is asked for by its parts, which another has.
#[derive(Drop)]
pub(crate) struct AskedKey<'q> {
    kind: Kind,
    namespace: &'q str,
    name: &'q str,
}

impl<'q> Model for AskedKey<'q> {
    ghost use Rattle.kube_objects.specs.declared.key.Key.{Key};

    ghost Value = { Key };

    ghost view = { λ a. record { kind = a.kind; namespace = a.namespace.now; name = a.name.now } };
}

impl<'q> AskedKey<'q> {
    pub(crate) fn of(key: &'q Key) -> AskedKey<'q>
        ensures { result ≡ key.now }
    {
        AskedKey {
            kind: key.kind,
            namespace: key.namespace.as_str(),
            name: key.name.as_str(),
        }
    }

    /// The key of the object.
    pub(crate) fn of_object(object: &'q Object) -> AskedKey<'q>
        ensures { result ≡ key_of object.now }
    {
        let meta = meta_of(object);
        AskedKey {
            kind: kind_of(object),
            namespace: meta.namespace.as_str(),
            name: meta.name.as_str(),
        }
    }

    /// Whether the key is this one.
    pub(crate) fn is(&self, key: &Key) -> bool
        ensures { result ≡ same_key self.now key.now }
    {
        same_kind(self.kind, key.kind)
            && self.namespace == key.namespace.as_str()
            && self.name == key.name.as_str()
    }
}

impl<'q> PartialEq for AskedKey<'q> {
    ghost eq = { same_key };

    ghost laws = { partial_equiv_from_equiv same_key_equivalence };

    fn eq(&self, other: &AskedKey<'q>) -> bool {
        same_kind(self.kind, other.kind)
            && self.namespace == other.namespace
            && self.name == other.name
    }
}

impl<'q> Eq for AskedKey<'q> {
    ghost laws = { same_key_equivalence };
}

impl<'q> Hash for AskedKey<'q> {
    ghost hash_input = { λ k. fed.u8 (kind_index k.kind) ++ fed.str k.namespace ++ fed.str k.name };

    ghost respects_eq = { λ k q e. ap (λ (x : Key). fed.u8 (kind_index x.kind) ++ fed.str x.namespace ++ fed.str x.name) ((same_key-Decides k q).0 e) };

    fn hash<H: Hasher>(&self, state: &mut H) {
        kind_index(self.kind).hash(state);
        self.namespace.hash(state);
        self.name.hash(state);
    }
}

impl<'q> Equivalent<Slot> for &AskedKey<'q> {
    ghost equivalent = { λ q. same_key q.now };

    ghost respects_hash = { λ q k e. ap (λ (x : Key). fed.u8 (kind_index x.kind) ++ fed.str x.namespace ++ fed.str x.name) ((same_key-Decides q.now k).0 e) };

    ghost respects_eq = { λ q. same_key_equivalence.congr q.now };

    fn equivalent(&self, key: &Slot) -> bool {
        self.is(key.key.get())
    }
}
