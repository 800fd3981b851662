//! Keys of objects, and their order.

ghost use Rattle.std.specs.Prelude.{◌≡◌, ◌<◌, [], IfOk};
ghost use Rattle.kube_parts.specs.declared.parts.Kind.TheVariants as kinds;
ghost use Rattle.kube_objects.specs.Keys.{kind_index, kind_of, meta_of, key_of, key_cmp, same_key, same_kind};

use crate::objects::{Meta, Object};
use kube_parts::parts::Kind;
use plain_data::copies::{OutOfMemory, Plain};
use plain_data::rows::Ranked;
use plain_data::text::Text;
use std::alloc::Global;
use std::cmp::Ordering;

/// The kind, namespace and name of an object.
#[derive(Debug)]
pub struct Key {
    pub kind: Kind,
    pub namespace: Text,
    pub name: Text,
}

impl Drop for Key {
    fn drop(self) {
        let Key {
            kind: _,
            namespace,
            name,
        } = self;
        drop(namespace);
        drop(name);
    }
}

impl Plain for Key {
    fn copy(&self, alloc: Global) -> Result<Key, OutOfMemory> {
        Ok(Key {
            kind: self.kind,
            namespace: self.namespace.copy(alloc)?,
            name: self.name.copy(alloc)?,
        })
    }

    fn same(&self, other: &Key) -> bool {
        self.kind.same(&other.kind)
            && self.namespace.same(&other.namespace)
            && self.name.same(&other.name)
    }
}

impl Key {
    /// The order of keys: by kind, then namespace, then name.
    pub fn compare(&self, other: &Key) -> Ordering
        ensures { result ≡ key_cmp self.now other.now }
    {
        kind_index(self.kind)
            .cmp(&kind_index(other.kind))
            .then(self.namespace.as_str().cmp(other.namespace.as_str()))
            .then(self.name.as_str().cmp(other.name.as_str()))
    }
}

/// The metadata of an object.
pub fn meta_of(object: &Object) -> &Meta
    ensures { result.now ≡ meta_of object.now }
{
    match object {
        Object::Class(x) => &x.meta,
        Object::Node(x) => &x.meta,
        Object::Volume(x) => &x.meta,
        Object::Claim(x) => &x.meta,
        Object::Pod(x) => &x.meta,
    }
}

/// The kind of an object.
pub fn kind_of(object: &Object) -> Kind
    ensures { result ≡ kind_of object.now }
{
    match object {
        Object::Class(_) => Kind::StorageClass,
        Object::Node(_) => Kind::Node,
        Object::Volume(_) => Kind::PersistentVolume,
        Object::Claim(_) => Kind::PersistentVolumeClaim,
        Object::Pod(_) => Kind::Pod,
    }
}

/// The place of a kind in the order of kinds, from 0.
pub fn kind_index(kind: Kind) -> u8
    ensures value { result ≡ kind_index kind }
    ensures below { result < 5 }
{
    match kind {
        Kind::StorageClass => 0,
        Kind::Node => 1,
        Kind::PersistentVolume => 2,
        Kind::PersistentVolumeClaim => 3,
        Kind::Pod => 4,
    }
}

/// Whether two kinds are one.
pub fn same_kind(left: Kind, right: Kind) -> bool
    ensures { result ≡ same_kind left right }
{
    kind_index(left) == kind_index(right)
}

/// Whether two keys are one.
pub fn same_key(left: &Key, right: &Key) -> bool
    ensures { result ≡ same_key left.now right.now }
{
    same_kind(left.kind, right.kind)
        && left.namespace.as_str() == right.namespace.as_str()
        && left.name.as_str() == right.name.as_str()
}

/// The key of an object.
pub fn key_of(alloc: Global, object: &Object) -> Result<Key, OutOfMemory>
    ensures { IfOk result (λ k. k ≡ key_of object.now) }
{
    let meta = meta_of(object);
    Ok(Key {
        kind: kind_of(object),
        namespace: meta.namespace.copy(alloc)?,
        name: meta.name.copy(alloc)?,
    })
}

/// The key of the volume of this name.
pub fn volume_key(alloc: Global, name: &Text) -> Result<Key, OutOfMemory>
    ensures { IfOk result (λ k. k ≡ record { kind = kinds.PersistentVolume; namespace = []; name = name.now }) }
{
    Ok(Key {
        kind: Kind::PersistentVolume,
        namespace: Text::new(alloc, "")?,
        name: name.copy(alloc)?,
    })
}

/// The key of the claim of this namespace and name.
pub fn claim_key(alloc: Global, namespace: &Text, name: &Text) -> Result<Key, OutOfMemory>
    ensures { IfOk result (λ k. k ≡ record { kind = kinds.PersistentVolumeClaim; namespace = namespace.now; name = name.now }) }
{
    Ok(Key {
        kind: Kind::PersistentVolumeClaim,
        namespace: namespace.copy(alloc)?,
        name: name.copy(alloc)?,
    })
}

impl Ranked<Key> for Object {
    ghost use Rattle.kube_objects.specs.Keys.{key_of, key_cmp};

    ghost rank = { λ o k. key_cmp (key_of o) k };

    fn rank(&self, key: &Key) -> Ordering {
        let meta = meta_of(self);
        kind_index(kind_of(self))
            .cmp(&kind_index(key.kind))
            .then(meta.namespace.as_str().cmp(key.namespace.as_str()))
            .then(meta.name.as_str().cmp(key.name.as_str()))
    }
}
