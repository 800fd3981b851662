//! The objects.

use kube_parts::parts::{ClaimPhase, Modes, Op, Policy, SourceKind, VolumePhase};
use kube_parts::uid::Uid;
use plain_data::copies::{OutOfMemory, Plain, copy_option, same_option};
use plain_data::items::Items;
use plain_data::pairs::Pairs;
use plain_data::shared::Shared;
use plain_data::text::{Names, Text};
use std::alloc::Global;

/// The number of a write. The first is 1.
pub type Version = u64;

/// What every object has.
#[derive(Debug)]
pub struct Meta {
    pub namespace: Text,
    pub name: Text,
    pub uid: Option<Uid>,
    pub version: Version,
    pub created: Text,
    pub deleted: Option<Text>,
    pub labels: Pairs,
    pub annotations: Pairs,
    pub finalizers: Names,
}

impl Drop for Meta {
    fn drop(self) {
        let Meta {
            namespace,
            name,
            uid: _,
            version: _,
            created,
            deleted,
            labels,
            annotations,
            finalizers,
        } = self;
        drop(namespace);
        drop(name);
        drop(created);
        drop(deleted);
        drop(labels);
        drop(annotations);
        drop(finalizers);
    }
}

impl Plain for Meta {
    fn copy(&self, alloc: Global) -> Result<Meta, OutOfMemory> {
        Ok(Meta {
            namespace: self.namespace.copy(alloc)?,
            name: self.name.copy(alloc)?,
            uid: self.uid,
            version: self.version,
            created: self.created.copy(alloc)?,
            deleted: copy_option(alloc, &self.deleted)?,
            labels: self.labels.copy(alloc)?,
            annotations: self.annotations.copy(alloc)?,
            finalizers: self.finalizers.copy(alloc)?,
        })
    }

    fn same(&self, other: &Meta) -> bool {
        self.namespace.same(&other.namespace)
            && self.name.same(&other.name)
            && self.uid == other.uid
            && self.version == other.version
            && self.created.same(&other.created)
            && same_option(&self.deleted, &other.deleted)
            && self.labels.same(&other.labels)
            && self.annotations.same(&other.annotations)
            && self.finalizers.same(&other.finalizers)
    }
}

/// A quantity, as written and in bytes.
#[derive(Debug)]
pub struct Amount {
    pub text: Text,
    pub bytes: u64,
}

impl Drop for Amount {
    fn drop(self) {
        let Amount { text, bytes: _ } = self;
        drop(text);
    }
}

impl Plain for Amount {
    fn copy(&self, alloc: Global) -> Result<Amount, OutOfMemory> {
        Ok(Amount {
            text: self.text.copy(alloc)?,
            bytes: self.bytes,
        })
    }

    fn same(&self, other: &Amount) -> bool {
        self.text.same(&other.text) && self.bytes == other.bytes
    }
}

/// A reference to a claim.
#[derive(Debug)]
pub struct Ref {
    pub namespace: Text,
    pub name: Text,
    pub uid: Option<Uid>,
}

impl Drop for Ref {
    fn drop(self) {
        let Ref {
            namespace,
            name,
            uid: _,
        } = self;
        drop(namespace);
        drop(name);
    }
}

impl Plain for Ref {
    fn copy(&self, alloc: Global) -> Result<Ref, OutOfMemory> {
        Ok(Ref {
            namespace: self.namespace.copy(alloc)?,
            name: self.name.copy(alloc)?,
            uid: self.uid,
        })
    }

    fn same(&self, other: &Ref) -> bool {
        self.namespace.same(&other.namespace)
            && self.name.same(&other.name)
            && self.uid == other.uid
    }
}

/// Where the data of a volume is.
#[derive(Debug)]
pub struct Source {
    pub kind: SourceKind,
    pub first: Text,
    pub second: Text,
}

impl Drop for Source {
    fn drop(self) {
        let Source {
            kind: _,
            first,
            second,
        } = self;
        drop(first);
        drop(second);
    }
}

impl Plain for Source {
    fn copy(&self, alloc: Global) -> Result<Source, OutOfMemory> {
        Ok(Source {
            kind: self.kind,
            first: self.first.copy(alloc)?,
            second: self.second.copy(alloc)?,
        })
    }

    fn same(&self, other: &Source) -> bool {
        self.kind.same(&other.kind)
            && self.first.same(&other.first)
            && self.second.same(&other.second)
    }
}

/// One expression of a selector.
#[derive(Debug)]
pub struct Expr {
    pub key: Text,
    pub op: Op,
    pub values: Names,
}

impl Drop for Expr {
    fn drop(self) {
        let Expr { key, op: _, values } = self;
        drop(key);
        drop(values);
    }
}

impl Plain for Expr {
    fn copy(&self, alloc: Global) -> Result<Expr, OutOfMemory> {
        Ok(Expr {
            key: self.key.copy(alloc)?,
            op: self.op,
            values: self.values.copy(alloc)?,
        })
    }

    fn same(&self, other: &Expr) -> bool {
        self.key.same(&other.key) && self.op.same(&other.op) && self.values.same(&other.values)
    }
}

/// Alternatives, each a list of expressions that must all hold.
#[derive(Debug)]
pub struct NodeTerms {
    pub terms: Items<Items<Expr>>,
}

impl Drop for NodeTerms {
    fn drop(self) {
        let NodeTerms { terms } = self;
        drop(terms);
    }
}

impl Plain for NodeTerms {
    fn copy(&self, alloc: Global) -> Result<NodeTerms, OutOfMemory> {
        Ok(NodeTerms {
            terms: self.terms.copy(alloc)?,
        })
    }

    fn same(&self, other: &NodeTerms) -> bool {
        self.terms.same(&other.terms)
    }
}

/// A selector of labels.
#[derive(Debug)]
pub struct Selector {
    pub labels: Pairs,
    pub exprs: Items<Expr>,
}

impl Drop for Selector {
    fn drop(self) {
        let Selector { labels, exprs } = self;
        drop(labels);
        drop(exprs);
    }
}

impl Plain for Selector {
    fn copy(&self, alloc: Global) -> Result<Selector, OutOfMemory> {
        Ok(Selector {
            labels: self.labels.copy(alloc)?,
            exprs: self.exprs.copy(alloc)?,
        })
    }

    fn same(&self, other: &Selector) -> bool {
        self.labels.same(&other.labels) && self.exprs.same(&other.exprs)
    }
}

/// A volume.
#[derive(Debug)]
pub struct Volume {
    pub meta: Meta,
    pub amount: Amount,
    pub modes: Modes,
    pub block: bool,
    pub class: Text,
    pub policy: Policy,
    pub claim_ref: Option<Ref>,
    pub source: Source,
    pub terms: Option<NodeTerms>,
    pub extra: Text,
    pub phase: VolumePhase,
}

impl Drop for Volume {
    fn drop(self) {
        let Volume {
            meta,
            amount,
            modes: _,
            block: _,
            class,
            policy: _,
            claim_ref,
            source,
            terms,
            extra,
            phase: _,
        } = self;
        drop(meta);
        drop(amount);
        drop(class);
        drop(claim_ref);
        drop(source);
        drop(terms);
        drop(extra);
    }
}

impl Plain for Volume {
    fn copy(&self, alloc: Global) -> Result<Volume, OutOfMemory> {
        Ok(Volume {
            meta: self.meta.copy(alloc)?,
            amount: self.amount.copy(alloc)?,
            modes: self.modes,
            block: self.block,
            class: self.class.copy(alloc)?,
            policy: self.policy,
            claim_ref: copy_option(alloc, &self.claim_ref)?,
            source: self.source.copy(alloc)?,
            terms: copy_option(alloc, &self.terms)?,
            extra: self.extra.copy(alloc)?,
            phase: self.phase,
        })
    }

    fn same(&self, other: &Volume) -> bool {
        self.meta.same(&other.meta)
            && self.amount.same(&other.amount)
            && self.modes.same(&other.modes)
            && self.block == other.block
            && self.class.same(&other.class)
            && self.policy.same(&other.policy)
            && same_option(&self.claim_ref, &other.claim_ref)
            && self.source.same(&other.source)
            && same_option(&self.terms, &other.terms)
            && self.extra.same(&other.extra)
            && self.phase.same(&other.phase)
    }
}

/// A claim.
#[derive(Debug)]
pub struct Claim {
    pub meta: Meta,
    pub modes: Modes,
    pub amount: Amount,
    pub block: bool,
    pub class: Option<Text>,
    pub selector: Option<Selector>,
    pub volume_name: Text,
    pub extra: Text,
    pub phase: ClaimPhase,
    pub got_modes: Modes,
    pub got: Option<Amount>,
}

impl Drop for Claim {
    fn drop(self) {
        let Claim {
            meta,
            modes: _,
            amount,
            block: _,
            class,
            selector,
            volume_name,
            extra,
            phase: _,
            got_modes: _,
            got,
        } = self;
        drop(meta);
        drop(amount);
        drop(class);
        drop(selector);
        drop(volume_name);
        drop(extra);
        drop(got);
    }
}

impl Plain for Claim {
    fn copy(&self, alloc: Global) -> Result<Claim, OutOfMemory> {
        Ok(Claim {
            meta: self.meta.copy(alloc)?,
            modes: self.modes,
            amount: self.amount.copy(alloc)?,
            block: self.block,
            class: copy_option(alloc, &self.class)?,
            selector: copy_option(alloc, &self.selector)?,
            volume_name: self.volume_name.copy(alloc)?,
            extra: self.extra.copy(alloc)?,
            phase: self.phase,
            got_modes: self.got_modes,
            got: copy_option(alloc, &self.got)?,
        })
    }

    fn same(&self, other: &Claim) -> bool {
        self.meta.same(&other.meta)
            && self.modes.same(&other.modes)
            && self.amount.same(&other.amount)
            && self.block == other.block
            && same_option(&self.class, &other.class)
            && same_option(&self.selector, &other.selector)
            && self.volume_name.same(&other.volume_name)
            && self.extra.same(&other.extra)
            && self.phase.same(&other.phase)
            && self.got_modes.same(&other.got_modes)
            && same_option(&self.got, &other.got)
    }
}

/// A class.
#[derive(Debug)]
pub struct Class {
    pub meta: Meta,
    pub provisioner: Text,
    pub policy: Policy,
    pub delayed: bool,
    pub parameters: Pairs,
    pub extra: Text,
}

impl Drop for Class {
    fn drop(self) {
        let Class {
            meta,
            provisioner,
            policy: _,
            delayed: _,
            parameters,
            extra,
        } = self;
        drop(meta);
        drop(provisioner);
        drop(parameters);
        drop(extra);
    }
}

impl Plain for Class {
    fn copy(&self, alloc: Global) -> Result<Class, OutOfMemory> {
        Ok(Class {
            meta: self.meta.copy(alloc)?,
            provisioner: self.provisioner.copy(alloc)?,
            policy: self.policy,
            delayed: self.delayed,
            parameters: self.parameters.copy(alloc)?,
            extra: self.extra.copy(alloc)?,
        })
    }

    fn same(&self, other: &Class) -> bool {
        self.meta.same(&other.meta)
            && self.provisioner.same(&other.provisioner)
            && self.policy.same(&other.policy)
            && self.delayed == other.delayed
            && self.parameters.same(&other.parameters)
            && self.extra.same(&other.extra)
    }
}

/// A pod. `claims` are the claims that its volumes name, in order.
#[derive(Debug)]
pub struct Pod {
    pub meta: Meta,
    pub claims: Names,
    pub node: Text,
    pub extra: Text,
}

impl Drop for Pod {
    fn drop(self) {
        let Pod {
            meta,
            claims,
            node,
            extra,
        } = self;
        drop(meta);
        drop(claims);
        drop(node);
        drop(extra);
    }
}

impl Plain for Pod {
    fn copy(&self, alloc: Global) -> Result<Pod, OutOfMemory> {
        Ok(Pod {
            meta: self.meta.copy(alloc)?,
            claims: self.claims.copy(alloc)?,
            node: self.node.copy(alloc)?,
            extra: self.extra.copy(alloc)?,
        })
    }

    fn same(&self, other: &Pod) -> bool {
        self.meta.same(&other.meta)
            && self.claims.same(&other.claims)
            && self.node.same(&other.node)
            && self.extra.same(&other.extra)
    }
}

/// A node.
#[derive(Debug)]
pub struct Node {
    pub meta: Meta,
    pub extra: Text,
}

impl Drop for Node {
    fn drop(self) {
        let Node { meta, extra } = self;
        drop(meta);
        drop(extra);
    }
}

impl Plain for Node {
    fn copy(&self, alloc: Global) -> Result<Node, OutOfMemory> {
        Ok(Node {
            meta: self.meta.copy(alloc)?,
            extra: self.extra.copy(alloc)?,
        })
    }

    fn same(&self, other: &Node) -> bool {
        self.meta.same(&other.meta) && self.extra.same(&other.extra)
    }
}

/// An object of one of the five kinds. A copy shares the value with its source.
#[derive(Debug)]
pub enum Object {
    Class(Shared<Class>),
    Node(Shared<Node>),
    Volume(Shared<Volume>),
    Claim(Shared<Claim>),
    Pod(Shared<Pod>),
}

impl Drop for Object {
    fn drop(self) {
        match self {
            Object::Class(x) => drop(x),
            Object::Node(x) => drop(x),
            Object::Volume(x) => drop(x),
            Object::Claim(x) => drop(x),
            Object::Pod(x) => drop(x),
        }
    }
}

impl Plain for Object {
    fn copy(&self, alloc: Global) -> Result<Object, OutOfMemory> {
        match self {
            Object::Class(x) => Ok(Object::Class(x.copy(alloc)?)),
            Object::Node(x) => Ok(Object::Node(x.copy(alloc)?)),
            Object::Volume(x) => Ok(Object::Volume(x.copy(alloc)?)),
            Object::Claim(x) => Ok(Object::Claim(x.copy(alloc)?)),
            Object::Pod(x) => Ok(Object::Pod(x.copy(alloc)?)),
        }
    }

    fn same(&self, other: &Object) -> bool {
        match (self, other) {
            (Object::Class(x), Object::Class(y)) => x.same(y),
            (Object::Node(x), Object::Node(y)) => x.same(y),
            (Object::Volume(x), Object::Volume(y)) => x.same(y),
            (Object::Claim(x), Object::Claim(y)) => x.same(y),
            (Object::Pod(x), Object::Pod(y)) => x.same(y),
            _ => false,
        }
    }
}

/// The name of data on a back end: a driver, and the id that it gave.
#[derive(Debug)]
pub struct DataId {
    pub driver: Text,
    pub id: Text,
}

impl Drop for DataId {
    fn drop(self) {
        let DataId { driver, id } = self;
        drop(driver);
        drop(id);
    }
}

impl Plain for DataId {
    fn copy(&self, alloc: Global) -> Result<DataId, OutOfMemory> {
        Ok(DataId {
            driver: self.driver.copy(alloc)?,
            id: self.id.copy(alloc)?,
        })
    }

    fn same(&self, other: &DataId) -> bool {
        self.driver.same(&other.driver) && self.id.same(&other.id)
    }
}
