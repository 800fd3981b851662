//! Metadata from a value.

ghost use Rattle.std.specs.Prelude.{◌≡◌, option_map};
ghost use Rattle.serde_json.specs.View.{view};
ghost use Rattle.object_text.specs.Answers.{Gives};
ghost use Rattle.object_text.specs.MetaReaders.{namespace_at, identity_at, marks_at, meta_with, meta_of};

use crate::errors::{Member, ObjectError};
use crate::member_readers::{
    needed_object, needed_text, pairs_at, stamp_at, stamp_or_empty, text_or, texts_at, uid_at,
    version_at,
};
use kube_types::objects::Meta;
use kube_types::pairs::Pairs;
use kube_types::text::{Names, Text};
use kube_types::uid::Uid;
use serde_json::Value;
use std::alloc::Global;

/// What tells an object from others.
pub struct Identity {
    pub name: Text,
    pub namespace: Text,
    pub uid: Option<Uid>,
    pub version: u64,
}

impl Drop for Identity {
    fn drop(self) {
        let Identity {
            name,
            namespace,
            uid: _,
            version: _,
        } = self;
        drop(name);
        drop(namespace);
    }
}

/// The rest of the metadata.
pub struct Marks {
    pub created: Text,
    pub deleted: Option<Text>,
    pub labels: Pairs,
    pub annotations: Pairs,
    pub finalizers: Names,
}

impl Drop for Marks {
    fn drop(self) {
        let Marks {
            created,
            deleted,
            labels,
            annotations,
            finalizers,
        } = self;
        drop(created);
        drop(deleted);
        drop(labels);
        drop(annotations);
        drop(finalizers);
    }
}

impl Marks {
    fn into_parts(self) -> (Text, Option<Text>, Pairs, Pairs, Names)
        ensures { result ≡ (self.created, self.deleted, self.labels, self.annotations, self.finalizers) }
    {
        let Marks {
            created,
            deleted,
            labels,
            annotations,
            finalizers,
        } = self;
        (created, deleted, labels, annotations, finalizers)
    }
}

impl Identity {
    /// The metadata with these marks.
    fn with_marks(self, marks: Marks) -> Meta
        ensures { result ≡ meta_with self marks }
    {
        let Identity {
            name,
            namespace,
            uid,
            version,
        } = self;
        let (created, deleted, labels, annotations, finalizers) = marks.into_parts();
        Meta {
            namespace,
            name,
            uid,
            version,
            created,
            deleted,
            labels,
            annotations,
            finalizers,
        }
    }
}

fn namespace_at(alloc: Global, namespaced: bool, place: Option<&Value>) -> Result<Text, ObjectError>
    ensures { Gives result (namespace_at namespaced (option_map (λ v. view v.now) place.entry)) }
{
    let namespace = text_or(alloc, place, Member::Namespace, "default")?;
    if namespaced {
        Ok(namespace)
    } else {
        Ok(Text::new(alloc, "")?)
    }
}

#[tactic(auto, unfolding(crate::specs::MetaReaders::identity_at))]
fn identity_at(
    alloc: Global,
    namespaced: bool,
    place: Option<&Value>,
) -> Result<Identity, ObjectError>
    ensures { Gives result (identity_at namespaced (option_map (λ v. view v.now) place.entry)) }
{
    let name = needed_text(alloc, place, Member::Name)?;
    let namespace = namespace_at(alloc, namespaced, place)?;
    let uid = uid_at(place, Member::Uid)?;
    let version = version_at(place, Member::ResourceVersion)?;
    Ok(Identity {
        name,
        namespace,
        uid,
        version,
    })
}

#[tactic(auto, unfolding(crate::specs::MetaReaders::marks_at))]
fn marks_at(alloc: Global, place: Option<&Value>) -> Result<Marks, ObjectError>
    ensures { Gives result (marks_at (option_map (λ v. view v.now) place.entry)) }
{
    let created = stamp_or_empty(alloc, place, Member::CreationTimestamp)?;
    let deleted = stamp_at(alloc, place, Member::DeletionTimestamp)?;
    let labels = pairs_at(alloc, place, Member::Labels)?;
    let annotations = pairs_at(alloc, place, Member::Annotations)?;
    let finalizers = texts_at(alloc, place, Member::Finalizers)?;
    Ok(Marks {
        created,
        deleted,
        labels,
        annotations,
        finalizers,
    })
}

/// The metadata of an object, of a kind with namespaces or without.
#[tactic(auto, unfolding(crate::specs::MetaReaders::meta_of))]
pub fn meta_of(alloc: Global, namespaced: bool, object: &Value) -> Result<Meta, ObjectError>
    ensures { Gives result (meta_of namespaced (view object.now)) }
{
    let metadata = needed_object(Some(object), Member::Metadata)?;
    let identity = identity_at(alloc, namespaced, Some(metadata))?;
    let marks = marks_at(alloc, Some(metadata))?;
    Ok(identity.with_marks(marks))
}
