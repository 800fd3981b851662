//! Changes of what every object has.

ghost use Rattle.std.specs.Prelude.{◌≡◌, OnOk};
ghost use Rattle.kube_objects.specs.Keys.{meta_of};
ghost use Rattle.binder_model.specs.Store.{with_meta};
ghost use Rattle.version_store.specs.Steps.Metadata.{changed_meta};

use kube_types::copies::OutOfMemory;
use kube_types::objects::{Meta, Object, Version};
use kube_types::pairs::Pairs;
use kube_types::text::{Names, Text};
use kube_types::uid::Uid;
use std::alloc::Global;

/// What a write changes in the metadata of an object.
pub enum MetaChange {
    /// The version.
    Version(Version),
    /// The version, and the moment of the deletion.
    Deletion(Version, Text),
    /// What is not a user's to choose.
    Identity {
        uid: Option<Uid>,
        version: Version,
        created: Text,
        deleted: Option<Text>,
    },
    /// The moment of the creation.
    Creation(Text),
    Labels(Pairs),
    Annotations(Pairs),
    Finalizers(Names),
}

impl Drop for MetaChange {
    fn drop(self) {
        match self {
            MetaChange::Version(_) => {}
            MetaChange::Deletion(_, moment) => drop(moment),
            MetaChange::Identity {
                uid: _,
                version: _,
                created,
                deleted,
            } => {
                drop(created);
                drop(deleted);
            }
            MetaChange::Creation(moment) => drop(moment),
            MetaChange::Labels(pairs) | MetaChange::Annotations(pairs) => drop(pairs),
            MetaChange::Finalizers(names) => drop(names),
        }
    }
}

impl MetaChange {
    fn make(self, meta: &mut Meta)
        ensures { meta.new ≡ changed_meta self meta.old }
    {
        match self {
            MetaChange::Version(version) => meta.version = version,
            MetaChange::Deletion(version, moment) => {
                meta.version = version;
                meta.deleted = Some(moment);
            }
            MetaChange::Identity {
                uid,
                version,
                created,
                deleted,
            } => {
                meta.uid = uid;
                meta.version = version;
                meta.created = created;
                meta.deleted = deleted;
            }
            MetaChange::Creation(moment) => meta.created = moment,
            MetaChange::Labels(labels) => meta.labels = labels,
            MetaChange::Annotations(annotations) => meta.annotations = annotations,
            MetaChange::Finalizers(finalizers) => meta.finalizers = finalizers,
        }
    }
}

/// Makes the change in the object. Who shares the object with this owner keeps what it has.
#[tactic(auto, unfolding(binder_model::specs::Store::with_meta))]
pub fn write_meta(alloc: Global, object: &mut Object, change: MetaChange) -> Result<(), OutOfMemory>
    ensures { OnOk result (object.new ≡ with_meta object.old (changed_meta change (meta_of object.old))) }
{
    match object {
        Object::Class(x) => change.make(&mut x.value_mut(alloc)?.meta),
        Object::Node(x) => change.make(&mut x.value_mut(alloc)?.meta),
        Object::Volume(x) => change.make(&mut x.value_mut(alloc)?.meta),
        Object::Claim(x) => change.make(&mut x.value_mut(alloc)?.meta),
        Object::Pod(x) => change.make(&mut x.value_mut(alloc)?.meta),
    }
    Ok(())
}
