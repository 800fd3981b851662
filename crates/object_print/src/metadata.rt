//! Metadata as JSON.

ghost use Rattle.std.specs.Prelude.{◌≡◌, OnOk, codes};
ghost use Rattle.json_text.specs.Members.{with_options};
ghost use Rattle.json_text.specs.Writing.{written, with_some, with_all};
ghost use Rattle.object_print.specs.Metadata.{filled_or_always, front_pairs, back_pairs, head_pairs};

use crate::members::{
    AsJson, MemberSink, put_counted, put_filled, put_filled_list, put_filled_pairs, put_optional,
};
use json_text::writing::JsonText;
use kube_types::copies::OutOfMemory;
use kube_types::objects::Meta;
use kube_types::uid::Uid;
use uuid::Uuid;

impl AsJson for Uid {
    ghost use Rattle.object_print.specs.Metadata.{uid_data};

    ghost json = { uid_data };

    #[tactic(auto, unfolding(kube_parts::specs::Uids::uid_text))]
    fn write(&self, out: &mut JsonText) -> Result<(), OutOfMemory> {
        let mut buffer = Uuid::encode_buffer();
        let uuid = Uuid::from_u128(self.0);
        out.text(uuid.hyphenated().encode_lower(&mut buffer))
    }
}

/// Metadata of an object of a kind with namespaces, or without.
#[derive(Clone, Copy)]
pub struct MetaOf<'a> {
    pub namespaced: bool,
    pub meta: &'a Meta,
}

fn put_namespace(out: &mut JsonText, always: bool, namespace: &str) -> Result<(), OutOfMemory>
    ensures ok { OnOk result (written out.new
        ≡ with_some (codes "namespace") (filled_or_always always namespace.now) (written out.old)) }
{
    if always {
        out.put_text("namespace", namespace)
    } else {
        put_filled(out, "namespace", namespace)
    }
}

fn put_front(out: &mut JsonText, meta: &Meta) -> Result<(), OutOfMemory>
    ensures ok { OnOk result (written out.new ≡ with_all (front_pairs meta.now) (written out.old)) }
{
    put_filled_pairs(out, "annotations", &meta.annotations)?;
    put_filled(out, "creationTimestamp", meta.created.as_str())?;
    put_optional(out, "deletionTimestamp", &meta.deleted)?;
    put_filled_list(out, "finalizers", meta.finalizers.as_slice())
}

fn put_back(out: &mut JsonText, namespaced: bool, meta: &Meta) -> Result<(), OutOfMemory>
    ensures ok { OnOk result (written out.new ≡ with_all (back_pairs namespaced meta.now) (written out.old)) }
{
    put_filled_pairs(out, "labels", &meta.labels)?;
    out.put_text("name", meta.name.as_str())?;
    put_namespace(out, namespaced, meta.namespace.as_str())?;
    put_counted(out, "resourceVersion", meta.version)?;
    put_optional(out, "uid", &meta.uid)
}

impl<'a> AsJson for MetaOf<'a> {
    ghost use Rattle.object_print.specs.Metadata.{meta_data};

    ghost json = { λ m. meta_data m.namespaced m.meta.now };

    fn write(&self, out: &mut JsonText) -> Result<(), OutOfMemory> {
        out.begin_object()?;
        put_front(out, self.meta)?;
        put_back(out, self.namespaced, self.meta)?;
        out.end_object()
    }
}

/// The version of the API, the kind and the metadata.
pub(crate) fn put_head<S: MemberSink>(
    out: &mut S,
    version: &str,
    kind: &str,
    namespaced: bool,
    meta: &Meta,
) -> Result<(), OutOfMemory>
    ensures ok { OnOk result (S.state out.new
        ≡ with_options S.with_member (head_pairs version.now kind.now namespaced meta.now) (S.state out.old)) }
{
    out.put_text("apiVersion", version)?;
    out.put_text("kind", kind)?;
    out.put("metadata", &MetaOf { namespaced, meta })
}
