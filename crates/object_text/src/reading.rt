//! The object of a manifest.

ghost use Rattle.std.specs.Prelude.{◌≡◌, Ok, Err, false, IfOk, IfErr};
ghost use Rattle.serde_json.specs.View.{view};
ghost use Rattle.serde_json.specs.Written.{has_float};
ghost use Rattle.json_text.specs.Trees.{tree_data};
ghost use Rattle.object_text.specs.Answers.{Gives, GivesBy};
ghost use Rattle.object_text.specs.Reading.{whole_object, known_kind, api_version, kind_of_version, kind_at, object_of_kind, object_of, value_of, read_text_of};

use crate::errors::{Member, ObjectError};
use crate::kind_readers::{claim_of, class_of, node_of, pod_of, volume_of};
use crate::member_readers::needed_word;
use json_text::floats::holds_float;
use json_text::tree::{NoTree, Tree};
use kube_types::objects::Object;
use kube_types::parts::Kind;
use kube_types::shared::Shared;
use serde_json::Value;
use std::alloc::Global;

/// The most bytes of a manifest.
pub const MOST_BYTES: usize = 8192;

fn known_kind(kind: Option<Kind>) -> Result<Kind, ObjectError>
    ensures { Gives result (known_kind kind) }
{
    match kind {
        Some(kind) => Ok(kind),
        None => Err(ObjectError::UnknownKind),
    }
}

fn api_version(kind: Kind) -> &'static str
    ensures { result.now ≡ api_version kind }
{
    match kind {
        Kind::StorageClass => "storage.k8s.io/v1",
        Kind::Node => "v1",
        Kind::PersistentVolume => "v1",
        Kind::PersistentVolumeClaim => "v1",
        Kind::Pod => "v1",
    }
}

fn kind_of_version(kind: Kind, word: &str) -> Result<Kind, ObjectError>
    ensures { Gives result (kind_of_version kind word.now) }
{
    if word == api_version(kind) {
        Ok(kind)
    } else {
        Err(ObjectError::WrongType(Member::ApiVersion))
    }
}

#[tactic(auto, unfolding(crate::specs::Reading::kind_at))]
fn kind_at(value: &Value) -> Result<Kind, ObjectError>
    ensures { Gives result (kind_at (view value.now)) }
{
    let named = needed_word(Some(value), Member::Kind)?;
    let kind = known_kind(Kind::named(named))?;
    let version = needed_word(Some(value), Member::ApiVersion)?;
    kind_of_version(kind, version)
}

fn object_of_kind(alloc: Global, kind: Kind, value: &Value) -> Result<Object, ObjectError>
    requires { has_float (view value.now) ≡ false }
    ensures { Gives result (object_of_kind kind (view value.now)) }
{
    match kind {
        Kind::StorageClass => Ok(Object::Class(Shared::new(alloc, class_of(alloc, value)?)?)),
        Kind::Node => Ok(Object::Node(Shared::new(alloc, node_of(alloc, value)?)?)),
        Kind::PersistentVolume => Ok(Object::Volume(Shared::new(alloc, volume_of(alloc, value)?)?)),
        Kind::PersistentVolumeClaim => Ok(Object::Claim(Shared::new(
            alloc,
            claim_of(alloc, value)?,
        )?)),
        Kind::Pod => Ok(Object::Pod(Shared::new(alloc, pod_of(alloc, value)?)?)),
    }
}

fn whole_object(value: &Value) -> Result<(), ObjectError>
    ensures ok { IfOk result (λ _. whole_object (view value.now) ≡ Ok (view value.now)) }
    ensures whole { IfOk result (λ _. has_float (view value.now) ≡ false) }
    ensures err { IfErr result (λ e. whole_object (view value.now) ≡ Err e) }
{
    if value.as_object().is_none() {
        return Err(ObjectError::NotObject);
    }
    if holds_float(value) {
        return Err(ObjectError::NotWhole);
    }
    Ok(())
}

/// The object of a value, whatever its size.
#[tactic(auto, unfolding(crate::specs::Reading::object_of))]
pub fn object_of(alloc: Global, value: &Value) -> Result<Object, ObjectError>
    ensures { Gives result (object_of (view value.now)) }
{
    whole_object(value)?;
    let kind = kind_at(value)?;
    object_of_kind(alloc, kind, value)
}

/// The value of a text.
pub fn value_of(alloc: Global, text: &[u8]) -> Result<Tree, ObjectError>
    ensures { GivesBy tree_data result (value_of text.now) }
{
    match str::from_utf8(text) {
        Ok(text) => match Tree::read(alloc, text) {
            Ok(tree) => Ok(tree),
            Err(NoTree::NotJson) => Err(ObjectError::NotJson),
            Err(NoTree::OutOfMemory) => Err(ObjectError::OutOfMemory),
        },
        Err(_) => Err(ObjectError::NotJson),
    }
}

/// The object of a manifest of at most 8 KiB. The members are tested in the order of `specs/KindReaders`,
/// and the first refusal is answered.
#[tactic(auto, unfolding(crate::specs::Reading::read_text_of))]
pub fn read_object(alloc: Global, text: &[u8]) -> Result<Object, ObjectError>
    ensures { Gives result (read_text_of text.now) }
{
    if text.len() > MOST_BYTES {
        return Err(ObjectError::TooLong);
    }
    let tree = value_of(alloc, text)?;
    object_of(alloc, tree.value())
}
