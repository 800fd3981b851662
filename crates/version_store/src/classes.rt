//! The default class, and nodes by name.

ghost use Rattle.std.specs.Prelude.{◌≡◌, IfOk};
ghost use Rattle.std.specs.Option.{option_copied};
ghost use Rattle.kube_objects.specs.Keys.{AreRows};
ghost use Rattle.binder_model.specs.Store.{newer_class, default_class, class_name, text_lt, lacks_named_node, lacks_node};
ghost use Rattle.version_store.specs.Steps.Made.{default_from};

use crate::object_map::ObjectMap;
use kube_types::copies::{OutOfMemory, Plain};
use kube_types::defaults::is_default;
use kube_types::key::Key;
use kube_types::objects::{Class, Object};
use kube_types::parts::Kind;
use kube_types::table::count_of_kind;
use kube_types::text::Text;
use std::alloc::Global;

fn is_earlier(a: &Text, b: &Text) -> bool
    ensures { result ≡ text_lt a.now b.now }
{
    a.as_str().cmp(b.as_str()).is_lt()
}

/// The newer of two classes, the first of two of one moment.
fn newer_class<'a>(class: &'a Class, later: Option<&'a Class>) -> Option<&'a Class>
    ensures { option_copied result ≡ newer_class class.now (option_copied later.entry) }
{
    match later {
        None => Some(class),
        Some(other) => {
            if is_earlier(&class.meta.created, &other.meta.created) {
                Some(other)
            } else {
                Some(class)
            }
        }
    }
}

/// The default class of an object and of those after it.
fn default_from<'a>(object: &'a Object, later: Option<&'a Class>) -> Option<&'a Class>
    ensures { option_copied result ≡ default_from object.now (option_copied later.entry) }
{
    match object {
        Object::Class(class) => {
            if is_default(class) {
                newer_class(class, later)
            } else {
                later
            }
        }
        _ => later,
    }
}

/// The default class, if any. Only the classes are looked at, which stand first.
fn default_class(rows: &[Object]) -> Option<&Class>
    requires { AreRows rows.now }
    ensures { option_copied result ≡ default_class rows.now }
{
    let mut best = None;
    let mut left = count_of_kind(rows, Kind::StorageClass);
    while left > 0 {
        left -= 1;
        best = default_from(&rows[left], best);
    }
    best
}

/// The name of the default class, if any.
pub fn default_class_name(rows: &[Object]) -> Option<&Text>
    requires { AreRows rows.now }
    ensures { option_copied result ≡ class_name (default_class rows.now) }
{
    match default_class(rows) {
        None => None,
        Some(class) => Some(&class.meta.name),
    }
}

/// Whether a node is named that is not there.
pub fn lacks_named_node(
    alloc: Global,
    node: &Text,
    objects: &ObjectMap,
) -> Result<bool, OutOfMemory>
    ensures { IfOk result (λ lacks. lacks ≡ lacks_named_node node.now objects.now) }
{
    if node.as_str().is_empty() {
        return Ok(false);
    }
    let key = Key {
        kind: Kind::Node,
        namespace: Text::new(alloc, "")?,
        name: node.copy(alloc)?,
    };
    match objects.get(&key) {
        None => Ok(true),
        Some(_) => Ok(false),
    }
}

/// Whether the object is a pod that names a node that is not there.
#[tactic(auto, unfolding(binder_model::specs::Store::lacks_node))]
pub fn lacks_node(alloc: Global, object: &Object, objects: &ObjectMap) -> Result<bool, OutOfMemory>
    ensures { IfOk result (λ lacks. lacks ≡ lacks_node object.now objects.now) }
{
    match object {
        Object::Pod(pod) => lacks_named_node(alloc, &pod.node, objects),
        _ => Ok(false),
    }
}
