//! A JSON value that is owned. What looks into one takes `&Value`, which drops nothing.

ghost use Rattle.std.specs.Prelude.{◌≡◌, ◌≤◌, Some, None, IfOk, false};
ghost use Rattle.std.specs.declared.result.Result.TheVariants.{Err};
ghost use Rattle.serde_json.specs.Data.{depth};
ghost use Rattle.serde_json.specs.Read.{read, max_depth};
ghost use Rattle.serde_json.specs.Written.{compact_text, has_float};
ghost use Rattle.serde_json.specs.View.{view};
ghost use Rattle.json_text.specs.Trees.{tree_data};
ghost use Rattle.json_text.specs.declared.tree.NoTree.TheVariants.{NotJson};

use plain_data::copies::OutOfMemory;
use plain_data::text::{Bytes, Text};
use serde_json::{Category, Value};
use std::alloc::{AllocError, Global};

/// Why a text gave no value.
#[derive(Clone, Copy, Debug)]
pub enum NoTree {
    OutOfMemory,
    /// It is no JSON text of at most 127 levels.
    NotJson,
}

/// The compact text of a value.
pub(crate) fn value_text(alloc: Global, value: &Value) -> Result<Bytes, OutOfMemory>
    ensures text { IfOk result (λ b. has_float (view value.now) ≡ false
        → b ≡ compact_text (view value.now)) }
{
    Ok(Bytes::from_vec(value.to_vec(alloc)?))
}

/// A JSON value that is owned. Contracts see the data that it stands for, by `tree_data`.
pub struct Tree {
    value: Value,
}

impl Drop for Tree {
    fn drop(self) {
        let Tree { value } = self;
        drop(value);
    }
}

impl Tree {
    /// The value of a text (RFC 8259). Of a name that stands twice in an object, the last member counts.
    pub fn read(alloc: Global, text: &str) -> Result<Tree, NoTree>
        ensures ok { IfOk result (λ t. read text.now ≡ Some (tree_data t)) }
        ensures depth { IfOk result (λ t. depth (tree_data t) ≤ max_depth) }
        ensures none { result ≡ Err NotJson → read text.now ≡ None }
    {
        match Value::from_str(alloc, text) {
            Ok(value) => Ok(Tree { value }),
            Err(e) => {
                if e.classify() == Category::Memory {
                    Err(NoTree::OutOfMemory)
                } else {
                    Err(NoTree::NotJson)
                }
            }
        }
    }

    /// What others may look into.
    pub fn value(&self) -> &Value
        ensures { view result.now ≡ tree_data self.now }
    {
        &self.value
    }
}
