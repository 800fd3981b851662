//! At which object a write is made.

ghost use Rattle.std.specs.Prelude.{◌↔◌, IsTrue};
ghost use Rattle.binder_model.specs.At.{IsWrittenAt};

use kube_types::objects::{Meta, Version};
use plain_data::copies::Plain;
use plain_data::text::Text;

/// Whether a write with this version and name is at the object.
pub fn is_written_at(given: Option<Version>, namespace: &Text, name: &Text, meta: &Meta) -> bool
    ensures { IsTrue result ↔ IsWrittenAt given namespace.now name.now meta.now }
{
    match given {
        None => false,
        Some(given) => {
            if given != meta.version {
                return false;
            }
            if !meta.namespace.same(namespace) {
                return false;
            }
            meta.name.same(name)
        }
    }
}
