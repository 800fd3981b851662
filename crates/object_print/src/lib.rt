//! Objects as JSON, written straight into bytes.
//!
//! Promises: `print_object` gives the canonical line of `specs/Objects`, and `AsJson::write` puts the same text
//! behind what is written; `laws` says that no such line holds a line feed. Not said: that what is printed is
//! read again (`object_laws`), or that an object is valid.
#![tactic(auto)]

pub mod claims;
pub mod laws;
pub mod members;
pub mod metadata;
pub mod others;
pub mod parts;
pub mod volumes;

ghost use Rattle.std.specs.Prelude.{◌≡◌, IfOk};
ghost use Rattle.object_print.specs.Objects.{object_line};

use crate::members::AsJson;
use json_text::writing::JsonText;
use kube_types::copies::OutOfMemory;
use kube_types::objects::Object;
use kube_types::text::Bytes;
use std::alloc::Global;

impl AsJson for Object {
    ghost use Rattle.object_print.specs.Objects.{object_data};

    ghost json = { object_data };

    #[tactic(auto, unfolding(crate::specs::Objects::object_data))]
    fn write(&self, out: &mut JsonText) -> Result<(), OutOfMemory> {
        match self {
            Object::Class(class) => class.write(out),
            Object::Node(node) => node.write(out),
            Object::Volume(volume) => volume.write(out),
            Object::Claim(claim) => claim.write(out),
            Object::Pod(pod) => pod.write(out),
        }
    }
}

/// For how many bytes there is room at once where an object is printed: few are longer.
const ROOM: usize = 1024;

/// The compact JSON of an object, without a line feed.
#[tactic(auto, using(json_text::proofs::Closing::alone), unfolding(crate::specs::Objects::object_line))]
pub fn print_object(alloc: Global, object: &Object) -> Result<Bytes, OutOfMemory>
    ensures { IfOk result (λ b. b ≡ object_line object.now) }
{
    let mut out = JsonText::with_room(alloc, ROOM)?;
    object.write(&mut out)?;
    Ok(out.into_bytes())
}
