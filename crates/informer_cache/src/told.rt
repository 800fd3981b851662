//! What is told of a key.

ghost use Rattle.std.specs.Prelude.{◌≡◌, option_map};
ghost use Rattle.binder_model.specs.Told.{later};
ghost use Rattle.informer_cache.specs.Knowledge.{telling_of};

use kube_types::objects::{Object, Version};

/// The object that stands under a key, or none, as it was told at a version.
#[derive(Clone, Copy)]
pub struct Told<'a> {
    pub version: Version,
    pub object: Option<&'a Object>,
}

/// The one with the greater version; the first where they are equal.
pub fn later<'a>(first: Option<Told<'a>>, second: Option<Told<'a>>) -> Option<Told<'a>>
    ensures { option_map telling_of result ≡ later (option_map telling_of first.entry) (option_map telling_of second.entry) }
{
    match (first, second) {
        (None, other) => other,
        (Some(told), None) => Some(told),
        (Some(told), Some(other)) => {
            if told.version < other.version {
                Some(other)
            } else {
                Some(told)
            }
        }
    }
}
