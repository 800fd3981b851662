//! Texts of objects that were printed lately, so many at most.

ghost use Rattle.std.specs.Prelude.{◌≡◌, ◌<◌, IfSome, OnOk, length};
ghost use Rattle.json_text.specs.Writing.{written, with_value};
ghost use Rattle.object_print.specs.Objects.{object_data, object_line};

use json_text::writing::JsonText;
use kube_types::copies::{OutOfMemory, Plain};
use kube_types::key::meta_of;
use kube_types::objects::{Object, Version};
use object_print::members::AsJson;
use object_print::print_object;
use plain_data::text::Bytes;
use std::alloc::Global;

/// How many texts there are at most.
const PLACES: usize = 2048;

/// How many bytes a text has at most that is kept.
const MOST_BYTES: usize = 4096;

/// An object and its text.
struct Printed {
    object: Object,
    text: Bytes,
    ghost is_text: { text ≡ object_line object },
}

impl Drop for Printed {
    fn drop(self) {
        let Printed { object, text } = self;
        drop(object);
        drop(text);
    }
}

/// Texts of objects, one at most at each place. The version of an object tells its place.
pub struct Recent {
    places: Vec<Option<Printed>>,
}

impl Drop for Recent {
    fn drop(self) {
        let Recent { places } = self;
        drop(places);
    }
}

/// The place of an object of this version, of so many places.
fn place_of(version: Version, count: usize) -> usize
    requires { 0 < count }
    ensures { result < count }
{
    (version % count as u64) as usize
}

/// The line of the object, where it is what was printed.
fn line_in<'p>(printed: &'p Option<Printed>, object: &Object) -> Option<&'p Bytes>
    ensures { IfSome result (λ text. text.now ≡ object_line object.now) }
{
    match printed {
        None => None,
        Some(printed) => {
            if printed.object.same(object) {
                Some(&printed.text)
            } else {
                None
            }
        }
    }
}

impl Recent {
    /// No texts, and no place for any. It takes no memory.
    pub fn none(alloc: Global) -> Recent {
        Recent {
            places: Vec::new(alloc),
        }
    }

    /// No texts yet.
    pub fn new(alloc: Global) -> Result<Recent, OutOfMemory> {
        let mut places = Vec::with_capacity(alloc, PLACES)?;
        for _ in 0..PLACES {
            places.push(None)?;
        }
        Ok(Recent { places })
    }

    /// Prints the object at the end, and keeps the text at this place.
    #[tactic(auto, unfolding(object_print::specs::Objects::object_line))]
    fn print(
        &mut self,
        place: usize,
        out: &mut JsonText,
        object: &Object,
    ) -> Result<(), OutOfMemory>
        requires { place < length self.old.places.items }
        ensures ok { OnOk result (written out.new ≡ with_value (object_data object.now) (written out.old)) }
    {
        let alloc = *self.places.allocator();
        let text = print_object(alloc, object)?;
        out.raw(text.as_slice())?;
        if text.as_slice().len() > MOST_BYTES {
            return Ok(());
        }
        let object = object.copy(alloc)?;
        self.places[place] = Some(Printed { object, text });
        Ok(())
    }

    /// Puts an object at the end.
    #[tactic(auto, unfolding(object_print::specs::Objects::object_line))]
    pub fn write(&mut self, out: &mut JsonText, object: &Object) -> Result<(), OutOfMemory>
        ensures ok { OnOk result (written out.new ≡ with_value (object_data object.now) (written out.old)) }
    {
        let count = self.places.len();
        if count == 0 {
            return object.write(out);
        }
        let place = place_of(meta_of(object).version, count);
        match line_in(&self.places[place], object) {
            Some(text) => out.raw(text.as_slice()),
            None => self.print(place, out, object),
        }
    }
}
