//! Objects whose text is kept, so that each version is printed once.

ghost use Rattle.std.specs.Prelude.{◌≡◌, ◌≤◌, IfOk, length};
ghost use Rattle.std.specs.List.Sorted.{IsSearchInRange};
ghost use Rattle.object_print.specs.Objects.{object_line};

use kube_types::copies::{OutOfMemory, Plain};
use kube_types::key::{kind_index, kind_of, meta_of};
use kube_types::objects::Object;
use object_print::print_object;
use plain_data::shared::Shared;
use plain_data::text::Bytes;
use std::alloc::Global;
use std::cmp::Ordering;

/// An object and its text.
struct Kept<'a> {
    object: &'a Object,
    text: Shared<Bytes>,
    ghost is_text: { text ≡ object_line object.now },
}

impl<'a> Drop for Kept<'a> {
    fn drop(self) {
        let Kept { object: _, text } = self;
        drop(text);
    }
}

/// The texts of objects, in the order of versions, and of keys where versions are equal.
pub struct Memo<'a> {
    rows: Vec<Kept<'a>>,
}

impl<'a> Drop for Memo<'a> {
    fn drop(self) {
        let Memo { rows } = self;
        drop(rows);
    }
}

/// By version, then kind, namespace and name.
fn compare(left: &Object, right: &Object) -> Ordering {
    let (at, other) = (meta_of(left), meta_of(right));
    at.version
        .cmp(&other.version)
        .then(kind_index(kind_of(left)).cmp(&kind_index(kind_of(right))))
        .then(at.namespace.as_str().cmp(other.namespace.as_str()))
        .then(at.name.as_str().cmp(other.name.as_str()))
}

/// Where the text of the object is, or where it would stand.
fn place_of(rows: &[Kept<'_>], object: &Object) -> Result<usize, usize>
    ensures { IsSearchInRange result (length rows.now) }
{
    let mut low = 0;
    let mut high = rows.len();
    while low < high {
        let middle = low + (high - low) / 2;
        match compare(rows[middle].object, object) {
            Ordering::Less => low = middle + 1,
            Ordering::Equal => return Ok(middle),
            Ordering::Greater => high = middle,
        }
    }
    Err(low)
}

impl<'a> Memo<'a> {
    /// No texts. It takes no memory.
    pub fn new(alloc: Global) -> Memo<'a> {
        Memo {
            rows: Vec::new(alloc),
        }
    }

    /// The line of the object.
    pub fn line_of(&mut self, object: &'a Object) -> Result<Shared<Bytes>, OutOfMemory>
        ensures { IfOk result (λ text. text ≡ object_line object.now) }
    {
        let alloc = *self.rows.allocator();
        let place = place_of(&self.rows, object);
        if let Ok(at) = place {
            if self.rows[at].object.same(object) {
                return self.rows[at].text.copy(alloc);
            }
        }
        // What is printed has room for more; what is kept has not.
        let printed = print_object(alloc, object)?;
        let text = Shared::new(alloc, Bytes::new(alloc, printed.as_slice())?)?;
        let kept = text.copy(alloc)?;
        let row = Kept { object, text: kept };
        match place {
            Ok(at) => self.rows[at] = row,
            Err(at) => self.rows.insert(at, row)?,
        }
        Ok(text)
    }
}
