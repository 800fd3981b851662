//! Lines, one after another.

ghost use Rattle.std.specs.Prelude.{◌≡◌, [], OnOk, IfOk, map};
ghost use Rattle.object_print.specs.Objects.{object_line};
ghost use Rattle.history_text.specs.Output.{with_line, with_lines, final_lines, final_text};

use crate::summaries::push_summary;
use crate::summary::Summary;
use json_text::writing::JsonText;
use kube_types::copies::OutOfMemory;
use kube_types::objects::Object;
use kube_types::text::Bytes;
use object_print::members::AsJson;
use std::alloc::Global;
use std::marker::Model;

/// Text that grows by lines. After want of memory a part of a line may stand there.
pub struct Lines {
    out: JsonText,
}

impl Drop for Lines {
    fn drop(self) {
        let Lines { out } = self;
        drop(out);
    }
}

impl Model for Lines {
    ghost use Rattle.std.specs.Prelude.{List, ℕ};
    ghost use Rattle.json_text.specs.Writing.{text_of};

    ghost Value = { List ℕ };

    ghost view = { λ l. text_of l.out };
}

impl Lines {
    pub fn new(alloc: Global) -> Lines
        ensures { result ≡ [] }
    {
        Lines {
            out: JsonText::new(alloc),
        }
    }

    /// No lines, with room for so many bytes at once.
    pub fn with_room(alloc: Global, room: usize) -> Result<Lines, OutOfMemory>
        ensures { IfOk result (λ lines. lines ≡ []) }
    {
        Ok(Lines {
            out: JsonText::with_room(alloc, room)?,
        })
    }

    /// Puts a line at the end, and a line feed.
    #[tactic(auto, using(crate::proofs::LineLists::ends_text))]
    pub fn push(&mut self, line: &[u8]) -> Result<(), OutOfMemory>
        ensures ok { OnOk result (self.new ≡ with_line self.old line.now) }
    {
        self.out.begin_line();
        self.out.raw(line)?;
        self.out.end_line()
    }

    #[tactic(auto, using(crate::proofs::LineLists::ends_value), unfolding(object_print::specs::Objects::object_line))]
    fn push_object(&mut self, object: &Object) -> Result<(), OutOfMemory>
        ensures ok { OnOk result (self.new ≡ with_line self.old (object_line object.now)) }
    {
        self.out.begin_line();
        object.write(&mut self.out)?;
        self.out.end_line()
    }

    pub fn as_slice(&self) -> &[u8]
        ensures { result.now ≡ self.now }
    {
        self.out.as_slice()
    }

    /// The text. It takes no memory.
    pub fn into_bytes(self) -> Bytes
        ensures { result ≡ self }
    {
        let Lines { out } = self;
        out.into_bytes()
    }
}

/// Puts the lines of the objects at the end, in their order.
pub fn push_objects(lines: &mut Lines, objects: &[Object]) -> Result<(), OutOfMemory>
    ensures ok { OnOk result (lines.new ≡ with_lines lines.old (map object_line objects.now)) }
{
    for object in objects {
        lines.push_object(object)?;
    }
    Ok(())
}

/// Puts the final objects and the summary at the end.
#[tactic(auto, using(crate::proofs::LineLists::with_lines_append), unfolding(crate::specs::Output::final_lines))]
pub fn push_final(
    lines: &mut Lines,
    alloc: Global,
    objects: &[Object],
    summary: &Summary,
) -> Result<(), OutOfMemory>
    ensures ok { OnOk result (lines.new ≡ with_lines lines.old (final_lines objects.now summary.now)) }
{
    lines.push(b"objects")?;
    push_objects(lines, objects)?;
    lines.push(b"summary")?;
    push_summary(lines, alloc, summary)
}

/// The text of the final objects and the summary.
pub fn print_objects_and_summary(
    alloc: Global,
    objects: &[Object],
    summary: &Summary,
) -> Result<Bytes, OutOfMemory>
    ensures { IfOk result (λ b. b ≡ final_text objects.now summary.now) }
{
    let mut lines = Lines::new(alloc);
    push_final(&mut lines, alloc, objects, summary)?;
    Ok(lines.into_bytes())
}
