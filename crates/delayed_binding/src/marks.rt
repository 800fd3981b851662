//! Places among the volumes, each a mark, so that it is seen at once whether a place is one of them.

ghost use Rattle.std.specs.Prelude.{◌≡◌, ◌<◌, [], ◌∷◌, length, OnOk};
ghost use Rattle.delayed_binding.specs.Steps.Sharing.{AreSame};
ghost use Rattle.binder_model.specs.Matching.{is_excluded};
ghost use Rattle.delayed_binding.specs.Steps.Marks.{marked};

use kube_types::copies::OutOfMemory;
use std::alloc::Global;
use std::marker::Model;
use volume_match::Places;

/// Places, as a mark for each place up to the last of them.
#[derive(Debug, Drop)]
pub(crate) struct PassedMarks {
    marks: Vec<bool>,
}

impl Model for PassedMarks {
    ghost use Rattle.std.specs.Prelude.{List, ℕ};
    ghost use Rattle.delayed_binding.specs.Steps.Marks.{marked};

    ghost Value = { List ℕ };

    ghost view = { λ m. marked 0 m.marks.items };
}

impl PassedMarks {
    /// No places. It takes no memory.
    pub(crate) fn new(alloc: Global) -> PassedMarks
        ensures { result ≡ [] }
    {
        PassedMarks {
            marks: Vec::new(alloc),
        }
    }

    /// Puts the place among them.
    pub(crate) fn put(&mut self, place: usize) -> Result<(), OutOfMemory>
        ensures { OnOk result (AreSame self.new (place ∷ self.old)) }
    {
        put_mark(&mut self.marks, place)
    }

    fn holds(&self, place: usize) -> bool
        ensures { result ≡ is_excluded self.now place }
    {
        mark_at(&self.marks, place)
    }
}

impl Places for PassedMarks {
    ghost places = { λ m. m };

    fn hold(&self, place: usize) -> bool {
        self.holds(place)
    }
}

fn mark_at(marks: &[bool], place: usize) -> bool
    ensures { result ≡ is_excluded (marked 0 marks.now) place }
{
    match marks.get(place) {
        None => false,
        Some(mark) => *mark,
    }
}

fn put_mark(marks: &mut Vec<bool>, place: usize) -> Result<(), OutOfMemory>
    ensures { OnOk result (AreSame (marked 0 marks.new.items) (place ∷ marked 0 marks.old.items)) }
{
    reach(marks, place)?;
    marks[place] = true;
    Ok(())
}

/// Marks that reach to the place, those that come new for no place.
fn reach(marks: &mut Vec<bool>, place: usize) -> Result<(), OutOfMemory>
    ensures same { OnOk result (marked 0 marks.new.items ≡ marked 0 marks.old.items) }
    ensures there { OnOk result (place < length marks.new.items) }
{
    'marks: while marks.len() <= place {
        marks.push(false)?;
    }
    Ok(())
}
