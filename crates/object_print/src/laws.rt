//! Laws over the texts of objects.

ghost use Rattle.object_print.specs.Laws.{ObjectsHoldNoFloat, ObjectsAreLines};

/// No object's JSON holds a float, so that its compact text is one text.
pub fn objects_hold_no_float()
    ensures { ObjectsHoldNoFloat }
{}

/// The line of an object whose JSON is canonical has no line feed.
pub fn objects_are_lines()
    ensures { ObjectsAreLines }
{}
