//! Laws over the texts of entries and setups.

ghost use Rattle.history_text.specs.Laws.{EntriesHoldNoFloat, SetupsHoldNoFloat, EntriesAreLines, SetupsAreLines};

/// No entry's JSON holds a float.
pub fn entries_hold_no_float()
    ensures { EntriesHoldNoFloat }
{}

/// No setup's JSON holds a float.
pub fn setups_hold_no_float()
    ensures { SetupsHoldNoFloat }
{}

/// The line of an entry whose JSON is canonical has no line feed.
pub fn entries_are_lines()
    ensures { EntriesAreLines }
{}

/// The line of a setup whose JSON is canonical has no line feed.
pub fn setups_are_lines()
    ensures { SetupsAreLines }
{}
