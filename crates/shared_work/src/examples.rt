//! Computed examples of the definitions. Each is a function with nothing to do, whose contract has the examples.

ghost use Rattle.shared_work.specs.Examples.{LineExamples, SeatExamples, UserExamples};

/// What a user asks in lines, and which entries are those of its lines.
pub fn line_examples()
    ensures { LineExamples }
{}

/// The numbers of the workers' seats.
pub fn seat_examples()
    ensures { SeatExamples }
{}

/// Which histories have the users' lines and nothing else.
pub fn user_examples()
    ensures { UserExamples }
{}
