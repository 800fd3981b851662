//! Computed examples of the definitions. Each is a function with nothing to do, whose contract has the examples.

ghost use Rattle.run_examples.specs.Threads.Works.{SeatExamples, UserExamples};
ghost use Rattle.run_examples.specs.Threads.Calls.{LossExamples, MadeExamples, OrderExamples, StaleExamples, WholeExamples};

/// Which actors a run starts, and at which seats.
pub fn seat_examples()
    ensures { SeatExamples }
{}

/// Whose calls a history has where the actors make none.
pub fn user_examples()
    ensures { UserExamples }
{}

/// What an actor has done that was to make one call.
pub fn made_examples()
    ensures { MadeExamples }
{}

/// The same where that call is lost.
pub fn loss_examples()
    ensures { LossExamples }
{}

/// An agent that was told StaleEpoch.
pub fn stale_examples()
    ensures { StaleExamples }
{}

/// The lives of an actor, one after the other.
pub fn order_examples()
    ensures { OrderExamples }
{}

/// Whose calls a history has where each actor was to make one.
pub fn whole_examples()
    ensures { WholeExamples }
{}
