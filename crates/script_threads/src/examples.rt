//! Computed examples of the definitions. Each is a function with nothing to do, whose contract has the examples.

ghost use Rattle.script_threads.specs.Examples.{StartedExamples, WorkExamples};

/// Which actors a run starts, and what a script says of them.
pub fn started_examples()
    ensures { StartedExamples }
{}

/// Whose calls a history has when the threads are done.
pub fn work_examples()
    ensures { WorkExamples }
{}
