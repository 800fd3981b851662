//! Computed examples of whole runs. Each is a function with nothing to do, whose contract has the examples.

ghost use Rattle.run_examples.specs.Threads.Runs.{RunExamples};

/// What the history of a run has with its drain.
pub fn run_examples()
    ensures { RunExamples }
{}
