//! How many calls an actor makes for one key, beside those that write.
//!
//! Promises: each answer to a task's call leaves it fewer calls to make, unless a write was done (`tasks_end`). Not said: how
//! many writes there are. A binding or a preparation goes on from write to write; what ends it is that there is less and less
//! to write, which is for the measure to say.

ghost use Rattle.settle_calls.specs.Tasks.Ends.{TasksEnd};

/// A call of a task is a write that is done, or leaves fewer calls.
pub fn tasks_end()
    ensures { TasksEnd }
{}
