//! How many objects a history has.
//!
//! Promises: in every run the objects that stand are at most twice the imports and what users asked to create together
//! (`objects_are_few`). Each import and each such entry gives a key, and a UID for which the provisioner may make one
//! volume. Controllers create nothing else. Not said: how many stand of each kind.

ghost use Rattle.settle_budget.specs.Objects.Objects.{ObjectsAreFew};

/// The objects that stand are at most twice what was imported or asked for by users.
pub fn objects_are_few()
    ensures { ObjectsAreFew }
{}
