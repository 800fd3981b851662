//! Laws of the choice, and of what is written for it.

ghost use Rattle.delayed_binding.specs.ChoiceLaw.{ChoicesAreDue, ChoicesAreUnique, ChosenNodesAreDue};
ghost use Rattle.delayed_binding.specs.WriteLaw.{AssignedPodsAreAllowed, ChosenWritesAreAllowed, PreparedHaveWrites, PreparedWritesAreAllowed, PreparedWritesAreThere, ReferencesFit, WritesAreApart};

/// The law that on rows in order there is one choice.
pub fn choices_are_unique()
    ensures { ChoicesAreUnique }
{}

/// The law that what is chosen is what is due, where the look-up is the store itself.
pub fn choices_are_due()
    ensures { ChoicesAreDue }
{}

/// The law that the node which is chosen is the one of the definition of what is due.
pub fn chosen_nodes_are_due()
    ensures { ChosenNodesAreDue }
{}

/// The law that each write of a choice is allowed, where the look-up shows what the seat was told.
pub fn prepared_writes_are_allowed()
    ensures { PreparedWritesAreAllowed }
{}

/// The law that each write of a choice is allowed on the rows of the choice, though a claim may be named twice.
pub fn chosen_writes_are_allowed()
    ensures { ChosenWritesAreAllowed }
{}

/// The law that a volume is given only to a claim that it fits.
pub fn references_fit()
    ensures { ReferencesFit }
{}

/// The law that no object is written twice.
pub fn writes_are_apart()
    ensures { WritesAreApart }
{}

/// The law that each write of a choice is there, on the rows of the choice.
pub fn prepared_writes_are_there()
    ensures { PreparedWritesAreThere }
{}

/// The law that what is prepared is at least one write.
pub fn prepared_have_writes()
    ensures { PreparedHaveWrites }
{}

/// The law that the pod which is assigned may be bound to its node, where the look-up shows what the seat
/// was told.
pub fn assigned_pods_are_allowed()
    ensures { AssignedPodsAreAllowed }
{}
