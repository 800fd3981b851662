//! What follows of a life that its actor played.

ghost use Rattle.actor_turns.specs.Diligent.{IdleLivesAreDone, IdleLivesMayEnd, PlayedLivesAreDiligent, PlayedLivesAreNeeded, PlayedLivesStand};

/// A life that its actor played is diligent, each of its calls was needed, and the actor stands for its entries. Where it is
/// idle, nothing that it was told of is left to be called for, and its turn may end. It does nothing.
pub fn played_lives_are_so()
    ensures diligent { PlayedLivesAreDiligent }
    ensures needed { PlayedLivesAreNeeded }
    ensures stand { PlayedLivesStand }
    ensures done { IdleLivesAreDone }
    ensures ends { IdleLivesMayEnd }
{}
