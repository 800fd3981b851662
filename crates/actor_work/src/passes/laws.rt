//! What holds of a whole history where it holds of each seat's own entries.

ghost use Rattle.actor_work.specs.Lives.Seats.{ActorsBySeats};

/// Binders and schedulers are actors in a history just where they are so in each seat's own entries. So on threads no call
/// has to say by which actor it was asked: each pass's own entries say it, once the world is given back.
#[tactic(auto, using(crate::proofs::Lives::Seats::actors_by_seats))]
pub fn actors_by_seats()
    ensures { ActorsBySeats }
{}
