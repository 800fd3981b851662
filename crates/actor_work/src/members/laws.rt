//! What the seats of an actor say of a whole history.

ghost use Rattle.actor_work.specs.Crew.Acting.{ActorsInHistories};

/// What an actor left of its seats holds of a whole history in which its seats have just these entries.
#[tactic(auto, using(crate::proofs::Crew::Histories::actors_in_histories))]
pub fn actors_in_histories()
    ensures { ActorsInHistories }
{}
