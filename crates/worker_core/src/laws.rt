//! What follows from the definitions of an actor's turns and answers alone.

ghost use Rattle.worker_core.specs.Rules.{AnswersKeepKeys, EventsAreBrought, PassesBegin, PassesGoOn, TriesAreTold, TurnsKeepKeys, WakesKeepKeys, WatchesAreAnswered, WatchesFollowThePass};

/// In a turn a key stops waiting only where its decision on the caches gave a call or gives none; none is parked.
pub fn turns_keep_keys()
    ensures { TurnsKeepKeys }
{}

/// An answer or a loss lets no key stop waiting. A key is parked only where its call was refused or lost, or where its task
/// parks it.
pub fn answers_keep_keys()
    ensures { AnswersKeepKeys }
{}

/// A wake lets no key stop waiting, and parks none.
pub fn wakes_keep_keys()
    ensures { WakesKeepKeys }
{}

/// The nodes that a scheduler remembers as selected and as refused are those that the entries of its seat tell.
#[tactic(auto, using(crate::proofs::ByKind::tries_are_told))]
pub fn tries_are_told()
    ensures { TriesAreTold }
{}

/// A turn begins a pass only where none is under way and the last one brought an event.
pub fn passes_begin()
    ensures { PassesBegin }
{}

/// A pass has an event only where an answer to a watch brought one.
pub fn events_are_brought()
    ensures { EventsAreBrought }
{}

/// Once its kind was watched a pass goes on to the next kind, unless the watch gave as many events as a watch gives at
/// most, was refused or was lost.
pub fn passes_go_on()
    ensures { PassesGoOn }
{}

/// A turn watches no kind but the pass's own, so that none that is behind it is watched again in it.
pub fn watches_follow_the_pass()
    ensures { WatchesFollowThePass }
{}

/// A watch that an actor gives is answered by events, or by Gone.
pub fn watches_are_answered()
    ensures { WatchesAreAnswered }
{}
