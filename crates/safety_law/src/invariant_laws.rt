//! How one call moves the world, the invariant that holds in every world of a run, and what a seat knows by what it
//! was told.
//!
//! The verbs are walked here and nowhere above. Promises: each call comes to what was asked, past the tests of its
//! verb (`calls_come_to_what_was_asked`). So the store moves by one write or not at all (`calls_move_the_store`), and
//! a written object is a first version or the next one of what stands (`writes_follow`). Epochs and mounts move by
//! the calls of agents alone (`calls_move_the_devices`), and what an answer tells that is no watch's stands at that
//! moment (`answers_tell_the_moment`). The invariant speaks of every object that stands or stood: UIDs and keys,
//! references, bindings and ended volumes; it is kept where the store moves as a licence lets it
//! (`moves_keep_the_invariant`). At most one seat holds a node (`nodes_have_one_holder`). Not said: that the calls of
//! a run are such moves, which is `crate::law_laws::runs_are_good`.

ghost use Rattle.safety_law.specs.Invariant.Writes.{CallsComeToWhatWasAsked};
ghost use Rattle.safety_law.specs.Invariant.Whence.{WritesFollow};
ghost use Rattle.safety_law.specs.Invariant.Moves.{CallsMoveTheStore};
ghost use Rattle.safety_law.specs.Invariant.DeviceMoves.{CallsMoveTheDevices};
ghost use Rattle.safety_law.specs.Invariant.Tellings.{AnswersTellTheMoment};
ghost use Rattle.safety_law.specs.Invariant.Good.{MovesKeepTheInvariant};
ghost use Rattle.safety_law.specs.Invariant.Holders.{NodesHaveOneHolder};

/// Each call comes to what was asked, past the tests of its verb; a pod leaves by FinishPod, or by Delete where no node
/// runs it.
#[tactic(auto, using(crate::proofs::Invariant::Effects::effect_form))]
pub fn calls_come_to_what_was_asked()
    ensures { CallsComeToWhatWasAsked }
{}

/// Each write gives a first version of an object, or the next one of an object that stands.
#[tactic(auto, using(crate::proofs::Invariant::Whence::whence))]
pub fn writes_follow()
    ensures { WritesFollow }
{}

/// Each call moves the store by one write that was asked and tested, or not at all.
#[tactic(auto, using(crate::proofs::Invariant::Moves::moves))]
pub fn calls_move_the_store()
    ensures { CallsMoveTheStore }
{}

/// Each call leaves epochs and mounts as they are, takes a node, or mounts at the current epoch.
pub fn calls_move_the_devices()
    ensures { CallsMoveTheDevices }
{}

/// Each object that an answer to anything but a watch tells stands in the store before or after the call.
#[tactic(auto, using(crate::proofs::Invariant::Tells::tells_now))]
pub fn answers_tell_the_moment()
    ensures { AnswersTellTheMoment }
{}

/// The invariant is kept where the store moves as it may.
#[tactic(auto, using(crate::proofs::Invariant::Kept::kept))]
pub fn moves_keep_the_invariant()
    ensures { MovesKeepTheInvariant }
{}

/// At most one seat holds a node.
#[tactic(auto, using(crate::proofs::Invariant::Holders::one_holder))]
pub fn nodes_have_one_holder()
    ensures { NodesHaveOneHolder }
{}
