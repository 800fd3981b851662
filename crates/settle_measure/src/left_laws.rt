//! What a world has still to do, as a number.
//!
//! Promises: the sum is bounded by how many claims, volumes and pods there are (`left_is_bounded`). A planned fault that came
//! lowers what is ahead, and no call raises it by faults (`back_fault_pays`, `calls_stay`). No more nodes are tried than there
//! are, and from a node that was refused on one node less is tried (`tries_are_few`, `refused_node_is_tried`). Four examples
//! are computed, with writes that must not lower the number. Not said: which writes lower it; that is for the other laws here.

ghost use Rattle.settle_measure.specs.Left.Bounds.{BackFaultPays, CallsStay, LeftIsBounded};
ghost use Rattle.settle_measure.specs.Left.Small.{CountsOffers, FallsAsItBinds, FallsAsItLeaves, RisesWhereItMust};
ghost use Rattle.settle_measure.specs.Left.Tries.{RefusedNodeIsTried, TriesAreFew};

/// What is left to do is at most 18 for a claim, 10 for a volume, 4 for a pod.
#[tactic(auto, using(crate::proofs::Left::Bounds::left_is_bounded))]
pub fn left_is_bounded()
    ensures { LeftIsBounded }
{}

/// A planned fault that came is not ahead any more.
#[tactic(auto, using(crate::proofs::Left::Faults::back_fault_pays))]
pub fn back_fault_pays()
    ensures { BackFaultPays }
{}

/// The planned faults ahead never grow.
#[tactic(auto, using(crate::proofs::Left::Faults::calls_stay))]
pub fn calls_stay()
    ensures { CallsStay }
{}

/// Not more nodes are tried than there are.
#[tactic(auto, using(crate::proofs::Left::Trying::tries_are_few))]
pub fn tries_are_few()
    ensures { TriesAreFew }
{}

/// From a refused node on, one node less is to be tried.
#[tactic(auto, using(crate::proofs::Left::Trying::refused_node_is_tried))]
pub fn refused_node_is_tried()
    ensures { RefusedNodeIsTried }
{}

/// A volume and a claim, from write to write until the claim shows that it is bound.
#[tactic(auto, using(crate::proofs::Left::Small::falls_as_it_binds))]
pub fn falls_as_it_binds()
    ensures { FallsAsItBinds }
{}

/// A volume that is too small offers nothing, and a claim that has an offer needs no second one.
#[tactic(auto, using(crate::proofs::Left::Small::counts_offers))]
pub fn counts_offers()
    ensures { CountsOffers }
{}

/// A volume that is to go, and a claim that was imported without it: the volume is taken, and leaves.
#[tactic(auto, using(crate::proofs::Left::Small::falls_as_it_leaves))]
pub fn falls_as_it_leaves()
    ensures { FallsAsItLeaves }
{}

/// Writes that no controller makes where it sees the world as it is raise what is left.
#[tactic(auto, using(crate::proofs::Left::Small::rises_where_it_must))]
pub fn rises_where_it_must()
    ensures { RisesWhereItMust }
{}
