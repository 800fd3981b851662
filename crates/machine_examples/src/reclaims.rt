//! Computed examples of the machines of the provisioner and reclaimer: what they ask, what they make of answers, what
//! begins, and what a seat must have been told.

ghost use Rattle.machine_examples.specs.Reclaim.Beginnings.{ProvisionBeginExamples, ReclaimBeginExamples};
ghost use Rattle.machine_examples.specs.Reclaim.Dues.{DueExamples};
ghost use Rattle.machine_examples.specs.Reclaim.EraseMoves.{EraseCallExamples, EraseMoveExamples};
ghost use Rattle.machine_examples.specs.Reclaim.Evidences.{EraseEvidenceExamples, ProvisionEvidenceExamples};
ghost use Rattle.machine_examples.specs.Reclaim.ProvisionMoves.{ProvisionCallExamples, ProvisionMoveExamples};

/// What the provisioner asks.
#[tactic(auto, using(crate::proofs::Reclaim::Moving::provision_call_examples))]
pub fn provision_call_examples()
    ensures { ProvisionCallExamples }
{}

/// What the provisioner makes of answers.
#[tactic(auto, using(crate::proofs::Reclaim::Moving::provision_move_examples))]
pub fn provision_move_examples()
    ensures { ProvisionMoveExamples }
{}

/// What the reclaimer asks.
#[tactic(auto, using(crate::proofs::Reclaim::Moving::erase_call_examples))]
pub fn erase_call_examples()
    ensures { EraseCallExamples }
{}

/// What the reclaimer makes of answers.
#[tactic(auto, using(crate::proofs::Reclaim::Moving::erase_move_examples))]
pub fn erase_move_examples()
    ensures { EraseMoveExamples }
{}

/// What begins on a claim.
#[tactic(auto, using(crate::proofs::Reclaim::Beginning::provision_begin_examples))]
pub fn provision_begin_examples()
    ensures { ProvisionBeginExamples }
{}

/// What begins on a volume.
#[tactic(auto, using(crate::proofs::Reclaim::Beginning::reclaim_begin_examples))]
pub fn reclaim_begin_examples()
    ensures { ReclaimBeginExamples }
{}

/// What is due of what begins on a claim, and which requests read a kind.
#[tactic(auto, using(crate::proofs::Reclaim::Beginning::due_examples))]
pub fn due_examples()
    ensures { DueExamples }
{}

/// What a seat must have been told to provision.
#[tactic(auto, using(crate::proofs::Reclaim::Standing::provision_evidence_examples))]
pub fn provision_evidence_examples()
    ensures { ProvisionEvidenceExamples }
{}

/// What a seat must have been told to reclaim.
#[tactic(auto, using(crate::proofs::Reclaim::Standing::erase_evidence_examples))]
pub fn erase_evidence_examples()
    ensures { EraseEvidenceExamples }
{}
