//! Computed examples of the machines of protection and of node agents: what they ask, what they make of answers, what begins,
//! and what a seat must have been told.

ghost use Rattle.machine_examples.specs.Guard.AgentEvidences.{AgentEvidenceExamples};
ghost use Rattle.machine_examples.specs.Guard.AgentMoves.{AgentBeginExamples, AgentCallExamples, EndExamples, ReadExamples, SecondClaimExamples};
ghost use Rattle.machine_examples.specs.Guard.Beginnings.{BeginExamples};
ghost use Rattle.machine_examples.specs.Guard.Evidences.{EvidenceExamples};
ghost use Rattle.machine_examples.specs.Guard.Moves.{ClaimCallExamples, ClaimMoveExamples, ParkingExamples, VolumeExamples};

/// What claim protection asks.
#[tactic(auto, using(crate::proofs::Guard::Moving::claim_call_examples))]
pub fn claim_call_examples()
    ensures { ClaimCallExamples }
{}

/// What claim protection makes of answers.
#[tactic(auto, using(crate::proofs::Guard::Moving::claim_move_examples))]
pub fn claim_move_examples()
    ensures { ClaimMoveExamples }
{}

/// What volume protection asks, and what it makes of answers.
#[tactic(auto, using(crate::proofs::Guard::Moving::volume_examples))]
pub fn volume_examples()
    ensures { VolumeExamples }
{}

/// How machines end that park their key, and how those that do not.
#[tactic(auto, using(crate::proofs::Guard::Moving::parking_examples))]
pub fn parking_examples()
    ensures { ParkingExamples }
{}

/// What begins on a key.
#[tactic(auto, using(crate::proofs::Guard::Beginning::begin_examples))]
pub fn begin_examples()
    ensures { BeginExamples }
{}

/// What a seat must have been told.
#[tactic(auto, using(crate::proofs::Guard::Standing::evidence_examples))]
pub fn evidence_examples()
    ensures { EvidenceExamples }
{}

/// What a node agent asks.
#[tactic(auto, using(crate::proofs::Guard::AgentMoving::agent_call_examples))]
pub fn agent_call_examples()
    ensures { AgentCallExamples }
{}

/// What the reads of a pod's claim and of its volume come to.
#[tactic(auto, using(crate::proofs::Guard::AgentMoving::read_examples))]
pub fn read_examples()
    ensures { ReadExamples }
{}

/// The reads of a second claim.
#[tactic(auto, using(crate::proofs::Guard::AgentMoving::second_claim_examples))]
pub fn second_claim_examples()
    ensures { SecondClaimExamples }
{}

/// How pods are mounted and finished, and what parks them.
#[tactic(auto, using(crate::proofs::Guard::AgentMoving::end_examples))]
pub fn end_examples()
    ensures { EndExamples }
{}

/// What a node agent begins.
#[tactic(auto, using(crate::proofs::Guard::AgentMoving::agent_begin_examples))]
pub fn agent_begin_examples()
    ensures { AgentBeginExamples }
{}

/// What a seat of a node agent must have been told.
#[tactic(auto, using(crate::proofs::Guard::AgentStanding::agent_evidence_examples))]
pub fn agent_evidence_examples()
    ensures { AgentEvidenceExamples }
{}
