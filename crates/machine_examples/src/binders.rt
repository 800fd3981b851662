//! Computed examples of the binder's machines: what they ask, what they make of answers, what begins, and
//! what a seat must have been told.

ghost use Rattle.machine_examples.specs.Binder.AssigningClass.{AssigningExamples, ClassWriteExamples, LostOnceExamples};
ghost use Rattle.machine_examples.specs.Binder.Evidences.{EvidenceExamples};
ghost use Rattle.machine_examples.specs.Binder.FirstSteps.{ClaimExamples, VolumeExamples};
ghost use Rattle.machine_examples.specs.Binder.Moves.{BindingExamples, LosingExamples, ParkingExamples, ReleasingExamples, UnbindingExamples};

/// The four writes of a binding.
#[tactic(auto, using(crate::proofs::Binder::Moving::binding_examples))]
pub fn binding_examples()
    ensures { BindingExamples }
{}

/// The read before phase Released, and what follows it.
#[tactic(auto, using(crate::proofs::Binder::Moving::releasing_examples))]
pub fn releasing_examples()
    ensures { ReleasingExamples }
{}

/// Unbinding, and phase Available after it.
#[tactic(auto, using(crate::proofs::Binder::Moving::unbinding_examples))]
pub fn unbinding_examples()
    ensures { UnbindingExamples }
{}

/// The read before phase Lost, and what follows it.
#[tactic(auto, using(crate::proofs::Binder::Moving::losing_examples))]
pub fn losing_examples()
    ensures { LosingExamples }
{}

/// Refusals that park a key, and answers that do not.
#[tactic(auto, using(crate::proofs::Binder::Moving::parking_examples))]
pub fn parking_examples()
    ensures { ParkingExamples }
{}

/// What begins on a volume's key.
#[tactic(auto, using(crate::proofs::Binder::Beginning::volume_examples))]
pub fn volume_examples()
    ensures { VolumeExamples }
{}

/// What begins on a claim's key.
#[tactic(auto, using(crate::proofs::Binder::Beginning::claim_examples))]
pub fn claim_examples()
    ensures { ClaimExamples }
{}

/// What a seat must have been told.
#[tactic(auto, using(crate::proofs::Binder::Standing::evidence_examples))]
pub fn evidence_examples()
    ensures { EvidenceExamples }
{}

/// When a claim gets the default class.
#[tactic(auto, using(crate::proofs::Binder::AssigningClass::assigning_examples))]
pub fn assigning_examples()
    ensures { AssigningExamples }
{}

/// The one update that sets the class.
#[tactic(auto, using(crate::proofs::Binder::AssigningClass::class_write_examples))]
pub fn class_write_examples()
    ensures { ClassWriteExamples }
{}

/// Phase Lost is not written over phase Lost.
#[tactic(auto, using(crate::proofs::Binder::AssigningClass::lost_once_examples))]
pub fn lost_once_examples()
    ensures { LostOnceExamples }
{}
