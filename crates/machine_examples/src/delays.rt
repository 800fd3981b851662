//! Computed examples of delayed binding: what is chosen for a pod, and what is written to prepare a node; cases that hold, and
//! cases that must not.

ghost use Rattle.machine_examples.specs.Delayed.Choosing.{FirstStepExamples, NodeExamples, PrepareExamples, RoundExamples, WaitExamples};
ghost use Rattle.machine_examples.specs.Delayed.Writing.{WriteExamples};

/// Pods whose claims are absent, deleting or completed.
#[tactic(auto, using(crate::proofs::Delayed::Choosing::first_step_examples))]
pub fn first_step_examples()
    ensures { FirstStepExamples }
{}

/// Pods that wait.
#[tactic(auto, using(crate::proofs::Delayed::Choosing::wait_examples))]
pub fn wait_examples()
    ensures { WaitExamples }
{}

/// Pods for which a node is prepared, and what is prepared there.
#[tactic(auto, using(crate::proofs::Delayed::Choosing::prepare_examples))]
pub fn prepare_examples()
    ensures { PrepareExamples }
{}

/// What would be prepared on one node.
#[tactic(auto, using(crate::proofs::Delayed::Choosing::node_examples))]
pub fn node_examples()
    ensures { NodeExamples }
{}

/// In which order nodes are tried.
#[tactic(auto, using(crate::proofs::Delayed::Choosing::round_examples))]
pub fn round_examples()
    ensures { RoundExamples }
{}

/// What is written to prepare a node.
#[tactic(auto, using(crate::proofs::Delayed::Writing::write_examples))]
pub fn write_examples()
    ensures { WriteExamples }
{}
