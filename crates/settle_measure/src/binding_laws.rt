//! Each write that binds lowers what a world has still to do.
//!
//! Promises, of the binder's and the scheduler's writes on a world that is as they see it: the phases Available, Bound
//! and Released (`available_pays`, `bound_pays`, `release_pays`); unbinding (`unbind_pays`); the first write of a
//! binding, for a volume that matches, is prepared, is named by the claim, or belongs to a completed one
//! (`match_pays`, `prepare_pays`, `named_pays`, `completed_pays`); completion, status, and phase Lost once
//! (`completion_pays`, `status_pays`, `lost_pays`); and the class of a claim (`class_pays`). A selected node, written
//! or cleared, leaves it alone (`node_stays`, `node_goes`). Each is said of one write and of the world in which it is
//! made, whatever came before. Not said: that such a write is made, or is done.

ghost use Rattle.settle_measure.specs.Binding.Pays.{AvailablePays, BoundPays, ClassPays, CompletedPays, CompletionPays, LostPays, MatchPays, NamedPays, NodeGoes, NodeStays, PreparePays, ReleasePays, StatusPays, UnbindPays};

/// Phase Available.
#[tactic(auto, using(crate::proofs::Binding::Stages::available_pays))]
pub fn available_pays()
    ensures { AvailablePays }
{}

/// Phase Released.
#[tactic(auto, using(crate::proofs::Binding::Stages::release_pays))]
pub fn release_pays()
    ensures { ReleasePays }
{}

/// Unbinding.
#[tactic(auto, using(crate::proofs::Binding::Stages::unbind_pays))]
pub fn unbind_pays()
    ensures { UnbindPays }
{}

/// Phase Bound.
#[tactic(auto, using(crate::proofs::Binding::Stages::bound_pays))]
pub fn bound_pays()
    ensures { BoundPays }
{}

/// The first write of a binding: the binder's, for a claim that names no volume.
#[tactic(auto, using(crate::proofs::Binding::Binding::match_pays))]
pub fn match_pays()
    ensures { MatchPays }
{}

/// The first write of a binding: the scheduler's, which prepares a claim.
#[tactic(auto, using(crate::proofs::Binding::Binding::prepare_pays))]
pub fn prepare_pays()
    ensures { PreparePays }
{}

/// The first write of a binding: the binder's, for a claim that names the volume.
#[tactic(auto, using(crate::proofs::Binding::Binding::named_reference_pays))]
pub fn named_pays()
    ensures { NamedPays }
{}

/// The first write of a binding: the binder's, for a completed claim whose volume has no reference.
#[tactic(auto, using(crate::proofs::Binding::Binding::completed_pays))]
pub fn completed_pays()
    ensures { CompletedPays }
{}

/// The third write of a binding.
#[tactic(auto, using(crate::proofs::Binding::Claims::completion_pays))]
pub fn completion_pays()
    ensures { CompletionPays }
{}

/// The fourth write of a binding.
#[tactic(auto, using(crate::proofs::Binding::Claims::status_pays))]
pub fn status_pays()
    ensures { StatusPays }
{}

/// Phase Lost, once.
#[tactic(auto, using(crate::proofs::Binding::Claims::lost_pays))]
pub fn lost_pays()
    ensures { LostPays }
{}

/// A node selected for a claim leaves what is left to do alone.
#[tactic(auto, using(crate::proofs::Binding::Alike::node_stays))]
pub fn node_stays()
    ensures { NodeStays }
{}

/// So does a node that is cleared.
#[tactic(auto, using(crate::proofs::Binding::Alike::node_goes))]
pub fn node_goes()
    ensures { NodeGoes }
{}

/// The class of a claim for which the binder has no volume.
#[tactic(auto, using(crate::proofs::Binding::Alike::class_pays))]
pub fn class_pays()
    ensures { ClassPays }
{}
