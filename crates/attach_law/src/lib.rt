//! Volumes that stand attached to nodes, beside a world: what attach and detach do, which is next, and that attachments stay well.
//!
//! Promises: `attachments_stand`: in a run where each Mount passed only with the volumes of its claims attached to the node,
//! at each point one volume on two nodes was attached to both under modes that allow it, and each claim of a mount is carried
//! by a volume that is attached there; whoever attaches and detaches in between. A mounted claim keeps its volume, since what
//! was completed in phase Bound had been bound (`shown_claims_were_bound`). What is next is never refused (`asks_are_done`),
//! and a turn leaves nothing (`turns_leave_nothing`). Not said: that a turn ends, and that anything is ever attached.
#![tactic(auto)]

ghost use Rattle.attach_law.specs.Asks.{AsksAreDone, TurnsLeaveNothing};
ghost use Rattle.attach_law.specs.Merged.{AttachmentsStand};
ghost use Rattle.attach_law.specs.Shown.{ShownClaimsWereBound};

pub mod attachment;

/// What was completed in phase Bound had been bound.
#[tactic(auto, using(crate::proofs::Shown::shown_claims_were_bound))]
pub fn shown_claims_were_bound()
    ensures { ShownClaimsWereBound }
{}

/// At each point attachments are apart, and under each mount.
#[tactic(auto, using(crate::proofs::Stand::attachments_stand))]
pub fn attachments_stand()
    ensures { AttachmentsStand }
{}

/// What is next is not refused, and changes what is attached.
#[tactic(auto, using(crate::proofs::Asks::asks_are_done))]
pub fn asks_are_done()
    ensures { AsksAreDone }
{}

/// After a turn nothing is next.
#[tactic(auto, using(crate::proofs::Asks::turns_leave_nothing))]
pub fn turns_leave_nothing()
    ensures { TurnsLeaveNothing }
{}
