//! What the provisioner and reclaimer may still write in a slot.
//!
//! Promises: of the provisioner and reclaimer that is run with nothing under way each write lowers a number of its
//! own, `ops_writes`, and no call of it raises that number (`proofs/Ops`): a volume for each claim that has none that
//! has not ended, the deletion of each volume that has ended and stays, each node that is selected for a claim, and
//! each planned fault that is ahead, for phase Failed. It is no more than the claims, the volumes, these nodes and
//! these faults (`ops_writes_are_bounded`). Not said: that a write is done, nor that one lasts; nor anything of the
//! writes of others, which may raise the number.

ghost use Rattle.settle_write_counts.specs.Ops.Ops.{OpsWritesAreBounded};

/// What ops may still write is no more than there are claims, volumes, selected nodes and planned faults.
pub fn ops_writes_are_bounded()
    ensures { OpsWritesAreBounded }
{}
