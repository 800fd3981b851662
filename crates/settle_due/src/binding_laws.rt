//! What is due for a claim to the binder begins a call that lasts.
//!
//! Promises, of a binder that sees the store as it is, in any world that is like that of the start: it acts on a claim
//! that is to be bound, by a match, by the volume that it names or by the one with which it is completed; on one that
//! is to get its class; and on one that is Lost, at once or after its volume was read (`claims_act`). Of the volumes
//! that match, the best is for the claim where any is (`best_is_own`). Not said else: which volume it takes, which is
//! for `claim_sync` and `binder_machines` to say.

ghost use Rattle.settle_due.specs.Binding.Best.{BestIsOwn};
ghost use Rattle.settle_due.specs.Binding.Claims.{ClaimsAct};

/// The binder acts on a claim for which something is due.
pub fn claims_act()
    ensures { ClaimsAct }
{}

/// The best volume of a claim is for the claim where any is.
pub fn best_is_own()
    ensures { BestIsOwn }
{}
