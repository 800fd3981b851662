//! What is due begins a call that lasts.
//!
//! Promises, of an actor that sees the store as it is, in any world that is like that of the start: volume protection
//! acts on a volume whose finalizer is to be added or dropped (`volume_guards_act`), claim protection likewise on a
//! claim (`claim_guards_act`), the reclaimer on a volume that has ended (`reclaims_act`), and the binder on a volume
//! that is to be Available, Bound, Released or unbound (`volumes_act`). To act is that the decision on the key begins a
//! call that lasts, at once or after a read. Not said: the same of claims, which is for `settle_due` to say of the binder,
//! and of pods.

ghost use Rattle.settle_due.specs.Upkeep.Acts.{ClaimGuardsAct, ReclaimsAct, VolumeGuardsAct, VolumesAct};

/// Volume protection acts on a volume whose finalizer is to be added or dropped.
pub fn volume_guards_act()
    ensures { VolumeGuardsAct }
{}

/// Claim protection acts on a claim whose finalizer is to be added or dropped.
pub fn claim_guards_act()
    ensures { ClaimGuardsAct }
{}

/// The reclaimer acts on a volume that has ended.
pub fn reclaims_act()
    ensures { ReclaimsAct }
{}

/// The binder acts on a volume for which something is due.
pub fn volumes_act()
    ensures { VolumesAct }
{}
