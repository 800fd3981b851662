//! What begins on a key, on a look-up alone.

ghost use Rattle.std.specs.Prelude.{◌≡◌, IfOk};
ghost use Rattle.kube_objects.specs.Keys.{row_at};
ghost use Rattle.protect_sync.specs.Decisions.{claim_guard_begins, claim_guard_for, volume_guard_begins};
ghost use Rattle.binder_model.specs.Due.{claim_guard_due};

use crate::claims::ClaimGuardOp;
use crate::uses::is_used;
use crate::volumes::VolumeGuardOp;
use kube_types::bindings::is_deleting;
use kube_types::copies::OutOfMemory;
use kube_types::key::Key;
use kube_types::lookup::Lookup;
use kube_types::objects::{Claim, Object};
use std::alloc::Global;

/// What claim protection begins on the key.
pub fn decide_claim<L: Lookup>(
    alloc: Global,
    lookup: &L,
    key: &Key,
) -> Result<Option<ClaimGuardOp>, OutOfMemory>
    ensures { IfOk result (λ op. op ≡ claim_guard_begins (L.rows lookup.now) (row_at key.now (L.rows lookup.now))) }
{
    match lookup.row(key) {
        Some(Object::Claim(claim)) => first_for(alloc, lookup, claim),
        _ => Ok(None),
    }
}

/// The machine for the claim, where protection is due. The pods are looked at only where the claim is
/// deleting.
#[tactic(auto, using(crate::proofs::Begun::staying))]
fn first_for<L: Lookup>(
    alloc: Global,
    lookup: &L,
    claim: &Claim,
) -> Result<Option<ClaimGuardOp>, OutOfMemory>
    ensures { IfOk result (λ op. op ≡ claim_guard_for claim.now (claim_guard_due (L.rows lookup.now) claim.now)) }
{
    if is_deleting(&claim.meta) {
        ClaimGuardOp::new(alloc, claim, is_used(lookup, claim))
    } else {
        ClaimGuardOp::new(alloc, claim, false)
    }
}

/// What volume protection begins on the key.
pub fn decide_volume<L: Lookup>(
    alloc: Global,
    lookup: &L,
    key: &Key,
) -> Result<Option<VolumeGuardOp>, OutOfMemory>
    ensures { IfOk result (λ op. op ≡ volume_guard_begins (row_at key.now (L.rows lookup.now))) }
{
    match lookup.row(key) {
        Some(Object::Volume(volume)) => VolumeGuardOp::new(alloc, volume),
        _ => Ok(None),
    }
}
