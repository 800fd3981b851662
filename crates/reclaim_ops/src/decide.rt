//! What begins on a key, on a look-up alone.

ghost use Rattle.std.specs.Prelude.{◌≡◌, IfOk, Some};
ghost use Rattle.kube_objects.specs.declared.objects.Object.TheVariants as objects;
ghost use Rattle.kube_objects.specs.Bindings.{class_of_claim};
ghost use Rattle.kube_objects.specs.Keys.{row_at};
ghost use Rattle.binder_model.specs.Matching.{has_match};
ghost use Rattle.binder_model.specs.ObjectKeys.{class_key, node_key};
ghost use Rattle.binder_model.specs.Provisioning.{is_wanting, provisions};
ghost use Rattle.reclaim_ops.specs.Decisions.{by_class, claim_begins, claim_for, first_step, node_step, volume_begins};

use crate::erase::EraseOp;
use crate::provision::{ProvisionOp, ProvisionStep};
use kube_types::bindings::{
    NO_PROVISIONER, SELECTED_NODE, class_of_claim, is_completed, is_deleting, is_empty,
};
use kube_types::copies::{OutOfMemory, Plain};
use kube_types::key::Key;
use kube_types::lookup::Lookup;
use kube_types::objects::{Claim, Class, Object};
use kube_types::parts::Kind;
use kube_types::text::Text;
use std::alloc::Global;
use volume_match::{best, row_named};

/// What of provisioning begins on the key.
pub fn decide_claim<L: Lookup>(
    alloc: Global,
    lookup: &L,
    key: &Key,
) -> Result<Option<ProvisionOp>, OutOfMemory>
    ensures { IfOk result (λ op. op ≡ claim_begins (L.rows lookup.now) (row_at key.now (L.rows lookup.now))) }
{
    match lookup.row(key) {
        Some(Object::Claim(claim)) => first_for(alloc, lookup, claim),
        _ => Ok(None),
    }
}

/// The machine for the claim, where it is to be provisioned. Volumes are looked at only where its class is
/// there.
fn first_for<L: Lookup>(
    alloc: Global,
    lookup: &L,
    claim: &Claim,
) -> Result<Option<ProvisionOp>, OutOfMemory>
    ensures { IfOk result (λ op. op ≡ claim_for (L.rows lookup.now) claim.now) }
{
    if !is_wanting(claim) {
        return Ok(None);
    }
    match row_named(lookup, Kind::StorageClass, "", class_of_claim(claim)) {
        Some(Object::Class(class)) => {
            if has_match(lookup, claim, class) {
                return Ok(None);
            }
            first_of(alloc, lookup, claim, class)
        }
        _ => Ok(None),
    }
}

/// The machine for a claim of this class that nothing serves.
fn first_of<L: Lookup>(
    alloc: Global,
    lookup: &L,
    claim: &Claim,
    class: &Class,
) -> Result<Option<ProvisionOp>, OutOfMemory>
    ensures { IfOk result (λ op. op ≡ by_class (L.rows lookup.now) claim.now claim.now.meta.uid (Some (objects.Class class.now))) }
{
    match claim.meta.uid {
        None => Ok(None),
        Some(uid) => match first_step(alloc, lookup, claim, class)? {
            None => Ok(None),
            Some(step) => Ok(Some(ProvisionOp::new(alloc, claim, uid, class, step)?)),
        },
    }
}

/// The first step for a claim of this class.
fn first_step<L: Lookup>(
    alloc: Global,
    lookup: &L,
    claim: &Claim,
    class: &Class,
) -> Result<Option<ProvisionStep>, OutOfMemory>
    ensures { IfOk result (λ step. step ≡ first_step (L.rows lookup.now) claim.now class.now) }
{
    if !provisions(class) {
        return Ok(None);
    }
    if !class.delayed {
        return Ok(Some(ProvisionStep::Provisions(None)));
    }
    match claim.meta.annotations.get(SELECTED_NODE) {
        None => Ok(None),
        Some(node) => Ok(Some(on_node(alloc, lookup, node)?)),
    }
}

/// The first step for a claim for which this node was chosen.
fn on_node<L: Lookup>(alloc: Global, lookup: &L, node: &Text) -> Result<ProvisionStep, OutOfMemory>
    ensures { IfOk result (λ step. step ≡ node_step (row_at (node_key node.now) (L.rows lookup.now))) }
{
    match row_named(lookup, Kind::Node, "", node.as_str()) {
        Some(Object::Node(node)) => {
            let labels = node.meta.labels.copy(alloc)?;
            Ok(ProvisionStep::Provisions(Some(labels)))
        }
        _ => Ok(ProvisionStep::ClearsNode),
    }
}

/// Whether the claim stays, is not completed, and has no volume's name and no selector.
fn is_wanting(claim: &Claim) -> bool
    ensures { result ≡ is_wanting claim.now }
{
    !is_completed(claim)
        && !is_deleting(&claim.meta)
        && is_empty(&claim.volume_name)
        && claim.selector.is_none()
}

fn provisions(class: &Class) -> bool
    ensures { result ≡ provisions class.now }
{
    !class.provisioner.is(NO_PROVISIONER)
}

/// Whether the binder would take a volume for the claim, which has this class.
fn has_match<L: Lookup>(lookup: &L, claim: &Claim, class: &Class) -> bool
    requires { row_at (class_key (class_of_claim claim.now)) (L.rows lookup.now) ≡ Some (objects.Class class.now) }
    ensures { result ≡ has_match (L.rows lookup.now) claim.now }
{
    best(lookup, claim, None, class.delayed, &[]).is_some()
}

/// What of reclaiming begins on the key.
pub fn decide_volume<L: Lookup>(
    alloc: Global,
    lookup: &L,
    key: &Key,
) -> Result<Option<EraseOp>, OutOfMemory>
    ensures { IfOk result (λ op. op ≡ volume_begins (row_at key.now (L.rows lookup.now))) }
{
    match lookup.row(key) {
        Some(Object::Volume(volume)) => EraseOp::new(alloc, volume),
        _ => Ok(None),
    }
}
