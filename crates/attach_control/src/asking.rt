//! Which volumes are to be attached, for the pods that are scheduled and stay.

ghost use Rattle.std.specs.Prelude.{◌≡◌, IfOk};
ghost use Rattle.std.specs.Option.{option_copied};
ghost use Rattle.binder_model.specs.Choice.{claim_named};
ghost use Rattle.attach_law.specs.Next.{ask_for, ask_for_claim, ask_for_names, ask_for_uid, first_asked};
ghost use Rattle.attach_control.specs.Steps.Trying.{ask_to};

use crate::list::{has_many, is_attached, least_node};
use crate::objects::{own_volume, volume_with};
use attach_law::attachment::{AttachAsk, Attachment};
use delayed_binding::claim_named;
use kube_types::bindings::{is_completed, is_deleting, is_scheduled};
use kube_types::copies::{OutOfMemory, Plain};
use kube_types::lookup::Lookup;
use kube_types::objects::{Claim, Object, Pod};
use kube_types::parts::Kind;
use kube_types::text::Text;
use kube_types::uid::Uid;
use std::alloc::Global;

/// The UID, where its volume is not attached to the node and attach would not refuse it.
fn volume_to_attach<L: Lookup>(
    lookup: &L,
    list: &[Attachment],
    node: &Text,
    volume: Option<Uid>,
) -> Option<Uid>
    ensures { ask_to node.now result ≡ ask_for_uid (L.rows lookup.now) list.now node.now volume }
{
    let volume = volume?;
    if is_attached(list, volume, node) {
        return None;
    }
    let found = volume_with(lookup, volume)?;
    match least_node(list, volume, node, has_many(found.modes)) {
        Some(_) => None,
        None => Some(volume),
    }
}

/// That of the own volume of the claim, where the claim is completed.
fn volume_for_claim<L: Lookup>(
    lookup: &L,
    list: &[Attachment],
    node: &Text,
    claim: Option<&Claim>,
) -> Option<Uid>
    ensures { ask_to node.now result ≡ ask_for_claim (L.rows lookup.now) list.now node.now (option_copied claim.entry) }
{
    let claim = claim?;
    if !is_completed(claim) {
        return None;
    }
    let own = own_volume(lookup, claim)?;
    volume_to_attach(lookup, list, node, own.meta.uid)
}

/// That of the own volume of the pod's claim of this name.
pub(crate) fn volume_for<L: Lookup>(
    lookup: &L,
    list: &[Attachment],
    pod: &Pod,
    name: &Text,
) -> Option<Uid>
    ensures { ask_to pod.now.node result ≡ ask_for_claim (L.rows lookup.now) list.now pod.now.node (claim_named (L.rows lookup.now) pod.now.meta.namespace name.now) }
{
    let claim = claim_named(lookup, pod.meta.namespace.as_str(), name.as_str());
    volume_for_claim(lookup, list, &pod.node, claim)
}

/// What is asked for the first of the pod's claims for which anything is.
fn ask_for_names<L: Lookup>(
    alloc: Global,
    lookup: &L,
    list: &[Attachment],
    pod: &Pod,
) -> Result<Option<AttachAsk>, OutOfMemory>
    ensures { IfOk result (λ ask. ask ≡ ask_for_names (L.rows lookup.now) list.now pod.now pod.now.claims) }
{
    for name in pod.claims.as_slice() {
        if let Some(volume) = volume_for(lookup, list, pod, name) {
            let node = pod.node.copy(alloc)?;
            return Ok(Some(AttachAsk::Attach { volume, node }));
        }
    }
    Ok(None)
}

/// What is asked for the object: for a pod that is scheduled and stays.
fn ask_for<L: Lookup>(
    alloc: Global,
    lookup: &L,
    list: &[Attachment],
    object: &Object,
) -> Result<Option<AttachAsk>, OutOfMemory>
    ensures { IfOk result (λ ask. ask ≡ ask_for (L.rows lookup.now) list.now object.now) }
{
    match object {
        Object::Pod(pod) => {
            if is_scheduled(pod) && !is_deleting(&pod.meta) {
                ask_for_names(alloc, lookup, list, pod)
            } else {
                Ok(None)
            }
        }
        _ => Ok(None),
    }
}

/// What is asked for the first pod for which anything is.
#[tactic(auto, using(crate::proofs::OfKind::asked_of_kind))]
pub(crate) fn first_asked<L: Lookup>(
    alloc: Global,
    lookup: &L,
    list: &[Attachment],
) -> Result<Option<AttachAsk>, OutOfMemory>
    ensures { IfOk result (λ ask. ask ≡ first_asked (L.rows lookup.now) list.now (L.rows lookup.now)) }
{
    for object in lookup.of_kind(Kind::Pod) {
        let ask = ask_for(alloc, lookup, list, object)?;
        if ask.is_some() {
            return Ok(ask);
        }
    }
    Ok(None)
}
