//! What the scheduler chooses for a pod that no node runs.

ghost use Rattle.std.specs.Prelude.{◌≡◌, true, None, IfOk};
ghost use Rattle.std.specs.Option.{option_copied};
ghost use Rattle.binder_model.specs.Choice.{claims_of};
ghost use Rattle.delayed_binding.specs.Choices.{IsChoice, IsChoiceAt, IsCompleted, IsPreparedOn, IsSearching, others_in, stage_with};
ghost use Rattle.delayed_binding.specs.Steps.Scans.{IsFirstInTurn};

use crate::claims::{
    are_completed, are_under_way, claims_of, is_one_served_elsewhere, lacks_claim,
};
use crate::nodes::first_admitted;
use crate::shares::{first_in_turn, others_in, prepared_on};
use kube_types::copies::{OutOfMemory, Plain};
use kube_types::key::Key;
use kube_types::lookup::Lookup;
use kube_types::objects::{Claim, Node, Pod};
use kube_types::shared::Shared;
use kube_types::text::Text;
use plain_data::items::Items;
use std::alloc::Global;

/// What is done for a pod.
#[derive(Debug)]
pub enum Choice {
    /// The pod is bound to this node.
    Assign(Text),
    /// Volumes are taken for claims, each by the keys of claim and volume, and the node is selected for
    /// the claims that are to be provisioned.
    Prepare {
        node: Text,
        binds: Items<(Key, Key)>,
        provisions: Items<Key>,
    },
    /// Its claims are being served.
    Wait,
    /// No node can run it.
    NoNode,
}

impl Drop for Choice {
    fn drop(self) {
        match self {
            Choice::Assign(node) => drop(node),
            Choice::Prepare {
                node,
                binds,
                provisions,
            } => {
                drop(node);
                drop(binds);
                drop(provisions);
            }
            Choice::Wait | Choice::NoNode => {}
        }
    }
}

/// What is chosen for the pod, where `last` is the node that was refused last for one of its claims: the
/// search for a node begins after it.
pub fn choose<L: Lookup>(
    alloc: Global,
    lookup: &L,
    pod: &Pod,
    last: Option<&Text>,
) -> Result<Choice, OutOfMemory>
    ensures { IfOk result (λ choice. IsChoice (L.rows lookup.now) pod.now (option_copied last.entry) choice) }
{
    if lacks_claim(lookup, pod) {
        return Ok(Choice::NoNode);
    }
    let claims = claims_of(alloc, lookup, pod)?;
    chosen_with(alloc, lookup, &claims, last)
}

/// What is chosen where no claim of the pod is absent or deleting.
fn chosen_with<L: Lookup>(
    alloc: Global,
    lookup: &L,
    claims: &[Shared<Claim>],
    last: Option<&Text>,
) -> Result<Choice, OutOfMemory>
    ensures { IfOk result (λ choice. IsChoiceAt (stage_with (L.rows lookup.now) claims.now) (L.rows lookup.now) claims.now (option_copied last.entry) choice) }
{
    if are_completed(claims) {
        assigned(alloc, lookup, claims)
    } else if is_one_served_elsewhere(lookup, claims) || are_under_way(lookup, claims) {
        Ok(Choice::Wait)
    } else {
        prepared(alloc, lookup, claims, last)
    }
}

/// The first node that the volumes of all claims admit.
fn assigned<L: Lookup>(
    alloc: Global,
    lookup: &L,
    claims: &[Shared<Claim>],
) -> Result<Choice, OutOfMemory>
    ensures { IfOk result (λ choice. IsChoiceAt IsCompleted (L.rows lookup.now) claims.now None choice) }
{
    match first_admitted(lookup, claims) {
        None => Ok(Choice::NoNode),
        Some(node) => Ok(Choice::Assign(node.meta.name.copy(alloc)?)),
    }
}

/// What is prepared on the first node in the round that serves all claims: those past the node that was
/// refused last come first, and then the others.
fn prepared<L: Lookup>(
    alloc: Global,
    lookup: &L,
    claims: &[Shared<Claim>],
    last: Option<&Text>,
) -> Result<Choice, OutOfMemory>
    ensures { IfOk result (λ choice. IsChoiceAt IsSearching (L.rows lookup.now) claims.now (option_copied last.entry) choice) }
{
    let others = others_in(alloc, lookup, claims)?;
    let found = first_in_turn(alloc, lookup, claims, &others, last, true)?;
    match found {
        Some(choice) => Ok(choice),
        None => prepared_else(alloc, lookup, claims, &others, last),
    }
}

/// What is prepared where no node past the one that was refused last serves all claims.
fn prepared_else<L: Lookup>(
    alloc: Global,
    lookup: &L,
    claims: &[Shared<Claim>],
    others: &[Shared<Claim>],
    last: Option<&Text>,
) -> Result<Choice, OutOfMemory>
    requires others { others.now ≡ others_in (L.rows lookup.now) claims.now }
    requires none { IsFirstInTurn (L.rows lookup.now) claims.now (option_copied last) true None }
    ensures { IfOk result (λ choice. IsChoiceAt IsSearching (L.rows lookup.now) claims.now (option_copied last.entry) choice) }
{
    let found = first_in_turn(alloc, lookup, claims, others, last, false)?;
    match found {
        Some(choice) => Ok(choice),
        None => Ok(Choice::NoNode),
    }
}

/// What would be prepared on the node for the pod's claims; none where the node does not serve them all.
pub fn prepare_on<L: Lookup>(
    alloc: Global,
    lookup: &L,
    pod: &Pod,
    node: &Node,
) -> Result<Option<Choice>, OutOfMemory>
    ensures { IfOk result (λ found. IsPreparedOn (L.rows lookup.now) (claims_of (L.rows lookup.now) pod.now) node.now found) }
{
    let claims = claims_of(alloc, lookup, pod)?;
    let others = others_in(alloc, lookup, &claims)?;
    prepared_on(alloc, lookup, node, &claims, &others)
}
