//! The writes that prepare a node, each at the version that the look-up shows.

ghost use Rattle.std.specs.Prelude.{◌≡◌, IfOk};
ghost use Rattle.std.specs.Option.{option_copied};
ghost use Rattle.kube_objects.specs.Keys.{row_at};
ghost use Rattle.binder_model.specs.Choice.{claim_in};
ghost use Rattle.volume_index.specs.VolumeIndex.{as_volume};
ghost use Rattle.delayed_binding.specs.declared.choice.Choice.TheVariants.{Prepare};
ghost use Rattle.delayed_binding.specs.Writes.{bind_write, node_write, placed_on, prepare_write};
ghost use Rattle.delayed_binding.specs.Steps.Nth.{node_write_at};

use crate::choice::Choice;
use bind_writes::write_reference;
use call_types::request::Request;
use kube_types::bindings::SELECTED_NODE;
use kube_types::copies::{OutOfMemory, Plain};
use kube_types::key::Key;
use kube_types::lookup::Lookup;
use kube_types::objects::{Claim, Object, Volume};
use kube_types::shared::Shared;
use kube_types::text::Text;
use std::alloc::Global;

/// The nth write, from 0, of what is prepared: the references of the claims that take a volume, and then the
/// node on each claim that is to be provisioned. None where the choice prepares nothing, past its writes, and
/// where the look-up has no claim or no volume under a key that the write names as one.
#[tactic(auto, unfolding(crate::specs::Writes::prepare_write))]
pub fn prepare_write<L: Lookup>(
    alloc: Global,
    lookup: &L,
    choice: &Choice,
    nth: usize,
) -> Result<Option<Request>, OutOfMemory>
    ensures { IfOk result (λ write. write ≡ prepare_write (L.rows lookup.now) choice.now nth) }
{
    match choice {
        Choice::Assign(_) | Choice::Wait | Choice::NoNode => Ok(None),
        Choice::Prepare {
            node,
            binds,
            provisions,
        } => {
            prepared_write(
                alloc,
                lookup,
                node,
                binds.as_slice(),
                provisions.as_slice(),
                nth,
            )
        }
    }
}

/// The nth write of what is prepared on the node.
fn prepared_write<L: Lookup>(
    alloc: Global,
    lookup: &L,
    node: &Text,
    binds: &[(Key, Key)],
    provisions: &[Key],
    nth: usize,
) -> Result<Option<Request>, OutOfMemory>
    ensures { IfOk result (λ write. write ≡ prepare_write (L.rows lookup.now) (Prepare node.now binds.now provisions.now) nth) }
{
    if nth < binds.len() {
        bind_write(alloc, lookup, &binds[nth])
    } else {
        let key = provisions.get(nth - binds.len());
        node_write_at(alloc, lookup, node, key)
    }
}

fn claim_at<'a, L: Lookup>(lookup: &'a L, key: &Key) -> Option<&'a Claim>
    ensures { option_copied result ≡ claim_in (row_at key.now (L.rows lookup.now)) }
{
    match lookup.row(key) {
        Some(Object::Claim(claim)) => Some(claim),
        _ => None,
    }
}

fn volume_of<'a, L: Lookup>(lookup: &'a L, key: &Key) -> Option<&'a Volume>
    ensures { option_copied result ≡ as_volume (row_at key.now (L.rows lookup.now)) }
{
    match lookup.row(key) {
        Some(Object::Volume(volume)) => Some(volume),
        _ => None,
    }
}

/// The claim's reference into the volume.
fn bind_write<L: Lookup>(
    alloc: Global,
    lookup: &L,
    pair: &(Key, Key),
) -> Result<Option<Request>, OutOfMemory>
    ensures { IfOk result (λ write. write ≡ bind_write (L.rows lookup.now) pair.now) }
{
    match claim_at(lookup, &pair.0) {
        None => Ok(None),
        Some(claim) => match volume_of(lookup, &pair.1) {
            None => Ok(None),
            Some(volume) => Ok(Some(write_reference(alloc, volume, claim)?)),
        },
    }
}

fn node_write_at<L: Lookup>(
    alloc: Global,
    lookup: &L,
    node: &Text,
    key: Option<&Key>,
) -> Result<Option<Request>, OutOfMemory>
    ensures { IfOk result (λ write. write ≡ node_write_at (L.rows lookup.now) node.now (option_copied key.entry)) }
{
    match key {
        None => Ok(None),
        Some(key) => node_write(alloc, lookup, node, key),
    }
}

/// The node on the claim.
fn node_write<L: Lookup>(
    alloc: Global,
    lookup: &L,
    node: &Text,
    key: &Key,
) -> Result<Option<Request>, OutOfMemory>
    ensures { IfOk result (λ write. write ≡ node_write (L.rows lookup.now) node.now key.now) }
{
    match claim_at(lookup, key) {
        None => Ok(None),
        Some(claim) => Ok(Some(Request::Update {
            object: Object::Claim(Shared::new(alloc, placed_on(alloc, node, claim)?)?),
            version: Some(claim.meta.version),
        })),
    }
}

/// The claim with the node that was selected for it.
fn placed_on(alloc: Global, node: &Text, claim: &Claim) -> Result<Claim, OutOfMemory>
    ensures { IfOk result (λ placed. placed ≡ placed_on node.now claim.now) }
{
    let mut placed = claim.copy(alloc)?;
    let name = Text::new(alloc, SELECTED_NODE)?;
    placed.meta.annotations.set(&name, node)?;
    Ok(placed)
}
