//! What the provisioner has to do: the call with which its machine begins, where the look-up sees the store itself, as far
//! as the devices can give what it asks for.

ghost use Rattle.std.specs.Prelude.{◌≡◌, ◌||◌, IfOk, Some};
ghost use Rattle.std.specs.Option.{option_copied};
ghost use Rattle.kube_objects.specs.declared.objects.Object.TheVariants as objects;
ghost use Rattle.kube_objects.specs.Keys.{row_at};
ghost use Rattle.binder_model.specs.Devices.{has_data, pool_fits};
ghost use Rattle.binder_model.specs.Due.{provision_due};
ghost use Rattle.binder_model.specs.ObjectKeys.{claim_key};
ghost use Rattle.reclaim_ops.specs.Decisions.{claim_for};
ghost use Rattle.settle_check.specs.WorldOf.{world_of};
ghost use Rattle.settle_check.specs.Steps.Asking.{asking_due, call_due};

use call_types::request::Request;
use kube_types::bindings::is_completed;
use kube_types::copies::{OutOfMemory, Plain};
use kube_types::key::Key;
use kube_types::names::Due;
use kube_types::objects::Claim;
use kube_types::pairs::Pairs;
use kube_types::parts::Kind;
use kube_types::text::Text;
use reclaim_ops::decide::decide_claim;
use reclaim_ops::provision::ProvisionOp;
use std::alloc::Global;
use version_store::store::Store;
use volume_match::row_named;
use world_core::world::World;

/// What of provisioning is due for the claim, which stands in the store. A completed claim is not looked up.
pub(crate) fn provision_due(
    alloc: Global,
    world: &World,
    claim: &Claim,
) -> Result<Option<Due>, OutOfMemory>
    requires { row_at (claim_key claim.now.meta.namespace claim.now.meta.name) (world_of world.now).store.rows ≡ Some (objects.Claim claim.now) }
    ensures { IfOk result (λ action. action ≡ provision_due world.now.setup (world_of world.now) claim.now) }
{
    if is_completed(claim) {
        return Ok(None);
    }
    match machine_for(alloc, world.store(), claim)? {
        None => Ok(None),
        Some(op) => {
            let call = op.next(alloc)?;
            Ok(call_due(world, op.class.delayed, &call))
        }
    }
}

/// The machine that begins for the claim, which stands in the store.
fn machine_for(
    alloc: Global,
    store: &Store,
    claim: &Claim,
) -> Result<Option<ProvisionOp>, OutOfMemory>
    requires { row_at (claim_key claim.now.meta.namespace claim.now.meta.name) store.now.rows ≡ Some (objects.Claim claim.now) }
    ensures { IfOk result (λ op. op ≡ claim_for store.now.rows claim.now) }
{
    let key = Key {
        kind: Kind::PersistentVolumeClaim,
        namespace: claim.meta.namespace.copy(alloc)?,
        name: claim.meta.name.copy(alloc)?,
    };
    let op = decide_claim(alloc, store, &key)?;
    Ok(op)
}

/// What is due where this is the machine's first call.
fn call_due(world: &World, delayed: bool, call: &Option<Request>) -> Option<Due>
    ensures { result ≡ call_due world.now.setup (world_of world.now) delayed call.now }
{
    match call {
        Some(
            Request::Provision {
                name,
                provisioner,
                bytes,
                labels,
            },
        ) => asking_due(world, delayed, name, provisioner, *bytes, labels),
        Some(
            Request::Update {
                object: _,
                version: _,
            },
        ) => Some(Due::ClearNode),
        _ => None,
    }
}

/// What is due where data of this name are asked for.
fn asking_due(
    world: &World,
    delayed: bool,
    name: &Text,
    provisioner: &Text,
    bytes: u64,
    labels: &Option<Pairs>,
) -> Option<Due>
    ensures { result ≡ asking_due world.now.setup (world_of world.now) delayed name.now provisioner.now bytes labels.now }
{
    if !is_served(world, name, provisioner, bytes, labels.as_ref()) {
        return if delayed { Some(Due::ClearNode) } else { None };
    }
    match row_named(world.store(), Kind::PersistentVolume, "", name.as_str()) {
        None => Some(Due::Provision),
        Some(_) => None,
    }
}

/// Whether data of the name are there, or a pool fits.
pub(crate) fn is_served(
    world: &World,
    name: &Text,
    provisioner: &Text,
    bytes: u64,
    labels: Option<&Pairs>,
) -> bool
    ensures { result ≡ (has_data (world_of world.now).devices name.now || pool_fits world.now.setup (world_of world.now).devices provisioner.now bytes (option_copied labels.entry)) }
{
    let devices = world.devices();
    devices.has_data(name) || devices.fits(provisioner, bytes, labels)
}
