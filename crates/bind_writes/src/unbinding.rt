//! Taking a volume's reference back.

ghost use Rattle.std.specs.Prelude.{◌≡◌, IfOk};
ghost use Rattle.kube_objects.specs.Bindings.{bound_by_controller, has_key};
ghost use Rattle.binder_model.specs.BindWrites.{unbound_volume, without_uid, write_available, write_unbound};

use call_types::request::{NewStatus, Request};
use kube_types::bindings::BOUND_BY_CONTROLLER;
use kube_types::copies::{OutOfMemory, Plain};
use kube_types::key::volume_key;
use kube_types::objects::{Object, Ref, Volume};
use kube_types::parts::VolumePhase;
use kube_types::shared::Shared;
use kube_types::text::Text;
use std::alloc::Global;

/// The write that unbinds the volume, at its version.
pub fn unbind(alloc: Global, volume: &Volume) -> Result<Request, OutOfMemory>
    ensures { IfOk result (λ write. write ≡ write_unbound volume.now) }
{
    Ok(Request::Update {
        object: Object::Volume(Shared::new(alloc, unbound(alloc, volume)?)?),
        version: Some(volume.meta.version),
    })
}

/// The volume without its reference and without the controller's mark where it has the mark, else
/// with the reference but for its UID.
pub fn unbound(alloc: Global, volume: &Volume) -> Result<Volume, OutOfMemory>
    ensures { IfOk result (λ free. free ≡ unbound_volume volume.now) }
{
    let is_marked = volume.meta.annotations.get(BOUND_BY_CONTROLLER).is_some();
    unbound_if(alloc, volume, is_marked)
}

/// The volume unbound, as the controller's work or as a user's.
#[tactic(auto, unfolding(binder_model::specs::BindWrites::unbound_volume))]
fn unbound_if(alloc: Global, volume: &Volume, is_marked: bool) -> Result<Volume, OutOfMemory>
    requires { is_marked ≡ has_key bound_by_controller volume.now.meta.annotations }
    ensures { IfOk result (λ free. free ≡ unbound_volume volume.now) }
{
    let mut free = volume.copy(alloc)?;
    if is_marked {
        let mark = Text::new(alloc, BOUND_BY_CONTROLLER)?;
        free.meta.annotations.drop_key(&mark);
        free.claim_ref = None;
        return Ok(free);
    }
    free.claim_ref = without_uid(alloc, &volume.claim_ref)?;
    Ok(free)
}

fn without_uid(alloc: Global, reference: &Option<Ref>) -> Result<Option<Ref>, OutOfMemory>
    ensures { IfOk result (λ kept. kept ≡ without_uid reference.now) }
{
    match reference {
        None => Ok(None),
        Some(reference) => Ok(Some(Ref {
            namespace: reference.namespace.copy(alloc)?,
            name: reference.name.copy(alloc)?,
            uid: None,
        })),
    }
}

/// The write of phase Available, at the volume's version.
pub fn write_available(alloc: Global, volume: &Volume) -> Result<Request, OutOfMemory>
    ensures { IfOk result (λ write. write ≡ write_available volume.now) }
{
    Ok(Request::UpdateStatus {
        key: volume_key(alloc, &volume.meta.name)?,
        status: NewStatus::Volume(VolumePhase::Available),
        version: Some(volume.meta.version),
    })
}
