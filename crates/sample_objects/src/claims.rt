//! Claims.

ghost use Rattle.std.specs.Prelude.{◌≡◌, IfOk};
ghost use Rattle.sample_objects.specs.Samples.{IsStamped};

use crate::keys::NAMESPACE;
use crate::parts::{CLASS, NO_MEMBERS, NO_MODES, ONE_WRITER, amount, annotate, guard, meta};
use kube_types::bindings::{BIND_COMPLETED, PVC_PROTECTION, SELECTED_NODE, YES};
use kube_types::copies::OutOfMemory;
use kube_types::objects::{Claim, Meta, Version};
use kube_types::parts::ClaimPhase;
use kube_types::text::Text;
use kube_types::uid::Uid;
use std::alloc::Global;

fn class_of(alloc: Global, class: &str) -> Result<Option<Text>, OutOfMemory> {
    if class.is_empty() {
        return Ok(None);
    }
    Ok(Some(Text::new(alloc, class)?))
}

/// What every object has; of a claim that is completed, where it names a volume.
fn claim_meta(
    alloc: Global,
    name: &str,
    uid: Option<Uid>,
    version: Version,
    volume: &str,
) -> Result<Meta, OutOfMemory>
    ensures { IfOk result (λ m. IsStamped name.now uid version m) }
{
    let mut meta = meta(alloc, NAMESPACE, name, uid, version)?;
    if !volume.is_empty() {
        annotate(alloc, &mut meta, BIND_COMPLETED, YES)?;
    }
    Ok(meta)
}

/// A pending claim of the class, if any, completed where it names a volume.
pub fn claim(
    alloc: Global,
    name: &str,
    uid: Option<Uid>,
    version: Version,
    class: &str,
    volume: &str,
) -> Result<Claim, OutOfMemory>
    ensures { IfOk result (λ c. IsStamped name.now uid version c.meta × (c.volume_name ≡ volume.now)) }
{
    Ok(Claim {
        modes: ONE_WRITER,
        amount: amount(alloc)?,
        block: false,
        class: class_of(alloc, class)?,
        selector: None,
        volume_name: Text::new(alloc, volume)?,
        extra: Text::new(alloc, NO_MEMBERS)?,
        phase: ClaimPhase::Pending,
        got_modes: NO_MODES,
        got: None,
        meta: claim_meta(alloc, name, uid, version, volume)?,
    })
}

/// The same, bound and protected.
pub fn bound_claim(
    alloc: Global,
    name: &str,
    uid: Option<Uid>,
    version: Version,
    class: &str,
    volume: &str,
) -> Result<Claim, OutOfMemory>
    ensures { IfOk result (λ c. IsStamped name.now uid version c.meta × (c.volume_name ≡ volume.now)) }
{
    let mut claim = claim(alloc, name, uid, version, class, volume)?;
    guard(alloc, &mut claim.meta, PVC_PROTECTION)?;
    claim.phase = ClaimPhase::Bound;
    Ok(claim)
}

/// A claim of the class of all volumes that wants one, on the node, if one is chosen.
pub fn wanting_claim(
    alloc: Global,
    name: &str,
    uid: Option<Uid>,
    version: Version,
    node: &str,
) -> Result<Claim, OutOfMemory>
    ensures { IfOk result (λ c. IsStamped name.now uid version c.meta) }
{
    let mut claim = claim(alloc, name, uid, version, CLASS, "")?;
    if !node.is_empty() {
        annotate(alloc, &mut claim.meta, SELECTED_NODE, node)?;
    }
    Ok(claim)
}
