//! Copies of what the side is asked and answers.

use kube_types::key::key_of;
use kube_types::objects::Object;
use plain_data::copies::{OutOfMemory, Plain};
use side_calls::asks::{SideAsk, SideEntry, SideReply};
use side_calls::quotas::OverQuota;
use side_calls::sizes::{GrowError, StepKind, Why};
use std::alloc::Global;

/// Whether a copy of the ask and of its answer is the same.
fn compared(alloc: Global, ask: SideAsk, reply: SideReply) -> Result<&'static str, OutOfMemory> {
    let entry = SideEntry { ask, reply };
    let copy = entry.copy(alloc)?;
    if copy.same(&entry) {
        Ok("same")
    } else {
        Ok("another")
    }
}

/// An ask of each kind about the object, and an answer of each kind, are copied.
pub fn copied(alloc: Global, object: &Object) -> Result<String, OutOfMemory> {
    let create = SideAsk::Create {
        user: 3,
        object: object.copy(alloc)?,
    };
    let over = SideReply::OverQuota(OverQuota::OverClaims { used: 2, limit: 1 });
    let create = compared(alloc, create, over)?;
    let grow = SideAsk::Grow {
        user: 1,
        key: key_of(alloc, object)?,
        bytes: 5,
    };
    let fault = SideReply::NotGrown(GrowError::NotGrowable(Why::Static));
    let grow = compared(alloc, grow, fault)?;
    let step = SideAsk::Step {
        kind: StepKind::Volume,
        key: key_of(alloc, object)?,
    };
    let step = compared(alloc, step, SideReply::Bytes(5))?;
    Ok(format!(in alloc; "create {create} grow {grow} step {step}")?)
}
