//! The writes of a binding, and of unbinding.

use crate::words::{object_line, word, write_line};
use bind_writes::{
    Write, completed_with, next_step, next_write, taken_for, unbind, unbound, write_available,
    write_bound, write_claim_status, write_completion, write_reference,
};
use kube_types::objects::{Claim, Object, Volume};
use kube_types::shared::Shared;
use plain_data::copies::OutOfMemory;
use std::alloc::Global;

fn next_line(alloc: Global, volume: &Volume, claim: &Claim) -> Result<String, OutOfMemory> {
    match next_write(alloc, volume, claim)? {
        None => word(alloc, "none"),
        Some(request) => write_line(alloc, &request),
    }
}

fn step_word(step: Option<Write>) -> &'static str {
    match step {
        None => "none",
        Some(Write::Reference) => "Reference",
        Some(Write::Bound) => "Bound",
        Some(Write::Completion) => "Completion",
        Some(Write::ClaimStatus) => "ClaimStatus",
    }
}

fn taken_line(alloc: Global, volume: &Volume, claim: &Claim) -> Result<String, OutOfMemory> {
    let taken = taken_for(alloc, volume, claim)?;
    object_line(alloc, &Object::Volume(Shared::new(alloc, taken)?))
}

fn completed_line(alloc: Global, volume: &Volume, claim: &Claim) -> Result<String, OutOfMemory> {
    let completed = completed_with(alloc, claim, volume)?;
    object_line(alloc, &Object::Claim(Shared::new(alloc, completed)?))
}

fn unbound_line(alloc: Global, volume: &Volume) -> Result<String, OutOfMemory> {
    let free = unbound(alloc, volume)?;
    object_line(alloc, &Object::Volume(Shared::new(alloc, free)?))
}

// The write with this name, whatever was written before.
fn write_of(
    alloc: Global,
    call: &str,
    volume: &Volume,
    claim: &Claim,
) -> Result<String, OutOfMemory> {
    match call {
        "write-reference" => write_line(alloc, &write_reference(alloc, volume, claim)?),
        "write-completion" => write_line(alloc, &write_completion(alloc, volume, claim)?),
        "write-claim-status" => write_line(alloc, &write_claim_status(alloc, volume, claim)?),
        _ => word(alloc, "no such call"),
    }
}

/// What a call answers of a volume and a claim.
pub fn of_both(
    alloc: Global,
    call: &str,
    volume: &Volume,
    claim: &Claim,
) -> Result<String, OutOfMemory> {
    match call {
        "next" => next_line(alloc, volume, claim),
        "step" => word(alloc, step_word(next_step(volume, claim))),
        "taken" => taken_line(alloc, volume, claim),
        "completed" => completed_line(alloc, volume, claim),
        _ => write_of(alloc, call, volume, claim),
    }
}

/// What a call answers of a volume alone.
pub fn of_one(alloc: Global, call: &str, volume: &Volume) -> Result<String, OutOfMemory> {
    match call {
        "write-bound" => write_line(alloc, &write_bound(alloc, volume)?),
        "write-available" => write_line(alloc, &write_available(alloc, volume)?),
        "unbind" => write_line(alloc, &unbind(alloc, volume)?),
        "unbound" => unbound_line(alloc, volume),
        _ => word(alloc, "no such call"),
    }
}
