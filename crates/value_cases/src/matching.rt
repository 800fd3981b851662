//! Lines of matching, of the binder's decisions and of its writes: a call, a blank and a List of objects.

mod choices;
mod decisions;
mod writes;

use crate::words::word;
use kube_types::objects::{Claim, Object, Volume};
use object_text::listing::read_list;
use plain_data::copies::OutOfMemory;
use std::alloc::Global;

// Whether the call is one of a claim and a look-up with the other objects.
fn is_among(call: &str) -> bool {
    call.starts_with("best")
        || call.starts_with("sized")
        || call.starts_with("owned")
        || call == "named"
}

fn with_claim(
    alloc: Global,
    call: &str,
    claim: &Claim,
    others: &[Object],
) -> Result<String, OutOfMemory> {
    if call.starts_with("claim") {
        decisions::of_claim(alloc, call, claim, others)
    } else if is_among(call) {
        choices::among(alloc, call, claim, others)
    } else {
        word(alloc, choices::single(call, claim, others))
    }
}

fn with_volume(
    alloc: Global,
    call: &str,
    volume: &Volume,
    others: &[Object],
) -> Result<String, OutOfMemory> {
    if call.starts_with("volume") {
        return decisions::of_volume(alloc, call, volume, others);
    }
    match others {
        [] => writes::of_one(alloc, call, volume),
        [Object::Claim(claim)] => writes::of_both(alloc, call, volume, claim),
        [Object::Node(node)] => word(alloc, choices::admission(volume, node)),
        _ => word(alloc, "no such case"),
    }
}

fn of_objects(alloc: Global, call: &str, objects: &[Object]) -> Result<String, OutOfMemory> {
    match objects {
        [Object::Claim(claim), others @ ..] => with_claim(alloc, call, claim, others),
        [Object::Volume(volume), others @ ..] => with_volume(alloc, call, volume, others),
        _ => word(alloc, "no such case"),
    }
}

fn of_list(alloc: Global, call: &str, list: &str) -> Result<String, OutOfMemory> {
    match read_list(alloc, list.as_bytes()) {
        Err(_) => word(alloc, "no list"),
        Ok(objects) => of_objects(alloc, call, objects.as_slice()),
    }
}

/// What the call of a line answers, made with the objects of its list.
pub fn answer(alloc: Global, line: &str) -> Result<String, OutOfMemory> {
    match line.split_once(' ') {
        None => word(alloc, "no list"),
        Some((call, list)) => of_list(alloc, call, list),
    }
}
