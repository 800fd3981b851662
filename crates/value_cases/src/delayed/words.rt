//! A choice as text.

use crate::words::word;
use delayed_binding::Choice;
use kube_types::key::Key;
use kube_types::text::Text;
use plain_data::copies::OutOfMemory;
use std::alloc::Global;

/// The node that is prepared, the volume of each claim that takes one, and the claims that are to be provisioned.
fn preparing(
    alloc: Global,
    node: &Text,
    binds: &[(Key, Key)],
    provisions: &[Key],
) -> Result<String, OutOfMemory> {
    let mut text = word(alloc, "prepare ")?;
    text.push_str(node.as_str())?;
    for (claim, volume) in binds {
        text.push_str(" ")?;
        text.push_str(claim.name.as_str())?;
        text.push_str("=")?;
        text.push_str(volume.name.as_str())?;
    }
    for claim in provisions {
        text.push_str(" ")?;
        text.push_str(claim.name.as_str())?;
    }
    Ok(text)
}

/// The choice in words.
pub fn choice_word(alloc: Global, choice: &Choice) -> Result<String, OutOfMemory> {
    match choice {
        Choice::NoNode => word(alloc, "no node"),
        Choice::Wait => word(alloc, "wait"),
        Choice::Assign(node) => {
            let node = node.as_str();
            Ok(format!(in alloc; "assign {node}")?)
        }
        Choice::Prepare {
            node,
            binds,
            provisions,
        } => preparing(alloc, node, binds.as_slice(), provisions.as_slice()),
    }
}
