//! Pods, nodes and classes.

ghost use Rattle.std.specs.Prelude.{◌≡◌, IfOk};
ghost use Rattle.sample_objects.specs.Samples.{IsStamped};

use crate::keys::NAMESPACE;
use crate::parts::{NO_MEMBERS, meta, zone_labels};
use kube_types::copies::OutOfMemory;
use kube_types::objects::{Class, Node, Pod, Version};
use kube_types::pairs::Pairs;
use kube_types::parts::Policy;
use kube_types::text::{Names, Text};
use kube_types::uid::Uid;
use std::alloc::Global;

fn one_name(alloc: Global, name: &str) -> Result<Names, OutOfMemory> {
    let mut names = Names::new(alloc);
    if !name.is_empty() {
        names.push(&Text::new(alloc, name)?)?;
    }
    Ok(names)
}

/// A pod on the node, if any, with one claim, if any.
pub fn pod(
    alloc: Global,
    name: &str,
    uid: Option<Uid>,
    version: Version,
    node: &str,
    claim: &str,
) -> Result<Pod, OutOfMemory>
    ensures { IfOk result (λ p. IsStamped name.now uid version p.meta × (p.node ≡ node.now)) }
{
    Ok(Pod {
        claims: one_name(alloc, claim)?,
        node: Text::new(alloc, node)?,
        extra: Text::new(alloc, NO_MEMBERS)?,
        meta: meta(alloc, NAMESPACE, name, uid, version)?,
    })
}

/// A node in the zone, if any.
pub fn node(
    alloc: Global,
    name: &str,
    uid: Option<Uid>,
    version: Version,
    zone: &str,
) -> Result<Node, OutOfMemory>
    ensures { IfOk result (λ n. IsStamped name.now uid version n.meta) }
{
    let labels = zone_labels(alloc, zone)?;
    let extra = Text::new(alloc, NO_MEMBERS)?;
    let mut meta = meta(alloc, "", name, uid, version)?;
    meta.labels = labels;
    Ok(Node { meta, extra })
}

/// A class of the provisioner, whose claims wait for a node where it is delayed.
pub fn class(
    alloc: Global,
    name: &str,
    uid: Option<Uid>,
    version: Version,
    provisioner: &str,
    delayed: bool,
) -> Result<Class, OutOfMemory>
    ensures { IfOk result (λ c. IsStamped name.now uid version c.meta × (c.provisioner ≡ provisioner.now)) }
{
    Ok(Class {
        provisioner: Text::new(alloc, provisioner)?,
        policy: Policy::Delete,
        delayed,
        parameters: Pairs::new(alloc),
        extra: Text::new(alloc, NO_MEMBERS)?,
        meta: meta(alloc, "", name, uid, version)?,
    })
}
