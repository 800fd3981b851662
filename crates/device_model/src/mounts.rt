//! What is mounted, node by node.

ghost use Rattle.std.specs.Prelude.{◌≡◌, ◌+◌, ◌<◌, ◌^◌, ◌++◌, ◌∷◌, [], not, filter, IfOk, IfErr, OnOk, OnErr, length};
ghost use Rattle.std.specs.List.Sorted.{IsSearchInRange};
ghost use Rattle.binder_model.specs.Same.{same_uid};
ghost use Rattle.binder_model.specs.Devices.{is_mounted_on, put_mount, rows_on, without_mount};
ghost use Rattle.device_model.specs.Kept.{AreNodes, IsNodeAt, IsNodeGap, mounts_of};

use call_types::reply::MountRow;
use kube_types::copies::{OutOfMemory, Plain, copy_all};
use kube_types::items::Items;
use kube_types::rows::{Ranked, place_of};
use kube_types::text::Text;
use kube_types::uid::Uid;
use std::alloc::Global;
use std::cmp::Ordering;
use std::marker::Model;

/// The rows of a node, in the order of mounting.
pub struct NodeRows {
    pub node: Text,
    pub rows: Vec<MountRow>,
}

impl Drop for NodeRows {
    fn drop(self) {
        let NodeRows { node, rows } = self;
        drop(node);
        drop(rows);
    }
}

impl Ranked<Text> for NodeRows {
    ghost use Rattle.plain_data.specs.Pairs.{text_cmp};

    ghost rank = { λ n key. text_cmp n.node key };

    fn rank(&self, node: &Text) -> Ordering {
        self.node.as_str().cmp(node.as_str())
    }
}

/// Where the node is, or where it would stand.
fn node_place(nodes: &[NodeRows], node: &Text) -> Result<usize, usize>
    requires { AreNodes nodes.now }
    ensures bound { IsSearchInRange result (length nodes.now) }
    ensures at { IfOk result (IsNodeAt nodes.now node.now) }
    ensures gap { IfErr result (IsNodeGap nodes.now node.now) }
{
    place_of(nodes, node)
}

/// The rows of the node.
fn rows_in<'a>(nodes: &'a [NodeRows], node: &Text) -> &'a [MountRow]
    requires { AreNodes nodes.now }
    ensures { result.now ≡ rows_on node.now (mounts_of nodes.now) }
{
    match node_place(nodes, node) {
        Ok(at) => &nodes[at].rows,
        Err(_) => &[],
    }
}

/// How many rows there are.
fn count_rows(nodes: &[NodeRows]) -> usize
    requires { length (mounts_of nodes.now) < 2 ^ 64 }
    ensures { result ≡ length (mounts_of nodes.now) }
{
    let mut count = 0;
    for node in nodes {
        count += node.rows.len();
    }
    count
}

/// Puts the row behind those of its node.
fn put_in(
    alloc: Global,
    nodes: &mut Vec<NodeRows>,
    node: Text,
    row: MountRow,
) -> Result<(), OutOfMemory>
    requires { AreNodes nodes.old.items }
    ensures ok { OnOk result (mounts_of nodes.new.items ≡ put_mount (record { node = node; row = row }) (mounts_of nodes.old.items)) }
    ensures err { OnErr result (mounts_of nodes.new.items ≡ mounts_of nodes.old.items) }
    ensures rising { AreNodes nodes.new.items }
{
    match node_place(nodes, &node) {
        Ok(at) => nodes[at].rows.push(row)?,
        Err(at) => {
            let mut rows = Vec::new(alloc);
            rows.push(row)?;
            nodes.insert(at, NodeRows { node, rows })?;
        }
    }
    Ok(())
}

/// Takes the pod's row out.
fn drop_pod(rows: &mut Vec<MountRow>, pod: Uid)
    ensures { rows.new.items ≡ filter (λ r. not (same_uid r.pod pod)) rows.old.items }
{
    rows.retain(|row| row.pod != pod);
}

/// Takes the pod's row on the node out.
fn take_out(nodes: &mut Vec<NodeRows>, node: &Text, pod: Uid)
    requires { AreNodes nodes.old.items }
    ensures rows { mounts_of nodes.new.items ≡ without_mount node.now pod (mounts_of nodes.old.items) }
    ensures rising { AreNodes nodes.new.items }
{
    match node_place(nodes, node) {
        Ok(at) => drop_pod(&mut nodes[at].rows, pod),
        Err(_) => (),
    }
}

/// Copies of the rows, and then of the new one.
pub fn rows_with(
    alloc: Global,
    rows: &[MountRow],
    row: &MountRow,
) -> Result<Items<MountRow>, OutOfMemory>
    ensures { IfOk result (λ copies. copies ≡ rows.now ++ row.now ∷ []) }
{
    let mut copies = Items::from_vec(copy_all(alloc, rows)?);
    copies.push(row.copy(alloc)?)?;
    Ok(copies)
}

/// Copies of the rows but for the pod's.
pub fn rows_without(
    alloc: Global,
    rows: &[MountRow],
    pod: Uid,
) -> Result<Items<MountRow>, OutOfMemory>
    ensures { IfOk result (λ copies. copies ≡ filter (λ r. not (same_uid r.pod pod)) rows.now) }
{
    let mut copies = Items::new(alloc);
    for row in rows {
        if row.pod != pod {
            copies.push(row.copy(alloc)?)?;
        }
    }
    Ok(copies)
}

/// What is mounted, by node, and on a node in the order of mounting. Contracts see the one list of these rows.
#[derive(Drop)]
pub struct Mounts {
    nodes: Vec<NodeRows>,
}

impl Model for Mounts {
    ghost use Rattle.std.specs.Prelude.{◌<◌, ◌^◌, List, length};
    ghost use Rattle.binder_model.specs.Devices.{MountAt};
    ghost use Rattle.device_model.specs.Kept.{AreNodes, mounts_of};

    ghost Value = { List MountAt };

    ghost view = { λ m. mounts_of m.nodes.items };

    ghost invariant = { λ m. record { rising : AreNodes m.nodes.items; count : length (mounts_of m.nodes.items) < 2 ^ 64 } };
}

impl Mounts {
    /// Nothing is mounted. It takes no memory.
    pub fn new(alloc: Global) -> Mounts
        ensures { result ≡ [] }
    {
        Mounts {
            nodes: Vec::new(alloc),
        }
    }

    /// How many rows there are.
    pub fn count(&self) -> usize
        ensures { result ≡ length self.now }
    {
        count_rows(&self.nodes)
    }

    /// The rows of the node, in the order of mounting.
    pub fn on(&self, node: &Text) -> &[MountRow]
        ensures { result.now ≡ rows_on node.now self.now }
    {
        rows_in(&self.nodes, node)
    }

    /// Whether the pod is mounted on the node.
    pub fn has(&self, node: &Text, pod: Uid) -> bool
        ensures { result ≡ is_mounted_on node.now pod self.now }
    {
        self.on(node).iter().any(|row| row.pod == pod)
    }

    /// Puts the row behind those of its node. No memory has room for more rows than a `usize` counts.
    pub fn put(&mut self, alloc: Global, node: Text, row: MountRow) -> Result<(), OutOfMemory>
        ensures ok { OnOk result (self.new ≡ put_mount (record { node = node; row = row }) self.old) }
        ensures err { OnErr result (self.new ≡ self.old) }
    {
        if count_rows(&self.nodes) == usize::MAX {
            return Err(OutOfMemory);
        }
        put_in(alloc, &mut self.nodes, node, row)
    }

    /// Takes the pod's row on the node out.
    pub fn take_out(&mut self, node: &Text, pod: Uid)
        ensures { self.new ≡ without_mount node.now pod self.old }
    {
        take_out(&mut self.nodes, node, pod)
    }
}
