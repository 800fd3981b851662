//! What an actor remembers beside its caches.

ghost use Rattle.std.specs.Prelude.{◌≡◌, ◌==◌, ◌&&◌, IfOk, OnOk, bytes_eq};
ghost use Rattle.binder_model.specs.AgentLicence.{epoch_told, is_of_epoch};
ghost use Rattle.worker_core.specs.Memories.{agent_remembers, is_stale_told, memory_after, mounts_told, no_memory, scheduler_remembers};
ghost use Rattle.worker_core.specs.States.{agent_start, start_call};

use crate::role::Role;
use call_types::reply::{MountRow, Refusal, Reply};
use call_types::request::{Request, SeatKind};
use kube_types::copies::{OutOfMemory, Plain};
use kube_types::items::Items;
use kube_types::text::Text;
use pod_scheduler::tries::Tries;
use std::alloc::Global;
use std::marker::Model;

/// Of an agent: its epoch, the mounts that it was told last, and whether it was told that its epoch is stale. Of a
/// scheduler: the nodes that it tried for claims. It stays empty in the other kinds of actors.
pub(crate) struct Remembered {
    pub(crate) epoch: Option<u64>,
    pub(crate) mounts: Option<Items<MountRow>>,
    pub(crate) stale: bool,
    pub(crate) tries: Tries,
}

impl Drop for Remembered {
    fn drop(self) {
        let Remembered {
            epoch: _,
            mounts,
            stale: _,
            tries,
        } = self;
        drop(mounts);
        drop(tries);
    }
}

impl Model for Remembered {
    ghost use Rattle.worker_core.specs.Memories.{Memory};

    ghost Value = { Memory };

    ghost view = { λ m. record { epoch = m.epoch; mounts = m.mounts; stale = m.stale; tries = m.tries } };
}

impl Remembered {
    /// It takes no memory.
    pub(crate) fn new(alloc: Global) -> Remembered
        ensures { result ≡ no_memory }
    {
        Remembered {
            epoch: None,
            mounts: None,
            stale: false,
            tries: Tries::new(alloc),
        }
    }

    /// The call of the actor's start that is still to be made.
    pub(crate) fn start(&self, alloc: Global, role: &Role) -> Result<Option<Request>, OutOfMemory>
        ensures { IfOk result (λ call. call ≡ start_call role.now self.now) }
    {
        match role.kind {
            SeatKind::Agent => agent_start(alloc, &role.node, self.epoch, self.mounts.is_some()),
            _ => Ok(None),
        }
    }

    /// What it remembers after the answer to the request.
    pub(crate) fn take(
        &mut self,
        alloc: Global,
        role: &Role,
        request: &Request,
        reply: &Reply,
    ) -> Result<(), OutOfMemory>
        ensures { OnOk result (self.new ≡ memory_after role.now request.now reply.now self.old) }
    {
        match role.kind {
            SeatKind::Agent => self.take_agent(alloc, &role.node, request, reply),
            SeatKind::Scheduler => self.take_scheduler(alloc, request, reply),
            _ => Ok(()),
        }
    }

    /// What a scheduler remembers: the nodes that the answer tells to be selected or refused.
    fn take_scheduler(
        &mut self,
        alloc: Global,
        request: &Request,
        reply: &Reply,
    ) -> Result<(), OutOfMemory>
        ensures { OnOk result (self.new ≡ scheduler_remembers request.now reply.now self.old) }
    {
        self.tries.take(alloc, request, reply)?;
        Ok(())
    }

    /// What an agent remembers: a new epoch begins with no mounts told.
    fn take_agent(
        &mut self,
        alloc: Global,
        node: &Text,
        request: &Request,
        reply: &Reply,
    ) -> Result<(), OutOfMemory>
        ensures { OnOk result (self.new ≡ agent_remembers node.now request.now reply.now self.old) }
    {
        let mounts = mounts_told(alloc, node, self.epoch, request, reply)?;
        let stale = self.stale || is_stale_told(reply);
        match epoch_told(node, request, reply) {
            Some(epoch) => {
                self.epoch = Some(epoch);
                self.mounts = None;
            }
            None => {
                if mounts.is_some() {
                    self.mounts = mounts;
                }
            }
        }
        self.stale = stale;
        Ok(())
    }
}

/// An agent takes its node, and then reads what is mounted there.
fn agent_start(
    alloc: Global,
    node: &Text,
    epoch: Option<u64>,
    told: bool,
) -> Result<Option<Request>, OutOfMemory>
    ensures { IfOk result (λ call. call ≡ agent_start node.now epoch told) }
{
    match (epoch, told) {
        (None, _) => Ok(Some(Request::TakeNode {
            node: node.copy(alloc)?,
        })),
        (Some(epoch), false) => Ok(Some(Request::Mounts {
            node: node.copy(alloc)?,
            epoch,
        })),
        (Some(_), true) => Ok(None),
    }
}

fn epoch_told(node: &Text, request: &Request, reply: &Reply) -> Option<u64>
    ensures { result ≡ epoch_told node.now request.now reply.now }
{
    match (request, reply) {
        (Request::TakeNode { node: taken }, Reply::Epoch(epoch)) => {
            if taken.is(node.as_str()) {
                Some(*epoch)
            } else {
                None
            }
        }
        _ => None,
    }
}

/// The mounts of the node, where the request is one of the epoch.
fn mounts_told(
    alloc: Global,
    node: &Text,
    epoch: Option<u64>,
    request: &Request,
    reply: &Reply,
) -> Result<Option<Items<MountRow>>, OutOfMemory>
    ensures { IfOk result (λ mounts. mounts ≡ mounts_told node.now epoch request.now reply.now) }
{
    match (epoch, reply) {
        (Some(epoch), Reply::Mounted(rows)) => {
            if is_of_epoch(node, epoch, request) {
                Ok(Some(rows.copy(alloc)?))
            } else {
                Ok(None)
            }
        }
        _ => Ok(None),
    }
}

/// Whether the request is one of this node and epoch that is answered by the node's mounts.
fn is_of_epoch(node: &Text, epoch: u64, request: &Request) -> bool
    ensures { result ≡ is_of_epoch node.now epoch request.now }
{
    match request {
        Request::Mounts { node: n, epoch: e }
        | Request::Mount {
            node: n,
            epoch: e,
            pod: _,
            claims: _,
        }
        | Request::Unmount {
            node: n,
            epoch: e,
            pod: _,
        } => is_node_at(node, epoch, n, *e),
        _ => false,
    }
}

fn is_node_at(node: &Text, epoch: u64, asked: &Text, at: u64) -> bool
    ensures { result ≡ (bytes_eq asked.now node.now && at == epoch) }
{
    asked.is(node.as_str()) && at == epoch
}

fn is_stale_told(reply: &Reply) -> bool
    ensures { result ≡ is_stale_told reply.now }
{
    match reply {
        Reply::Refused(Refusal::StaleEpoch { current: _ }) => true,
        _ => false,
    }
}
