//! The devices and their calls.

ghost use Rattle.std.specs.Prelude.{◌≡◌, ◌+◌, ◌<◌, ◌^◌, true, [], Some, IfOk, OnOk, OnErr, map, option_map};
ghost use Rattle.std.specs.Option.{option_copied};
ghost use Rattle.call_types.specs.declared.reply.Reply.TheVariants as replies;
ghost use Rattle.call_types.specs.declared.reply.Refusal.TheVariants as refusals;
ghost use Rattle.binder_model.specs.Devices.{data_named, device_answer, epoch_of, erase, first_fit, fresh_id, has_data, no_devices, pool_fits, provision, provision_new, put_mount, epoch_if_stale, take_node, rows_on, topology_at, unless_planned, unless_stale, with_mount, with_mounts, without_mount};
ghost use Rattle.device_model.specs.Kept.{State, after, answer_after, counts, is_for_back_end, is_for_devices, is_for_mounts, mount_at, taken_epoch};

use crate::epochs::epoch_of;
use crate::kept::StoredData;
use crate::mounts::{Mounts, rows_with, rows_without};
use crate::pools::{
    count_there, data_named, erase_all, first_fit, has_id, has_name, is_planned, most_free,
    topology_at,
};
use call_types::reply::{MountRow, Refusal, Reply};
use call_types::request::Request;
use call_types::setup::{Pool, Setup};
use itoa::Buffer;
use kube_types::copies::{OutOfMemory, Plain, copy_all};
use kube_types::items::Items;
use kube_types::objects::DataId;
use kube_types::pairs::Pairs;
use kube_types::text::Text;
use kube_types::uid::Uid;
use std::alloc::Global;
use std::marker::Model;

/// The pods that are mounted, the data that are there, and the Provision and Erase calls so far.
#[derive(Clone, Copy, Debug, PartialEq, Eq)]
pub struct DeviceCounts {
    pub mounted: u64,
    pub stored: u64,
    pub calls: u64,
}

/// The back ends and the nodes. Contracts see what they began with, and the lists of the definitions.
pub struct Devices {
    alloc: Global,
    setup: Setup,
    stored: Vec<StoredData>,
    epochs: Vec<(Text, u64)>,
    mounts: Mounts,
    calls: u64,
}

impl Drop for Devices {
    fn drop(self) {
        let Devices {
            alloc: _,
            setup,
            stored,
            epochs,
            mounts,
            calls: _,
        } = self;
        drop(setup);
        drop(stored);
        drop(epochs);
        drop(mounts);
    }
}

impl Model for Devices {
    ghost use Rattle.std.specs.Prelude.{map};
    ghost use Rattle.device_model.specs.Kept.{State, stored_data};

    ghost Value = { State };

    ghost view = { λ d. record { setup = d.setup; devices = record { stored = map stored_data d.stored.items; epochs = d.epochs.items; mounts = d.mounts; calls = d.calls } } };
}

/// Whether devices answer the request.
pub fn is_for_devices(request: &Request) -> bool
    ensures { result ≡ is_for_devices request.now }
{
    match request {
        Request::Provision { .. } => true,
        Request::Erase { .. } => true,
        Request::TakeNode { .. } => true,
        Request::Mounts { .. } => true,
        Request::Mount { .. } => true,
        Request::Unmount { .. } => true,
        _ => false,
    }
}

/// The one change of a call. `Counts`, `Gives` and `Erases` count a call of a back end, too.
pub enum Move {
    Stays,
    Counts,
    Gives(StoredData),
    Erases(DataId),
    Takes(Text, u64),
    Mounts(Text, MountRow),
    Unmounts(Text, Uid),
}

impl Drop for Move {
    fn drop(self) {
        match self {
            Move::Stays | Move::Counts => {}
            Move::Gives(data) => drop(data),
            Move::Erases(id) => drop(id),
            Move::Takes(node, _) => drop(node),
            Move::Mounts(node, row) => {
                drop(node);
                drop(row);
            }
            Move::Unmounts(node, _) => drop(node),
        }
    }
}

impl Move {
    /// Makes the change. It may take memory, and then nothing has changed.
    fn make(self, devices: &mut Devices) -> Result<(), OutOfMemory>
        requires { devices.old.devices.calls < 2 ^ 63 }
        ensures setup { devices.new.setup ≡ devices.old.setup }
        ensures ok { OnOk result (devices.new.devices ≡ after devices.old.devices self) }
        ensures err { OnErr result (devices.new ≡ devices.old) }
    {
        match self {
            Move::Stays => (),
            Move::Counts => devices.calls += 1,
            Move::Gives(data) => {
                devices.stored.insert(0, data)?;
                devices.calls += 1;
            }
            Move::Erases(id) => {
                erase_all(&mut devices.stored, &id);
                devices.calls += 1;
            }
            Move::Takes(node, epoch) => devices.epochs.insert(0, (node, epoch))?,
            Move::Mounts(node, row) => devices.mounts.put(devices.alloc, node, row)?,
            Move::Unmounts(node, pod) => devices.mounts.take_out(&node, pod),
        }
        Ok(())
    }
}

impl Devices {
    /// Devices without data, epochs or mounts.
    pub fn new(alloc: Global, pools: &[Pool], faults: &[u64]) -> Result<Devices, OutOfMemory>
        ensures { IfOk result (λ d. d ≡ record { setup = record { pools = pools.now; faults = faults.now; imports = [] }; devices = no_devices }) }
    {
        Ok(Devices {
            alloc,
            setup: Setup {
                pools: Items::from_vec(copy_all(alloc, pools)?),
                faults: Items::from_vec(copy_all(alloc, faults)?),
                imports: Items::new(alloc),
            },
            stored: Vec::new(alloc),
            epochs: Vec::new(alloc),
            mounts: Mounts::new(alloc),
            calls: 0,
        })
    }

    /// The id of data that are given now: the provisioner and a number that rises.
    fn fresh_id(&self, provisioner: &Text) -> Result<DataId, OutOfMemory>
        ensures { IfOk result (λ id. id ≡ fresh_id provisioner.now self.now.devices.stored) }
    {
        let mut buffer = Buffer::new();
        let mut id = Text::new(self.alloc, "data-")?;
        id.push_str(buffer.format(self.stored.len() + 1))?;
        Ok(DataId {
            driver: provisioner.copy(self.alloc)?,
            id,
        })
    }

    fn provision_reply(&self, id: &DataId, place: usize) -> Result<Reply, OutOfMemory>
        ensures { IfOk result (λ reply. reply ≡ replies.Provisioned id.now (topology_at place self.now.setup.pools)) }
    {
        let topology = match topology_at(self.setup.pools.as_slice(), place) {
            None => None,
            Some(pair) => Some(pair.copy(self.alloc)?),
        };
        Ok(Reply::Provisioned {
            id: id.copy(self.alloc)?,
            topology,
        })
    }

    /// New data in the pool at the place, or none where no pool has room.
    #[tactic(auto, unfolding(binder_model::specs::Devices::provision_new))]
    fn provision_new(
        &self,
        name: &Text,
        provisioner: &Text,
        bytes: u64,
        labels: Option<&Pairs>,
    ) -> Result<(Move, Reply), OutOfMemory>
        ensures { IfOk result (λ m. answer_after self.now.devices m.0 m.1 ≡ provision_new self.now.setup.pools self.now.devices name.now provisioner.now bytes (option_copied labels.entry) (first_fit provisioner.now bytes (option_copied labels.entry) self.now.devices.stored 0 self.now.setup.pools)) }
    {
        let pools = self.setup.pools.as_slice();
        match first_fit(pools, provisioner, bytes, labels, &self.stored) {
            None => {
                let free = most_free(pools, provisioner, labels, &self.stored);
                Ok((Move::Counts, Reply::Refused(Refusal::Exhausted { free })))
            }
            Some(pool) => {
                let id = self.fresh_id(provisioner)?;
                let reply = self.provision_reply(&id, pool)?;
                let name = name.copy(self.alloc)?;
                Ok((
                    Move::Gives(StoredData {
                        id,
                        name,
                        pool,
                        bytes,
                        there: true,
                    }),
                    reply,
                ))
            }
        }
    }

    #[tactic(auto, unfolding(binder_model::specs::Devices::provision))]
    fn provision(
        &self,
        name: &Text,
        provisioner: &Text,
        bytes: u64,
        labels: Option<&Pairs>,
    ) -> Result<(Move, Reply), OutOfMemory>
        ensures { IfOk result (λ m. answer_after self.now.devices m.0 m.1 ≡ provision self.now.setup.pools self.now.devices name.now provisioner.now bytes (option_copied labels.entry) (data_named name.now self.now.devices.stored)) }
    {
        match data_named(&self.stored, name) {
            Some(found) => Ok((Move::Counts, self.provision_reply(&found.id, found.pool)?)),
            None => self.provision_new(name, provisioner, bytes, labels),
        }
    }

    #[tactic(auto, unfolding(binder_model::specs::Devices::erase))]
    fn erase(&self, id: &DataId) -> Result<(Move, Reply), OutOfMemory>
        ensures { IfOk result (λ m. answer_after self.now.devices m.0 m.1 ≡ erase self.now.devices id.now) }
    {
        let removed = has_id(&self.stored, id);
        Ok((
            Move::Erases(id.copy(self.alloc)?),
            Reply::Erased { removed },
        ))
    }

    /// The answer of a back end, or its fault where the number of the call is planned.
    #[tactic(auto, unfolding(binder_model::specs::Devices::unless_planned, binder_model::specs::Devices::device_answer))]
    fn on_back_end(&self, request: &Request) -> Result<(Move, Reply), OutOfMemory>
        requires asked { is_for_back_end request.now ≡ true }
        requires calls { self.now.devices.calls < 2 ^ 63 }
        ensures { IfOk result (λ m. Some (answer_after self.now.devices m.0 m.1) ≡ device_answer self.now.setup self.now.devices request.now) }
    {
        let planned = self.calls + 1;
        if is_planned(self.setup.faults.as_slice(), planned) {
            return Ok((Move::Counts, Reply::Refused(Refusal::BackFault { planned })));
        }
        match request {
            Request::Provision {
                name,
                provisioner,
                bytes,
                labels,
            } => self.provision(name, provisioner, *bytes, labels.as_ref()),
            Request::Erase { id } => self.erase(id),
            _ => unreachable!(),
        }
    }

    /// The current epoch of the node, where the given one is another.
    fn epoch_if_stale(&self, node: &Text, given: u64) -> Option<u64>
        ensures { result ≡ epoch_if_stale self.now.devices node.now given }
    {
        let current = epoch_of(&self.epochs, node);
        if given == current {
            None
        } else {
            Some(current)
        }
    }

    #[tactic(auto, unfolding(binder_model::specs::Devices::take_node))]
    fn take_node(&self, node: &Text) -> Result<(Move, Reply), OutOfMemory>
        requires { epoch_of node.now self.now.devices.epochs < 2 ^ 63 }
        ensures { IfOk result (λ m. answer_after self.now.devices m.0 m.1 ≡ take_node self.now.devices node.now) }
    {
        let epoch = epoch_of(&self.epochs, node) + 1;
        Ok((
            Move::Takes(node.copy(self.alloc)?, epoch),
            Reply::Epoch(epoch),
        ))
    }

    #[tactic(auto, unfolding(binder_model::specs::Devices::with_mounts))]
    fn show_mounts(&self, node: &Text) -> Result<(Move, Reply), OutOfMemory>
        ensures { IfOk result (λ m. answer_after self.now.devices m.0 m.1 ≡ with_mounts self.now.devices node.now self.now.devices.mounts) }
    {
        let rows = copy_all(self.alloc, self.mounts.on(node))?;
        Ok((Move::Stays, Reply::Mounted(Items::from_vec(rows))))
    }

    /// The node's rows and then the new one.
    #[tactic(auto, unfolding(binder_model::specs::Devices::with_mounts), using(binder_model::proofs::Mounts::rows_on_put))]
    fn mount_row(&self, node: &Text, row: MountRow) -> Result<(Move, Reply), OutOfMemory>
        ensures { IfOk result (λ m. answer_after self.now.devices m.0 m.1 ≡ with_mounts self.now.devices node.now (put_mount (mount_at node.now row) self.now.devices.mounts)) }
    {
        let rows = rows_with(self.alloc, self.mounts.on(node), &row)?;
        let node = node.copy(self.alloc)?;
        Ok((Move::Mounts(node, row), Reply::Mounted(rows)))
    }

    fn mount(
        &self,
        node: &Text,
        pod: Uid,
        claims: &Items<Uid>,
    ) -> Result<(Move, Reply), OutOfMemory>
        ensures { IfOk result (λ m. answer_after self.now.devices m.0 m.1 ≡ with_mounts self.now.devices node.now (with_mount node.now pod claims.now self.now.devices.mounts)) }
    {
        if self.mounts.has(node, pod) {
            return self.show_mounts(node);
        }
        let claims = claims.copy(self.alloc)?;
        self.mount_row(node, MountRow { pod, claims })
    }

    #[tactic(auto, unfolding(binder_model::specs::Devices::with_mounts), using(crate::proofs::NodeLists::rows_on_without))]
    fn unmount(&self, node: &Text, pod: Uid) -> Result<(Move, Reply), OutOfMemory>
        ensures { IfOk result (λ m. answer_after self.now.devices m.0 m.1 ≡ with_mounts self.now.devices node.now (without_mount node.now pod self.now.devices.mounts)) }
    {
        let rows = rows_without(self.alloc, self.mounts.on(node), pod)?;
        let node = node.copy(self.alloc)?;
        Ok((Move::Unmounts(node, pod), Reply::Mounted(rows)))
    }

    /// The answer of a node, where the epoch is its current one.
    #[tactic(auto, unfolding(binder_model::specs::Devices::unless_stale, binder_model::specs::Devices::device_answer))]
    fn on_node(&self, request: &Request) -> Result<(Move, Reply), OutOfMemory>
        requires { is_for_mounts request.now ≡ true }
        ensures { IfOk result (λ m. Some (answer_after self.now.devices m.0 m.1) ≡ device_answer self.now.setup self.now.devices request.now) }
    {
        let (node, given) = match request {
            Request::Mounts { node, epoch } => (node, *epoch),
            Request::Mount { node, epoch, .. } => (node, *epoch),
            Request::Unmount { node, epoch, .. } => (node, *epoch),
            _ => unreachable!(),
        };
        if let Some(current) = self.epoch_if_stale(node, given) {
            return Ok((Move::Stays, Reply::Refused(Refusal::StaleEpoch { current })));
        }
        match request {
            Request::Mount {
                node,
                pod,
                claims,
                ..
            } => self.mount(node, *pod, claims),
            Request::Unmount { node, pod, .. } => self.unmount(node, *pod),
            _ => self.show_mounts(node),
        }
    }

    /// What a request comes to here.
    #[tactic(auto, unfolding(binder_model::specs::Devices::device_answer))]
    fn outcome(&self, request: &Request) -> Result<(Move, Reply), OutOfMemory>
        requires request { is_for_devices request.now ≡ true }
        requires calls { self.now.devices.calls < 2 ^ 63 }
        requires epoch { taken_epoch self.now.devices request.now < 2 ^ 63 }
        ensures { IfOk result (λ m. Some (answer_after self.now.devices m.0 m.1) ≡ device_answer self.now.setup self.now.devices request.now) }
    {
        match request {
            Request::Provision { .. } => self.on_back_end(request),
            Request::Erase { .. } => self.on_back_end(request),
            Request::TakeNode { node } => self.take_node(node),
            _ => self.on_node(request),
        }
    }

    /// Answers a request of devices. No world has made as many calls as the numbers here allow.
    pub fn call(&mut self, request: &Request) -> Result<Reply, OutOfMemory>
        requires request { is_for_devices request.now ≡ true }
        requires calls { self.old.devices.calls < 2 ^ 63 }
        requires epoch { taken_epoch self.old.devices request.now < 2 ^ 63 }
        ensures setup { self.new.setup ≡ self.old.setup }
        ensures ok { IfOk result (λ reply. device_answer self.old.setup self.old.devices request.now ≡ Some (record { devices = self.new.devices; reply = reply })) }
        ensures err { OnErr result (self.new ≡ self.old) }
    {
        let (change, reply) = self.outcome(request)?;
        change.make(self)?;
        Ok(reply)
    }

    /// The reply that `call` would give.
    pub fn answer(&self, request: &Request) -> Result<Reply, OutOfMemory>
        requires request { is_for_devices request.now ≡ true }
        requires calls { self.now.devices.calls < 2 ^ 63 }
        requires epoch { taken_epoch self.now.devices request.now < 2 ^ 63 }
        ensures { IfOk result (λ reply. option_map (λ a. a.reply) (device_answer self.now.setup self.now.devices request.now) ≡ Some reply) }
    {
        let (_, reply) = self.outcome(request)?;
        Ok(reply)
    }

    /// The current epoch of the node, 0 before it was first taken.
    pub fn epoch(&self, node: &Text) -> u64
        ensures { result ≡ epoch_of node.now self.now.devices.epochs }
    {
        epoch_of(&self.epochs, node)
    }

    /// The mounts of the node, in the order of mounting.
    pub fn mounts(&self, node: &Text) -> &[MountRow]
        ensures { result.now ≡ rows_on node.now self.now.devices.mounts }
    {
        self.mounts.on(node)
    }

    /// Whether a pool has these bytes free for such a request.
    pub fn fits(&self, provisioner: &Text, bytes: u64, labels: Option<&Pairs>) -> bool
        ensures { result ≡ pool_fits self.now.setup self.now.devices provisioner.now bytes (option_copied labels.entry) }
    {
        let pools = self.setup.pools.as_slice();
        first_fit(pools, provisioner, bytes, labels, &self.stored).is_some()
    }

    /// Whether data of the name are there.
    pub fn has_data(&self, name: &Text) -> bool
        ensures { result ≡ has_data self.now.devices name.now }
    {
        has_name(&self.stored, name)
    }

    /// What a summary tells of the devices.
    pub fn counts(&self) -> DeviceCounts
        ensures { result ≡ counts self.now.devices }
    {
        DeviceCounts {
            mounted: self.mounts.count() as u64,
            stored: count_there(&self.stored),
            calls: self.calls,
        }
    }
}
