//! Replies.

use kube_types::copies::{OutOfMemory, Plain, copy_option, same_option};
use kube_types::items::Items;
use kube_types::names::{Field, Rule};
use kube_types::objects::{DataId, Object, Version};
use kube_types::text::Text;
use kube_types::uid::Uid;
use std::alloc::Global;

/// What became of an object.
#[derive(Clone, Copy, Debug, PartialEq, Eq)]
pub enum Change {
    Added,
    Modified,
    Deleted,
}

impl Plain for Change {
    fn copy(&self, _alloc: Global) -> Result<Change, OutOfMemory> {
        Ok(*self)
    }

    fn same(&self, other: &Change) -> bool {
        *self == *other
    }
}

/// One write, as a watch tells it.
#[derive(Debug)]
pub struct Event {
    pub change: Change,
    pub object: Object,
    pub version: Version,
}

impl Drop for Event {
    fn drop(self) {
        let Event {
            change,
            object,
            version: _,
        } = self;
        drop(change);
        drop(object);
    }
}

impl Plain for Event {
    fn copy(&self, alloc: Global) -> Result<Event, OutOfMemory> {
        Ok(Event {
            change: self.change,
            object: self.object.copy(alloc)?,
            version: self.version,
        })
    }

    fn same(&self, other: &Event) -> bool {
        self.change == other.change
            && self.object.same(&other.object)
            && self.version == other.version
    }
}

/// The answer of a watch: the events in order, and the version from which the next one goes on.
#[derive(Debug)]
pub struct Events {
    pub events: Items<Event>,
    pub upto: Version,
}

impl Drop for Events {
    fn drop(self) {
        let Events { events, upto: _ } = self;
        drop(events);
    }
}

impl Plain for Events {
    fn copy(&self, alloc: Global) -> Result<Events, OutOfMemory> {
        Ok(Events {
            events: self.events.copy(alloc)?,
            upto: self.upto,
        })
    }

    fn same(&self, other: &Events) -> bool {
        self.events.same(&other.events) && self.upto == other.upto
    }
}

/// A pod that is mounted on a node, and the claims that it was mounted with.
#[derive(Debug)]
pub struct MountRow {
    pub pod: Uid,
    pub claims: Items<Uid>,
}

impl Drop for MountRow {
    fn drop(self) {
        let MountRow { pod: _, claims } = self;
        drop(claims);
    }
}

impl Plain for MountRow {
    fn copy(&self, alloc: Global) -> Result<MountRow, OutOfMemory> {
        Ok(MountRow {
            pod: self.pod,
            claims: self.claims.copy(alloc)?,
        })
    }

    fn same(&self, other: &MountRow) -> bool {
        self.pod == other.pod && self.claims.same(&other.claims)
    }
}

/// Why a call changed nothing.
#[derive(Debug)]
pub enum Refusal {
    NotFound,
    AlreadyExists,
    Conflict { current: Version },
    Invalid(Field),
    Forbidden(Rule),
    Gone { oldest: Version },
    /// `free` is the greatest number of free bytes of a pool that would serve.
    Exhausted { free: u64 },
    /// `planned` is the number of the device call.
    BackFault { planned: u64 },
    StaleEpoch { current: u64 },
    Assigned { node: Text },
}

impl Drop for Refusal {
    fn drop(self) {
        match self {
            Refusal::NotFound => {}
            Refusal::AlreadyExists => {}
            Refusal::Conflict { current: _ } => {}
            Refusal::Invalid(_) => {}
            Refusal::Forbidden(_) => {}
            Refusal::Gone { oldest: _ } => {}
            Refusal::Exhausted { free: _ } => {}
            Refusal::BackFault { planned: _ } => {}
            Refusal::StaleEpoch { current: _ } => {}
            Refusal::Assigned { node } => drop(node),
        }
    }
}

impl Plain for Refusal {
    fn copy(&self, alloc: Global) -> Result<Refusal, OutOfMemory> {
        match self {
            Refusal::NotFound => Ok(Refusal::NotFound),
            Refusal::AlreadyExists => Ok(Refusal::AlreadyExists),
            Refusal::Conflict { current } => Ok(Refusal::Conflict { current: *current }),
            Refusal::Invalid(field) => Ok(Refusal::Invalid(*field)),
            Refusal::Forbidden(rule) => Ok(Refusal::Forbidden(*rule)),
            Refusal::Gone { oldest } => Ok(Refusal::Gone { oldest: *oldest }),
            Refusal::Exhausted { free } => Ok(Refusal::Exhausted { free: *free }),
            Refusal::BackFault { planned } => Ok(Refusal::BackFault { planned: *planned }),
            Refusal::StaleEpoch { current } => Ok(Refusal::StaleEpoch { current: *current }),
            Refusal::Assigned { node } => Ok(Refusal::Assigned {
                node: node.copy(alloc)?,
            }),
        }
    }

    fn same(&self, other: &Refusal) -> bool {
        match (self, other) {
            (Refusal::NotFound, Refusal::NotFound) => true,
            (Refusal::AlreadyExists, Refusal::AlreadyExists) => true,
            (
                Refusal::Conflict { current },
                Refusal::Conflict {
                    current: other_current,
                },
            ) => { *current == *other_current }
            (Refusal::Invalid(field), Refusal::Invalid(other_field)) => { *field == *other_field }
            (Refusal::Forbidden(rule), Refusal::Forbidden(other_rule)) => { *rule == *other_rule }
            (
                Refusal::Gone { oldest },
                Refusal::Gone {
                    oldest: other_oldest,
                },
            ) => { *oldest == *other_oldest }
            (Refusal::Exhausted { free }, Refusal::Exhausted { free: other_free }) => {
                *free == *other_free
            }
            (
                Refusal::BackFault { planned },
                Refusal::BackFault {
                    planned: other_planned,
                },
            ) => { *planned == *other_planned }
            (
                Refusal::StaleEpoch { current },
                Refusal::StaleEpoch {
                    current: other_current,
                },
            ) => { *current == *other_current }
            (Refusal::Assigned { node }, Refusal::Assigned { node: other_node }) => {
                node.same(other_node)
            }
            _ => false,
        }
    }
}

/// What a call is answered.
#[derive(Debug)]
pub enum Reply {
    Done(Object),
    Left(Object),
    Found(Object),
    Listed {
        items: Items<Object>,
        version: Version,
    },
    Events(Events),
    Provisioned {
        id: DataId,
        topology: Option<(Text, Text)>,
    },
    Erased {
        removed: bool,
    },
    Epoch(u64),
    Mounted(Items<MountRow>),
    Timed,
    Refused(Refusal),
}

impl Drop for Reply {
    fn drop(self) {
        match self {
            Reply::Done(object) => drop(object),
            Reply::Left(object) => drop(object),
            Reply::Found(object) => drop(object),
            Reply::Listed { items, version: _ } => drop(items),
            Reply::Events(events) => drop(events),
            Reply::Provisioned { id, topology } => {
                drop(id);
                drop(topology);
            }
            Reply::Erased { removed: _ } => {}
            Reply::Epoch(_) => {}
            Reply::Mounted(rows) => drop(rows),
            Reply::Timed => {}
            Reply::Refused(refusal) => drop(refusal),
        }
    }
}

impl Plain for Reply {
    fn copy(&self, alloc: Global) -> Result<Reply, OutOfMemory> {
        match self {
            Reply::Done(object) => Ok(Reply::Done(object.copy(alloc)?)),
            Reply::Left(object) => Ok(Reply::Left(object.copy(alloc)?)),
            Reply::Found(object) => Ok(Reply::Found(object.copy(alloc)?)),
            Reply::Listed { items, version } => Ok(Reply::Listed {
                items: items.copy(alloc)?,
                version: *version,
            }),
            Reply::Events(events) => Ok(Reply::Events(events.copy(alloc)?)),
            Reply::Provisioned { id, topology } => Ok(Reply::Provisioned {
                id: id.copy(alloc)?,
                topology: copy_option(alloc, topology)?,
            }),
            Reply::Erased { removed } => Ok(Reply::Erased { removed: *removed }),
            Reply::Epoch(epoch) => Ok(Reply::Epoch(*epoch)),
            Reply::Mounted(rows) => Ok(Reply::Mounted(rows.copy(alloc)?)),
            Reply::Timed => Ok(Reply::Timed),
            Reply::Refused(refusal) => Ok(Reply::Refused(refusal.copy(alloc)?)),
        }
    }

    fn same(&self, other: &Reply) -> bool {
        match (self, other) {
            (Reply::Done(object), Reply::Done(other_object)) => { object.same(other_object) }
            (Reply::Left(object), Reply::Left(other_object)) => { object.same(other_object) }
            (Reply::Found(object), Reply::Found(other_object)) => { object.same(other_object) }
            (
                Reply::Listed { items, version },
                Reply::Listed {
                    items: other_items,
                    version: other_version,
                },
            ) => { items.same(other_items) && *version == *other_version }
            (Reply::Events(events), Reply::Events(other_events)) => { events.same(other_events) }
            (
                Reply::Provisioned { id, topology },
                Reply::Provisioned {
                    id: other_id,
                    topology: other_topology,
                },
            ) => { id.same(other_id) && same_option(topology, other_topology) }
            (
                Reply::Erased { removed },
                Reply::Erased {
                    removed: other_removed,
                },
            ) => { *removed == *other_removed }
            (Reply::Epoch(epoch), Reply::Epoch(other_epoch)) => { *epoch == *other_epoch }
            (Reply::Mounted(rows), Reply::Mounted(other_rows)) => { rows.same(other_rows) }
            (Reply::Timed, Reply::Timed) => true,
            (Reply::Refused(refusal), Reply::Refused(other_refusal)) => {
                refusal.same(other_refusal)
            }
            _ => false,
        }
    }
}
