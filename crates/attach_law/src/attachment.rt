//! One attachment, and a call that attaches or detaches.

use kube_parts::uid::Uid;
use plain_data::copies::{OutOfMemory, Plain};
use plain_data::text::Text;
use std::alloc::Global;

/// A volume stands attached to a node. `name` is the volume's; `many` says that its modes allowed several nodes when it was
/// attached.
#[derive(Debug)]
pub struct Attachment {
    pub volume: Uid,
    pub name: Text,
    pub node: Text,
    pub many: bool,
}

impl Drop for Attachment {
    fn drop(self) {
        let Attachment {
            volume: _,
            name,
            node,
            many: _,
        } = self;
        drop(name);
        drop(node);
    }
}

impl Plain for Attachment {
    fn copy(&self, alloc: Global) -> Result<Attachment, OutOfMemory> {
        Ok(Attachment {
            volume: self.volume,
            name: self.name.copy(alloc)?,
            node: self.node.copy(alloc)?,
            many: self.many,
        })
    }

    fn same(&self, other: &Attachment) -> bool {
        self.volume == other.volume
            && self.name.same(&other.name)
            && self.node.same(&other.node)
            && self.many == other.many
    }
}

/// A call that is to be made: a volume is to leave a node, or to come to it.
#[derive(Debug)]
pub enum AttachAsk {
    Detach { volume: Uid, node: Text },
    Attach { volume: Uid, node: Text },
}

impl Drop for AttachAsk {
    fn drop(self) {
        match self {
            AttachAsk::Detach { volume: _, node } | AttachAsk::Attach { volume: _, node } => {
                drop(node)
            }
        }
    }
}

impl Plain for AttachAsk {
    fn copy(&self, alloc: Global) -> Result<AttachAsk, OutOfMemory> {
        match self {
            AttachAsk::Detach { volume, node } => Ok(AttachAsk::Detach {
                volume: *volume,
                node: node.copy(alloc)?,
            }),
            AttachAsk::Attach { volume, node } => Ok(AttachAsk::Attach {
                volume: *volume,
                node: node.copy(alloc)?,
            }),
        }
    }

    fn same(&self, other: &AttachAsk) -> bool {
        match (self, other) {
            (
                AttachAsk::Detach { volume, node },
                AttachAsk::Detach {
                    volume: other_volume,
                    node: other_node,
                },
            ) => *volume == *other_volume && node.same(other_node),
            (
                AttachAsk::Attach { volume, node },
                AttachAsk::Attach {
                    volume: other_volume,
                    node: other_node,
                },
            ) => *volume == *other_volume && node.same(other_node),
            _ => false,
        }
    }
}
