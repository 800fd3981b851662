//! What stands attached, with the calls that change it.

ghost use Rattle.std.specs.Prelude.{◌≡◌, [], IfErr, IfOk, OnErr, OnOk, None};
ghost use Rattle.binder_model.specs.World.{world as world_of};
ghost use Rattle.attach_law.specs.Asks.{Turned};
ghost use Rattle.attach_law.specs.Attached.{passes};
ghost use Rattle.attach_law.specs.Calls.{after_attach, after_detach, attach_fault, detach_fault};
ghost use Rattle.attach_law.specs.Next.{holds, next};
ghost use Rattle.attach_control.specs.Refusals.{IsRefusal, IsRefusalOrWant, IsPartOfTurn};

use crate::asking::first_asked;
use crate::blocked::has_blocked;
use crate::error::AttachError;
use crate::idle::first_idle;
use crate::list::{are_attached, has_many, is_attached, least_node, put_volume, take_out};
use crate::objects::{user_of, volume_with};
use crate::turns::{attach_asked, detach_idle};
use attach_law::attachment::{AttachAsk, Attachment};
use call_types::request::Request;
use kube_types::copies::{OutOfMemory, Plain};
use kube_types::names::Due;
use kube_types::objects::Object;
use kube_types::text::Text;
use kube_types::uid::Uid;
use std::alloc::Global;
use std::marker::Model;
use world_core::world::World;

/// Which volumes stand attached to which nodes, in order of volume name and node. Contracts see the list.
pub struct Attachments {
    alloc: Global,
    list: Vec<Attachment>,
}

impl Drop for Attachments {
    fn drop(self) {
        let Attachments { alloc: _, list } = self;
        drop(list);
    }
}

impl Model for Attachments {
    ghost use Rattle.std.specs.Prelude.{List};
    ghost use Rattle.attach_law.specs.declared.attachment.Attachment.{Attachment};

    ghost Value = { List Attachment };

    ghost view = { λ a. a.list.items };
}

impl Attachments {
    /// Nothing is attached. It takes no memory.
    pub fn new(alloc: Global) -> Attachments
        ensures { result ≡ [] }
    {
        Attachments {
            alloc,
            list: Vec::new(alloc),
        }
    }

    /// The attachments in their order.
    pub fn as_slice(&self) -> &[Attachment]
        ensures { result.now ≡ self.now }
    {
        &self.list
    }

    /// Whether the request passes.
    pub fn passes(&self, world: &World, request: &Request) -> bool
        ensures { result ≡ passes (world_of world.now.setup world.now.past).store.rows self.now request.now }
    {
        match request {
            Request::Mount {
                node,
                epoch: _,
                pod: _,
                claims,
            } => are_attached(world.store(), claims.as_slice(), node, &self.list),
            _ => true,
        }
    }

    /// Whether what is due is held: the Mount of a pod that waits for a volume which attach would refuse.
    pub fn holds(&self, world: &World, object: &Object, action: Due) -> bool
        ensures { result ≡ holds (world_of world.now.setup world.now.past).store.rows self.now object.now action }
    {
        match object {
            Object::Pod(pod) => match action {
                Due::Mount => has_blocked(world.store(), &self.list, pod),
                _ => false,
            },
            _ => false,
        }
    }

    /// Attaches the volume to the node. One that is attached there already stays as it is.
    pub fn attach(&mut self, world: &World, volume: Uid, node: &Text) -> Result<(), AttachError>
        ensures ok { OnOk result (attach_fault (world_of world.now.setup world.now.past).store.rows volume node.now self.old ≡ None) }
        ensures attached { OnOk result (self.new ≡ after_attach (world_of world.now.setup world.now.past).store.rows volume node.now self.old) }
        ensures err { IfErr result (IsRefusalOrWant (attach_fault (world_of world.now.setup world.now.past).store.rows volume node.now self.old)) }
        ensures stays { OnErr result (self.new ≡ self.old) }
    {
        match volume_with(world.store(), volume) {
            None => Err(AttachError::NoVolume),
            Some(found) => match least_node(&self.list, volume, node, has_many(found.modes)) {
                Some(other) => Err(AttachError::MultiAttach {
                    node: other.copy(self.alloc)?,
                }),
                None => {
                    if !is_attached(&self.list, volume, node) {
                        put_volume(self.alloc, &mut self.list, found, volume, node)?;
                    }
                    Ok(())
                }
            },
        }
    }

    /// Detaches the volume from the node. It takes no memory.
    pub fn detach(&mut self, world: &World, volume: Uid, node: &Text) -> Result<(), AttachError>
        ensures ok { OnOk result (detach_fault (world_of world.now.setup world.now.past) volume node.now self.old ≡ None) }
        ensures detached { OnOk result (self.new ≡ after_detach (world_of world.now.setup world.now.past) volume node.now self.old) }
        ensures err { IfErr result (IsRefusal (detach_fault (world_of world.now.setup world.now.past) volume node.now self.old)) }
        ensures stays { OnErr result (self.new ≡ self.old) }
    {
        if !is_attached(&self.list, volume, node) {
            return Err(AttachError::NotAttached);
        }
        match user_of(world.store(), volume, world.devices().mounts(node)) {
            Some(pod) => Err(AttachError::InUse { pod }),
            None => {
                take_out(&mut self.list, volume, node);
                Ok(())
            }
        }
    }

    /// What is to be detached or attached next.
    pub fn next(&self, world: &World) -> Result<Option<AttachAsk>, OutOfMemory>
        ensures { IfOk result (λ ask. ask ≡ next (world_of world.now.setup world.now.past) self.now) }
    {
        match first_idle(self.alloc, world, &self.list)? {
            Some(ask) => Ok(Some(ask)),
            None => first_asked(self.alloc, world.store(), &self.list),
        }
    }

    /// Takes a turn: makes each call that is next, until nothing is, and tells them in order. After want of memory some of
    /// them have been made.
    pub fn turn(&mut self, world: &World) -> Result<Vec<AttachAsk>, OutOfMemory>
        ensures ok { IfOk result (λ asks. Turned (world_of world.now.setup world.now.past) self.old asks.items self.new) }
        ensures err { OnErr result (IsPartOfTurn (world_of world.now.setup world.now.past) self.old self.new) }
    {
        let mut asks = Vec::new(self.alloc);
        detach_idle(self.alloc, world, &mut self.list, &mut asks)?;
        attach_asked(self.alloc, world, &mut self.list, &mut asks)?;
        Ok(asks)
    }
}
