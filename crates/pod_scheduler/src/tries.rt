//! The nodes that the scheduler selected for claims, and those that were refused.

ghost use Rattle.std.specs.Prelude.{◌≡◌, IfOk, OnOk, Some};
ghost use Rattle.std.specs.Option.{option_copied};
ghost use Rattle.binder_model.specs.Told.{objects_in, objects_of_event, objects_of_events};
ghost use Rattle.pod_scheduler.specs.Tries.{is_other_node, is_refusal, no_tries, and_refused, refused_in, renewed, see, see_all, see_claim, selected_by, tried_of, tries_after, without_tried};

use call_types::reply::{Change, Event, Reply};
use call_types::request::Request;
use kube_types::bindings::{SELECTED_NODE, is_completed};
use kube_types::copies::{OutOfMemory, Plain};
use kube_types::items::Items;
use kube_types::objects::{Claim, Object, Version};
use kube_types::text::Text;
use kube_types::uid::Uid;
use std::alloc::Global;

/// A node that was selected for a claim, by the claim's UID, and the version that the claim had then.
#[derive(Drop)]
pub struct Tried {
    pub claim: Uid,
    pub node: Text,
    pub version: Version,
}

impl Plain for Tried {
    fn copy(&self, alloc: Global) -> Result<Tried, OutOfMemory> {
        Ok(Tried {
            claim: self.claim,
            node: self.node.copy(alloc)?,
            version: self.version,
        })
    }

    fn same(&self, other: &Tried) -> bool {
        self.claim == other.claim && self.node.same(&other.node) && self.version == other.version
    }
}

/// The nodes that stand selected, and those that were refused, the last one first; of a claim at most one each.
pub struct Tries {
    pub selected: Items<Tried>,
    pub refused: Items<Tried>,
}

impl Drop for Tries {
    fn drop(self) {
        let Tries { selected, refused } = self;
        drop(selected);
        drop(refused);
    }
}

impl Tries {
    /// None yet. It takes no memory.
    pub fn new(alloc: Global) -> Tries
        ensures { result ≡ no_tries }
    {
        Tries {
            selected: Items::new(alloc),
            refused: Items::new(alloc),
        }
    }

    /// Takes the answer to a request.
    pub fn take(
        &mut self,
        alloc: Global,
        request: &Request,
        reply: &Reply,
    ) -> Result<(), OutOfMemory>
        ensures { OnOk result (self.new ≡ tries_after request.now reply.now self.old) }
    {
        self.see_reply(alloc, reply)?;
        match (request, reply) {
            (
                Request::Update {
                    object: Object::Claim(_),
                    version: _,
                },
                Reply::Done(Object::Claim(claim)),
            ) => self.select(alloc, claim),
            _ => Ok(()),
        }
    }

    /// The claims that an answer tells are seen.
    fn see_reply(&mut self, alloc: Global, reply: &Reply) -> Result<(), OutOfMemory>
        ensures { OnOk result (self.new ≡ see_all (objects_in reply.now) self.old) }
    {
        match reply {
            Reply::Done(object) | Reply::Found(object) => self.see(alloc, object),
            Reply::Listed { items, version: _ } => self.see_all(alloc, items.as_slice()),
            Reply::Events(events) => self.see_events(alloc, events.events.as_slice()),
            _ => Ok(()),
        }
    }

    fn see_all(&mut self, alloc: Global, objects: &[Object]) -> Result<(), OutOfMemory>
        ensures { OnOk result (self.new ≡ see_all objects.now self.old) }
    {
        for object in objects {
            self.see(alloc, object)?;
        }
        Ok(())
    }

    fn see_events(&mut self, alloc: Global, events: &[Event]) -> Result<(), OutOfMemory>
        ensures { OnOk result (self.new ≡ see_all (objects_of_events events.now) self.old) }
    {
        for event in events {
            self.see_event(alloc, event)?;
        }
        Ok(())
    }

    fn see_event(&mut self, alloc: Global, event: &Event) -> Result<(), OutOfMemory>
        ensures { OnOk result (self.new ≡ see_all (objects_of_event event.now.change event.now.object) self.old) }
    {
        match event.change {
            Change::Deleted => Ok(()),
            Change::Added | Change::Modified => self.see(alloc, &event.object),
        }
    }

    fn see(&mut self, alloc: Global, object: &Object) -> Result<(), OutOfMemory>
        ensures { OnOk result (self.new ≡ see object.now self.old) }
    {
        match object {
            Object::Claim(claim) => match claim.meta.uid {
                Some(uid) => self.see_claim(alloc, uid, claim),
                None => Ok(()),
            },
            _ => Ok(()),
        }
    }

    /// A claim of this UID is seen: the node that stands selected for it was refused, where the claim says so.
    fn see_claim(&mut self, alloc: Global, uid: Uid, claim: &Claim) -> Result<(), OutOfMemory>
        ensures { OnOk result (self.new ≡ see_claim (Some uid) claim.now self.old) }
    {
        match refused_node(alloc, self.selected.as_slice(), uid, claim)? {
            None => Ok(()),
            Some(tried) => self.refuse(alloc, tried),
        }
    }

    fn refuse(&mut self, alloc: Global, tried: Tried) -> Result<(), OutOfMemory>
        ensures { OnOk result (self.new ≡ and_refused tried self.old) }
    {
        let selected = without(alloc, tried.claim, self.selected.as_slice())?;
        self.refused = Items::from_vec(renewed(alloc, tried, self.refused.as_slice())?);
        self.selected = Items::from_vec(selected);
        Ok(())
    }

    /// A write of the claim was done: the node that it has stands selected.
    fn select(&mut self, alloc: Global, claim: &Claim) -> Result<(), OutOfMemory>
        ensures { OnOk result (self.new ≡ selected_by claim.now self.old) }
    {
        match (claim.meta.uid, claim.meta.annotations.get(SELECTED_NODE)) {
            (Some(uid), Some(node)) => {
                let tried = Tried {
                    claim: uid,
                    node: node.copy(alloc)?,
                    version: claim.meta.version,
                };
                self.selected = Items::from_vec(renewed(alloc, tried, self.selected.as_slice())?);
                Ok(())
            }
            _ => Ok(()),
        }
    }
}

/// The node that stands selected for the claim of this UID, where the claim shows it to be refused.
fn refused_node(
    alloc: Global,
    selected: &[Tried],
    uid: Uid,
    claim: &Claim,
) -> Result<Option<Tried>, OutOfMemory>
    ensures { IfOk result (λ tried. tried ≡ refused_in claim.now (tried_of uid selected.now)) }
{
    match tried_of(selected, uid) {
        None => Ok(None),
        Some(tried) => {
            if is_refusal(tried, claim) {
                Ok(Some(tried.copy(alloc)?))
            } else {
                Ok(None)
            }
        }
    }
}

/// The node with the claim of this UID.
fn tried_of(tries: &[Tried], uid: Uid) -> Option<&Tried>
    ensures { option_copied result ≡ tried_of uid tries.now }
{
    for tried in tries {
        if tried.claim == uid {
            return Some(tried);
        }
    }
    None
}

/// Whether the claim, not completed, has another node or none, and was written after the node was.
fn is_refusal(tried: &Tried, claim: &Claim) -> bool
    ensures { result ≡ is_refusal tried.now claim.now }
{
    !is_completed(claim)
        && tried.version < claim.meta.version
        && is_other_node(&tried.node, claim.meta.annotations.get(SELECTED_NODE))
}

fn is_other_node(tried: &Text, seen: Option<&Text>) -> bool
    ensures { result ≡ is_other_node tried.now (option_copied seen.entry) }
{
    match seen {
        None => true,
        Some(seen) => !tried.is(seen.as_str()),
    }
}

/// Those of other claims.
fn without(alloc: Global, claim: Uid, tries: &[Tried]) -> Result<Vec<Tried>, OutOfMemory>
    ensures { IfOk result (λ rest. rest.items ≡ without_tried claim tries.now) }
{
    let mut rest = Vec::new(alloc);
    for tried in tries {
        if tried.claim != claim {
            rest.push(tried.copy(alloc)?)?;
        }
    }
    Ok(rest)
}

/// This one first, and then those of other claims.
fn renewed(alloc: Global, tried: Tried, tries: &[Tried]) -> Result<Vec<Tried>, OutOfMemory>
    ensures { IfOk result (λ all. all.items ≡ renewed tried tries.now) }
{
    let mut all = without(alloc, tried.claim, tries)?;
    all.insert(0, tried)?;
    Ok(all)
}
