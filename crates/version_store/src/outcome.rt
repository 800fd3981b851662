//! What a request comes to, and the write that it makes.

ghost use Rattle.std.specs.Prelude.{◌≡◌, ◌+◌, ◌^◌, ◌<◌, IfOk, OnOk, OnErr};
ghost use Rattle.kube_objects.specs.Keys.{key_of, put_row, without_row};
ghost use Rattle.call_types.specs.declared.reply.Reply.TheVariants as replies;
ghost use Rattle.binder_model.specs.Answers.{after, is_for_store, reply_of};
ghost use Rattle.version_store.specs.Steps.Made.{outcome_of, state_of};

use crate::object_map::ObjectMap;
use call_types::reply::{Change, Reply};
use call_types::request::Request;
use kube_types::copies::OutOfMemory;
use kube_types::key::key_of;
use kube_types::objects::{Object, Version};
use std::alloc::Global;

/// What a request comes to: an answer that changes nothing, or one object that is written.
pub enum Made {
    /// This is answered, and nothing changes.
    Says(Reply),
    /// The object is written and stays.
    Stores(Change, Object),
    /// The object leaves with this write.
    Removes(Object),
}

impl Drop for Made {
    fn drop(self) {
        match self {
            Made::Says(reply) => drop(reply),
            Made::Stores(_, object) => drop(object),
            Made::Removes(object) => drop(object),
        }
    }
}

/// Puts in the object of the next write, and answers a copy of it.
fn store_row(
    alloc: Global,
    objects: &mut ObjectMap,
    version: &mut Version,
    object: Object,
) -> Result<Reply, OutOfMemory>
    requires { version.old + 1 < 2 ^ 62 }
    ensures reply { IfOk result (λ reply. reply ≡ replies.Done object) }
    ensures objects { OnOk result (objects.new ≡ put_row object objects.old) }
    ensures version { OnOk result (version.new ≡ version.old + 1) }
    ensures err { OnErr result ((objects.new ≡ objects.old) × (version.new ≡ version.old)) }
{
    let told = objects.insert(alloc, object)?;
    *version += 1;
    Ok(Reply::Done(told))
}

/// Takes out the object that leaves with the next write, and answers it as it leaves.
fn remove_row(
    alloc: Global,
    objects: &mut ObjectMap,
    version: &mut Version,
    object: Object,
) -> Result<Reply, OutOfMemory>
    requires { version.old + 1 < 2 ^ 62 }
    ensures reply { IfOk result (λ reply. reply ≡ replies.Left object) }
    ensures objects { OnOk result (objects.new ≡ without_row (key_of object) objects.old) }
    ensures version { OnOk result (version.new ≡ version.old + 1) }
    ensures err { OnErr result ((objects.new ≡ objects.old) × (version.new ≡ version.old)) }
{
    let key = key_of(alloc, &object)?;
    let _ = objects.remove(alloc, &key);
    *version += 1;
    Ok(Reply::Left(object))
}

impl Made {
    /// The reply to the outcome.
    #[tactic(auto, unfolding(binder_model::specs::Answers::reply_of))]
    pub fn into_reply(self) -> Reply
        ensures { result ≡ reply_of (outcome_of self) }
    {
        match self {
            Made::Says(reply) => reply,
            Made::Stores(_, object) => Reply::Done(object),
            Made::Removes(object) => Reply::Left(object),
        }
    }

    /// Makes the one write of the outcome, if any, in the map, and answers it.
    #[tactic(auto, unfolding(binder_model::specs::Answers::after, binder_model::specs::Answers::reply_of))]
    pub(crate) fn write(
        self,
        alloc: Global,
        objects: &mut ObjectMap,
        version: &mut Version,
    ) -> Result<Reply, OutOfMemory>
        requires { version.old + 1 < 2 ^ 62 }
        ensures state { OnOk result (state_of objects.new version.new ≡ after (state_of objects.old version.old) (outcome_of self)) }
        ensures reply { IfOk result (λ reply. reply ≡ reply_of (outcome_of self)) }
        ensures err { OnErr result ((objects.new ≡ objects.old) × (version.new ≡ version.old)) }
    {
        match self {
            Made::Says(reply) => Ok(reply),
            Made::Stores(_, object) => store_row(alloc, objects, version, object),
            Made::Removes(object) => remove_row(alloc, objects, version, object),
        }
    }
}

/// Whether the store answers the request: objects are created, written, deleted, read or listed, or a
/// pod is bound or finished.
pub fn is_for_store(request: &Request) -> bool
    ensures { result ≡ is_for_store request.now }
{
    match request {
        Request::Create { object: _ }
        | Request::Update {
            object: _,
            version: _,
        }
        | Request::UpdateStatus {
            key: _,
            status: _,
            version: _,
        }
        | Request::Edit { key: _, edit: _ }
        | Request::Delete { key: _, uid: _ }
        | Request::Get { key: _ }
        | Request::List {
            kind: _,
            namespace: _,
        }
        | Request::BindPod {
            key: _,
            uid: _,
            node: _,
        }
        | Request::FinishPod {
            key: _,
            uid: _,
            node: _,
            epoch: _,
        } => true,
        _ => false,
    }
}
