//! What each request comes to, over the objects of the store.

ghost use Rattle.std.specs.Prelude.{◌≡◌, ◌+◌, ◌<◌, ◌^◌, List, Some, None, IfOk};
ghost use Rattle.std.specs.Option.{option_copied};
ghost use Rattle.std.specs.Result.{result_err};
ghost use Rattle.kube_objects.specs.declared.objects.Object.{Object};
ghost use Rattle.kube_objects.specs.declared.objects.Object.TheVariants as objects;
ghost use Rattle.kube_objects.specs.Keys.{key_of, row_at};
ghost use Rattle.kube_parts.specs.declared.names.Rule.TheVariants as rules;
ghost use Rattle.call_types.specs.declared.reply.Refusal.TheVariants as refusals;
ghost use Rattle.call_types.specs.declared.reply.Reply.TheVariants as replies;
ghost use Rattle.binder_model.specs.Store.{at_version};
ghost use Rattle.binder_model.specs.Answers.{Says, is_user, guard_on, is_other_version, is_other_uid, write_outcome, written_if_fits, create, update, update_status, edit, edit_to, delete, get, list, listed_rows, pod_with, bind, finish, outcome, refuse};
ghost use Rattle.version_store.specs.Steps.Made.{is_listed, outcome_of, state_of};

use crate::classes::{default_class_name, lacks_named_node, lacks_node};
use crate::edits::edited_object;
use crate::object_map::ObjectMap;
use crate::outcome::Made;
use crate::writes::{at_version, created_object, marked_object, updated_object, with_status};
use call_types::edit::Edit;
use call_types::reply::{Change, Refusal, Reply};
use call_types::request::{NewStatus, Request, SeatKind};
use field_rules::{check_changed, check_new, guard};
use finalizer_rules::{leaves, leaves_at_once};
use kube_types::bindings::{is_deleting, is_scheduled, is_uid};
use kube_types::copies::{OutOfMemory, Plain};
use kube_types::items::Items;
use kube_types::key::{key_of, meta_of};
use kube_types::names::{Field, Rule};
use kube_types::objects::{Object, Pod, Version};
use kube_types::parts::Kind;
use kube_types::shared::Shared;
use kube_types::text::Text;
use kube_types::uid::Uid;
use std::alloc::Global;

fn refuse_with(refusal: Refusal) -> Made
    ensures { outcome_of result ≡ Says (replies.Refused refusal) }
{
    Made::Says(Reply::Refused(refusal))
}

/// The write of an object, which leaves where it is to be deleted and has no finalizers.
fn write_outcome(object: Object) -> Made
    ensures { outcome_of result ≡ write_outcome object }
{
    if leaves(&object) {
        Made::Removes(object)
    } else {
        Made::Stores(Change::Modified, object)
    }
}

fn is_user(kind: SeatKind) -> bool
    ensures { result ≡ is_user kind }
{
    match kind {
        SeatKind::User => true,
        _ => false,
    }
}

/// Answers the first rule that the write breaks, where a user makes it.
#[tactic(auto, unfolding(binder_model::specs::Answers::guard_on))]
fn guard_on(kind: SeatKind, old: Option<&Object>, new: &Object) -> Result<(), Rule>
    ensures { result_err result ≡ guard_on kind (option_copied old.entry) new.now }
{
    match kind {
        SeatKind::User => guard(old, new),
        _ => Ok(()),
    }
}

fn is_other_version(given: Option<Version>, current: Version) -> bool
    ensures { result ≡ is_other_version given current }
{
    match given {
        None => false,
        Some(given) => given != current,
    }
}

fn is_other_uid(given: Option<Uid>, current: Option<Uid>) -> bool
    ensures { result ≡ is_other_uid given current }
{
    match given {
        None => false,
        Some(given) => !is_uid(current, given),
    }
}

#[tactic(auto, unfolding(binder_model::specs::Answers::create, binder_model::specs::Answers::refuse_rule, binder_model::specs::Answers::refuse_field))]
fn create(
    alloc: Global,
    objects: &ObjectMap,
    version: Version,
    kind: SeatKind,
    object: &Object,
    moment: &Text,
) -> Result<Made, OutOfMemory>
    requires { version + 1 < 2 ^ 62 }
    ensures { IfOk result (λ made. outcome_of made ≡ create (state_of objects.now version) kind object.now moment.now (row_at (key_of object.now) objects.now)) }
{
    let key = key_of(alloc, object)?;
    if objects.get(&key).is_some() {
        return Ok(refuse_with(Refusal::AlreadyExists));
    }
    if let Err(rule) = guard_on(kind, None, object) {
        return Ok(refuse_with(Refusal::Forbidden(rule)));
    }
    let lacks = lacks_node(alloc, object, objects)?;
    if let Err(field) = check_new(alloc, lacks, object)? {
        return Ok(refuse_with(Refusal::Invalid(field)));
    }
    let made = created_object(
        alloc,
        default_class_name(objects.objects()),
        object,
        version + 1,
        moment,
    )?;
    Ok(Made::Stores(Change::Added, made))
}

#[tactic(auto, unfolding(binder_model::specs::Answers::update, binder_model::specs::Answers::refuse, binder_model::specs::Answers::refuse_rule, binder_model::specs::Answers::refuse_field))]
fn update(
    alloc: Global,
    version: Version,
    kind: SeatKind,
    new: &Object,
    given: Option<Version>,
    old: Option<&Object>,
) -> Result<Made, OutOfMemory>
    requires { version + 1 < 2 ^ 62 }
    ensures { IfOk result (λ made. (rows : List Object) → outcome_of made ≡ update (state_of rows version) kind new.now given (option_copied old.entry)) }
{
    let Some(old) = old else {
        return Ok(refuse_with(Refusal::NotFound));
    };
    let current = meta_of(old).version;
    if is_other_version(given, current) {
        return Ok(refuse_with(Refusal::Conflict { current }));
    }
    if let Err(rule) = guard_on(kind, Some(old), new) {
        return Ok(refuse_with(Refusal::Forbidden(rule)));
    }
    if let Err(field) = check_changed(alloc, old, new)? {
        return Ok(refuse_with(Refusal::Invalid(field)));
    }
    Ok(write_outcome(updated_object(alloc, old, new, version + 1)?))
}

#[tactic(auto, unfolding(binder_model::specs::Answers::update_status, binder_model::specs::Answers::written_if_fits, binder_model::specs::Answers::refuse))]
fn update_status(
    alloc: Global,
    version: Version,
    kind: SeatKind,
    status: &NewStatus,
    given: Option<Version>,
    old: Option<&Object>,
) -> Result<Made, OutOfMemory>
    requires { version + 1 < 2 ^ 62 }
    ensures { IfOk result (λ made. (rows : List Object) → outcome_of made ≡ update_status (state_of rows version) kind status.now given (option_copied old.entry)) }
{
    if is_user(kind) {
        return Ok(refuse_with(Refusal::Forbidden(Rule::Verb)));
    }
    let Some(old) = old else {
        return Ok(refuse_with(Refusal::NotFound));
    };
    let current = meta_of(old).version;
    if is_other_version(given, current) {
        return Ok(refuse_with(Refusal::Conflict { current }));
    }
    match with_status(alloc, status, old)? {
        None => Ok(refuse_with(Refusal::Invalid(Field::Kind))),
        Some(new) => Ok(write_outcome(at_version(alloc, new, version + 1)?)),
    }
}

#[tactic(auto, unfolding(binder_model::specs::Answers::edit, binder_model::specs::Answers::edit_to, binder_model::specs::Answers::refuse_rule, binder_model::specs::Answers::refuse_field))]
fn edit(
    alloc: Global,
    version: Version,
    kind: SeatKind,
    change: &Edit,
    old: Option<&Object>,
) -> Result<Made, OutOfMemory>
    requires { version + 1 < 2 ^ 62 }
    ensures { IfOk result (λ made. (rows : List Object) → outcome_of made ≡ edit (state_of rows version) kind change.now (option_copied old.entry)) }
{
    let Some(old) = old else {
        return Ok(refuse_with(Refusal::NotFound));
    };
    let Some(new) = edited_object(alloc, change, old)? else {
        return Ok(refuse_with(Refusal::Invalid(Field::Kind)));
    };
    if let Err(rule) = guard_on(kind, Some(old), &new) {
        return Ok(refuse_with(Refusal::Forbidden(rule)));
    }
    if let Err(field) = check_changed(alloc, old, &new)? {
        return Ok(refuse_with(Refusal::Invalid(field)));
    }
    Ok(write_outcome(updated_object(alloc, old, &new, version + 1)?))
}

#[tactic(auto, unfolding(binder_model::specs::Answers::delete, binder_model::specs::Answers::delete_of, binder_model::specs::Answers::refuse))]
fn delete(
    alloc: Global,
    version: Version,
    moment: &Text,
    given: Option<Uid>,
    old: Option<&Object>,
) -> Result<Made, OutOfMemory>
    requires { version + 1 < 2 ^ 62 }
    ensures { IfOk result (λ made. (rows : List Object) → outcome_of made ≡ delete (state_of rows version) moment.now given (option_copied old.entry)) }
{
    let Some(old) = old else {
        return Ok(refuse_with(Refusal::NotFound));
    };
    let meta = meta_of(old);
    if is_other_uid(given, meta.uid) {
        return Ok(refuse_with(Refusal::Conflict {
            current: meta.version,
        }));
    }
    if leaves_at_once(old) {
        return Ok(Made::Removes(marked_object(alloc, old, version + 1, moment)?));
    }
    if is_deleting(meta) {
        return Ok(Made::Says(Reply::Done(old.copy(alloc)?)));
    }
    Ok(write_outcome(marked_object(alloc, old, version + 1, moment)?))
}

#[tactic(auto, unfolding(binder_model::specs::Answers::get))]
fn get(alloc: Global, row: Option<&Object>) -> Result<Made, OutOfMemory>
    ensures { IfOk result (λ made. outcome_of made ≡ get (option_copied row.entry)) }
{
    match row {
        None => Ok(refuse_with(Refusal::NotFound)),
        Some(found) => Ok(Made::Says(Reply::Found(found.copy(alloc)?))),
    }
}

/// Whether the object is in the namespace, where one is given.
fn is_listed(namespace: &Option<Text>, object: &Object) -> bool
    ensures { result ≡ is_listed namespace.now object.now }
{
    match namespace {
        None => true,
        Some(namespace) => meta_of(object).namespace.is(namespace.as_str()),
    }
}

/// The objects of the namespace, where one is given.
fn listed_rows(
    alloc: Global,
    objects: &[Object],
    namespace: &Option<Text>,
) -> Result<Items<Object>, OutOfMemory>
    ensures { IfOk result (λ items. items ≡ listed_rows namespace.now objects.now) }
{
    let mut items = Items::new(alloc);
    for object in objects {
        if is_listed(namespace, object) {
            let copied = object.copy(alloc)?;
            items.push(copied)?;
        }
    }
    Ok(items)
}

#[tactic(auto, unfolding(binder_model::specs::Answers::list))]
fn list(
    alloc: Global,
    objects: &ObjectMap,
    version: Version,
    kind: Kind,
    namespace: &Option<Text>,
) -> Result<Made, OutOfMemory>
    ensures { IfOk result (λ made. outcome_of made ≡ list (state_of objects.now version) kind namespace.now) }
{
    let items = listed_rows(alloc, objects.of_kind(kind), namespace)?;
    Ok(Made::Says(Reply::Listed { items, version }))
}

/// The row, where it is the pod with this UID.
#[tactic(auto, unfolding(binder_model::specs::Answers::pod_with))]
fn pod_with<'a>(uid: Uid, row: Option<&'a Object>) -> Option<&'a Shared<Pod>>
    ensures { option_copied result ≡ pod_with uid (option_copied row.entry) }
{
    match row {
        Some(Object::Pod(pod)) => {
            if is_uid(pod.meta.uid, uid) {
                Some(pod)
            } else {
                None
            }
        }
        _ => None,
    }
}

/// The pod on this node.
fn bound_pod(
    alloc: Global,
    pod: &Shared<Pod>,
    node: &Text,
    version: Version,
) -> Result<Object, OutOfMemory>
    ensures { IfOk result (λ o. o ≡ at_version (objects.Pod (record pod.now { node = node.now })) version) }
{
    let node = node.copy(alloc)?;
    let mut bound = pod.copy(alloc)?;
    bound.value_mut(alloc)?.node = node;
    at_version(alloc, Object::Pod(bound), version)
}

#[tactic(auto, unfolding(binder_model::specs::Answers::bind, binder_model::specs::Answers::refuse))]
fn bind(
    alloc: Global,
    objects: &ObjectMap,
    version: Version,
    node: &Text,
    pod: Option<&Shared<Pod>>,
) -> Result<Made, OutOfMemory>
    requires { version + 1 < 2 ^ 62 }
    ensures { IfOk result (λ made. outcome_of made ≡ bind (state_of objects.now version) node.now (option_copied pod.entry)) }
{
    let Some(pod) = pod else {
        return Ok(refuse_with(Refusal::NotFound));
    };
    if is_scheduled(pod) {
        let node = pod.node.copy(alloc)?;
        return Ok(refuse_with(Refusal::Assigned { node }));
    }
    if lacks_named_node(alloc, node, objects)? {
        return Ok(refuse_with(Refusal::Invalid(Field::NodeName)));
    }
    let bound = bound_pod(alloc, pod, node, version + 1)?;
    Ok(Made::Stores(Change::Modified, bound))
}

#[tactic(auto, unfolding(binder_model::specs::Answers::finish, binder_model::specs::Answers::refuse, binder_model::specs::Answers::refuse_stale))]
fn finish(
    alloc: Global,
    version: Version,
    stale: Option<u64>,
    node: &Text,
    pod: Option<&Shared<Pod>>,
) -> Result<Made, OutOfMemory>
    requires { version + 1 < 2 ^ 62 }
    ensures { IfOk result (λ made. (rows : List Object) → outcome_of made ≡ finish (state_of rows version) stale node.now (option_copied pod.entry)) }
{
    let Some(pod) = pod else {
        return Ok(refuse_with(Refusal::NotFound));
    };
    if let Some(current) = stale {
        return Ok(refuse_with(Refusal::StaleEpoch { current }));
    }
    if !is_deleting(&pod.meta) {
        return Ok(refuse_with(Refusal::Invalid(Field::Deletion)));
    }
    if !pod.node.is(node.as_str()) {
        return Ok(refuse_with(Refusal::Invalid(Field::NodeName)));
    }
    let finished = Object::Pod(pod.copy(alloc)?);
    Ok(Made::Removes(at_version(alloc, finished, version + 1)?))
}

/// What an update comes to.
fn update_row(
    alloc: Global,
    objects: &ObjectMap,
    version: Version,
    kind: SeatKind,
    new: &Object,
    given: Option<Version>,
) -> Result<Made, OutOfMemory>
    requires { version + 1 < 2 ^ 62 }
    ensures { IfOk result (λ made. outcome_of made ≡ update (state_of objects.now version) kind new.now given (row_at (key_of new.now) objects.now)) }
{
    let key = key_of(alloc, new)?;
    update(alloc, version, kind, new, given, objects.get(&key))
}

/// What a BindPod comes to. `row` is the object of its key.
#[tactic(auto, unfolding(binder_model::specs::Answers::refuse))]
fn bind_row(
    alloc: Global,
    objects: &ObjectMap,
    version: Version,
    kind: SeatKind,
    uid: Uid,
    node: &Text,
    row: Option<&Object>,
) -> Result<Made, OutOfMemory>
    requires { version + 1 < 2 ^ 62 }
    ensures { IfOk result (λ made. outcome_of made ≡ refuse (is_user kind) (refusals.Forbidden rules.Verb) (bind (state_of objects.now version) node.now (pod_with uid (option_copied row.entry)))) }
{
    if is_user(kind) {
        return Ok(refuse_with(Refusal::Forbidden(Rule::Verb)));
    }
    bind(alloc, objects, version, node, pod_with(uid, row))
}

/// What a FinishPod comes to. `row` is the object of its key.
#[tactic(auto, unfolding(binder_model::specs::Answers::refuse))]
fn finish_row(
    alloc: Global,
    version: Version,
    kind: SeatKind,
    uid: Uid,
    node: &Text,
    stale: Option<u64>,
    row: Option<&Object>,
) -> Result<Made, OutOfMemory>
    requires { version + 1 < 2 ^ 62 }
    ensures { IfOk result (λ made. (rows : List Object) → outcome_of made ≡ refuse (is_user kind) (refusals.Forbidden rules.Verb) (finish (state_of rows version) stale node.now (pod_with uid (option_copied row.entry)))) }
{
    if is_user(kind) {
        return Ok(refuse_with(Refusal::Forbidden(Rule::Verb)));
    }
    finish(alloc, version, stale, node, pod_with(uid, row))
}

/// What the request comes to. `stale` is the current epoch of the node that a FinishPod names, where
/// the request has another.
#[tactic(auto, unfolding(binder_model::specs::Answers::outcome, binder_model::specs::Answers::refuse))]
pub fn outcome(
    alloc: Global,
    objects: &ObjectMap,
    version: Version,
    kind: SeatKind,
    request: &Request,
    moment: &Text,
    stale: Option<u64>,
) -> Result<Made, OutOfMemory>
    requires { version + 1 < 2 ^ 62 }
    ensures { IfOk result (λ made. outcome_of made ≡ outcome (state_of objects.now version) kind request.now moment.now stale) }
{
    match request {
        Request::Create { object } => create(alloc, objects, version, kind, object, moment),
        Request::Update {
            object,
            version: given,
        } => update_row(alloc, objects, version, kind, object, *given),
        Request::UpdateStatus {
            key,
            status,
            version: given,
        } => update_status(alloc, version, kind, status, *given, objects.get(key)),
        Request::Edit { key, edit: change } => edit(alloc, version, kind, change, objects.get(key)),
        Request::Delete { key, uid } => delete(alloc, version, moment, *uid, objects.get(key)),
        Request::Get { key } => get(alloc, objects.get(key)),
        Request::List { kind, namespace } => list(alloc, objects, version, *kind, namespace),
        Request::BindPod { key, uid, node } => {
            bind_row(alloc, objects, version, kind, *uid, node, objects.get(key))
        }
        Request::FinishPod { key, uid, node, .. } => finish_row(
            alloc,
            version,
            kind,
            *uid,
            node,
            stale,
            objects.get(key),
        ),
        _ => Ok(refuse_with(Refusal::Invalid(Field::Kind))),
    }
}
