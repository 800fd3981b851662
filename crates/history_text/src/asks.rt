//! Requests as JSON.

ghost use Rattle.std.specs.Prelude.{◌≡◌, OnOk, codes, option_map};
ghost use Rattle.json_text.specs.Members.{with_option, with_options, with_member_text};
ghost use Rattle.json_text.specs.Writing.{written, with_value};
ghost use Rattle.history_text.specs.Requests.{key_pairs, edit_pairs, amount_text, claim_status_pairs, status_pairs, ask_word, update_pairs, update_status_pairs, list_pairs, watch_pairs, pod_node_pairs, bind_pairs, provision_pairs, data_id_pairs, node_epoch_pairs, unmount_pairs, argument_pairs, request_data};

use call_types::edit::Edit;
use call_types::request::{NewStatus, Request};
use json_text::member_texts::MemberTexts;
use json_text::writing::JsonText;
use kube_types::copies::OutOfMemory;
use kube_types::key::Key;
use kube_types::objects::{Amount, DataId, Object, Version};
use kube_types::pairs::Pairs;
use kube_types::parts::{ClaimPhase, Kind, Modes};
use kube_types::text::Text;
use kube_types::uid::Uid;
use object_print::members::{AsJson, MemberSink, put_filled, put_optional};

fn put_key(out: &mut MemberTexts, key: &Key) -> Result<(), OutOfMemory>
    ensures ok { OnOk result (out.new ≡ with_options with_member_text (key_pairs key.now) out.old) }
{
    out.put_text("kind", key.kind.name())?;
    out.put_text("name", key.name.as_str())?;
    put_filled(out, "namespace", key.namespace.as_str())
}

/// A label or an annotation.
#[derive(Clone, Copy)]
pub struct Label<'a> {
    pub key: &'a Text,
    pub value: &'a Text,
}

impl<'a> AsJson for Label<'a> {
    ghost use Rattle.history_text.specs.Requests.{label_data};

    ghost json = { λ l. label_data l.key.now l.value.now };

    #[tactic(auto, using(crate::proofs::Closings::closes_label))]
    fn write(&self, out: &mut JsonText) -> Result<(), OutOfMemory> {
        out.begin_object()?;
        out.put_text("key", self.key.as_str())?;
        out.put_text("value", self.value.as_str())?;
        out.end_object()
    }
}

/// The claim that an edit names.
#[derive(Clone, Copy)]
pub struct ClaimName<'a> {
    pub namespace: &'a Text,
    pub name: &'a Text,
}

impl<'a> AsJson for ClaimName<'a> {
    ghost use Rattle.history_text.specs.Requests.{claim_name_data};

    ghost json = { λ c. claim_name_data c.namespace.now c.name.now };

    #[tactic(auto, using(crate::proofs::Closings::closes_claim_name))]
    fn write(&self, out: &mut JsonText) -> Result<(), OutOfMemory> {
        out.begin_object()?;
        out.put_text("name", self.name.as_str())?;
        out.put_text("namespace", self.namespace.as_str())?;
        out.end_object()
    }
}

/// The one member of an edit.
pub fn put_edit(out: &mut MemberTexts, edit: &Edit) -> Result<(), OutOfMemory>
    ensures ok { OnOk result (out.new ≡ with_options with_member_text (edit_pairs edit.now) out.old) }
{
    match edit {
        Edit::AddFinalizer(name) => out.put_text("addFinalizer", name.as_str()),
        Edit::DropFinalizer(name) => out.put_text("dropFinalizer", name.as_str()),
        Edit::DropLabel(key) => out.put_text("dropLabel", key.as_str()),
        Edit::DropAnnotation(key) => out.put_text("dropAnnotation", key.as_str()),
        Edit::SetLabel { key, value } => out.put("setLabel", &Label { key, value }),
        Edit::SetAnnotation { key, value } => out.put("setAnnotation", &Label { key, value }),
        Edit::SetVolumeName(name) => out.put_text("setVolumeName", name.as_str()),
        Edit::SetPolicy(policy) => out.put_text("setPolicy", policy.name()),
        Edit::SetClaimRef { namespace, name } => {
            out.put("setClaimRef", &ClaimName { namespace, name })
        }
        Edit::ClearClaimRef => out.put("clearClaimRef", &true),
    }
}

#[tactic(auto, unfolding(json_text::specs::Members::with_option))]
fn put_amount(out: &mut MemberTexts, amount: &Option<Amount>) -> Result<(), OutOfMemory>
    ensures ok { OnOk result (out.new
        ≡ with_option with_member_text (codes "amount") (option_map amount_text amount.now) out.old) }
{
    match amount {
        Some(amount) => out.put_text("amount", amount.text.as_str()),
        None => Ok(()),
    }
}

fn put_claim_status(
    out: &mut MemberTexts,
    phase: ClaimPhase,
    modes: &Modes,
    amount: &Option<Amount>,
) -> Result<(), OutOfMemory>
    ensures ok { OnOk result (out.new
        ≡ with_options with_member_text (claim_status_pairs phase modes.now amount.now) out.old) }
{
    out.put_text("phase", phase.name())?;
    out.put("modes", modes)?;
    put_amount(out, amount)
}

fn put_status(out: &mut MemberTexts, status: &NewStatus) -> Result<(), OutOfMemory>
    ensures ok { OnOk result (out.new ≡ with_options with_member_text (status_pairs status.now) out.old) }
{
    match status {
        NewStatus::Volume(phase) => out.put_text("phase", phase.name()),
        NewStatus::Claim {
            phase,
            modes,
            amount,
        } => put_claim_status(out, *phase, modes, amount),
    }
}

/// The word for a request.
pub fn ask_word(request: &Request) -> &'static str
    ensures { result.now ≡ ask_word request.now }
{
    match request {
        Request::Create { object: _ } => "create",
        Request::Update {
            object: _,
            version: _,
        } => "update",
        Request::UpdateStatus {
            key: _,
            status: _,
            version: _,
        } => "status",
        Request::Edit { key: _, edit: _ } => "edit",
        Request::Delete { key: _, uid: _ } => "delete",
        Request::Get { key: _ } => "get",
        Request::List {
            kind: _,
            namespace: _,
        } => "list",
        Request::Watch { kind: _, from: _ } => "watch",
        Request::BindPod {
            key: _,
            uid: _,
            node: _,
        } => "bind",
        Request::FinishPod {
            key: _,
            uid: _,
            node: _,
            epoch: _,
        } => "finish",
        Request::Provision {
            name: _,
            provisioner: _,
            bytes: _,
            labels: _,
        } => "provision",
        Request::Erase { id: _ } => "erase",
        Request::TakeNode { node: _ } => "take",
        Request::Mounts { node: _, epoch: _ } => "mounts",
        Request::Mount {
            node: _,
            epoch: _,
            pod: _,
            claims: _,
        } => "mount",
        Request::Unmount {
            node: _,
            epoch: _,
            pod: _,
        } => "unmount",
        Request::SetTime { at: _ } => "time",
    }
}

fn put_update(
    out: &mut MemberTexts,
    object: &Object,
    version: Option<Version>,
) -> Result<(), OutOfMemory>
    ensures ok { OnOk result (out.new
        ≡ with_options with_member_text (update_pairs object.now version) out.old) }
{
    out.put("object", object)?;
    put_optional(out, "version", &version)
}

fn put_update_status(
    out: &mut MemberTexts,
    key: &Key,
    status: &NewStatus,
    version: Option<Version>,
) -> Result<(), OutOfMemory>
    ensures ok { OnOk result (out.new
        ≡ with_options with_member_text (update_status_pairs key.now status.now version) out.old) }
{
    put_key(out, key)?;
    put_status(out, status)?;
    put_optional(out, "version", &version)
}

fn put_list_ask(
    out: &mut MemberTexts,
    kind: Kind,
    namespace: &Option<Text>,
) -> Result<(), OutOfMemory>
    ensures ok { OnOk result (out.new
        ≡ with_options with_member_text (list_pairs kind namespace.now) out.old) }
{
    out.put_text("kind", kind.name())?;
    put_optional(out, "namespace", namespace)
}

fn put_watch(out: &mut MemberTexts, kind: Kind, from: Version) -> Result<(), OutOfMemory>
    ensures ok { OnOk result (out.new ≡ with_options with_member_text (watch_pairs kind from) out.old) }
{
    out.put_text("kind", kind.name())?;
    out.put("from", &from)
}

fn put_pod_node(out: &mut MemberTexts, uid: Uid, node: &Text) -> Result<(), OutOfMemory>
    ensures ok { OnOk result (out.new ≡ with_options with_member_text (pod_node_pairs uid node.now) out.old) }
{
    out.put("uid", &uid)?;
    out.put_text("node", node.as_str())
}

fn put_bind(out: &mut MemberTexts, key: &Key, uid: Uid, node: &Text) -> Result<(), OutOfMemory>
    ensures ok { OnOk result (out.new
        ≡ with_options with_member_text (bind_pairs key.now uid node.now) out.old) }
{
    put_key(out, key)?;
    put_pod_node(out, uid, node)
}

fn put_provision(
    out: &mut MemberTexts,
    name: &Text,
    provisioner: &Text,
    bytes: u64,
    labels: &Option<Pairs>,
) -> Result<(), OutOfMemory>
    ensures ok { OnOk result (out.new
        ≡ with_options with_member_text (provision_pairs name.now provisioner.now bytes labels.now) out.old) }
{
    out.put_text("name", name.as_str())?;
    out.put_text("provisioner", provisioner.as_str())?;
    out.put("bytes", &bytes)?;
    put_optional(out, "labels", labels)
}

/// The driver and the id of data.
pub(crate) fn put_data_id(out: &mut MemberTexts, id: &DataId) -> Result<(), OutOfMemory>
    ensures ok { OnOk result (out.new ≡ with_options with_member_text (data_id_pairs id.now) out.old) }
{
    out.put_text("driver", id.driver.as_str())?;
    out.put_text("id", id.id.as_str())
}

fn put_node_epoch(out: &mut MemberTexts, node: &Text, epoch: u64) -> Result<(), OutOfMemory>
    ensures ok { OnOk result (out.new
        ≡ with_options with_member_text (node_epoch_pairs node.now epoch) out.old) }
{
    out.put_text("node", node.as_str())?;
    out.put("epoch", &epoch)
}

fn put_unmount(out: &mut MemberTexts, node: &Text, epoch: u64, pod: Uid) -> Result<(), OutOfMemory>
    ensures ok { OnOk result (out.new
        ≡ with_options with_member_text (unmount_pairs node.now epoch pod) out.old) }
{
    put_node_epoch(out, node, epoch)?;
    out.put("pod", &pod)
}

/// The members of a request but for its word.
pub fn put_arguments(out: &mut MemberTexts, request: &Request) -> Result<(), OutOfMemory>
    ensures ok { OnOk result (out.new ≡ with_options with_member_text (argument_pairs request.now) out.old) }
{
    match request {
        Request::Create { object } => out.put("object", object),
        Request::Update { object, version } => put_update(out, object, *version),
        Request::UpdateStatus {
            key,
            status,
            version,
        } => put_update_status(out, key, status, *version),
        Request::Edit { key, edit } => {
            put_key(out, key)?;
            put_edit(out, edit)
        }
        Request::Delete { key, uid } => {
            put_key(out, key)?;
            put_optional(out, "uid", uid)
        }
        Request::Get { key } => put_key(out, key),
        Request::List { kind, namespace } => put_list_ask(out, *kind, namespace),
        Request::Watch { kind, from } => put_watch(out, *kind, *from),
        Request::BindPod { key, uid, node } => put_bind(out, key, *uid, node),
        Request::FinishPod {
            key,
            uid,
            node,
            epoch,
        } => {
            put_bind(out, key, *uid, node)?;
            out.put("epoch", epoch)
        }
        Request::Provision {
            name,
            provisioner,
            bytes,
            labels,
        } => put_provision(out, name, provisioner, *bytes, labels),
        Request::Erase { id } => put_data_id(out, id),
        Request::TakeNode { node } => out.put_text("node", node.as_str()),
        Request::Mounts { node, epoch } => put_node_epoch(out, node, *epoch),
        Request::Mount {
            node,
            epoch,
            pod,
            claims,
        } => {
            put_unmount(out, node, *epoch, *pod)?;
            out.put_list("claims", claims.as_slice())
        }
        Request::Unmount { node, epoch, pod } => put_unmount(out, node, *epoch, *pod),
        Request::SetTime { at } => out.put_text("at", at.as_str()),
    }
}

/// Puts a request at the end.
#[tactic(auto, using(crate::proofs::Closings::closes_request))]
pub fn write_request(out: &mut JsonText, request: &Request) -> Result<(), OutOfMemory>
    ensures ok { OnOk result (written out.new ≡ with_value (request_data request.now) (written out.old)) }
{
    let mut members = MemberTexts::new(out.allocator());
    members.put_text("do", ask_word(request))?;
    put_arguments(&mut members, request)?;
    members.write(out)
}
