//! Storage classes, nodes and pods as JSON.

ghost use Rattle.std.specs.Prelude.{◌≡◌, [], false, OnOk, codes};
ghost use Rattle.serde_json.specs.Data.{string};
ghost use Rattle.json_text.specs.Members.{within, filled_object, extra_members, with_options};
ghost use Rattle.json_text.specs.Writing.{written, with_some, with_value};
ghost use Rattle.object_print.specs.Metadata.{head_pairs};
ghost use Rattle.object_print.specs.Objects.{class_back, class_data, node_spec, pod_spec};

use crate::members::{AsJson, MemberSink, put_filled, put_filled_pairs};
use crate::metadata::put_head;
use json_text::member_texts::MemberTexts;
use json_text::writing::JsonText;
use kube_types::copies::OutOfMemory;
use kube_types::objects::{Class, Node, Pod};
use kube_types::words::binding_mode;

fn put_class_head<S: MemberSink>(out: &mut S, class: &Class) -> Result<(), OutOfMemory>
    ensures ok { OnOk result (S.state out.new
        ≡ with_options S.with_member (head_pairs (codes "storage.k8s.io/v1") (codes "StorageClass") false class.now.meta) (S.state out.old)) }
{
    put_head(out, "storage.k8s.io/v1", "StorageClass", false, &class.meta)
}

fn put_class_back<S: MemberSink>(out: &mut S, class: &Class) -> Result<(), OutOfMemory>
    ensures ok { OnOk result (S.state out.new
        ≡ with_options S.with_member (class_back class.now) (S.state out.old)) }
{
    put_filled_pairs(out, "parameters", &class.parameters)?;
    out.put_text("provisioner", class.provisioner.as_str())?;
    out.put_text("reclaimPolicy", class.policy.name())?;
    out.put_text("volumeBindingMode", binding_mode(class.delayed))
}

#[tactic(auto, using(crate::proofs::ClosingOthers::closes_class))]
fn write_plain_class(out: &mut JsonText, class: &Class) -> Result<(), OutOfMemory>
    requires { class.now.extra ≡ [] }
    ensures ok { OnOk result (written out.new ≡ with_value (class_data class.now) (written out.old)) }
{
    out.begin_object()?;
    put_class_head(out, class)?;
    put_class_back(out, class)?;
    out.end_object()
}

/// Over the members that are kept.
#[tactic(auto, using(crate::proofs::ClosingOthers::closes_full_class))]
fn write_full_class(out: &mut JsonText, class: &Class) -> Result<(), OutOfMemory>
    ensures ok { OnOk result (written out.new ≡ with_value (class_data class.now) (written out.old)) }
{
    let mut members = MemberTexts::kept(out.allocator(), class.extra.as_str())?;
    put_class_head(&mut members, class)?;
    put_class_back(&mut members, class)?;
    members.write(out)
}

impl AsJson for Class {
    ghost use Rattle.object_print.specs.Objects.{class_data};

    ghost json = { class_data };

    fn write(&self, out: &mut JsonText) -> Result<(), OutOfMemory> {
        if self.extra.as_str().is_empty() {
            write_plain_class(out, self)
        } else {
            write_full_class(out, self)
        }
    }
}

#[tactic(auto, using(json_text::proofs::Closing::closes_within))]
fn write_node_name(out: &mut JsonText, node: &str) -> Result<(), OutOfMemory>
    ensures ok { OnOk result (written out.new ≡ with_value (within (codes "nodeName") (string node.now)) (written out.old)) }
{
    out.begin_object()?;
    out.put_text("nodeName", node)?;
    out.end_object()
}

/// The spec of a pod that keeps no members, left out where it runs on no node.
#[tactic(auto, unfolding(json_text::specs::Members::with_option))]
fn put_node_name(out: &mut JsonText, node: &str) -> Result<(), OutOfMemory>
    ensures ok { OnOk result (written out.new
        ≡ with_some (codes "spec") (node_spec node.now) (written out.old)) }
{
    if node.is_empty() {
        return Ok(());
    }
    out.key("spec")?;
    write_node_name(out, node)
}

#[tactic(auto, using(crate::proofs::ClosingOthers::plain_pod_spec))]
fn put_plain_pod_spec(out: &mut JsonText, pod: &Pod) -> Result<(), OutOfMemory>
    requires { pod.now.extra ≡ [] }
    ensures ok { OnOk result (written out.new
        ≡ with_some (codes "spec") (filled_object (pod_spec pod.now)) (written out.old)) }
{
    put_node_name(out, pod.node.as_str())
}

/// Over the members that are kept.
#[tactic(auto, using(crate::proofs::ClosingOthers::full_pod_spec))]
fn put_full_pod_spec(out: &mut JsonText, pod: &Pod) -> Result<(), OutOfMemory>
    ensures ok { OnOk result (written out.new
        ≡ with_some (codes "spec") (filled_object (pod_spec pod.now)) (written out.old)) }
{
    let mut members = MemberTexts::kept(out.allocator(), pod.extra.as_str())?;
    put_filled(&mut members, "nodeName", pod.node.as_str())?;
    members.write_filled(out, "spec")
}

fn put_pod_spec(out: &mut JsonText, pod: &Pod) -> Result<(), OutOfMemory>
    ensures ok { OnOk result (written out.new
        ≡ with_some (codes "spec") (filled_object (pod_spec pod.now)) (written out.old)) }
{
    if pod.extra.as_str().is_empty() {
        put_plain_pod_spec(out, pod)
    } else {
        put_full_pod_spec(out, pod)
    }
}

impl AsJson for Pod {
    ghost use Rattle.object_print.specs.Objects.{pod_data};

    ghost json = { pod_data };

    #[tactic(auto, using(crate::proofs::ClosingOthers::closes_pod))]
    fn write(&self, out: &mut JsonText) -> Result<(), OutOfMemory> {
        out.begin_object()?;
        put_head(out, "v1", "Pod", true, &self.meta)?;
        put_pod_spec(out, self)?;
        out.end_object()
    }
}

#[tactic(auto, using(crate::proofs::ClosingOthers::no_node_spec))]
fn put_no_spec(out: &mut JsonText, node: &Node) -> Result<(), OutOfMemory>
    requires { node.now.extra ≡ [] }
    ensures ok { OnOk result (written out.new
        ≡ with_some (codes "spec") (filled_object (extra_members node.now.extra)) (written out.old)) }
{
    Ok(())
}

#[tactic(auto, using(crate::proofs::ClosingOthers::kept_node_spec))]
fn put_kept_spec(out: &mut JsonText, node: &Node) -> Result<(), OutOfMemory>
    ensures ok { OnOk result (written out.new
        ≡ with_some (codes "spec") (filled_object (extra_members node.now.extra)) (written out.old)) }
{
    let members = MemberTexts::kept(out.allocator(), node.extra.as_str())?;
    members.write_filled(out, "spec")
}

/// The spec of a node is what is kept, left out where that has no member.
fn put_node_spec(out: &mut JsonText, node: &Node) -> Result<(), OutOfMemory>
    ensures ok { OnOk result (written out.new
        ≡ with_some (codes "spec") (filled_object (extra_members node.now.extra)) (written out.old)) }
{
    if node.extra.as_str().is_empty() {
        put_no_spec(out, node)
    } else {
        put_kept_spec(out, node)
    }
}

impl AsJson for Node {
    ghost use Rattle.object_print.specs.Objects.{node_data};

    ghost json = { node_data };

    #[tactic(auto, using(crate::proofs::ClosingOthers::closes_node))]
    fn write(&self, out: &mut JsonText) -> Result<(), OutOfMemory> {
        out.begin_object()?;
        put_head(out, "v1", "Node", false, &self.meta)?;
        put_node_spec(out, self)?;
        out.end_object()
    }
}
