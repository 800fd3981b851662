//! The members that are kept as they are.

ghost use Rattle.std.specs.Prelude.{◌≡◌, IfOk, map, option_map};
ghost use Rattle.serde_json.specs.View.{view};
ghost use Rattle.object_text.specs.ExtraMembers.{is_volume_member, is_claim_member, is_class_member, is_listed_member, extra_at};
ghost use Rattle.object_text.specs.Steps.Among.{is_one_of};
ghost use Rattle.object_text.specs.Steps.Whole.{IsWholePlace};

use json_text::others::{KnownNames, others_text};
use kube_types::copies::OutOfMemory;
use kube_types::parts::SourceKind;
use kube_types::text::Text;
use serde_json::Value;
use std::alloc::Global;

/// Of which object the members are known: those of a class itself, and of the spec of the others.
#[derive(Clone, Copy)]
pub enum Listed {
    /// With the source that counts.
    Volume(SourceKind),
    Claim,
    Class,
    Pod,
    Node,
}

/// Whether the name is one of these, or the last.
fn is_one_of(name: &str, names: &[&str], last: &str) -> bool
    ensures { result ≡ is_one_of name.now (map (λ n. n.now) names.now) last.now }
{
    for one in names {
        if name == *one {
            return true;
        }
    }
    name == last
}

fn is_volume_member(kind: SourceKind, name: &str) -> bool
    ensures { result ≡ is_volume_member kind name.now }
{
    let names = [
        "capacity",
        "accessModes",
        "volumeMode",
        "storageClassName",
        "persistentVolumeReclaimPolicy",
        "claimRef",
        "nodeAffinity",
    ];
    is_one_of(name, &names, kind.name())
}

fn is_claim_member(name: &str) -> bool
    ensures { result ≡ is_claim_member name.now }
{
    let names = [
        "accessModes",
        "volumeMode",
        "resources",
        "storageClassName",
        "selector",
    ];
    is_one_of(name, &names, "volumeName")
}

fn is_class_member(name: &str) -> bool
    ensures { result ≡ is_class_member name.now }
{
    let names = [
        "kind",
        "apiVersion",
        "metadata",
        "provisioner",
        "reclaimPolicy",
        "volumeBindingMode",
    ];
    is_one_of(name, &names, "parameters")
}

impl KnownNames for Listed {
    ghost use Rattle.object_text.specs.ExtraMembers.{is_listed_member};

    ghost known = { is_listed_member };

    fn is_known(&self, name: &str) -> bool {
        match *self {
            Listed::Volume(kind) => is_volume_member(kind, name),
            Listed::Claim => is_claim_member(name),
            Listed::Class => is_class_member(name),
            Listed::Pod => name == "nodeName",
            Listed::Node => false,
        }
    }
}

/// The text of the members that are not listed, empty where there are none.
#[tactic(auto, unfolding(crate::specs::ExtraMembers::extra_at))]
pub fn extra_at(alloc: Global, listed: Listed, place: Option<&Value>) -> Result<Text, OutOfMemory>
    requires { IsWholePlace (option_map (λ v. view v.now) place) }
    ensures { IfOk result (λ t. t ≡ extra_at listed (option_map (λ v. view v.now) place.entry)) }
{
    match place {
        Some(value) => others_text(alloc, &listed, value),
        None => Text::new(alloc, ""),
    }
}
