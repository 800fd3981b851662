//! Lines of the words of the formats: which words.

use crate::words::word;
use kube_types::names::{Due, Field, LicenceRule, Rule};
use plain_data::copies::OutOfMemory;
use plain_data::text::Text;
use std::alloc::Global;

const FIELDS: [Field; 22] = [
    Field::Name,
    Field::Namespace,
    Field::Capacity,
    Field::Request,
    Field::AccessModes,
    Field::ClaimRef,
    Field::Provisioner,
    Field::NodeName,
    Field::Claims,
    Field::Finalizers,
    Field::Time,
    Field::Kind,
    Field::From,
    Field::Spec,
    Field::VolumeName,
    Field::Source,
    Field::VolumeMode,
    Field::NodeAffinity,
    Field::Parameters,
    Field::Policy,
    Field::BindingMode,
    Field::Deletion,
];

const RULES: [Rule; 5] = [
    Rule::Verb,
    Rule::Annotation,
    Rule::Finalizer,
    Rule::ClaimRef,
    Rule::Policy,
];

const LICENCES: [LicenceRule; 23] = [
    LicenceRule::ClaimRef,
    LicenceRule::PhaseBound,
    LicenceRule::Completion,
    LicenceRule::DefaultClass,
    LicenceRule::Available,
    LicenceRule::Released,
    LicenceRule::Failed,
    LicenceRule::Unbind,
    LicenceRule::DropVolumeGuard,
    LicenceRule::DropClaimGuard,
    LicenceRule::AddGuard,
    LicenceRule::Provision,
    LicenceRule::CreateVolume,
    LicenceRule::Erase,
    LicenceRule::DeleteVolume,
    LicenceRule::Lost,
    LicenceRule::ClaimStatus,
    LicenceRule::SelectedNode,
    LicenceRule::BindPod,
    LicenceRule::Mount,
    LicenceRule::FinishPod,
    LicenceRule::Reading,
    LicenceRule::Kind,
];

const DUES: [Due; 16] = [
    Due::Available,
    Due::Bound,
    Due::Release,
    Due::Unbind,
    Due::Reclaim,
    Due::Guard,
    Due::Unguard,
    Due::Bind,
    Due::AssignClass,
    Due::Lost,
    Due::Provision,
    Due::ClearNode,
    Due::Prepare,
    Due::Assign,
    Due::Mount,
    Due::Finish,
];

fn add(line: &mut Text, name: &str) -> Result<(), OutOfMemory> {
    line.push_str(" ")?;
    line.push_str(name)
}

fn fields(alloc: Global) -> Result<String, OutOfMemory> {
    let mut line = Text::new(alloc, "of")?;
    for field in &FIELDS {
        add(&mut line, field.name())?;
    }
    word(alloc, line.as_str())
}

fn rules(alloc: Global) -> Result<String, OutOfMemory> {
    let mut line = Text::new(alloc, "of")?;
    for rule in &RULES {
        add(&mut line, rule.name())?;
    }
    word(alloc, line.as_str())
}

fn licences(alloc: Global) -> Result<String, OutOfMemory> {
    let mut line = Text::new(alloc, "of")?;
    for rule in &LICENCES {
        add(&mut line, rule.name())?;
    }
    word(alloc, line.as_str())
}

fn dues(alloc: Global) -> Result<String, OutOfMemory> {
    let mut line = Text::new(alloc, "of")?;
    for due in &DUES {
        add(&mut line, due.name())?;
    }
    word(alloc, line.as_str())
}

/// The names of the fields, the guard's rules, the licence's rules or what is due.
pub fn answer(alloc: Global, of: &str) -> Result<String, OutOfMemory> {
    match of {
        "fields" => fields(alloc),
        "rules" => rules(alloc),
        "licences" => licences(alloc),
        _ => dues(alloc),
    }
}
