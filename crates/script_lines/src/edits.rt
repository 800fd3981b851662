//! The edit of a line.

ghost use Rattle.std.specs.Prelude.{◌≡◌, option_map, filter};
ghost use Rattle.object_text.specs.declared.errors.Member.TheVariants as manifests;
ghost use Rattle.script_lines.specs.declared.line_member.LineMember.TheVariants as members;
ghost use Rattle.serde_json.specs.View.{view};
ghost use Rattle.kube_parts.specs.Named.{policy_named};
ghost use Rattle.script_lines.specs.Answers.{MemberGives};
ghost use Rattle.script_lines.specs.Members.{edit_member, stands, the_one, edit_member_at, two_texts_in, policy_from, cleared, edit_of, edit_from, edit_at};

use crate::edit_members::EditMember;
use crate::errors::{LineError, Reason};
use crate::line_member::LineMember;
use crate::members::{at, object_of, text_at, text_of, word_of};
use call_types::edit::Edit;
use json_text::floats::holds_float;
use kube_types::parts::Policy;
use kube_types::text::Text;
use object_text::errors::Member;
use serde_json::Value;
use std::alloc::Global;

const ALL_EDITS: [EditMember; 10] = [
    EditMember::AddFinalizer,
    EditMember::DropFinalizer,
    EditMember::DropLabel,
    EditMember::DropAnnotation,
    EditMember::SetLabel,
    EditMember::SetAnnotation,
    EditMember::SetVolumeName,
    EditMember::SetPolicy,
    EditMember::SetClaimRef,
    EditMember::ClearClaimRef,
];

fn stands(line: &Value, edit: EditMember) -> bool
    ensures { result ≡ stands (view line.now) edit }
{
    at(line, edit.member()).is_some()
}

fn edit_member_among(line: &Value, edits: &[EditMember]) -> Result<EditMember, LineError>
    ensures { MemberGives result (the_one (filter (stands (view line.now)) edits.now)) }
{
    let mut found: Option<EditMember> = None;
    for edit in edits {
        if stands(line, *edit) {
            if found.is_some() {
                return Err(LineError::Refused(Reason::BadValue(LineMember::Edit)));
            }
            found = Some(*edit);
        }
    }
    match found {
        Some(edit) => Ok(edit),
        None => Err(LineError::Refused(Reason::BadValue(LineMember::Edit))),
    }
}

fn edit_member_at(line: &Value) -> Result<EditMember, LineError>
    ensures { MemberGives result (edit_member_at (view line.now)) }
{
    edit_member_among(line, &ALL_EDITS)
}

#[tactic(auto, unfolding(crate::specs::Members::two_texts_in))]
fn two_texts_in(
    alloc: Global,
    value: &Value,
    member: LineMember,
    one: LineMember,
    two: LineMember,
) -> Result<(Text, Text), LineError>
    ensures { MemberGives result (two_texts_in member one two (view value.now)) }
{
    let object = object_of(value, member)?;
    let first = text_at(alloc, object, one)?;
    let second = text_at(alloc, object, two)?;
    if holds_float(object) {
        return Err(LineError::Refused(Reason::NotWhole));
    }
    Ok((first, second))
}

fn policy_named(word: &str) -> Result<Edit, LineError>
    ensures { MemberGives result (policy_from (policy_named word.now)) }
{
    match Policy::named(word) {
        Some(policy) => Ok(Edit::SetPolicy(policy)),
        None => Err(LineError::Refused(Reason::WrongType(LineMember::SetPolicy))),
    }
}

fn cleared(value: &Value) -> Result<Edit, LineError>
    ensures { MemberGives result (cleared (view value.now)) }
{
    match value {
        Value::Bool(true) => Ok(Edit::ClearClaimRef),
        _ => Err(LineError::Refused(Reason::WrongType(LineMember::ClearClaimRef))),
    }
}

fn label_in(alloc: Global, value: &Value, edit: EditMember) -> Result<(Text, Text), LineError>
    ensures { MemberGives result (two_texts_in (edit_member edit) (members.Of manifests.Key) members.Value (view value.now)) }
{
    two_texts_in(
        alloc,
        value,
        edit.member(),
        LineMember::Of(Member::Key),
        LineMember::Value,
    )
}

fn claim_in(alloc: Global, value: &Value) -> Result<(Text, Text), LineError>
    ensures { MemberGives result (two_texts_in members.SetClaimRef (members.Of manifests.Namespace) (members.Of manifests.Name) (view value.now)) }
{
    two_texts_in(
        alloc,
        value,
        LineMember::SetClaimRef,
        LineMember::Of(Member::Namespace),
        LineMember::Of(Member::Name),
    )
}

/// The edit that the value of an edit member is.
fn edit_of(alloc: Global, edit: EditMember, value: &Value) -> Result<Edit, LineError>
    ensures { MemberGives result (edit_of edit (view value.now)) }
{
    match edit {
        EditMember::AddFinalizer => Ok(Edit::AddFinalizer(text_of(
            alloc,
            value,
            LineMember::AddFinalizer,
        )?)),
        EditMember::DropFinalizer => Ok(Edit::DropFinalizer(text_of(
            alloc,
            value,
            LineMember::DropFinalizer,
        )?)),
        EditMember::DropLabel => Ok(Edit::DropLabel(text_of(alloc, value, LineMember::DropLabel)?)),
        EditMember::DropAnnotation => Ok(Edit::DropAnnotation(text_of(
            alloc,
            value,
            LineMember::DropAnnotation,
        )?)),
        EditMember::SetLabel => {
            let (key, value) = label_in(alloc, value, edit)?;
            Ok(Edit::SetLabel { key, value })
        }
        EditMember::SetAnnotation => {
            let (key, value) = label_in(alloc, value, edit)?;
            Ok(Edit::SetAnnotation { key, value })
        }
        EditMember::SetVolumeName => Ok(Edit::SetVolumeName(text_of(
            alloc,
            value,
            LineMember::SetVolumeName,
        )?)),
        EditMember::SetPolicy => policy_named(word_of(value, LineMember::SetPolicy)?),
        EditMember::SetClaimRef => {
            let (namespace, name) = claim_in(alloc, value)?;
            Ok(Edit::SetClaimRef { namespace, name })
        }
        EditMember::ClearClaimRef => cleared(value),
    }
}

fn edit_from(alloc: Global, edit: EditMember, value: Option<&Value>) -> Result<Edit, LineError>
    ensures { MemberGives result (edit_from edit (option_map (λ v. view v.now) value.entry)) }
{
    match value {
        None => Err(LineError::Refused(Reason::BadValue(LineMember::Edit))),
        Some(value) => edit_of(alloc, edit, value),
    }
}

/// The edit of a line: of the one edit member that stands in it.
#[tactic(auto, unfolding(crate::specs::Members::edit_at))]
pub fn edit_at(alloc: Global, line: &Value) -> Result<Edit, LineError>
    ensures { MemberGives result (edit_at (view line.now)) }
{
    let edit = edit_member_at(line)?;
    edit_from(alloc, edit, at(line, edit.member()))
}
