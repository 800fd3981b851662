//! What each line of the side means, by its members.

ghost use Rattle.std.specs.Prelude.{◌≡◌, true};
ghost use Rattle.serde_json.specs.View.{view};
ghost use Rattle.json_text.specs.Trees.{tree_data};
ghost use Rattle.object_text.specs.Reading.{value_of};
ghost use Rattle.script_lines.specs.Answers.{MemberGives, MemberGivesBy, taken_in_line};
ghost use Rattle.script_lines.specs.Members.{namespace_at};
ghost use Rattle.script_text.specs.Grammar.{line_value};
ghost use Rattle.extended_text.specs.Sides.{grow_line, has_quota, quota_line, reserve_line, side_at, side_from, side_in, side_line, side_named};
ghost use Rattle.extended_text.specs.Steps.Read.{side_view};

use crate::progress::SideSaid;
use crate::sides::{SideLine, SideWord, side_named};
use json_text::tree::Tree;
use kube_types::key::Key;
use kube_types::parts::Kind;
use kube_types::text::Text;
use object_text::errors::Member;
use object_text::member_readers::text_or;
use object_text::reading::value_of;
use script_lines::errors::{LineError, Reason};
use script_lines::line_member::LineMember;
use script_lines::members::{claims_at, size_at, text_at, user_at, word_at};
use serde_json::Value;
use side_calls::quotas::Quota;
use std::alloc::Global;

const MOST_LINE_BYTES: usize = 16384;

// ---- which lines are the side's

/// A line of the side: its word, and the object that it is.
pub struct SideText {
    pub word: SideWord,
    pub tree: Tree,
}

impl Drop for SideText {
    fn drop(self) {
        let SideText { word: _, tree } = self;
        drop(tree);
    }
}

#[tactic(auto, using(script_lines::proofs::Taken::taken_fails))]
fn json_of(alloc: Global, line: &[u8]) -> Result<Tree, LineError>
    ensures { MemberGivesBy tree_data result (taken_in_line (value_of line.now)) }
{
    Ok(value_of(alloc, line)?)
}

fn line_value(alloc: Global, line: &[u8]) -> Result<Tree, LineError>
    ensures { MemberGivesBy tree_data result (line_value line.now) }
{
    let tree = json_of(alloc, line)?;
    if tree.value().as_object().is_none() {
        return Err(LineError::Refused(Reason::NotObject));
    }
    Ok(tree)
}

fn side_from(word: Option<SideWord>) -> Result<SideWord, LineError>
    ensures { MemberGives result (side_from word) }
{
    match word {
        Some(word) => Ok(word),
        None => Err(LineError::Refused(Reason::UnknownDo)),
    }
}

fn side_at(value: &Value) -> Result<SideWord, LineError>
    ensures { MemberGives result (side_at (view value.now)) }
{
    let word = word_at(value, LineMember::Do)?;
    side_from(side_named(word))
}

/// The line as one of the side, or why it is none.
#[tactic(auto, unfolding(crate::specs::Sides::side_in))]
pub(crate) fn side_in(alloc: Global, line: &[u8]) -> Result<SideText, LineError>
    ensures { MemberGivesBy side_view result (side_in line.now) }
{
    if line.len() > MOST_LINE_BYTES {
        return Err(LineError::Refused(Reason::TooLong));
    }
    let tree = line_value(alloc, line)?;
    let word = side_at(tree.value())?;
    Ok(SideText { word, tree })
}

// ---- what each means

/// Whether the namespace has a quota among these.
fn has_quota(namespace: &Text, quotas: &[Quota]) -> bool
    ensures { result ≡ has_quota namespace.now quotas.now }
{
    for quota in quotas {
        if quota.namespace.as_str() == namespace.as_str() {
            return true;
        }
    }
    false
}

#[tactic(auto, unfolding(crate::specs::Sides::quota_line))]
fn quota_line(alloc: Global, quotas: &[Quota], line: &Value) -> Result<SideLine, LineError>
    ensures { MemberGives result (quota_line quotas.now (view line.now)) }
{
    let namespace = text_at(alloc, line, LineMember::Of(Member::Namespace))?;
    if has_quota(&namespace, quotas) {
        return Err(LineError::Refused(Reason::BadValue(LineMember::Of(Member::Namespace))));
    }
    let amount = size_at(alloc, line)?;
    let claims = claims_at(line)?;
    Ok(SideLine::Quota(Quota {
        namespace,
        bytes: amount.bytes,
        claims,
    }))
}

#[tactic(auto, unfolding(crate::specs::Sides::reserve_line))]
fn reserve_line(alloc: Global, reserve: Option<u64>, line: &Value) -> Result<SideLine, LineError>
    ensures { MemberGives result (reserve_line reserve (view line.now)) }
{
    let amount = size_at(alloc, line)?;
    if reserve.is_some() {
        return Err(LineError::Refused(Reason::BadValue(LineMember::Do)));
    }
    Ok(SideLine::Reserve {
        bytes: amount.bytes,
    })
}

#[tactic(auto, using(script_lines::proofs::Taken::taken_fails))]
fn namespace_at(alloc: Global, line: &Value) -> Result<Text, LineError>
    ensures { MemberGives result (namespace_at true (view line.now)) }
{
    Ok(text_or(alloc, Some(line), Member::Namespace, "default")?)
}

#[tactic(auto, unfolding(crate::specs::Sides::grow_line))]
fn grow_line(alloc: Global, line: &Value) -> Result<SideLine, LineError>
    ensures { MemberGives result (grow_line (view line.now)) }
{
    let namespace = namespace_at(alloc, line)?;
    let name = text_at(alloc, line, LineMember::Of(Member::Name))?;
    let amount = size_at(alloc, line)?;
    let user = user_at(line)?;
    Ok(SideLine::Grow {
        user,
        key: Key {
            kind: Kind::PersistentVolumeClaim,
            namespace,
            name,
        },
        bytes: amount.bytes,
    })
}

/// What a line with this word means, after what was said before.
pub(crate) fn side_line(
    alloc: Global,
    word: SideWord,
    said: &SideSaid,
    line: &Value,
) -> Result<SideLine, LineError>
    ensures { MemberGives result (side_line word said.now (view line.now)) }
{
    match word {
        SideWord::Quota => quota_line(alloc, said.quotas.as_slice(), line),
        SideWord::Reserve => reserve_line(alloc, said.reserve, line),
        SideWord::Grow => grow_line(alloc, line),
    }
}
