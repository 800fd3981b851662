//! The edit that a request has.

ghost use Rattle.serde_json.specs.View.{view};
ghost use Rattle.history_lines.specs.Answers.{PartGives};
ghost use Rattle.history_lines.specs.Members.{look_in};
ghost use Rattle.history_lines.specs.Requests.{two_texts_in, two_texts_at, policy_at, edit_by, edit_at};

use crate::errors::Unread;
use crate::members::{found, member_at, standing, text_at, word_at};
use crate::words::{ALL_EDITS, EditWord};
use call_types::edit::Edit;
use kube_types::parts::Policy;
use kube_types::text::Text;
use serde_json::Value;
use std::alloc::Global;

fn two_texts_in(
    alloc: Global,
    value: &Value,
    first: &str,
    second: &str,
) -> Result<(Text, Text), Unread>
    ensures { PartGives result (two_texts_in first.now second.now (look_in (view value.now))) }
{
    let one = text_at(alloc, value, first)?;
    let two = text_at(alloc, value, second)?;
    Ok((one, two))
}

fn two_texts_at(
    alloc: Global,
    value: &Value,
    name: &str,
    first: &str,
    second: &str,
) -> Result<(Text, Text), Unread>
    ensures { PartGives result (two_texts_at name.now first.now second.now (look_in (view value.now))) }
{
    two_texts_in(alloc, member_at(value, name)?, first, second)
}

fn policy_at(value: &Value) -> Result<Policy, Unread>
    ensures { PartGives result (policy_at (look_in (view value.now))) }
{
    let word = word_at(value, "setPolicy")?;
    found(Policy::named(word))
}

/// The edit of the member that stands.
fn edit_by(alloc: Global, word: EditWord, value: &Value) -> Result<Edit, Unread>
    ensures { PartGives result (edit_by word (look_in (view value.now))) }
{
    match word {
        EditWord::AddFinalizer => Ok(Edit::AddFinalizer(text_at(alloc, value, "addFinalizer")?)),
        EditWord::DropFinalizer => Ok(Edit::DropFinalizer(text_at(alloc, value, "dropFinalizer")?)),
        EditWord::DropLabel => Ok(Edit::DropLabel(text_at(alloc, value, "dropLabel")?)),
        EditWord::DropAnnotation => Ok(Edit::DropAnnotation(text_at(
            alloc,
            value,
            "dropAnnotation",
        )?)),
        EditWord::SetLabel => {
            let (key, value) = two_texts_at(alloc, value, "setLabel", "key", "value")?;
            Ok(Edit::SetLabel { key, value })
        }
        EditWord::SetAnnotation => {
            let (key, value) = two_texts_at(alloc, value, "setAnnotation", "key", "value")?;
            Ok(Edit::SetAnnotation { key, value })
        }
        EditWord::SetVolumeName => Ok(Edit::SetVolumeName(text_at(alloc, value, "setVolumeName")?)),
        EditWord::SetPolicy => Ok(Edit::SetPolicy(policy_at(value)?)),
        EditWord::SetClaimRef => {
            let (namespace, name) = two_texts_at(alloc, value, "setClaimRef", "namespace", "name")?;
            Ok(Edit::SetClaimRef { namespace, name })
        }
        EditWord::ClearClaimRef => Ok(Edit::ClearClaimRef),
    }
}

/// The edit of a request, by the first edit member that stands.
pub fn edit_at(alloc: Global, value: &Value) -> Result<Edit, Unread>
    ensures { PartGives result (edit_at (look_in (view value.now))) }
{
    let word = standing(&ALL_EDITS, value)?;
    edit_by(alloc, word, value)
}
