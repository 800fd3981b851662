//! The entry of a line.

ghost use Rattle.serde_json.specs.View.{view};
ghost use Rattle.json_text.specs.Trees.{tree_data};
ghost use Rattle.object_text.specs.Reading.{value_of};
ghost use Rattle.history_text.specs.Entries.{entry_line};
ghost use Rattle.history_lines.specs.Answers.{PartGives, PartGivesBy, taken};
ghost use Rattle.history_lines.specs.Entries.{asked_at, seat_kind_at, replied_at, entry_in, printed_as, entry_of};
ghost use Rattle.history_lines.specs.Members.{look_in};

use crate::errors::Unread;
use crate::members::{flag_at, found, member_at, number_at, word_at};
use crate::replies::reply_in;
use crate::requests::request_in;
use crate::words::seat_named;
use call_types::entry::Entry;
use call_types::reply::Reply;
use call_types::request::{Request, SeatKind};
use history_text::entries::print_beside;
use json_text::tree::Tree;
use object_text::reading::value_of;
use piece_print::recent::Recent;
use serde_json::Value;
use std::alloc::Global;

/// The value of a line: JSON in UTF-8.
#[tactic(auto, using(crate::proofs::Taken::taken_fails))]
pub(crate) fn json_of(alloc: Global, line: &[u8]) -> Result<Tree, Unread>
    ensures { PartGivesBy tree_data result (taken (value_of line.now)) }
{
    Ok(value_of(alloc, line)?)
}

fn asked_at(alloc: Global, value: &Value) -> Result<Request, Unread>
    ensures { PartGives result (asked_at (look_in (view value.now))) }
{
    request_in(alloc, member_at(value, "ask")?)
}

fn seat_kind_at(value: &Value) -> Result<SeatKind, Unread>
    ensures { PartGives result (seat_kind_at (look_in (view value.now))) }
{
    let word = word_at(value, "kind")?;
    found(seat_named(word))
}

fn replied_at(alloc: Global, value: &Value) -> Result<Reply, Unread>
    ensures { PartGives result (replied_at (look_in (view value.now))) }
{
    reply_in(alloc, member_at(value, "reply")?)
}

/// The entry that a value gives.
#[tactic(auto, unfolding(crate::specs::Entries::entry_in))]
pub fn entry_in(alloc: Global, value: &Value) -> Result<Entry, Unread>
    ensures { PartGives result (entry_in (view value.now)) }
{
    let request = asked_at(alloc, value)?;
    let kind = seat_kind_at(value)?;
    let reply = replied_at(alloc, value)?;
    let seat = number_at(value, "seat")?;
    let told = flag_at(value, "told")?;
    Ok(Entry {
        seat,
        kind,
        request,
        reply,
        told,
    })
}

fn printed_as(
    alloc: Global,
    recent: &mut Recent,
    line: &[u8],
    entry: Entry,
) -> Result<Entry, Unread>
    ensures { PartGives result (printed_as entry_line line.now entry) }
{
    let printed = print_beside(alloc, recent, &entry)?;
    if printed.as_slice() == line {
        Ok(entry)
    } else {
        Err(Unread::NotCanonical)
    }
}

/// The entry of a line: the one whose printed line it is. Objects that were printed lately are not printed again.
#[tactic(auto, unfolding(crate::specs::Entries::entry_of))]
pub fn entry_of(alloc: Global, recent: &mut Recent, line: &[u8]) -> Result<Entry, Unread>
    ensures { PartGives result (entry_of line.now) }
{
    let tree = json_of(alloc, line)?;
    let entry = entry_in(alloc, tree.value())?;
    printed_as(alloc, recent, line, entry)
}
