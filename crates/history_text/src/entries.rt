//! The lines of entries.

ghost use Rattle.std.specs.Prelude.{◌≡◌, Some, OnOk, IfOk, codes};
ghost use Rattle.json_text.specs.Writing.{with_some, with_value};
ghost use Rattle.piece_print.specs.Writing.{whole};
ghost use Rattle.history_text.specs.Requests.{request_data};
ghost use Rattle.history_text.specs.Replies.{reply_data};
ghost use Rattle.history_text.specs.Entries.{entry_data, entry_line};

use crate::asks::write_request;
use crate::replies::write_reply;
use call_types::entry::Entry;
use call_types::reply::Reply;
use call_types::request::Request;
use kube_types::copies::OutOfMemory;
use kube_types::text::Bytes;
use kube_types::words::Worded;
use object_print::members::MemberSink;
use piece_print::recent::Recent;
use piece_print::writing::JsonPieces;
use std::alloc::Global;
use std::mem::replace;

#[tactic(auto, using(piece_print::proofs::Behind::value_behind), unfolding(json_text::specs::Members::with_option))]
fn put_ask(out: &mut JsonPieces<'_>, request: &Request) -> Result<(), OutOfMemory>
    ensures ok { OnOk result (whole out.new ≡ with_some (codes "ask") (Some (request_data request.now)) (whole out.old)) }
{
    out.key("ask")?;
    write_request(&mut out.tail, request)
}

#[tactic(auto, unfolding(json_text::specs::Members::with_option))]
fn put_reply<'a>(out: &mut JsonPieces<'a>, reply: &'a Reply) -> Result<(), OutOfMemory>
    ensures ok { OnOk result (whole out.new ≡ with_some (codes "reply") (Some (reply_data reply.now)) (whole out.old)) }
{
    out.key("reply")?;
    write_reply(out, reply)
}

/// Puts an entry at the end.
#[tactic(auto, using(crate::proofs::Closings::closes_entry))]
pub fn write_entry<'a>(out: &mut JsonPieces<'a>, entry: &'a Entry) -> Result<(), OutOfMemory>
    ensures ok { OnOk result (whole out.new ≡ with_value (entry_data entry.now) (whole out.old)) }
{
    out.begin_object()?;
    put_ask(out, &entry.request)?;
    out.put_text("kind", entry.kind.word())?;
    put_reply(out, &entry.reply)?;
    out.put("seat", &entry.seat)?;
    out.put("told", &entry.told)?;
    out.end_object()
}

/// The line of an entry, without a line feed.
pub fn print_entry(alloc: Global, entry: &Entry) -> Result<Bytes, OutOfMemory>
    ensures { IfOk result (λ b. b ≡ entry_line entry.now) }
{
    let mut recent = Recent::none(alloc);
    print_beside(alloc, &mut recent, entry)
}

/// The same, where objects that were printed lately are not printed again.
#[tactic(auto, using(json_text::proofs::Closing::alone), unfolding(crate::specs::Entries::entry_line))]
pub fn print_beside(alloc: Global, recent: &mut Recent, entry: &Entry) -> Result<Bytes, OutOfMemory>
    ensures { IfOk result (λ b. b ≡ entry_line entry.now) }
{
    let mut out = JsonPieces::beside(alloc, replace(recent, Recent::none(alloc)));
    write_entry(&mut out, entry)?;
    let (bytes, printed) = out.into_both()?;
    *recent = printed;
    Ok(bytes)
}
