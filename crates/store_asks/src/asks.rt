//! The ask that a line is: an entry of a history without its reply.

ghost use Rattle.std.specs.Prelude.{◌≡◌, Option};
ghost use Rattle.serde_json.specs.View.{view};
ghost use Rattle.history_lines.specs.Answers.{PartGives};
ghost use Rattle.history_lines.specs.Entries.{asked_at, seat_kind_at};
ghost use Rattle.history_lines.specs.Members.{look_in};
ghost use Rattle.store_asks.specs.Asks.{AskGives, ask_in, or_fault};

use crate::errors::{AskError, AskMember};
use call_types::entry::Entry;
use call_types::reply::Reply;
use call_types::request::{Request, SeatKind};
use history_lines::errors::Unread;
use history_lines::members::{flag_at, member_at, number_at, word_at};
use history_lines::requests::request_in;
use history_lines::words::seat_named;
use serde_json::Value;
use std::alloc::Global;

/// What a seat asks, and whether the answer reaches it.
pub struct StoreAsk {
    pub seat: u64,
    pub kind: SeatKind,
    pub request: Request,
    pub told: bool,
}

impl Drop for StoreAsk {
    fn drop(self) {
        let StoreAsk {
            seat: _,
            kind: _,
            request,
            told: _,
        } = self;
        drop(request);
    }
}

impl StoreAsk {
    /// The entry of the ask with this reply.
    pub fn replied(self, reply: Reply) -> Entry
        ensures { result ≡ record { seat = self.seat; kind = self.kind; request = self.request; reply = reply; told = self.told } }
    {
        let StoreAsk {
            seat,
            kind,
            request,
            told,
        } = self;
        Entry {
            seat,
            kind,
            request,
            reply,
            told,
        }
    }
}

/// What was read, or that this member is at fault.
fn or_fault<T>(read: Result<T, Unread>, member: AskMember) -> Result<T, AskError>
    ensures { (answer : Option T) → PartGives read answer → AskGives result (or_fault member answer) }
{
    match read {
        Ok(value) => Ok(value),
        Err(Unread::NotCanonical) => Err(AskError::BadMember(member)),
        Err(Unread::OutOfMemory) => Err(AskError::OutOfMemory),
    }
}

fn request_at(alloc: Global, value: &Value) -> Result<Request, Unread>
    ensures { PartGives result (asked_at (look_in (view value.now))) }
{
    request_in(alloc, member_at(value, "ask")?)
}

fn kind_at(value: &Value) -> Result<SeatKind, Unread>
    ensures { PartGives result (seat_kind_at (look_in (view value.now))) }
{
    match seat_named(word_at(value, "kind")?) {
        Some(kind) => Ok(kind),
        None => Err(Unread::NotCanonical),
    }
}

/// The ask of a value.
#[tactic(auto, unfolding(crate::specs::Asks::ask_in))]
pub fn ask_in(alloc: Global, value: &Value) -> Result<StoreAsk, AskError>
    ensures { AskGives result (ask_in (view value.now)) }
{
    let request = or_fault(request_at(alloc, value), AskMember::Ask)?;
    let kind = or_fault(kind_at(value), AskMember::Kind)?;
    let seat = or_fault(number_at(value, "seat"), AskMember::Seat)?;
    let told = or_fault(flag_at(value, "told"), AskMember::Told)?;
    Ok(StoreAsk {
        seat,
        kind,
        request,
        told,
    })
}
