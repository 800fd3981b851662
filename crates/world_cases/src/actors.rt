//! Lines of actors on one world: each is a user's write, or so many calls of an actor at its seat, some of which are lost;
//! the entries that were made are written as lines of the history, or a word for each.
//!
//! `new` begins with an empty world; `new PROVISIONER BYTES FAULT` with one that has a pool, where the call of this number on
//! the back end fails. `create` and a manifest is a user's write, and so is `delete claim NAME` or `delete volume NAME`.
//! `actor ops SEAT` makes an actor, or with `claims` or `volumes` one that protects these; else a seat's actor is a binder.
//! `turn SEAT CALLS` makes so many calls of the actor of the seat, or fewer where it is idle; `wake SEAT` wakes it, and
//! `restart SEAT` begins it anew. `lose SEAT CALL before` and `lose SEAT CALL after` lose the call of this number, from 1.
//! `entries` and `words` write what was made since.

mod bench;

pub use crate::actors::bench::Bench;
use crate::actors::bench::Loss;
use crate::words::word;
use call_types::entry::Entry;
use call_types::reply::{Refusal, Reply};
use call_types::request::{Request, SeatKind};
use history_text::asks::ask_word;
use history_text::entries::print_entry;
use kube_types::key::{kind_of, meta_of};
use kube_types::parts::Kind;
use object_text::reading::read_object;
use plain_data::copies::OutOfMemory;
use sample_objects::keys::{claim_key, volume_key};
use sample_objects::lines::{split, text_of};
use sample_objects::words::{number, words_of};
use std::alloc::Global;

fn create(alloc: Global, bench: &mut Bench, manifest: &str) -> Result<bool, OutOfMemory> {
    match read_object(alloc, manifest.as_bytes()) {
        Err(_) => Ok(false),
        Ok(object) => {
            bench.write(&Request::Create { object })?;
            Ok(true)
        }
    }
}

fn reply_word(reply: &Reply) -> &'static str {
    match reply {
        Reply::Done(_) => "done",
        Reply::Left(_) => "left",
        Reply::Found(_) => "found",
        Reply::Listed {
            items: _,
            version: _,
        } => "listed",
        Reply::Events(_) => "events",
        Reply::Provisioned { id: _, topology: _ } => "given",
        Reply::Erased { removed: _ } => "erased",
        Reply::Refused(Refusal::Conflict { current: _ }) => "conflict",
        Reply::Refused(Refusal::Gone { oldest: _ }) => "gone",
        Reply::Refused(Refusal::NotFound) => "absent",
        Reply::Refused(Refusal::Exhausted { free: _ }) => "exhausted",
        Reply::Refused(Refusal::BackFault { planned: _ }) => "fault",
        _ => "other",
    }
}

fn kind_word(kind: Kind) -> &'static str {
    match kind {
        Kind::StorageClass => "class",
        Kind::Node => "node",
        Kind::PersistentVolume => "volume",
        Kind::PersistentVolumeClaim => "claim",
        Kind::Pod => "pod",
    }
}

/// The kind that a request names, and the name, where it names one.
fn subject(request: &Request) -> (Kind, &str) {
    match request {
        Request::Create { object } | Request::Update { object, version: _ } => (
            kind_of(object),
            meta_of(object).name.as_str(),
        ),
        Request::UpdateStatus {
            key,
            status: _,
            version: _,
        }
        | Request::Delete { key, uid: _ }
        | Request::Get { key } => (key.kind, key.name.as_str()),
        Request::List { kind, namespace: _ } | Request::Watch { kind, from: _ } => (*kind, "-"),
        Request::Provision {
            name,
            provisioner: _,
            bytes: _,
            labels: _,
        } => (Kind::PersistentVolume, name.as_str()),
        Request::Erase { id } => (Kind::PersistentVolume, id.id.as_str()),
        _ => (Kind::Pod, "?"),
    }
}

/// The words of an entry: its seat, what was asked, and what was answered, or that the answer was lost.
fn words(alloc: Global, entry: &Entry) -> Result<String, OutOfMemory> {
    let (kind, name) = subject(&entry.request);
    let seat = entry.seat;
    let ask = ask_word(&entry.request);
    let kind = kind_word(kind);
    let reply = reply_word(&entry.reply);
    let told = if entry.told { "" } else { " lost" };
    Ok(format!(in alloc; "{seat} {ask} {kind} {name} {reply}{told}\n")?)
}

fn whole(alloc: Global, entry: &Entry) -> Result<String, OutOfMemory> {
    let line = text_of(alloc, print_entry(alloc, entry)?)?;
    Ok(format!(in alloc; "{line}\n")?)
}

/// The entries that were made since the last time, each as a line; words are written of the actors alone.
fn written(alloc: Global, bench: &mut Bench, is_whole: bool) -> Result<String, OutOfMemory> {
    let mut text = String::new(alloc);
    let past = bench.written;
    let entries = bench.world.history();
    for (place, entry) in entries.iter().enumerate() {
        if place >= past && (is_whole || entry.seat != 1) {
            let line = if is_whole {
                whole(alloc, entry)?
            } else {
                words(alloc, entry)?
            };
            text.push_str(&line)?;
        }
    }
    bench.written = entries.len();
    Ok(text)
}

fn lose(bench: &mut Bench, seat: &str, call: &str, when: &str) -> Result<(), OutOfMemory> {
    let place = bench.place(number(seat))?;
    if let Some(seat) = bench.seats.get_mut(place) {
        seat.losses.push(Loss {
            call: number(call),
            after: when == "after",
        })?;
    }
    Ok(())
}

fn wake(bench: &mut Bench, seat: &str) -> Result<(), OutOfMemory> {
    let place = bench.place(number(seat))?;
    if let Some(seat) = bench.seats.get_mut(place) {
        seat.actor.wake()?;
    }
    Ok(())
}

fn restart(bench: &mut Bench, seat: &str) -> Result<(), OutOfMemory> {
    let place = bench.place(number(seat))?;
    if let Some(seat) = bench.seats.get_mut(place) {
        seat.actor.restart();
    }
    Ok(())
}

/// A user's deletion of a claim of the default namespace, or of a volume.
fn delete(alloc: Global, bench: &mut Bench, of: &str, name: &str) -> Result<(), OutOfMemory> {
    let key = match of {
        "claim" => claim_key(alloc, name)?,
        _ => volume_key(alloc, name)?,
    };
    bench.write(&Request::Delete { key, uid: None })
}

fn add(bench: &mut Bench, of: &str, seat: &str) -> Result<(), OutOfMemory> {
    match of {
        "ops" => bench.add(number(seat), SeatKind::Ops),
        "claims" => bench.add(number(seat), SeatKind::ClaimProtect),
        "volumes" => bench.add(number(seat), SeatKind::VolumeProtect),
        _ => bench.add(number(seat), SeatKind::Binder),
    }
}

/// What is written for the words of a line.
fn of_words(alloc: Global, bench: &mut Bench, words: &[&str]) -> Result<String, OutOfMemory> {
    match words {
        ["new"] => bench.clear()?,
        ["new", provisioner, bytes, fault] => {
            bench.provide(provisioner, number(bytes), number(fault))?
        }
        ["actor", of, seat] => add(bench, of, seat)?,
        ["delete", of, name] => delete(alloc, bench, of, name)?,
        ["turn", seat, calls] => {
            if bench.turn(number(seat), number(calls))? {
                return word(alloc, "idle\n");
            }
        }
        ["stir", volume, count] => bench.stir(volume, number(count))?,
        ["wake", seat] => wake(bench, seat)?,
        ["restart", seat] => restart(bench, seat)?,
        ["lose", seat, call, when] => lose(bench, seat, call, when)?,
        ["entries"] => return written(alloc, bench, true),
        ["words"] => return written(alloc, bench, false),
        _ => return word(alloc, "?\n"),
    }
    word(alloc, "")
}

/// What is written for a line.
pub fn answer(alloc: Global, bench: &mut Bench, line: &str) -> Result<String, OutOfMemory> {
    let (verb, rest) = split(line);
    if verb == "create" {
        if create(alloc, bench, rest)? {
            return word(alloc, "");
        }
        return word(alloc, "no object\n");
    }
    let words = words_of(alloc, line)?;
    of_words(alloc, bench, &words)
}
