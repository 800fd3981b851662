//! The lines of a binder.

use crate::evidence::seat::{Answer, Seat};
use crate::evidence::words::{Words, name_in, number_in, phase_in, uid_in};
use call_types::reply::{Events, Refusal, Reply};
use call_types::request::{NewStatus, Request, SeatKind};
use kube_types::items::Items;
use kube_types::objects::Object;
use kube_types::parts::Kind;
use kube_types::shared::Shared;
use sample_objects::claims::claim;
use sample_objects::keys::{claim_key, volume_key};
use sample_objects::volumes::volume_for;

/// `volume NAME UID VERSION PHASE CLAIM CLAIM-UID`: a list of all volumes told this one.
pub fn told_volume(seat: &mut Seat, words: &mut Words<'_>) -> Answer {
    let (name, uid, version) = (name_in(words), uid_in(words), number_in(words));
    let (phase, claim, claim_uid) = (phase_in(words), name_in(words), uid_in(words));
    let object = volume_for(seat.alloc, name, uid, version, phase, claim, claim_uid)?;
    seat.list_one(Object::Volume(Shared::new(seat.alloc, object)?), version)
}

/// `claim NAME UID VERSION VOLUME`: a list of all claims told this one, completed where it names a volume.
pub fn told_claim(seat: &mut Seat, words: &mut Words<'_>) -> Answer {
    let (name, uid, version) = (name_in(words), uid_in(words), number_in(words));
    let object = claim(seat.alloc, name, uid, version, "", name_in(words))?;
    seat.list_one(Object::Claim(Shared::new(seat.alloc, object)?), version)
}

/// `read NAME UID VERSION VOLUME`: a Get of the claim found this one, or where the UID is absent none.
pub fn read_claim(seat: &mut Seat, words: &mut Words<'_>, told: bool) -> Answer {
    let (name, uid, version) = (name_in(words), uid_in(words), number_in(words));
    let key = claim_key(seat.alloc, name)?;
    let request = Request::Get { key };
    if uid.is_none() {
        return seat.note(request, Reply::Refused(Refusal::NotFound), told);
    }
    let found = claim(seat.alloc, name, uid, version, "", name_in(words))?;
    seat.note(
        request,
        Reply::Found(Object::Claim(Shared::new(seat.alloc, found)?)),
        told,
    )
}

/// `gone FROM`: a watch of the volumes was answered that the version is too old.
fn gone(seat: &mut Seat, words: &mut Words<'_>) -> Answer {
    let from = number_in(words);
    let request = Request::Watch {
        kind: Kind::PersistentVolume,
        from,
    };
    let reply = Reply::Refused(Refusal::Gone { oldest: from });
    seat.note(request, reply, true)
}

/// `watched FROM UPTO`: a watch of the volumes told nothing up to a version.
fn watched(seat: &mut Seat, words: &mut Words<'_>) -> Answer {
    let (from, upto) = (number_in(words), number_in(words));
    let request = Request::Watch {
        kind: Kind::PersistentVolume,
        from,
    };
    let events = Items::new(seat.alloc);
    seat.note(request, Reply::Events(Events { events, upto }), true)
}

/// `write NAME PHASE VERSION`: the phase of a volume is written at a version.
pub fn write_phase(seat: &Seat, words: &mut Words<'_>) -> Answer {
    let name = name_in(words);
    let phase = phase_in(words);
    let request = Request::UpdateStatus {
        key: volume_key(seat.alloc, name)?,
        status: NewStatus::Volume(phase),
        version: Some(number_in(words)),
    };
    seat.judge(&request)
}

/// `list`, `watch FROM`, `get NAME` of a claim, and `other`, a list by another kind of controller.
fn asks(seat: &Seat, verb: &str, words: &mut Words<'_>) -> Answer {
    let kind = Kind::PersistentVolume;
    let list = Request::List {
        kind,
        namespace: None,
    };
    match verb {
        "list" => seat.judge(&list),
        "other" => seat.judge_as(SeatKind::Ops, &list),
        "watch" => {
            let from = number_in(words);
            seat.judge(&Request::Watch { kind, from })
        }
        _ => {
            let key = claim_key(seat.alloc, name_in(words))?;
            seat.judge(&Request::Get { key })
        }
    }
}

pub fn answer(seat: &mut Seat, verb: &str, words: &mut Words<'_>) -> Answer {
    match verb {
        "volume" => told_volume(seat, words),
        "claim" => told_claim(seat, words),
        "read" => read_claim(seat, words, true),
        "lost" => read_claim(seat, words, false),
        "gone" => gone(seat, words),
        "watched" => watched(seat, words),
        "write" => write_phase(seat, words),
        _ => asks(seat, verb, words),
    }
}
