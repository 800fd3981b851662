//! The lines of the provisioner and reclaimer.

use crate::evidence::seat::{Answer, Seat};
use crate::evidence::words::{Words, name_in, number_in, phase_in, uid_in, word};
use call_types::reply::{Refusal, Reply};
use call_types::request::{NewStatus, Request};
use kube_types::items::Items;
use kube_types::objects::{Object, Volume};
use kube_types::pairs::Pairs;
use kube_types::parts::{Kind, Policy, VolumePhase};
use kube_types::shared::Shared;
use kube_types::text::Text;
use kube_types::uid::Uid;
use plain_data::copies::OutOfMemory;
use sample_objects::claims::wanting_claim;
use sample_objects::keys::{data_name, uid_of, volume_key};
use sample_objects::parts::{BYTES, PROVISIONER, data, data_source, zone_labels};
use sample_objects::pods::{class, node};
use sample_objects::volumes::{made_volume, volume_for};
use std::alloc::Global;

/// `class NAME PROVISIONER DELAYED VERSION`: a list of all classes told this one.
pub fn told_class(seat: &mut Seat, words: &mut Words<'_>) -> Answer {
    let (name, provisioner) = (name_in(words), name_in(words));
    let (delayed, version) = (word(words) == "yes", number_in(words));
    let object = class(seat.alloc, name, None, version, provisioner, delayed)?;
    seat.list_one(Object::Class(Shared::new(seat.alloc, object)?), version)
}

/// `node NAME ZONE VERSION`: a list of all nodes told this one.
pub fn told_node(seat: &mut Seat, words: &mut Words<'_>) -> Answer {
    let (name, zone, version) = (name_in(words), name_in(words), number_in(words));
    let object = node(seat.alloc, name, None, version, zone)?;
    seat.list_one(Object::Node(Shared::new(seat.alloc, object)?), version)
}

/// `nodes VERSION`: a list of all nodes told none.
fn nodes(seat: &mut Seat, words: &mut Words<'_>) -> Answer {
    let items = Items::new(seat.alloc);
    seat.list(Kind::Node, items, number_in(words))
}

/// `wants NAME UID VERSION NODE`: a watch told the claim, of the class `fast`, which wants a volume.
pub fn wants(seat: &mut Seat, words: &mut Words<'_>) -> Answer {
    let (name, uid, version) = (name_in(words), uid_in(words), number_in(words));
    let object = wanting_claim(seat.alloc, name, uid, version, name_in(words))?;
    seat.watch_one(Object::Claim(Shared::new(seat.alloc, object)?), version)
}

/// The labels of a node in the zone, or of no node.
fn labels(alloc: Global, zone: &str) -> Result<Option<Pairs>, OutOfMemory> {
    if zone.is_empty() {
        return Ok(None);
    }
    Ok(Some(zone_labels(alloc, zone)?))
}

/// A Provision for the claim of the UID.
fn provision(
    seat: &Seat,
    uid: Option<Uid>,
    provisioner: &str,
    zone: &str,
) -> Result<Request, OutOfMemory> {
    Ok(Request::Provision {
        name: data_name(seat.alloc, uid)?,
        provisioner: Text::new(seat.alloc, provisioner)?,
        bytes: BYTES,
        labels: labels(seat.alloc, zone)?,
    })
}

/// `provision UID PROVISIONER ZONE`: data are provisioned for the claim of the UID.
fn provisions(seat: &Seat, words: &mut Words<'_>) -> Answer {
    let (uid, provisioner, zone) = (uid_in(words), name_in(words), name_in(words));
    let request = provision(seat, uid, provisioner, zone)?;
    seat.judge(&request)
}

/// `provisioned UID DATA`: a Provision for the UID gave the data; `exhausted UID`: no pool has the bytes.
fn provisioned(seat: &mut Seat, words: &mut Words<'_>) -> Answer {
    let (uid, id) = (uid_in(words), name_in(words));
    let request = provision(seat, uid, PROVISIONER, "")?;
    if id.is_empty() {
        return seat.note(
            request,
            Reply::Refused(Refusal::Exhausted { free: 0 }),
            true,
        );
    }
    let reply = Reply::Provisioned {
        id: data(seat.alloc, id)?,
        topology: None,
    };
    seat.note(request, reply, true)
}

/// `create NAME UID DATA`: the volume is created that is made for the claim over the data.
fn creates(seat: &Seat, words: &mut Words<'_>) -> Answer {
    let (name, uid, id) = (name_in(words), uid_in(words), name_in(words));
    let volume = made_volume(seat.alloc, name, uid, id)?;
    seat.judge(&Request::Create {
        object: Object::Volume(Shared::new(seat.alloc, volume)?),
    })
}

/// `clear NAME UID VERSION`: the node that was chosen is dropped from the claim, at the version.
fn clears(seat: &Seat, words: &mut Words<'_>) -> Answer {
    let (name, uid, version) = (name_in(words), uid_in(words), number_in(words));
    let claim = wanting_claim(seat.alloc, name, uid, version, "")?;
    seat.judge(&Request::Update {
        object: Object::Claim(Shared::new(seat.alloc, claim)?),
        version: Some(version),
    })
}

/// A volume over the data with policy Delete, for the claim `c` of the UID 7: the words behind the verb.
fn volume_over(alloc: Global, name: &str, words: &mut Words<'_>) -> Result<Volume, OutOfMemory> {
    let (uid, version, phase) = (uid_in(words), number_in(words), phase_in(words));
    let mut volume = volume_for(alloc, name, uid, version, phase, "c", Some(uid_of(7)))?;
    volume.policy = Policy::Delete;
    volume.source = data_source(alloc, name_in(words))?;
    Ok(volume)
}

/// `told NAME UID VERSION PHASE DATA`: a watch told the volume over the data. `found ..`: a Get found it.
/// `lost ..`: a Get found it, and its answer was lost.
fn told_volume(seat: &mut Seat, verb: &str, words: &mut Words<'_>) -> Answer {
    let name = name_in(words);
    let volume = volume_over(seat.alloc, name, words)?;
    let version = volume.meta.version;
    let object = Object::Volume(Shared::new(seat.alloc, volume)?);
    if verb == "told" {
        return seat.watch_one(object, version);
    }
    let key = volume_key(seat.alloc, name)?;
    let told = verb == "found";
    seat.note(Request::Get { key }, Reply::Found(object), told)
}

/// `erased DATA`: an Erase of the data was done; `fault DATA`: it failed.
fn erased(seat: &mut Seat, verb: &str, words: &mut Words<'_>) -> Answer {
    let id = data(seat.alloc, name_in(words))?;
    let reply = match verb {
        "erased" => Reply::Erased { removed: true },
        _ => Reply::Refused(Refusal::BackFault { planned: 1 }),
    };
    seat.note(Request::Erase { id }, reply, true)
}

/// `erase DATA`: the data are erased.
fn erases(seat: &Seat, words: &mut Words<'_>) -> Answer {
    let id = data(seat.alloc, name_in(words))?;
    seat.judge(&Request::Erase { id })
}

/// `fail NAME VERSION`: phase Failed is written at the version.
fn fails(seat: &Seat, words: &mut Words<'_>) -> Answer {
    let key = volume_key(seat.alloc, name_in(words))?;
    seat.judge(&Request::UpdateStatus {
        key,
        status: NewStatus::Volume(VolumePhase::Failed),
        version: Some(number_in(words)),
    })
}

/// `delete NAME UID`: the volume is deleted.
fn deletes(seat: &Seat, words: &mut Words<'_>) -> Answer {
    let key = volume_key(seat.alloc, name_in(words))?;
    let uid = uid_in(words);
    seat.judge(&Request::Delete { key, uid })
}

/// `get NAME`: the volume is read.
fn gets(seat: &Seat, words: &mut Words<'_>) -> Answer {
    let key = volume_key(seat.alloc, name_in(words))?;
    seat.judge(&Request::Get { key })
}

pub fn answer(seat: &mut Seat, verb: &str, words: &mut Words<'_>) -> Answer {
    match verb {
        "class" => told_class(seat, words),
        "node" => told_node(seat, words),
        "nodes" => nodes(seat, words),
        "wants" => wants(seat, words),
        "provision" => provisions(seat, words),
        "provisioned" => provisioned(seat, words),
        "exhausted" => provisioned(seat, words),
        "create" => creates(seat, words),
        "clear" => clears(seat, words),
        "erased" => erased(seat, verb, words),
        "fault" => erased(seat, verb, words),
        "erase" => erases(seat, words),
        "fail" => fails(seat, words),
        "delete" => deletes(seat, words),
        "get" => gets(seat, words),
        _ => told_volume(seat, verb, words),
    }
}
