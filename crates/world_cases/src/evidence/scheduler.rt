//! The lines of the scheduler.

use crate::evidence::binder::{told_claim, told_volume};
use crate::evidence::ops::{told_class, told_node, wants};
use crate::evidence::seat::{Answer, Seat};
use crate::evidence::words::{Words, name_in, number_in, uid_in};
use call_types::request::Request;
use kube_types::bindings::{BOUND_BY_CONTROLLER, YES};
use kube_types::objects::Object;
use kube_types::parts::VolumePhase;
use kube_types::shared::Shared;
use kube_types::text::Text;
use sample_objects::claims::wanting_claim;
use sample_objects::keys::pod_key;
use sample_objects::parts::annotate;
use sample_objects::pods::pod;
use sample_objects::volumes::volume_for;

/// `pod NAME UID VERSION NODE CLAIM`: a list of all pods told this one.
fn told_pod(seat: &mut Seat, words: &mut Words<'_>) -> Answer {
    let (name, uid, version) = (name_in(words), uid_in(words), number_in(words));
    let (node, claim) = (name_in(words), name_in(words));
    let object = pod(seat.alloc, name, uid, version, node, claim)?;
    seat.list_one(Object::Pod(Shared::new(seat.alloc, object)?), version)
}

/// `select NAME UID VERSION NODE`: the node is chosen for the claim, at the version.
fn selects(seat: &Seat, words: &mut Words<'_>) -> Answer {
    let (name, uid, version) = (name_in(words), uid_in(words), number_in(words));
    let claim = wanting_claim(seat.alloc, name, uid, version, name_in(words))?;
    seat.judge(&Request::Update {
        object: Object::Claim(Shared::new(seat.alloc, claim)?),
        version: Some(version),
    })
}

/// `assign NAME UID NODE`: the pod is bound to the node.
fn assigns(seat: &Seat, words: &mut Words<'_>) -> Answer {
    let key = pod_key(seat.alloc, name_in(words))?;
    let uid = uid_in(words);
    let node = Text::new(seat.alloc, name_in(words))?;
    match uid {
        None => Ok("no pod"),
        Some(uid) => seat.judge(&Request::BindPod { key, uid, node }),
    }
}

/// `take NAME UID VERSION CLAIM CLAIM-UID`: the claim's reference is written on the volume, at the
/// version.
fn takes(seat: &Seat, words: &mut Words<'_>) -> Answer {
    let (name, uid, version) = (name_in(words), uid_in(words), number_in(words));
    let (phase, claim, claim_uid) = (VolumePhase::Available, name_in(words), uid_in(words));
    let mut taken = volume_for(seat.alloc, name, uid, version, phase, claim, claim_uid)?;
    annotate(seat.alloc, &mut taken.meta, BOUND_BY_CONTROLLER, YES)?;
    seat.judge(&Request::Update {
        object: Object::Volume(Shared::new(seat.alloc, taken)?),
        version: Some(version),
    })
}

pub fn answer(seat: &mut Seat, verb: &str, words: &mut Words<'_>) -> Answer {
    match verb {
        "class" => told_class(seat, words),
        "node" => told_node(seat, words),
        "wants" => wants(seat, words),
        "volume" => told_volume(seat, words),
        "claim" => told_claim(seat, words),
        "pod" => told_pod(seat, words),
        "select" => selects(seat, words),
        "take" => takes(seat, words),
        _ => assigns(seat, words),
    }
}
