//! The lines of a node agent.

use crate::evidence::binder::read_claim;
use crate::evidence::seat::{Answer, Seat};
use crate::evidence::words::{Words, name_in, number_in, uid_in, word};
use call_types::reply::{MountRow, Reply};
use call_types::request::Request;
use kube_types::items::Items;
use kube_types::objects::Object;
use kube_types::parts::{Kind, VolumePhase};
use kube_types::shared::Shared;
use kube_types::text::Text;
use sample_objects::claims::bound_claim;
use sample_objects::keys::{claim_key, pod_key, volume_key};
use sample_objects::parts::mark_deleted;
use sample_objects::pods::pod;
use sample_objects::volumes::volume_for;

/// `took NODE EPOCH`: a TakeNode was answered.
fn took(seat: &mut Seat, words: &mut Words<'_>) -> Answer {
    let node = Text::new(seat.alloc, name_in(words))?;
    let epoch = number_in(words);
    seat.note(Request::TakeNode { node }, Reply::Epoch(epoch), true)
}

/// `pods VERSION`: a list of all pods told none.
fn pods(seat: &mut Seat, words: &mut Words<'_>) -> Answer {
    let items = Items::new(seat.alloc);
    seat.list(Kind::Pod, items, number_in(words))
}

/// `pod NAME UID VERSION NODE CLAIM STATE`: a watch told the pod, which stays or `ends`.
fn told_pod(seat: &mut Seat, words: &mut Words<'_>) -> Answer {
    let (name, uid, version) = (name_in(words), uid_in(words), number_in(words));
    let (node, claim, state) = (name_in(words), name_in(words), word(words));
    let mut told = pod(seat.alloc, name, uid, version, node, claim)?;
    if state == "ends" {
        mark_deleted(seat.alloc, &mut told.meta)?;
    }
    seat.watch_one(Object::Pod(Shared::new(seat.alloc, told)?), version)
}

/// `mounted NODE EPOCH POD`: the mounts of the node were told, of this pod alone, or none.
fn mounted(seat: &mut Seat, words: &mut Words<'_>) -> Answer {
    let node = Text::new(seat.alloc, name_in(words))?;
    let epoch = number_in(words);
    let mut rows = Items::new(seat.alloc);
    match uid_in(words) {
        None => {}
        Some(pod) => {
            let claims = Items::new(seat.alloc);
            rows.push(MountRow { pod, claims })?;
        }
    }
    let reply = Reply::Mounted(rows);
    seat.note(Request::Mounts { node, epoch }, reply, true)
}

/// `mounting NODE EPOCH POD`: a Mount of the pod was asked, and its answer was lost.
fn mounting(seat: &mut Seat, words: &mut Words<'_>) -> Answer {
    let node = Text::new(seat.alloc, name_in(words))?;
    let epoch = number_in(words);
    match uid_in(words) {
        None => Ok("no pod"),
        Some(pod) => {
            let claims = Items::new(seat.alloc);
            let request = Request::Mount {
                node,
                epoch,
                pod,
                claims,
            };
            seat.note(request, Reply::Timed, false)
        }
    }
}

/// `finished POD NODE EPOCH`: a FinishPod was asked, and its answer was lost.
fn finished(seat: &mut Seat, words: &mut Words<'_>) -> Answer {
    let pod = uid_in(words);
    let node = Text::new(seat.alloc, name_in(words))?;
    let epoch = number_in(words);
    match pod {
        None => Ok("no pod"),
        Some(uid) => {
            let request = Request::FinishPod {
                key: pod_key(seat.alloc, "p")?,
                uid,
                node,
                epoch,
            };
            seat.note(request, Reply::Timed, false)
        }
    }
}

/// `ready NAME UID VERSION VOLUME`: a Get of the claim found it bound and protected.
fn ready(seat: &mut Seat, words: &mut Words<'_>) -> Answer {
    let (name, uid, version) = (name_in(words), uid_in(words), number_in(words));
    let key = claim_key(seat.alloc, name)?;
    let found = bound_claim(seat.alloc, name, uid, version, "", name_in(words))?;
    seat.note(
        Request::Get { key },
        Reply::Found(Object::Claim(Shared::new(seat.alloc, found)?)),
        true,
    )
}

/// `carrier NAME UID VERSION CLAIM CLAIM-UID`: a Get of the volume found it, bound to the claim.
fn carrier(seat: &mut Seat, words: &mut Words<'_>) -> Answer {
    let (name, uid, version) = (name_in(words), uid_in(words), number_in(words));
    let (phase, claim, claim_uid) = (VolumePhase::Bound, name_in(words), uid_in(words));
    let key = volume_key(seat.alloc, name)?;
    let found = volume_for(seat.alloc, name, uid, version, phase, claim, claim_uid)?;
    seat.note(
        Request::Get { key },
        Reply::Found(Object::Volume(Shared::new(seat.alloc, found)?)),
        true,
    )
}

/// `finish POD NODE EPOCH`: the pod is finished. `unmount POD NODE EPOCH`: it is unmounted.
fn ends(seat: &Seat, verb: &str, words: &mut Words<'_>) -> Answer {
    let pod = uid_in(words);
    let node = Text::new(seat.alloc, name_in(words))?;
    let epoch = number_in(words);
    match pod {
        None => Ok("no pod"),
        Some(pod) => match verb {
            "unmount" => seat.judge(&Request::Unmount { node, epoch, pod }),
            _ => {
                let key = pod_key(seat.alloc, "p")?;
                seat.judge(&Request::FinishPod {
                    key,
                    uid: pod,
                    node,
                    epoch,
                })
            }
        },
    }
}

/// `mount POD NODE EPOCH CLAIM-UID`: the pod's one claim is mounted.
fn mount(seat: &Seat, words: &mut Words<'_>) -> Answer {
    let pod = uid_in(words);
    let node = Text::new(seat.alloc, name_in(words))?;
    let epoch = number_in(words);
    let mut claims = Items::new(seat.alloc);
    match uid_in(words) {
        None => {}
        Some(claim) => claims.push(claim)?,
    }
    match pod {
        None => Ok("no pod"),
        Some(pod) => seat.judge(&Request::Mount {
            node,
            epoch,
            pod,
            claims,
        }),
    }
}

/// `claim NAME` and `volume NAME` are read.
fn gets(seat: &Seat, verb: &str, words: &mut Words<'_>) -> Answer {
    let name = name_in(words);
    let key = match verb {
        "volume" => volume_key(seat.alloc, name)?,
        _ => claim_key(seat.alloc, name)?,
    };
    seat.judge(&Request::Get { key })
}

pub fn answer(seat: &mut Seat, verb: &str, words: &mut Words<'_>) -> Answer {
    match verb {
        "took" => took(seat, words),
        "pods" => pods(seat, words),
        "pod" => told_pod(seat, words),
        "mounted" => mounted(seat, words),
        "mounting" => mounting(seat, words),
        "read" => read_claim(seat, words, true),
        "lost" => read_claim(seat, words, false),
        "finished" => finished(seat, words),
        "ready" => ready(seat, words),
        "carrier" => carrier(seat, words),
        "finish" => ends(seat, verb, words),
        "unmount" => ends(seat, verb, words),
        "mount" => mount(seat, words),
        _ => gets(seat, verb, words),
    }
}
