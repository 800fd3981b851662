//! The words of a line.

use kube_types::parts::VolumePhase;
use kube_types::uid::Uid;
use sample_objects::keys::uid_of;
use sample_objects::words::number;

/// The words that were not read yet. Behind the last one each is absent.
#[derive(Drop)]
pub struct Words<'a> {
    pub rest: &'a str,
}

pub fn word<'a>(words: &mut Words<'a>) -> &'a str {
    match words.rest.split_once(' ') {
        None => {
            let last = words.rest;
            words.rest = "-";
            last
        }
        Some((word, rest)) => {
            words.rest = rest;
            word
        }
    }
}

pub fn number_in(words: &mut Words<'_>) -> u64 {
    number(word(words))
}

/// The next word, empty where it is absent.
pub fn name_in<'a>(words: &mut Words<'a>) -> &'a str {
    let name = word(words);
    match name {
        "-" => "",
        _ => name,
    }
}

/// The id of the number that is the next word.
pub fn uid_in(words: &mut Words<'_>) -> Option<Uid> {
    let serial = word(words);
    match serial {
        "-" => None,
        _ => Some(uid_of(number(serial))),
    }
}

pub fn phase_in(words: &mut Words<'_>) -> VolumePhase {
    match word(words) {
        "Available" => VolumePhase::Available,
        "Bound" => VolumePhase::Bound,
        "Released" => VolumePhase::Released,
        "Failed" => VolumePhase::Failed,
        _ => VolumePhase::Pending,
    }
}
