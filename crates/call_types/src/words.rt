//! The printed words of seats and of changes.

ghost use Rattle.call_types.specs.Words.{change_word, seat_word};

use crate::reply::Change;
use crate::request::SeatKind;
use kube_types::words::Worded;

impl Worded for SeatKind {
    ghost word = { seat_word };

    fn word(&self) -> &str {
        match self {
            SeatKind::User => "User",
            SeatKind::Binder => "Binder",
            SeatKind::Ops => "Ops",
            SeatKind::Scheduler => "Scheduler",
            SeatKind::ClaimProtect => "ClaimProtect",
            SeatKind::VolumeProtect => "VolumeProtect",
            SeatKind::Agent => "Agent",
        }
    }
}

impl Worded for Change {
    ghost word = { change_word };

    fn word(&self) -> &str {
        match self {
            Change::Added => "ADDED",
            Change::Modified => "MODIFIED",
            Change::Deleted => "DELETED",
        }
    }
}
