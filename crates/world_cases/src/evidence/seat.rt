//! A seat: its kind, and what it was told.

use call_types::entry::Entry;
use call_types::reply::{Change, Event, Events, Reply};
use call_types::request::{Request, SeatKind};
use evidence_judge::Evidence;
use kube_types::items::Items;
use kube_types::key::kind_of;
use kube_types::names::LicenceRule;
use kube_types::objects::{Object, Version};
use kube_types::parts::Kind;
use plain_data::copies::OutOfMemory;
use std::alloc::Global;

/// What is judged, and how it is written.
pub type Answer = Result<&'static str, OutOfMemory>;

/// The rules that the cases show.
fn rule_word(rule: LicenceRule) -> &'static str {
    match rule {
        LicenceRule::Available => "Available",
        LicenceRule::PhaseBound => "PhaseBound",
        LicenceRule::Released => "Released",
        LicenceRule::Reading => "Reading",
        LicenceRule::Kind => "Kind",
        LicenceRule::Mount => "Mount",
        LicenceRule::FinishPod => "FinishPod",
        LicenceRule::Provision => "Provision",
        LicenceRule::CreateVolume => "CreateVolume",
        LicenceRule::Erase => "Erase",
        LicenceRule::Failed => "Failed",
        LicenceRule::DeleteVolume => "DeleteVolume",
        LicenceRule::SelectedNode => "SelectedNode",
        LicenceRule::ClaimRef => "ClaimRef",
        LicenceRule::BindPod => "BindPod",
        _ => "another rule",
    }
}

#[derive(Drop)]
pub struct Seat {
    pub alloc: Global,
    pub kind: SeatKind,
    pub evidence: Evidence,
}

impl Seat {
    pub fn new(alloc: Global, kind: SeatKind) -> Seat {
        Seat {
            alloc,
            kind,
            evidence: Evidence::new(alloc),
        }
    }

    /// Notes a call, and whether its answer was told.
    pub fn note(&mut self, request: Request, reply: Reply, told: bool) -> Answer {
        let entry = Entry {
            seat: 1,
            kind: self.kind,
            request,
            reply,
            told,
        };
        self.evidence.note(&entry)?;
        Ok("noted")
    }

    /// A list of a whole kind, which told these objects.
    pub fn list(&mut self, kind: Kind, items: Items<Object>, version: Version) -> Answer {
        let request = Request::List {
            kind,
            namespace: None,
        };
        self.note(request, Reply::Listed { items, version }, true)
    }

    /// A list that told one object.
    pub fn list_one(&mut self, object: Object, version: Version) -> Answer {
        let kind = kind_of(&object);
        let mut items = Items::new(self.alloc);
        items.push(object)?;
        self.list(kind, items, version)
    }

    /// A watch that told one object.
    pub fn watch_one(&mut self, object: Object, version: Version) -> Answer {
        let kind = kind_of(&object);
        let mut events = Items::new(self.alloc);
        events.push(Event {
            change: Change::Modified,
            object,
            version,
        })?;
        let reply = Reply::Events(Events {
            events,
            upto: version,
        });
        self.note(Request::Watch { kind, from: 0 }, reply, true)
    }

    /// What a seat of this kind may do: `allowed`, or the rule that refuses it.
    pub fn judge_as(&self, kind: SeatKind, request: &Request) -> Answer {
        match self.evidence.judge(kind, request) {
            Ok(()) => Ok("allowed"),
            Err(rule) => Ok(rule_word(rule)),
        }
    }

    pub fn judge(&self, request: &Request) -> Answer {
        self.judge_as(self.kind, request)
    }
}
