//! What one seat was told, the version of the store, and the judgements.

use call_types::entry::Entry;
use call_types::reply::{Change, Event, Events, Reply};
use call_types::request::{Request, SeatKind};
use evidence_judge::Evidence;
use kube_types::copies::OutOfMemory;
use kube_types::items::Items;
use kube_types::objects::Object;
use kube_types::parts::Kind;
use std::alloc::Global;

#[derive(Drop)]
pub struct Bench {
    pub alloc: Global,
    pub kind: SeatKind,
    pub evidence: Evidence,
    pub times: u64,
    pub limit: u64,
    pub entries: u64,
    pub allowed: u64,
    pub version: u64,
}

fn event(change: Change, object: Object, version: u64) -> Event {
    Event {
        change,
        object,
        version,
    }
}

impl Bench {
    pub fn new(alloc: Global, kind: SeatKind, limit: u64, times: u64) -> Bench {
        Bench {
            alloc,
            kind,
            evidence: Evidence::new(alloc),
            times,
            limit,
            entries: 0,
            allowed: 0,
            version: 0,
        }
    }

    /// The next version of the store.
    pub fn next(&mut self) -> u64 {
        self.version = self.version.saturating_add(1);
        self.version
    }

    /// Judges the request so often, and notes the call.
    pub fn call(&mut self, request: Request, reply: Reply) -> Result<(), OutOfMemory> {
        if self.entries >= self.limit {
            return Ok(());
        }
        for _ in 0..self.times {
            if self.evidence.judge(self.kind, &request).is_ok() {
                self.allowed = self.allowed.saturating_add(1);
            }
        }
        self.entries = self.entries.saturating_add(1);
        let entry = Entry {
            seat: 1,
            kind: self.kind,
            request,
            reply,
            told: true,
        };
        self.evidence.note(&entry)
    }

    /// A list of the kind, which tells these objects.
    pub fn list(&mut self, kind: Kind, items: Items<Object>) -> Result<(), OutOfMemory> {
        let request = Request::List {
            kind,
            namespace: None,
        };
        let reply = Reply::Listed {
            items,
            version: self.version,
        };
        self.call(request, reply)
    }

    /// A list that tells nothing.
    pub fn list_none(&mut self, kind: Kind) -> Result<(), OutOfMemory> {
        let items = Items::new(self.alloc);
        self.list(kind, items)
    }

    /// A list that tells one object.
    pub fn list_one(&mut self, kind: Kind, object: Object) -> Result<(), OutOfMemory> {
        let mut items = Items::new(self.alloc);
        items.push(object)?;
        self.list(kind, items)
    }

    /// A watch from the version that was reached last. The version that it reaches.
    pub fn watch(
        &mut self,
        kind: Kind,
        from: u64,
        events: Items<Event>,
    ) -> Result<u64, OutOfMemory> {
        let upto = self.version;
        let reply = Reply::Events(Events { events, upto });
        self.call(Request::Watch { kind, from }, reply)?;
        Ok(upto)
    }

    /// The same, which tells one object at the last version.
    pub fn watch_one(
        &mut self,
        kind: Kind,
        from: u64,
        change: Change,
        object: Object,
    ) -> Result<u64, OutOfMemory> {
        let mut events = Items::new(self.alloc);
        events.push(event(change, object, self.version))?;
        self.watch(kind, from, events)
    }
}

/// Puts an event behind the others.
pub fn tell(
    events: &mut Items<Event>,
    change: Change,
    object: Object,
    version: u64,
) -> Result<(), OutOfMemory> {
    events.push(event(change, object, version))
}
