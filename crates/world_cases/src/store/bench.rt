//! The store, its log and the devices, and the calls on them.

ghost use Rattle.std.specs.Prelude.{◌≡◌, ◌<◌, ◌^◌, true};
ghost use Rattle.device_model.specs.Kept.{is_for_devices, taken_epoch};

use crate::words::word;
use call_types::entry::Entry;
use call_types::reply::{Change, Event, Refusal, Reply};
use call_types::request::{Request, SeatKind};
use call_types::setup::Pool;
use device_model::devices::{Devices, is_for_devices};
use history_text::entries::print_entry;
use kube_types::objects::{Object, Version};
use plain_data::copies::{OutOfMemory, Plain};
use plain_data::text::Text;
use sample_objects::lines::text_of;
use std::alloc::Global;
use version_store::outcome::{Made, is_for_store};
use version_store::store::Store;
use watch_log::log::WatchLog;

/// More calls than any file of cases makes.
const MOST: u64 = 1_000_000;

const FIRST_MOMENT: &str = "2000-01-01T00:00:00Z";

/// A store, its log and devices, and who makes the next call and when.
#[derive(Drop)]
pub struct Bench {
    pub alloc: Global,
    pub kind: SeatKind,
    pub moment: Text,
    pub pools: Vec<Pool>,
    pub faults: Vec<u64>,
    pub log: WatchLog,
    pub store: Store,
    pub devices: Devices,
}

impl Bench {
    pub fn new(alloc: Global) -> Result<Bench, OutOfMemory> {
        Ok(Bench {
            alloc,
            kind: SeatKind::User,
            moment: Text::new(alloc, FIRST_MOMENT)?,
            pools: Vec::new(alloc),
            faults: Vec::new(alloc),
            log: WatchLog::new(alloc),
            store: Store::new(alloc),
            devices: Devices::new(alloc, &[], &[])?,
        })
    }

    /// An empty store, at the first moment, for a user.
    pub fn clear(&mut self) -> Result<(), OutOfMemory> {
        self.moment = Text::new(self.alloc, FIRST_MOMENT)?;
        self.kind = SeatKind::User;
        self.log = WatchLog::new(self.alloc);
        self.store = Store::new(self.alloc);
        Ok(())
    }

    /// Devices with the pools and faults that were named, which are then forgotten.
    pub fn equip(&mut self) -> Result<(), OutOfMemory> {
        self.devices = Devices::new(self.alloc, &self.pools, &self.faults)?;
        self.pools = Vec::new(self.alloc);
        self.faults = Vec::new(self.alloc);
        Ok(())
    }

    // The write with its event in the log, as a world makes it.
    fn write(&mut self, request: &Request) -> Result<Reply, OutOfMemory> {
        if self.store.version() >= MOST {
            return Ok(Reply::Refused(Refusal::NotFound));
        }
        let stale = stale_epoch(&self.devices, request);
        let made = self.store.outcome(self.kind, request, &self.moment, stale)?;
        tell(self.alloc, &mut self.log, &made, self.store.version() + 1)?;
        self.store.apply(made)
    }

    fn on_devices(&mut self, request: &Request) -> Result<Reply, OutOfMemory> {
        if may_be_asked(&self.devices, request) {
            self.devices.call(request)
        } else {
            Ok(Reply::Refused(Refusal::NotFound))
        }
    }

    fn set_moment(&mut self, at: &Text) -> Result<Reply, OutOfMemory> {
        self.moment = at.copy(self.alloc)?;
        Ok(Reply::Timed)
    }

    /// Makes the call. A SetTime is answered Timed, whatever its moment.
    pub fn call(&mut self, request: &Request) -> Result<Reply, OutOfMemory> {
        match request {
            Request::SetTime { at } => self.set_moment(at),
            _ if is_for_store(request) => self.write(request),
            _ => self.on_devices(request),
        }
    }

    /// Makes the call on the store alone, without the log.
    pub fn call_store(&mut self, request: &Request) -> Result<Reply, OutOfMemory> {
        if is_for_store(request) && self.store.version() < MOST {
            self.store.call(self.kind, request, &self.moment)
        } else {
            Ok(Reply::Refused(Refusal::NotFound))
        }
    }

    /// What the call would answer.
    pub fn answer(&self, request: &Request) -> Result<Reply, OutOfMemory> {
        if is_for_store(request) && self.store.version() < MOST {
            self.store.answer(self.kind, request, &self.moment)
        } else if may_be_asked(&self.devices, request) {
            self.devices.answer(request)
        } else {
            Ok(Reply::Refused(Refusal::NotFound))
        }
    }

    /// The line of the call's entry.
    pub fn line(&self, request: Request, reply: Reply, told: bool) -> Result<String, OutOfMemory> {
        let seat = match self.kind {
            SeatKind::User => 1,
            _ => 5,
        };
        let entry = Entry {
            seat,
            kind: self.kind,
            request,
            reply,
            told,
        };
        line_of(self.alloc, &entry)
    }
}

// The line of a copy of the entry, which is the same.
fn line_of(alloc: Global, entry: &Entry) -> Result<String, OutOfMemory> {
    let copy = entry.copy(alloc)?;
    if !copy.same(entry) {
        return word(alloc, "not the same");
    }
    text_of(alloc, print_entry(alloc, &copy)?)
}

// The current epoch of the node of a FinishPod, where the request has another.
fn stale_epoch(devices: &Devices, request: &Request) -> Option<u64> {
    match request {
        Request::FinishPod { node, epoch, .. } => {
            let current = devices.epoch(node);
            if current == *epoch {
                None
            } else {
                Some(current)
            }
        }
        _ => None,
    }
}

fn may_be_asked(devices: &Devices, request: &Request) -> bool
    ensures asked { result ≡ true → is_for_devices request.now ≡ true }
    ensures calls { result ≡ true → devices.now.devices.calls < 2 ^ 63 }
    ensures epoch { result ≡ true → taken_epoch devices.now.devices request.now < 2 ^ 63 }
{
    let epoch = match request {
        Request::TakeNode { node } => devices.epoch(node),
        _ => 0,
    };
    is_for_devices(request) && devices.counts().calls < MOST && epoch < MOST
}

fn copied(alloc: Global, object: &Object) -> Result<Object, OutOfMemory> {
    object.copy(alloc)
}

// Puts the event of a write, which has this version, into the log.
fn tell(
    alloc: Global,
    log: &mut WatchLog,
    made: &Made,
    version: Version,
) -> Result<(), OutOfMemory> {
    let (change, object) = match made {
        Made::Says(_) => return Ok(()),
        Made::Stores(change, object) => (*change, copied(alloc, object)?),
        Made::Removes(object) => (Change::Deleted, copied(alloc, object)?),
    };
    log.reserve()?;
    if log.room() > 0 && log.version() < MOST && version == log.version() + 1 {
        log.push(Event {
            change,
            object,
            version,
        });
    }
    Ok(())
}
