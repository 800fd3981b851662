//! The watch log.

ghost use Rattle.std.specs.Prelude.{◌≡◌, ◌+◌, ◌-◌, ◌<◌, ◌≤◌, List, [], ◌∷◌, Err, IfOk, IfErr, OnOk, length, min, take};
ghost use Rattle.std.specs.VecDeque.{deque_len, deque_capacity};
ghost use Rattle.call_types.specs.declared.reply.Event.{Event};
ghost use Rattle.binder_model.specs.Watching.{window, most_events, oldest, told_events, reached_version};
ghost use Rattle.watch_log.specs.declared.log.LogError.TheVariants.{Gone, Ahead, OutOfMemory as NoMemory};
ghost use Rattle.watch_log.specs.Kept.{IsWindow, LogStandsFor, events_among, is_event_of};

use call_types::reply::{Event, Events};
use kube_types::copies::{OutOfMemory, Plain};
use kube_types::items::Items;
use kube_types::key::{kind_of, same_kind};
use kube_types::objects::Version;
use kube_types::parts::Kind;
use std::alloc::Global;
use std::collections::VecDeque;
use std::marker::Model;

/// How many events are kept.
const WINDOW: usize = 512;

/// How many events one answer has at most.
const MOST_EVENTS: usize = 64;

/// Why a watch is not served.
#[derive(Clone, Copy, Debug)]
pub enum LogError {
    /// The watch begins before the events that are kept; the least version from which one is served.
    Gone { oldest: Version },
    /// The watch begins after the last event, which has this version.
    Ahead { current: Version },
    OutOfMemory,
}

impl From<OutOfMemory> for LogError {
    ghost use Rattle.std.specs.Prelude.{◌≡◌};
    ghost use Rattle.watch_log.specs.declared.log.LogError.TheVariants.{OutOfMemory};

    ghost from_gives = { λ _ e. e ≡ OutOfMemory };

    fn from(_e: OutOfMemory) -> LogError {
        LogError::OutOfMemory
    }
}

/// The events of the last 512 writes since the log began. Contracts see it as those events, the newest first, the
/// version of the last one, that with which the log began, and how many further events there is room for.
pub struct WatchLog {
    alloc: Global,
    base: Version,
    version: Version,
    events: VecDeque<Event>,
}

impl Drop for WatchLog {
    fn drop(self) {
        let WatchLog {
            alloc: _,
            base: _,
            version: _,
            events,
        } = self;
        drop(events);
    }
}

impl Model for WatchLog {
    ghost use Rattle.std.specs.Prelude.{◌-◌, min};
    ghost use Rattle.std.specs.VecDeque.{deque_len, deque_capacity};
    ghost use Rattle.watch_log.specs.Kept.{Log, IsWindow};

    ghost Value = { Log };

    ghost view = { λ l. record { base = l.base; version = l.version; events = l.events.items; room = deque_capacity l.events - min (deque_len l.events) 511 } };

    ghost invariant = { λ l. IsWindow l.base l.version l.events.items };
}

/// Puts the event first. Where the window is full, its last event leaves.
fn put_first(events: &mut VecDeque<Event>, event: Event)
    requires { min (deque_len events.old) 511 < deque_capacity events.old }
    ensures items { events.new.items ≡ take window (event ∷ events.old.items) }
    ensures len { deque_len events.new ≡ min 511 (deque_len events.old) + 1 }
    ensures capacity { deque_capacity events.new ≡ deque_capacity events.old }
{
    events.truncate(WINDOW - 1);
    events.push_front_reserved(event);
}

fn is_of_kind(kind: Kind, event: &Event) -> bool
    ensures { result ≡ is_event_of kind event.now }
{
    same_kind(kind_of(&event.object), kind)
}

/// The events of the kind among the newest ones, of which there are so many; the oldest first, and at most as
/// many as one answer has.
fn events_among(
    alloc: Global,
    events: &VecDeque<Event>,
    kind: Kind,
    count: usize,
) -> Result<Items<Event>, OutOfMemory>
    requires { count ≤ length events.now.items }
    ensures { IfOk result (λ told. told ≡ take most_events (events_among kind count events.now.items)) }
{
    let mut told = Items::new(alloc);
    let mut left = count;
    while left > 0 && told.as_slice().len() < MOST_EVENTS {
        left -= 1;
        let event = &events[left];
        if is_of_kind(kind, event) {
            let copied = event.copy(alloc)?;
            told.push(copied)?;
        }
    }
    Ok(told)
}

/// A full answer reaches to its last event, any other to the version.
#[tactic(auto, using(crate::proofs::Numbered::reached_full))]
fn reached_version(version: Version, told: &[Event]) -> Version
    ensures { result ≡ reached_version version told.now }
{
    if told.len() != MOST_EVENTS {
        return version;
    }
    told[MOST_EVENTS - 1].version
}

impl WatchLog {
    /// A log without events, of a store without writes. It takes no memory.
    pub fn new(alloc: Global) -> WatchLog
        ensures base { result.base ≡ 0 }
        ensures version { result.version ≡ 0 }
        ensures events { result.events ≡ [] }
        ensures all { LogStandsFor result [] }
    {
        WatchLog::from_base(alloc, 0)
    }

    /// A log without events, of a store that begins with this version. It takes no memory.
    pub fn from_base(alloc: Global, base: Version) -> WatchLog
        ensures base { result.base ≡ base }
        ensures version { result.version ≡ base }
        ensures events { result.events ≡ [] }
        ensures all { LogStandsFor result [] }
    {
        WatchLog {
            alloc,
            base,
            version: base,
            events: VecDeque::new(alloc),
        }
    }

    /// The version of the last event, the base before the first.
    pub fn version(&self) -> Version
        ensures { result ≡ self.now.version }
    {
        self.version
    }

    /// The least version from which a watch is served.
    pub fn oldest(&self) -> Version
        ensures value { result ≡ oldest self.now.base self.now.version }
        ensures within { result ≤ self.now.version }
    {
        let left = self.version.saturating_sub(WINDOW as Version);
        left.max(self.base)
    }

    /// For how many events there is room.
    pub fn room(&self) -> usize
        ensures { result ≡ self.now.room }
    {
        self.events.capacity() - self.events.len().min(WINDOW - 1)
    }

    /// Makes room for one event more.
    pub fn reserve(&mut self) -> Result<(), OutOfMemory>
        ensures base { self.new.base ≡ self.old.base }
        ensures version { self.new.version ≡ self.old.version }
        ensures events { self.new.events ≡ self.old.events }
        ensures room { self.old.room ≤ self.new.room }
        ensures ok { OnOk result (0 < self.new.room) }
    {
        if self.events.len() < WINDOW {
            self.events.reserve(1)?;
        }
        Ok(())
    }

    /// Puts the event of the next write in. It takes no memory.
    pub fn push(&mut self, event: Event)
        requires room { 0 < self.old.room }
        requires next { event.version ≡ self.old.version + 1 }
        ensures base { self.new.base ≡ self.old.base }
        ensures version { self.new.version ≡ event.version }
        ensures events { self.new.events ≡ take window (event ∷ self.old.events) }
        ensures room { self.old.room ≤ self.new.room + 1 }
        ensures all { (all : List Event) → LogStandsFor self.old all → LogStandsFor self.new (event ∷ all) }
    {
        self.version = event.version;
        put_first(&mut self.events, event);
    }

    /// The events of the kind after the version, the oldest first, at most 64.
    pub fn since(&self, kind: Kind, from: Version) -> Result<Events, LogError>
        ensures gone { from < oldest self.now.base self.now.version → result ≡ Err (Gone (oldest self.now.base self.now.version)) }
        ensures ahead { self.now.version < from → result ≡ Err (Ahead self.now.version) }
        ensures told { IfOk result (λ told. told ≡ told_events kind from self.now.version self.now.events) }
        ensures all { (all : List Event) → LogStandsFor self.now all → IfOk result (λ told. told ≡ told_events kind from self.now.version all) }
        ensures memory { oldest self.now.base self.now.version ≤ from → from ≤ self.now.version → IfErr result (λ e. e ≡ NoMemory) }
    {
        let oldest = self.oldest();
        if from < oldest {
            return Err(LogError::Gone { oldest });
        }
        if self.version < from {
            return Err(LogError::Ahead {
                current: self.version,
            });
        }
        let count = (self.version - from) as usize;
        let told = events_among(self.alloc, &self.events, kind, count)?;
        let upto = reached_version(self.version, told.as_slice());
        Ok(Events { events: told, upto })
    }
}
