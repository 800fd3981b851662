//! The parts of a world, and the change that one call makes in them.

ghost use Rattle.std.specs.Prelude.{◌≡◌, ◌+◌, ◌-◌, ◌^◌, ◌<◌, true, Some, None, IfOk, IfSome, OnOk, OnErr};
ghost use Rattle.call_types.specs.declared.reply.Event.{Event};
ghost use Rattle.call_types.specs.declared.reply.Reply.TheVariants.{Refused};
ghost use Rattle.call_types.specs.declared.request.Request.TheVariants.{SetTime, Watch};
ghost use Rattle.binder_model.specs.Answers.{after, is_for_store, is_user, reply_of};
ghost use Rattle.device_model.specs.Kept.{is_for_devices};
ghost use Rattle.binder_model.specs.World.{first_world, stale_epoch};
ghost use Rattle.version_store.specs.Steps.Made.{outcome_of};
ghost use Rattle.world_core.specs.Moves.{AreAsBefore, AreOf, IsAnswered, Logs, MayMove, event_of, version_after};

use crate::moments::{FIRST_MOMENT, is_time};
use call_types::reply::{Change, Event, Refusal, Reply};
use call_types::request::{Request, SeatKind};
use call_types::setup::Setup;
use device_model::devices::{Devices, is_for_devices};
use kube_types::copies::{OutOfMemory, Plain};
use kube_types::key::meta_of;
use kube_types::names::{Field, Rule};
use kube_types::objects::Version;
use kube_types::parts::Kind;
use kube_types::text::Text;
use std::alloc::Global;
use version_store::outcome::Made;
use version_store::store::Store;
use watch_log::log::{LogError, WatchLog};

/// What a world has beside its history.
pub struct Parts {
    pub store: Store,
    pub log: WatchLog,
    pub devices: Devices,
    pub moment: Text,
}

impl Drop for Parts {
    fn drop(self) {
        let Parts {
            store,
            log,
            devices,
            moment,
        } = self;
        drop(store);
        drop(log);
        drop(devices);
        drop(moment);
    }
}

/// A copy of the reply to the outcome.
#[tactic(auto, unfolding(binder_model::specs::Answers::reply_of))]
fn reply_of(alloc: Global, made: &Made) -> Result<Reply, OutOfMemory>
    ensures { IfOk result (λ reply. reply ≡ reply_of (outcome_of made.now)) }
{
    match made {
        Made::Says(reply) => reply.copy(alloc),
        Made::Stores(_, object) => Ok(Reply::Done(object.copy(alloc)?)),
        Made::Removes(object) => Ok(Reply::Left(object.copy(alloc)?)),
    }
}

/// The event of the outcome, where it writes.
fn event_of(alloc: Global, made: &Made) -> Result<Option<Event>, OutOfMemory>
    ensures { IfOk result (λ event. event ≡ event_of (outcome_of made.now)) }
{
    match made {
        Made::Says(_) => Ok(None),
        Made::Stores(change, object) => Ok(Some(Event {
            change: *change,
            version: meta_of(object).version,
            object: object.copy(alloc)?,
        })),
        Made::Removes(object) => Ok(Some(Event {
            change: Change::Deleted,
            version: meta_of(object).version,
            object: object.copy(alloc)?,
        })),
    }
}

/// Puts the event in, if there is one. It takes no memory.
fn push(log: &mut WatchLog, event: Option<Event>)
    requires room { 0 < log.old.room }
    requires next { IfSome event (λ e. e.version ≡ log.old.version + 1) }
    ensures base { log.new.base ≡ log.old.base }
    ensures all { Logs log.old log.new event }
    ensures none { event ≡ None → log.new ≡ log.old }
    ensures version { IfSome event (λ e. log.new.version ≡ e.version) }
{
    if let Some(event) = event {
        log.push(event);
    }
}

/// The current epoch of the node that a FinishPod names, where it has another.
fn stale_epoch(devices: &Devices, request: &Request) -> Option<u64>
    ensures { result ≡ stale_epoch devices.now.devices request.now }
{
    match request {
        Request::FinishPod { node, epoch, .. } => {
            let current = devices.epoch(node);
            if *epoch == current {
                None
            } else {
                Some(current)
            }
        }
        _ => None,
    }
}

/// A refusal and its copy.
fn refuse(alloc: Global, refusal: Refusal) -> Result<(Reply, Reply), OutOfMemory>
    ensures told { IfOk result (λ r. r.0 ≡ Refused refusal) }
    ensures kept { IfOk result (λ r. r.1 ≡ Refused refusal) }
{
    let kept = refusal.copy(alloc)?;
    Ok((Reply::Refused(refusal), Reply::Refused(kept)))
}

fn is_user(kind: SeatKind) -> bool
    ensures { result ≡ is_user kind }
{
    match kind {
        SeatKind::User => true,
        _ => false,
    }
}

impl Parts {
    /// The parts with which a world begins.
    #[tactic(auto, using(crate::proofs::Worlds::first_parts))]
    pub fn new(alloc: Global, setup: &Setup) -> Result<Parts, OutOfMemory>
        ensures { IfOk result (λ parts. AreOf setup.now parts (first_world setup.now)) }
    {
        let store = Store::from_imports(alloc, setup.imports.as_slice())?;
        let log = WatchLog::from_base(alloc, store.version());
        Ok(Parts {
            store,
            log,
            devices: Devices::new(alloc, setup.pools.as_slice(), setup.faults.as_slice())?,
            moment: Text::new(alloc, FIRST_MOMENT)?,
        })
    }

    /// Makes the write of an outcome, and answers it and a copy of the answer. The change of the store is the
    /// last step that may take memory.
    fn write(&mut self, alloc: Global, made: Made) -> Result<(Reply, Reply), OutOfMemory>
        requires room { self.old.store.version < 2 ^ 62 - 1 }
        requires next { IfSome (event_of (outcome_of made)) (λ e. e.version ≡ self.old.log.version + 1) }
        ensures store { OnOk result (self.new.store ≡ after self.old.store (outcome_of made)) }
        ensures log { OnOk result (Logs self.old.log self.new.log (event_of (outcome_of made))) }
        ensures base { self.new.log.base ≡ self.old.log.base }
        ensures version { OnOk result (self.new.log.version ≡ version_after (event_of (outcome_of made)) self.old.log.version) }
        ensures devices { self.new.devices ≡ self.old.devices }
        ensures moment { self.new.moment ≡ self.old.moment }
        ensures told { IfOk result (λ r. r.0 ≡ reply_of (outcome_of made)) }
        ensures kept { IfOk result (λ r. r.1 ≡ reply_of (outcome_of made)) }
        ensures err { OnErr result (AreAsBefore self.old self.new) }
    {
        let kept = reply_of(alloc, &made)?;
        let event = event_of(alloc, &made)?;
        self.log.reserve()?;
        let told = self.store.apply(made)?;
        push(&mut self.log, event);
        Ok((told, kept))
    }

    /// Answers a request of the store.
    fn on_store(
        &mut self,
        alloc: Global,
        kind: SeatKind,
        request: &Request,
    ) -> Result<(Reply, Reply), OutOfMemory>
        requires asked { is_for_store request.now ≡ true }
        requires may { MayMove self.old }
        ensures ok { IfOk result (IsAnswered self.old self.new kind request.now) }
        ensures err { OnErr result (AreAsBefore self.old self.new) }
    {
        let stale = stale_epoch(&self.devices, request);
        let made = self.store.outcome(kind, request, &self.moment, stale)?;
        self.write(alloc, made)
    }

    /// Answers a request of the devices. It is made once for the copy, so that their change is the last step that
    /// may take memory.
    fn on_devices(
        &mut self,
        alloc: Global,
        kind: SeatKind,
        request: &Request,
    ) -> Result<(Reply, Reply), OutOfMemory>
        requires asked { is_for_devices request.now ≡ true }
        requires may { MayMove self.old }
        ensures ok { IfOk result (IsAnswered self.old self.new kind request.now) }
        ensures err { OnErr result (AreAsBefore self.old self.new) }
    {
        if is_user(kind) {
            return refuse(alloc, Refusal::Forbidden(Rule::Verb));
        }
        let kept = self.devices.answer(request)?;
        let told = self.devices.call(request)?;
        Ok((told, kept))
    }

    fn on_watch(
        &mut self,
        alloc: Global,
        kind: SeatKind,
        of: Kind,
        from: Version,
    ) -> Result<(Reply, Reply), OutOfMemory>
        requires may { MayMove self.old }
        ensures ok { IfOk result (IsAnswered self.old self.new kind (Watch of from)) }
        ensures err { OnErr result (AreAsBefore self.old self.new) }
    {
        match self.log.since(of, from) {
            Ok(events) => {
                let kept = events.copy(alloc)?;
                Ok((Reply::Events(events), Reply::Events(kept)))
            }
            Err(LogError::Ahead { .. }) => refuse(alloc, Refusal::Invalid(Field::From)),
            Err(LogError::Gone { oldest }) => refuse(alloc, Refusal::Gone { oldest }),
            Err(LogError::OutOfMemory) => Err(OutOfMemory),
        }
    }

    fn set_time(
        &mut self,
        alloc: Global,
        kind: SeatKind,
        at: &Text,
    ) -> Result<(Reply, Reply), OutOfMemory>
        requires may { MayMove self.old }
        ensures ok { IfOk result (IsAnswered self.old self.new kind (SetTime at.now)) }
        ensures err { OnErr result (AreAsBefore self.old self.new) }
    {
        if !is_time(at) {
            return refuse(alloc, Refusal::Invalid(Field::Time));
        }
        self.moment = at.copy(alloc)?;
        Ok((Reply::Timed, Reply::Timed))
    }

    /// Answers a request, and answers a copy too. After want of memory nothing has changed.
    pub fn answer(
        &mut self,
        alloc: Global,
        kind: SeatKind,
        request: &Request,
    ) -> Result<(Reply, Reply), OutOfMemory>
        requires may { MayMove self.old }
        ensures ok { IfOk result (IsAnswered self.old self.new kind request.now) }
        ensures err { OnErr result (AreAsBefore self.old self.new) }
    {
        match request {
            Request::SetTime { at } => self.set_time(alloc, kind, at),
            Request::Watch { kind: of, from } => self.on_watch(alloc, kind, *of, *from),
            _ => {
                if is_for_devices(request) {
                    self.on_devices(alloc, kind, request)
                } else {
                    self.on_store(alloc, kind, request)
                }
            }
        }
    }
}
