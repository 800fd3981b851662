//! The queue.

ghost use Rattle.std.specs.Prelude.{◌≡◌, IfOk, OnOk, OnErr, length};
ghost use Rattle.kube_objects.specs.Keys.{key_of};
ghost use Rattle.std.specs.Borrow.{sem};
ghost use Rattle.std.specs.Option.{option_copied};
ghost use Rattle.sync_queue.specs.Work.{no_work, added, oldest_of, begun, finished, put_off, woken, StandsOnce};

use crate::lanes::{KeyStage, Lanes};
use crate::slot::AskedKey;
use kube_types::key::Key;
use kube_types::objects::Object;
use plain_data::copies::{OutOfMemory, Plain};
use plain_data::shared::Shared;
use std::alloc::Global;
use std::marker::Model;

/// The keys that a controller has to look at, each once: those that wait, oldest first, those that
/// are taken, and those that are parked until they are added or all are woken.
///
/// Only what adds takes memory. A look-up is by hash, so what is called constant below is so on average.
pub struct Queue {
    alloc: Global,
    lanes: Lanes,
}

impl Drop for Queue {
    fn drop(self) {
        let Queue { alloc: _, lanes } = self;
        drop(lanes);
    }
}

impl Model for Queue {
    ghost use Rattle.sync_queue.specs.Work.{Work};
    ghost use Rattle.sync_queue.specs.Steps.Lanes.{IsSound, work_in};

    ghost Value = { Work };

    ghost view = { λ q. work_in q.lanes };

    ghost invariant = { λ q. IsSound q.lanes };
}

impl Queue {
    ghost use Rattle.sync_queue.specs.After.{EndsWith};

    /// A queue without keys. It takes no memory.
    pub fn new(alloc: Global) -> Queue
        ensures { result ≡ no_work }
    {
        Queue {
            alloc,
            lanes: Lanes::new(alloc),
        }
    }

    /// A waiting key stays where it is, a taken key is marked to come again, a parked or a new key
    /// goes last. It takes constant time, and for a parked key time that grows with the number of
    /// parked keys; now and then room is made, in time that grows with the number of keys. It takes
    /// memory for a key that was never added before, and for such room.
    pub fn add(&mut self, key: &Key) -> Result<(), OutOfMemory>
        ensures ok { OnOk result (self.new ≡ added key.now self.old) }
        ensures err { OnErr result (self.new ≡ self.old) }
    {
        self.add_asked(&AskedKey::of(key))
    }

    /// Adds the key of the object, as `add` does. No key is made where it was added before.
    pub fn add_object(&mut self, object: &Object) -> Result<(), OutOfMemory>
        ensures ok { OnOk result (self.new ≡ added (key_of object.now) self.old) }
        ensures err { OnErr result (self.new ≡ self.old) }
    {
        self.add_asked(&AskedKey::of_object(object))
    }

    fn add_asked(&mut self, key: &AskedKey<'_>) -> Result<(), OutOfMemory>
        ensures ok { OnOk result (self.new ≡ added key.now self.old) }
        ensures err { OnErr result (self.new ≡ self.old) }
    {
        match self.lanes.find(key) {
            None => self.lanes.admit(self.alloc, key)?,
            Some((place, KeyStage::Gone)) => self.lanes.readmit(place)?,
            Some((_, KeyStage::Waiting)) => return Ok(()),
            Some((place, KeyStage::Taken)) => self.lanes.mark(place),
            Some((place, KeyStage::Again)) => self.lanes.mark(place),
            Some((_, KeyStage::Parked)) => self.lanes.unpark(key),
        }
        Ok(())
    }

    /// Takes the key that has waited longest, in constant time. None exactly where no key waits.
    pub fn take(&mut self) -> Option<&Key>
        ensures* after { sem 𝓛 (EndsWith self.entry (begun self.old)) }
        ensures oldest { option_copied result ≡ oldest_of self.old.waiting }
    {
        let place = self.lanes.begin()?;
        Some(self.lanes.key(place).get())
    }

    /// Takes the key that has waited longest as `take` does, and shares it, which takes no memory.
    pub fn take_shared(&mut self) -> Result<Option<Shared<Key>>, OutOfMemory>
        ensures after { self.new ≡ begun self.old }
        ensures oldest { IfOk result (λ key. key ≡ oldest_of self.old.waiting) }
    {
        match self.lanes.begin() {
            None => Ok(None),
            Some(place) => Ok(Some(self.lanes.key(place).copy(self.alloc)?)),
        }
    }

    /// The key is no longer taken, and goes last where it was marked. Nothing changes where it is
    /// not taken. It takes time that grows with the number of keys that are taken at once, which
    /// for one worker is one.
    pub fn done(&mut self, key: &Key)
        ensures { self.new ≡ finished key.now self.old }
    {
        match self.lanes.taken_place(&AskedKey::of(key)) {
            Some((at, false)) => self.lanes.release(at),
            Some((at, true)) => self.lanes.requeue(at),
            None => {}
        }
    }

    /// The key is no longer taken: it goes last where it was marked, and else is parked. Nothing
    /// changes where it is not taken. It takes the time of `done`.
    pub fn retry_later(&mut self, key: &Key)
        ensures { self.new ≡ put_off key.now self.old }
    {
        match self.lanes.taken_place(&AskedKey::of(key)) {
            Some((at, false)) => self.lanes.park(at),
            Some((at, true)) => self.lanes.requeue(at),
            None => {}
        }
    }

    /// The parked keys go last, in the order in which they were parked, in constant time each.
    pub fn wake(&mut self)
        ensures { self.new ≡ woken self.old }
    {
        while self.lanes.wake_one() {}
    }

    /// How many keys wait, in constant time.
    pub fn len(&self) -> usize
        ensures waiting { result ≡ length self.now.waiting }
        ensures once { StandsOnce self.now }
    {
        self.lanes.waiting.len()
    }
}
