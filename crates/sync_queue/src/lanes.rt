//! The parts of a queue: the map of stages, and the lists of places in it.

ghost use Rattle.std.specs.Prelude.{◌≡◌, ◌+◌, ◌<◌, ◌≤◌, ◌++◌, [], ◌∷◌, Some, None, IfSome, IfNone, IsTrue, OnOk, OnErr, is_some, false, true, length, remove, slice_get};
ghost use Rattle.kube_objects.specs.declared.key.Key.{Key};
ghost use Rattle.std.specs.List.{list_any};
ghost use Rattle.std.specs.Option.{option_map};
ghost use Rattle.std.specs.VecDeque.{deque_len, deque_capacity};
ghost use Rattle.indexmap.specs.IndexMap.{get, keys};
ghost use Rattle.kube_objects.specs.Keys.{same_key};
ghost use Rattle.sync_queue.specs.declared.lanes.KeyStage.TheVariants as stages;
ghost use Rattle.sync_queue.specs.Steps.Lanes.{woken_first, IsSet, IsSound, HasRoomForOne, is_again, is_parked, is_taken, key_in, stage_in, taken_in, work_in};
ghost use Rattle.sync_queue.specs.Steps.Places.{AreBelow, key_there, keys_at};
ghost use Rattle.sync_queue.specs.Work.{without_waiting, no_work, queued, put_aside, marked, unparked, released, oldest_of, begun};

use crate::slot::{AskedKey, Slot};
use indexmap::IndexMap;
use kube_types::key::Key;
use plain_data::copies::OutOfMemory;
use plain_data::shared::Shared;
use std::alloc::Global;
use std::collections::VecDeque;

/// On which list a key stands, and whether it is marked.
#[derive(Clone, Copy, Debug, PartialEq, Eq)]
pub(crate) enum KeyStage {
    Waiting,
    Taken,
    /// Taken, and added again since.
    Again,
    Parked,
    /// On none: the key was let go.
    Gone,
}

/// All keys that were added, and the stage of each. The map owns the keys, and none leaves its place.
pub(crate) type Stages = IndexMap<Slot, KeyStage>;

/// The keys of a queue: the stage of each, and the lists of their places in the map. Each list has room
/// for all keys that stand on one, so that a key goes from one to another without memory.
pub(crate) struct Lanes {
    pub stages: Stages,
    pub waiting: VecDeque<usize>,
    pub taken: VecDeque<usize>,
    pub parked: VecDeque<usize>,
}

impl Drop for Lanes {
    fn drop(self) {
        let Lanes {
            stages,
            waiting,
            taken,
            parked,
        } = self;
        drop(stages);
        drop(waiting);
        drop(taken);
        drop(parked);
    }
}

impl Lanes {
    pub(crate) fn new(alloc: Global) -> Lanes
        ensures sound { IsSound result }
        ensures work { work_in result ≡ no_work }
    {
        Lanes {
            stages: IndexMap::new(alloc),
            waiting: VecDeque::new(alloc),
            taken: VecDeque::new(alloc),
            parked: VecDeque::new(alloc),
        }
    }

    /// The place of a key in the map, and its stage, in constant time.
    pub(crate) fn find(&self, key: &AskedKey<'_>) -> Option<(usize, KeyStage)>
        ensures stage { option_map (λ found. found.1) result ≡ stage_in self.now key.now }
        ensures key { IfSome result (λ found. key_in self.now found.0 ≡ key.now) }
        ensures within { IfSome result (λ found. found.0 < length (keys self.now.stages)) }
    {
        let place = self.stages.get_index_of(key)?;
        Some((place, self.stages[place]))
    }

    /// Makes each list have room for one key more.
    fn make_room(&mut self) -> Result<(), OutOfMemory>
        requires { IsSound self.old }
        ensures sound { IsSound self.new }
        ensures work { work_in self.new ≡ work_in self.old }
        ensures stages { self.new.stages ≡ self.old.stages }
        ensures room { OnOk result (HasRoomForOne self.new) }
    {
        let room = self.waiting.len() + self.taken.len() + self.parked.len() + 1;
        grow(&mut self.waiting, room)?;
        grow(&mut self.taken, room)?;
        grow(&mut self.parked, room)?;
        Ok(())
    }

    /// Puts a new key last on the waiting list.
    pub(crate) fn admit(&mut self, alloc: Global, key: &AskedKey<'_>) -> Result<(), OutOfMemory>
        requires sound { IsSound self.old }
        requires absent { stage_in self.old key.now ≡ None }
        ensures sound { IsSound self.new }
        ensures ok { OnOk result (work_in self.new ≡ queued key.now (work_in self.old)) }
        ensures err { OnErr result (work_in self.new ≡ work_in self.old) }
    {
        let owned = Slot::new(alloc, key)?;
        self.make_room()?;
        let place = self.stages.len();
        self.stages.insert(owned, KeyStage::Waiting)?;
        put_last(&mut self.waiting, place);
        Ok(())
    }

    /// Puts a key that was let go last on the waiting list.
    pub(crate) fn readmit(&mut self, place: usize) -> Result<(), OutOfMemory>
        requires sound { IsSound self.old }
        requires within { place < length (keys self.old.stages) }
        requires gone { stage_in self.old (key_in self.old place) ≡ Some stages.Gone }
        ensures sound { IsSound self.new }
        ensures ok { OnOk result (work_in self.new ≡ queued (key_in self.old place) (work_in self.old)) }
        ensures err { OnErr result (work_in self.new ≡ work_in self.old) }
    {
        self.make_room()?;
        set_stage(&mut self.stages, place, KeyStage::Waiting);
        put_last(&mut self.waiting, place);
        Ok(())
    }

    /// Marks a taken key, so that it comes again.
    pub(crate) fn mark(&mut self, place: usize)
        requires sound { IsSound self.old }
        requires within { place < length (keys self.old.stages) }
        requires taken { is_taken (stage_in self.old (key_in self.old place)) ≡ true }
        ensures sound { IsSound self.new }
        ensures work { work_in self.new ≡ marked (key_in self.old place) (work_in self.old) }
    {
        set_stage(&mut self.stages, place, KeyStage::Again);
    }

    /// Puts a parked key last on the waiting list.
    pub(crate) fn unpark(&mut self, key: &AskedKey<'_>)
        requires sound { IsSound self.old }
        requires parked { is_parked (stage_in self.old key.now) ≡ true }
        ensures sound { IsSound self.new }
        ensures work { work_in self.new ≡ queued key.now (unparked key.now (work_in self.old)) }
    {
        if let Some(at) = place_in(&self.stages, &self.parked, key) {
            let place = take_out(&mut self.parked, at);
            set_stage(&mut self.stages, place, KeyStage::Waiting);
            put_last(&mut self.waiting, place);
        }
    }

    /// Where a key stands among those that are taken, and whether it is marked.
    pub(crate) fn taken_place(&self, key: &AskedKey<'_>) -> Option<(usize, bool)>
        requires sound { IsSound self.now }
        ensures within { IfSome result (λ found. found.0 < deque_len self.now.taken) }
        ensures key { IfSome result (λ found. taken_in self.now found.0 ≡ key.now) }
        ensures taken { is_some result ≡ is_taken (stage_in self.now key.now) }
        ensures again { IfSome result (λ found. found.1 ≡ is_again (stage_in self.now key.now)) }
    {
        let at = place_in(&self.stages, &self.taken, key)?;
        let place = self.taken[at];
        Some((at, is_marked(self.stage(place))))
    }

    /// Puts a taken key last on the waiting list.
    pub(crate) fn requeue(&mut self, at: usize)
        requires sound { IsSound self.old }
        requires within { at < deque_len self.old.taken }
        ensures sound { IsSound self.new }
        ensures work { work_in self.new ≡ queued (taken_in self.old at) (released (taken_in self.old at) (work_in self.old)) }
    {
        let place = take_out(&mut self.taken, at);
        set_stage(&mut self.stages, place, KeyStage::Waiting);
        put_last(&mut self.waiting, place);
    }

    /// Puts a taken key last on the parked list.
    pub(crate) fn park(&mut self, at: usize)
        requires sound { IsSound self.old }
        requires within { at < deque_len self.old.taken }
        ensures sound { IsSound self.new }
        ensures work { work_in self.new ≡ put_aside (taken_in self.old at) (released (taken_in self.old at) (work_in self.old)) }
    {
        let place = take_out(&mut self.taken, at);
        set_stage(&mut self.stages, place, KeyStage::Parked);
        put_last(&mut self.parked, place);
    }

    /// Lets a taken key go.
    pub(crate) fn release(&mut self, at: usize)
        requires sound { IsSound self.old }
        requires within { at < deque_len self.old.taken }
        ensures sound { IsSound self.new }
        ensures work { work_in self.new ≡ released (taken_in self.old at) (work_in self.old) }
    {
        let place = take_out(&mut self.taken, at);
        set_stage(&mut self.stages, place, KeyStage::Gone);
    }

    /// Takes the oldest waiting key, and answers its place in the map.
    pub(crate) fn begin(&mut self) -> Option<usize>
        requires { IsSound self.old }
        ensures sound { IsSound self.new }
        ensures none { IfNone result (oldest_of (work_in self.old).waiting ≡ None) }
        ensures key { IfSome result (λ place. oldest_of (work_in self.old).waiting ≡ Some (key_in self.new place)) }
        ensures within { IfSome result (λ place. place < length (keys self.new.stages)) }
        ensures work { work_in self.new ≡ begun (work_in self.old) }
    {
        let place = self.waiting.pop_front()?;
        set_stage(&mut self.stages, place, KeyStage::Taken);
        put_last(&mut self.taken, place);
        Some(place)
    }

    /// The key at a place of the map.
    pub(crate) fn key(&self, place: usize) -> &Shared<Key>
        requires { place < length (keys self.now.stages) }
        ensures { result.now ≡ key_in self.now place }
    {
        key_at(&self.stages, place)
    }

    /// The stage of the key at a place of the map.
    fn stage(&self, place: usize) -> KeyStage
        requires { place < length (keys self.now.stages) }
        ensures { stage_in self.now (key_in self.now place) ≡ Some result }
    {
        match self.stages.get_index(place) {
            Some((_, stage)) => *stage,
            None => unreachable!(),
        }
    }

    /// Puts the key that was parked first last on the waiting list.
    pub(crate) fn wake_one(&mut self) -> bool
        requires { IsSound self.old }
        ensures sound { IsSound self.new }
        ensures some { result ≡ is_some (oldest_of (work_in self.old).parked) }
        ensures work { work_in self.new ≡ woken_first (work_in self.old) }
    {
        match self.parked.pop_front() {
            None => false,
            Some(place) => {
                set_stage(&mut self.stages, place, KeyStage::Waiting);
                put_last(&mut self.waiting, place);
                true
            }
        }
    }
}

/// Whether this is the stage of a taken key that is marked.
fn is_marked(stage: KeyStage) -> bool
    ensures { result ≡ is_again (Some stage) }
{
    match stage {
        KeyStage::Again => true,
        KeyStage::Waiting | KeyStage::Taken | KeyStage::Parked | KeyStage::Gone => false,
    }
}

/// Gives the key at a place another stage.
fn set_stage(stages: &mut Stages, place: usize, stage: KeyStage)
    requires { place < length (keys stages.old) }
    ensures set { IsSet (get same_key stages.old) (key_there (keys stages.old) place) (Some stage) (get same_key stages.new) }
    ensures keys { keys stages.new ≡ keys stages.old }
{
    let _ = stages.len();
    stages[place] = stage;
}

/// Makes a list have room for this many keys. It makes twice that room, so that it does so seldom.
fn grow(list: &mut VecDeque<usize>, room: usize) -> Result<(), OutOfMemory>
    requires { deque_len list.old < room }
    ensures items { list.new.items ≡ list.old.items }
    ensures len { deque_len list.new ≡ deque_len list.old }
    ensures capacity { deque_capacity list.old ≤ deque_capacity list.new }
    ensures ok { OnOk result (room ≤ deque_capacity list.new) }
{
    if list.capacity() < room {
        list.reserve((room - list.len()).saturating_add(room))?;
    }
    Ok(())
}

/// Puts a place at the end of a list that has room.
pub(crate) fn put_last(list: &mut VecDeque<usize>, place: usize)
    requires { deque_len list.old < deque_capacity list.old }
    ensures items { list.new.items ≡ list.old.items ++ place ∷ [] }
    ensures len { deque_len list.new ≡ deque_len list.old + 1 }
    ensures capacity { deque_capacity list.new ≡ deque_capacity list.old }
{
    list.push_back(place).unwrap();
}

/// Where a key stands first in a list, in time that grows with the place.
pub(crate) fn place_in(stages: &Stages, list: &VecDeque<usize>, key: &AskedKey<'_>) -> Option<usize>
    requires below { AreBelow (length (keys stages.now)) list.now.items }
    ensures within { IfSome result (λ at. at < deque_len list.now) }
    ensures key { IfSome result (λ at. key_there (keys_at (keys stages.now) list.now.items) at ≡ key.now) }
    ensures none { IfNone result (list_any (same_key key.now) (keys_at (keys stages.now) list.now.items) ≡ false) }
{
    for at in 0..list.len() {
        if key.is(key_at(stages, list[at]).get()) {
            return Some(at);
        }
    }
    None
}

/// The key at a place of the map.
fn key_at(stages: &Stages, place: usize) -> &Shared<Key>
    requires { place < length (keys stages.now) }
    ensures { result.now ≡ key_there (keys stages.now) place }
{
    match stages.get_index(place) {
        Some((slot, _)) => slot.key(),
        None => unreachable!(),
    }
}

/// Takes out what stands there in a list, in time that grows with the place.
pub(crate) fn take_out(list: &mut VecDeque<usize>, at: usize) -> usize
    requires { at < deque_len list.old }
    ensures place { slice_get list.old.items at ≡ Some result }
    ensures items { list.new.items ≡ remove list.old.items at }
    ensures len { deque_len list.new + 1 ≡ deque_len list.old }
    ensures capacity { deque_capacity list.new ≡ deque_capacity list.old }
{
    list.remove(at).unwrap()
}
