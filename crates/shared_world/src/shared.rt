//! The shared world.

ghost use Rattle.std.specs.Prelude.{◌≡◌, ℕ, ◌+◌, ◌-◌, ◌<◌, All, IfErr, IfOk, OnErr, length, sum_by, vec_capacity, vec_len};
ghost use Rattle.binder_model.specs.Licence.{Licensed};
ghost use Rattle.binder_model.specs.Told.{own};
ghost use Rattle.seat_lock.specs.Passes.{AreSame, BeginsWithBoth, FoundMade, HasMet, IsApart, IsForkOf, IsSameBut, KeepsNumbers, forks_of, most_made, number_of, pass_count, value_given, view_of};
ghost use Rattle.shared_world.specs.Lines.{kept_of};
ghost use Rattle.shared_world.specs.Passes.{AddsNoSeats, AreFirst, Begins, HasCalled, HasLearnt, IsIn, IsOf, IsSight, mine_of, past_given, seen_by, setup_of, shown_by};

use crate::behind::WorldBehind;
use call_types::ask::Ask;
use call_types::reply::Reply;
use kube_types::copies::OutOfMemory;
use seat_lock::{NotMade, Pass, SeatLock, Sight, StillShared};
use std::alloc::Global;
use std::sync::Wait;
use world_core::kept::KeptWorld;

/// What a thread calls the world with. Its number is the seat of its calls.
pub type WorldPass = Pass<WorldBehind>;

/// What a pass had seen of the world's entries.
pub type WorldSight = Sight<WorldBehind>;

/// A kept world on which one pass at a time may act.
pub struct SharedWorld {
    lock: SeatLock<WorldBehind>,
}

impl Drop for SharedWorld {
    fn drop(self) {
        let SharedWorld { lock } = self;
        drop(lock);
    }
}

/// There was no memory for the lock. The world comes back.
#[derive(Drop)]
pub struct WorldNotMade {
    pub world: KeptWorld,
}

/// The shared world and the passes, where some passes are missing.
#[derive(Drop)]
pub struct WorldShared {
    pub shared: SharedWorld,
    pub passes: Vec<WorldPass>,
    /// How many passes are neither in the list nor were met into one that is.
    pub missing: u64,
}

impl SharedWorld {
    /// The world behind a lock, and its passes, numbered from 1.
    pub fn new(
        alloc: Global,
        world: KeptWorld,
        passes: usize,
    ) -> Result<(SharedWorld, Vec<WorldPass>), WorldNotMade>
        requires { (0 < passes) × (passes < 65536) }
        ensures given { IfOk result (λ t. value_given t.0.lock ≡ kept_of world) }
        ensures many { IfOk result (λ t. vec_len t.1 ≡ passes) }
        ensures of { IfOk result (λ t. All (IsOf t.0) t.1.items) }
        ensures passes { IfOk result (λ t. AreFirst t.0 t.1.items) }
        ensures err { IfErr result (λ e. kept_of e.world ≡ kept_of world) }
    {
        match SeatLock::new(alloc, WorldBehind::of(world), passes) {
            Ok((lock, list)) => Ok((SharedWorld { lock }, list)),
            Err(NotMade { value }) => Err(WorldNotMade {
                world: value.into_world(),
            }),
        }
    }

    /// Waits for the pass's turn, and makes one whole call. A controller's request must be licensed after the pass's own
    /// entries. For want of memory nothing has changed. No clause says that the turn comes.
    pub fn call<R: Wait>(
        &self,
        rt: &R,
        pass: &mut WorldPass,
        ask: &Ask,
        told: bool,
    ) -> Result<Reply, OutOfMemory>
        requires pass { IsOf self.now pass.old }
        requires licensed { Licensed ask.now.kind (mine_of pass.old) ask.now.request }
        ensures pass { IsOf self.now pass.new }
        ensures numbers { KeepsNumbers pass.old pass.new }
        ensures called { IfOk result (λ reply. HasCalled (setup_of self.now)
            (record { seat = number_of pass.old; kind = ask.now.kind; request = ask.now.request; reply = reply; told = told })
            pass.old pass.new) }
        ensures err { OnErr result (view_of pass.new ≡ view_of pass.old) }
    {
        match self.lock.enter(rt, pass, ask, told) {
            Ok(reply) => Ok(reply),
            Err(_) => Err(OutOfMemory),
        }
    }

    /// A new pass with no forks, which has seen what the first had. Its seat is one that no pass had. It takes no memory.
    pub fn fork(&self, pass: &mut WorldPass) -> WorldPass
        requires pass { IsOf self.now pass.old }
        requires left { 0 < forks_of pass.old }
        ensures passes { IsOf self.now pass.new × IsOf self.now result }
        ensures old { IsSameBut (forks_of pass.old - 1) (number_of result) pass.old pass.new }
        ensures new { IsForkOf pass.old result }
        ensures mine { mine_of result ≡ own (number_of result) (past_given self.now) }
    {
        self.lock.fork(pass)
    }

    /// Takes in what the second pass has seen. Its calls stay in the history, and its forks are gone.
    pub fn meet(&self, first: &mut WorldPass, second: WorldPass)
        requires passes { IsOf self.now first.old × IsOf self.now second }
        ensures pass { IsOf self.now first.new }
        ensures seen { BeginsWithBoth first.old second first.new }
        ensures met { HasMet first.old second first.new }
        ensures apart { IsApart first.new }
    {
        self.lock.meet(first, second)
    }

    /// What the pass has seen, for another pass to learn. The pass stays as it was.
    pub fn sight(&self, pass: &mut WorldPass) -> WorldSight
        requires pass { IsOf self.now pass.old }
        ensures pass { IsOf self.now pass.new }
        ensures sight { IsSight self.now result }
        ensures numbers { KeepsNumbers pass.old pass.new }
        ensures view { view_of pass.new ≡ view_of pass.old }
        ensures shown { shown_by result ≡ seen_by pass.old }
    {
        self.lock.sight(pass)
    }

    /// The pass has then seen what the sight shows too, and all that it calls from now on is newer. It makes no call.
    pub fn learn(&self, pass: &mut WorldPass, sight: WorldSight)
        requires pass { IsOf self.now pass.old }
        requires sight { IsSight self.now sight }
        ensures pass { IsOf self.now pass.new }
        ensures learnt { HasLearnt (shown_by sight) pass.old pass.new }
    {
        self.lock.learn(pass, sight)
    }

    /// Gives the world back, if the passes and those that were met into them are all that were ever made. Else all stays as
    /// it was, but that the passes know how many were made. It takes no memory.
    pub fn close(self, passes: Vec<WorldPass>) -> Result<KeptWorld, WorldShared>
        requires some { 0 < vec_len passes }
        requires passes { All (IsOf self) passes.items }

        ensures all { IfOk result (λ world. most_made passes.items ≡ sum_by pass_count passes.items) }
        ensures setup { IfOk result (λ world. world.setup ≡ setup_of self) }
        ensures passes { IfOk result (λ world. All (IsIn world.past) passes.items) }
        ensures begins { IfOk result (λ world. Begins world.past (past_given self)) }
        ensures others { IfOk result (λ world. AddsNoSeats (sum_by pass_count passes.items) (past_given self) world.past) }

        ensures missing { IfErr result (λ e. 0 < e.missing) }
        ensures made { IfErr result (λ e.
            FoundMade (sum_by pass_count passes.items + e.missing) passes.items e.passes.items) }
        ensures same { IfErr result (λ e. (e.shared ≡ self) × AreSame passes.items e.passes.items) }
        ensures still { IfErr result (λ e. All (IsOf e.shared) e.passes.items) }
        ensures room { IfErr result (λ e. vec_capacity e.passes ≡ vec_capacity passes) }
    {
        let SharedWorld { lock } = self;
        match lock.close(passes) {
            Ok(value) => Ok(value.into_world()),
            Err(
                StillShared {
                    lock,
                    passes,
                    missing,
                },
            ) => Err(WorldShared {
                shared: SharedWorld { lock },
                passes,
                missing,
            }),
        }
    }
}
