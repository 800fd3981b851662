//! The passes of one actor's lives.

ghost use Rattle.std.specs.Prelude.{◌≡◌, ◌≤◌, ◌<◌, ◌-◌, ◌+◌, ℕ, Some, [], IfOk, OnErr, OnOk, length};
ghost use Rattle.binder_model.specs.Licence.{Licensed};
ghost use Rattle.binder_model.specs.Told.{own};
ghost use Rattle.worker_core.specs.Stands.{AreOwn};
ghost use Rattle.actor_rounds.specs.Answers.Answered.{IsAnswered, all_pass};
ghost use Rattle.actor_work.specs.Lives.Lived.{AreLives, IsServed, known_by_all, past_of};
ghost use Rattle.actor_work.specs.Lives.Order.{HasSeenEarlier, HasTold};

use actor_rounds::answering::answers::Answers;
use call_types::ask::Ask;
use call_types::reply::Reply;
use kube_types::copies::OutOfMemory;
use shared_world::shared::{SharedWorld, WorldPass};
use std::sync::Wait;

/// The passes of an actor's lives on a shared world, in order: their seats follow one another.
#[derive(Drop)]
pub struct Lives<'a, R: Wait> {
    rt: &'a R,
    shared: &'a SharedWorld,
    made: u64,
    first: u64,
    /// The place of the life that called last.
    at: usize,
    passes: Vec<WorldPass>,
}

impl<'a, R: Wait> Lives<'a, R> {
    /// The passes, of which the first has this number, where so many passes were made in all.
    pub fn of(
        rt: &'a R,
        shared: &'a SharedWorld,
        made: u64,
        first: u64,
        passes: Vec<WorldPass>,
    ) -> Lives<'a, R>
        ensures { (result.shared.now ≡ shared.now) × (result.made ≡ made) × (result.first ≡ first) × (result.passes ≡ passes) × (result.at ≡ 0) }
    {
        Lives {
            rt,
            shared,
            made,
            first,
            at: 0,
            passes,
        }
    }

    /// The passes back.
    pub fn into_passes(self) -> Vec<WorldPass>
        ensures { result ≡ self.entry.passes }
    {
        let Lives {
            rt: _,
            shared: _,
            made: _,
            first: _,
            at: _,
            passes,
        } = self;
        passes
    }

    /// The life at one place has then seen what that at another had. Neither makes a call.
    fn tell(&mut self, from: usize, to: usize)
        requires lives { AreLives self.old.shared.now self.old.made self.old.first self.old.passes.items }
        requires places { (from < length self.old.passes.items) × (to < length self.old.passes.items) }
        ensures lent { (self.new.shared ≡ self.old.shared) × (self.new.made ≡ self.old.made) × (self.new.first ≡ self.old.first) × (self.new.at ≡ self.old.at) }
        ensures lives { AreLives self.old.shared.now self.old.made self.old.first self.new.passes.items }
        ensures long { length self.new.passes.items ≡ length self.old.passes.items }
        ensures past { past_of self.new.passes.items ≡ past_of self.old.passes.items }
        ensures told { HasTold from to (known_by_all self.old.passes.items) (known_by_all self.new.passes.items) }
    {
        let sight = self.shared.sight(&mut self.passes[from]);
        self.shared.learn(&mut self.passes[to], sight);
    }

    /// The life at this place begins, or goes on: it has then seen all that those before it have made.
    fn take_over(&mut self, place: usize)
        requires lives { AreLives self.old.shared.now self.old.made self.old.first self.old.passes.items }
        requires reached { HasSeenEarlier self.old.first self.old.at (known_by_all self.old.passes.items) }
        requires place { (self.old.at ≤ place) × (place < length self.old.passes.items) }
        ensures lent { (self.new.shared ≡ self.old.shared) × (self.new.made ≡ self.old.made) × (self.new.first ≡ self.old.first) × (self.new.at ≡ place) }
        ensures lives { AreLives self.old.shared.now self.old.made self.old.first self.new.passes.items }
        ensures long { length self.new.passes.items ≡ length self.old.passes.items }
        ensures past { past_of self.new.passes.items ≡ past_of self.old.passes.items }
        ensures reached { HasSeenEarlier self.old.first place (known_by_all self.new.passes.items) }
    {
        for earlier in self.at..place {
            self.tell(earlier, place);
        }
        self.at = place;
    }

    /// The call of a life that has seen all that those before it have made.
    fn ask(&mut self, seat: u64, ask: &Ask, told: bool) -> Result<Reply, OutOfMemory>
        requires lives { AreLives self.old.shared.now self.old.made self.old.first self.old.passes.items }
        requires reached { HasSeenEarlier self.old.first self.old.at (known_by_all self.old.passes.items) }
        requires seat { (self.old.first + self.old.at ≡ seat) × (self.old.at < length self.old.passes.items) }
        requires latest { (other : ℕ) → seat < other → other < self.old.first + length self.old.passes.items → own other (past_of self.old.passes.items) ≡ [] }
        requires licensed { Licensed ask.now.kind (own seat (past_of self.old.passes.items)) ask.now.request }
        ensures answered { IfOk result (λ reply. IsAnswered all_pass seat ask.now.kind ask.now.request told (Some reply) (past_of self.old.passes.items) (past_of self.new.passes.items)) }
        ensures own { OnOk result (AreOwn (own seat (past_of self.new.passes.items))) }
        ensures served { OnOk result (IsServed self.old.shared.now self.old.made self.old.first self.old.at self.new.passes.items seat) }
        ensures lent { (self.new.shared ≡ self.old.shared) × (self.new.made ≡ self.old.made) × (self.new.first ≡ self.old.first) × (self.new.at ≡ self.old.at) }
        ensures long { length self.new.passes.items ≡ length self.old.passes.items }
        ensures err { OnErr result (past_of self.new.passes.items ≡ past_of self.old.passes.items) }
    {
        let reply = self
            .shared
            .call(self.rt, &mut self.passes[self.at], ask, told)?;
        Ok(reply)
    }
}

impl<'a, R: Wait> Answers for Lives<'a, R> {
    ghost use Rattle.std.specs.Prelude.{true};
    ghost use Rattle.shared_world.specs.Passes.{setup_of};

    type Lent = (&'a SharedWorld, u64, u64);

    ghost past = { λ l. past_of l.passes.items };

    ghost serves = { λ l seat. IsServed l.shared.now l.made l.first l.at l.passes.items seat };

    ghost orders = { λ l seat. IsServed l.shared.now l.made l.first l.at l.passes.items seat };

    ghost lets = { λ l past request. true };

    ghost setup = { λ l. setup_of l.shared.now };

    ghost lent = { λ l. (l.shared, l.made, l.first) };

    fn call(&mut self, seat: u64, ask: &Ask, told: bool) -> Result<Option<Reply>, OutOfMemory> {
        let place = (seat - self.first) as usize;
        self.take_over(place);
        let reply = self.ask(seat, ask, told)?;
        Ok(Some(reply))
    }
}
