//! What answers the calls of seats.

ghost use Rattle.std.specs.Prelude.{◌≡◌, ℕ, Bool, List, IfOk, OnErr, OnOk};
ghost use Rattle.call_types.specs.declared.entry.Entry.{Entry};
ghost use Rattle.call_types.specs.declared.request.Request.{Request};
ghost use Rattle.call_types.specs.declared.setup.Setup.{Setup};
ghost use Rattle.binder_model.specs.Licence.{Licensed};
ghost use Rattle.binder_model.specs.Told.{own};
ghost use Rattle.worker_core.specs.Stands.{AreOwn};
ghost use Rattle.actor_rounds.specs.Answers.Answered.{IsAnswered, IsLatest};

use call_types::ask::Ask;
use call_types::reply::Reply;
use kube_types::copies::OutOfMemory;

/// What answers calls of its seats, one at a time. Of a shared world it has the entries of its own seats alone; of a world
/// of one thread it has all.
pub trait Answers {
    /// What it was lent, where it holds references: what they show, or their names.
    type Lent;

    /// The entries that it has, the newest first.
    ghost past: { Self → List Entry };

    /// The seats that it answers.
    ghost serves: { Self → ℕ → Type 0 };

    /// The seats that it answers in their order alone: once one of them has an entry, no earlier one is called. A world of
    /// one thread has none.
    ghost orders: { Self → ℕ → Type 0 };

    /// Which requests it lets through after these entries. It holds back the others.
    ghost lets: { Self → List Entry → Request → Bool };

    /// The setup with which its world began.
    ghost setup: { Self → Setup };

    /// What it was lent. It keeps it.
    ghost lent: { Self → Self.Lent };

    /// Makes one whole call at one of its seats, where no later one has an entry. It must be licensed after the seat's own
    /// entries. Where it is held back there is no reply, and the entries stay; so they do for want of memory.
    fn call(&mut self, seat: u64, ask: &Ask, told: bool) -> Result<Option<Reply>, OutOfMemory>
        requires serves { serves self.old seat }
        requires latest { IsLatest (orders self.old) seat (past self.old) }
        requires licensed { Licensed ask.now.kind (own seat (past self.old)) ask.now.request }
        ensures answered { IfOk result (λ reply. IsAnswered (lets self.old) seat ask.now.kind ask.now.request told reply (past self.old) (past self.new)) }
        ensures own { OnOk result (AreOwn (own seat (past self.new))) }
        ensures serves { OnOk result ((other : ℕ) → serves self.old other → serves self.new other) }
        ensures orders { OnOk result ((other : ℕ) → orders self.new other → orders self.old other) }
        ensures lets { lets self.new ≡ lets self.old }
        ensures setup { setup self.new ≡ setup self.old }
        ensures lent { lent self.new ≡ lent self.old }
        ensures err { OnErr result (past self.new ≡ past self.old) };
}
