//! The actor.

ghost use Rattle.std.specs.Prelude.{◌≡◌, List, [], ◌∷◌, Some, None, IfOk, OnOk, false, true};
ghost use Rattle.kube_parts.specs.declared.parts.Kind.{Kind};
ghost use Rattle.call_types.specs.declared.entry.Entry.{Entry};
ghost use Rattle.call_types.specs.declared.reply.Reply.{Reply};
ghost use Rattle.informer_cache.specs.All.{AllStandFor, all_objects};
ghost use Rattle.kube_objects.specs.Keys.{AreRows};
ghost use Rattle.informer_cache.specs.Cache.{IsTold, keys_in};
ghost use Rattle.worker_core.specs.declared.turn.Next.TheVariants as nexts;
ghost use Rattle.worker_core.specs.declared.turn.Outcome.TheVariants as outcomes;
ghost use Rattle.worker_core.specs.Absorbs.{absorbed, all_added, is_passing, lost_to, lost_under, pass_after, task_told, told_to, woken};
ghost use Rattle.worker_core.specs.Roles.{IsBuiltKind, kinds_of};
ghost use Rattle.worker_core.specs.Rules.{KeepsKeys, KeepsWaiting, WakesKeys, WokenIsBusy};
ghost use Rattle.worker_core.specs.Stands.{AreOwn, IsLicensedAnswer, IsNew, MayBeIdle, StandsFor};
ghost use Rattle.worker_core.specs.States.{asked, call_in, start_call};
ghost use Rattle.worker_core.specs.Turns.{DecidesKeys, GivesRead, IsTurn, TurnBy, passing, unlisted};

use crate::keys::{add_all, add_cached, decide_keys};
use crate::memory::Remembered;
use crate::pass::{first_unlisted, is_passing, pass_after, read_of_kind};
use crate::role::{Role, first_kind, kinds_of};
use crate::task::{After, Under};
use crate::turn::{Given, Next, Outcome, Pass};
use call_types::reply::Reply;
use call_types::request::{Request, SeatKind};
use informer_cache::caches::Caches;
use kube_types::copies::{OutOfMemory, Plain};
use kube_types::key::Key;
use kube_types::parts::Kind;
use kube_types::text::Text;
use std::alloc::Global;
use std::marker::Model;
use sync_queue::queue::Queue;

/// An actor: its caches, its keys, its passes, and what it has under way.
///
/// Beside the decision on a key a call takes a constant number of look-ups by key, and no cache is copied. An answer to a
/// list or a watch takes what the caches and the queue take for each object that it tells.
pub struct Actor {
    alloc: Global,
    role: Role,
    caches: Caches,
    queue: Queue,
    pass: Pass,
    memory: Remembered,
    under: Option<Under>,
    given: Option<Given>,
}

impl Drop for Actor {
    fn drop(self) {
        let Actor {
            alloc: _,
            role,
            caches,
            queue,
            pass: _,
            memory,
            under,
            given: _,
        } = self;
        drop(role);
        drop(caches);
        drop(queue);
        drop(memory);
        drop(under);
    }
}

impl Model for Actor {
    ghost use Rattle.worker_core.specs.Roles.{IsBuiltKind};
    ghost use Rattle.worker_core.specs.States.{ActorState};

    ghost Value = { ActorState };

    ghost view = { λ a. record { role = a.role; caches = a.caches; work = a.queue; pass = a.pass; memory = a.memory; under = a.under; given = a.given } };

    ghost invariant = { λ a. IsBuiltKind a.role.kind };
}

impl Actor {
    /// An actor that was told nothing. Each kind but that of users is built. `node` is that of an agent.
    pub fn new(alloc: Global, kind: SeatKind, node: &Text) -> Result<Actor, OutOfMemory>
        requires { IsBuiltKind kind }
        ensures is { IfOk result (λ actor. IsNew (record { kind = kind; node = node.now }) actor) }
        ensures stands { IfOk result (λ actor. StandsFor actor []) }
    {
        let role = Role {
            kind,
            node: node.copy(alloc)?,
        };
        Ok(Actor::begun(alloc, role))
    }

    fn begun(alloc: Global, role: Role) -> Actor
        requires { IsBuiltKind role.kind }
        ensures is { IsNew role result }
        ensures stands { StandsFor result [] }
    {
        Actor::of(alloc, role)
    }

    fn of(alloc: Global, role: Role) -> Actor
        requires { IsBuiltKind role.kind }
        ensures { IsNew role result }
    {
        let kind = role.kind;
        let behind = kinds_of(kind).len();
        Actor {
            alloc,
            role,
            caches: new_caches(alloc, kind),
            queue: Queue::new(alloc),
            pass: Pass {
                behind,
                event: true,
            },
            memory: Remembered::new(alloc),
            under: None,
            given: None,
        }
    }

    /// The kind of the actor's seat.
    pub fn kind(&self) -> SeatKind
        ensures kind { result ≡ self.now.role.kind }
        ensures built { IsBuiltKind result }
    {
        self.role.kind
    }

    /// What the actor asks next.
    pub fn next(&mut self) -> Result<Next, OutOfMemory>
        ensures turn { IfOk result (λ answer. IsTurn self.old self.new answer) }
        ensures stands { OnOk result ((mine : List Entry) → StandsFor self.old mine → StandsFor self.new mine) }
        ensures licensed { IfOk result (λ answer. (mine : List Entry) → StandsFor self.old mine → IsLicensedAnswer self.old.role.kind mine answer) }
        ensures idle { IfOk result (λ answer. (mine : List Entry) → StandsFor self.old mine → answer ≡ nexts.Idle → MayBeIdle self.old.role self.old.memory mine) }
        ensures keys { IfOk result (λ answer. KeepsKeys self.old self.new answer) }
        ensures asked { IfOk result (λ answer. call_in answer ≡ asked self.new) }
        ensures order { AreRows (all_objects self.old.caches) }
    {
        self.stand();
        let answer = self.turn()?;
        Ok(answer)
    }

    /// The rows of the caches stand in order, and the actor is of a kind that is built. It does nothing: its contract is
    /// what is known of the actor.
    fn stand(&self)
        ensures order { AreRows (all_objects self.now.caches) }
        ensures built { IsBuiltKind self.now.role.kind }
    {
        self.caches.stand_together();
    }

    /// The turn.
    fn turn(&mut self) -> Result<Next, OutOfMemory>
        ensures { IfOk result (λ answer. IsTurn self.old self.new answer) }
    {
        if self.memory.stale {
            self.given = None;
            return Ok(Next::Idle);
        }
        if let Some(under) = &self.under {
            let call = under.call.copy(self.alloc)?;
            self.given = Some(Given::Task);
            return Ok(Next::Call(call));
        }
        if let Some(call) = self.memory.start(self.alloc, &self.role)? {
            self.given = Some(Given::Start);
            return Ok(Next::Call(call));
        }
        self.after_start()
    }

    /// Lists and watches the kinds, and then decides the waiting keys.
    fn after_start(&mut self) -> Result<Next, OutOfMemory>
        requires under { self.old.under ≡ None }
        requires started { start_call self.old.role self.old.memory ≡ None }
        ensures { IfOk result (λ answer. TurnBy self.old self.new answer false None None (unlisted self.old) (passing self.old)) }
    {
        self.stand();
        let kinds = kinds_of(self.role.kind);
        if let Some(kind) = first_unlisted(&self.caches, kinds) {
            return Ok(self.read(kind));
        }
        if let Some(kind) = kinds.get(self.pass.behind) {
            return Ok(self.read(*kind));
        }
        self.after_keys()
    }

    /// Gives the read of a kind.
    fn read(&mut self, kind: Kind) -> Next
        ensures { GivesRead self.old self.new result kind }
    {
        self.given = Some(Given::Read(kind));
        Next::Call(read_of_kind(&self.caches, kind))
    }

    /// Decides the waiting keys, and where none gives a call begins a pass or is idle.
    #[tactic(auto, using(crate::proofs::ByKind::no_user))]
    fn after_keys(&mut self) -> Result<Next, OutOfMemory>
        requires under { self.old.under ≡ None }
        requires started { start_call self.old.role self.old.memory ≡ None }
        ensures { IfOk result (λ answer. DecidesKeys self.old self.new answer) }
    {
        let first = first_kind(self.role.kind);
        match decide_keys(
            self.alloc,
            &self.role,
            &self.memory,
            &self.caches,
            &mut self.queue,
        )? {
            Some(under) => {
                let call = under.call.copy(self.alloc)?;
                self.under = Some(under);
                self.given = Some(Given::Task);
                Ok(Next::Call(call))
            }
            None => {
                if !self.pass.event {
                    self.given = None;
                    return Ok(Next::Idle);
                }
                self.pass = Pass {
                    behind: 0,
                    event: false,
                };
                Ok(self.read(first))
            }
        }
    }

    /// Takes what came of the call that was given last. After want of memory the actor may only be restarted.
    pub fn absorb(&mut self, request: &Request, outcome: Outcome) -> Result<(), OutOfMemory>
        requires asked { asked self.old ≡ Some request.now }
        ensures state { OnOk result (self.new ≡ absorbed self.old self.new.caches request.now outcome) }
        ensures told { OnOk result ((mine : List Entry) (e : Entry) (reply : Reply) → outcome ≡ outcomes.Told reply → IsTold e request.now reply → e.kind ≡ self.old.role.kind → AreOwn (e ∷ mine) → StandsFor self.old mine → StandsFor self.new (e ∷ mine)) }
        ensures lost_before { OnOk result ((mine : List Entry) → outcome ≡ outcomes.Lost → StandsFor self.old mine → StandsFor self.new mine) }
        ensures lost_after { OnOk result ((mine : List Entry) (e : Entry) → outcome ≡ outcomes.Lost → e.told ≡ false → e.request ≡ request.now → e.kind ≡ self.old.role.kind → AreOwn (e ∷ mine) → StandsFor self.old mine → StandsFor self.new (e ∷ mine)) }
        ensures keys { OnOk result (KeepsWaiting self.old self.new outcome) }
    {
        self.stand();
        self.take(request, &outcome)?;
        Ok(())
    }

    fn take(&mut self, request: &Request, outcome: &Outcome) -> Result<(), OutOfMemory>
        ensures state { OnOk result (self.new ≡ absorbed self.old self.new.caches request.now outcome.now) }
        ensures caches { OnOk result ((mine : List Entry) (e : Entry) (reply : Reply) → outcome.now ≡ outcomes.Told reply → IsTold e request.now reply → AllStandFor self.old.caches mine → AllStandFor self.new.caches (e ∷ mine)) }
    {
        match outcome {
            Outcome::Told(reply) => self.told(request, reply),
            Outcome::Lost => {
                self.lost();
                Ok(())
            }
        }
    }

    /// Takes an answer.
    fn told(&mut self, request: &Request, reply: &Reply) -> Result<(), OutOfMemory>
        ensures state { OnOk result (self.new ≡ told_to self.old self.new.caches request.now reply.now) }
        ensures caches { OnOk result ((mine : List Entry) (e : Entry) → IsTold e request.now reply.now → AllStandFor self.old.caches mine → AllStandFor self.new.caches (e ∷ mine)) }
    {
        let keys = self.caches.absorb(request, reply)?;
        self.move_on(request, reply, keys.as_slice())
    }

    /// Takes an answer that the caches have taken, and that told these keys.
    fn move_on(&mut self, request: &Request, reply: &Reply, keys: &[Key]) -> Result<(), OutOfMemory>
        requires keys { keys.now ≡ keys_in reply.now }
        ensures state { OnOk result (self.new ≡ told_to self.old self.old.caches request.now reply.now) }
        ensures caches { OnOk result (self.new.caches ≡ self.old.caches) }
    {
        self.memory.take(self.alloc, &self.role, request, reply)?;
        match self.given {
            None | Some(Given::Start) => {}
            Some(Given::Task) => self.told_task(reply)?,
            Some(Given::Read(kind)) => self.told_read(kind, request, reply, keys)?,
        }
        self.given = None;
        Ok(())
    }

    /// Takes an answer to the read of a kind.
    fn told_read(
        &mut self,
        kind: Kind,
        request: &Request,
        reply: &Reply,
        keys: &[Key],
    ) -> Result<(), OutOfMemory>
        ensures { OnOk result (self.new ≡ record self.old { work = all_added keys.now self.old.work; pass = pass_after self.old.pass (is_passing (passing self.old) kind) request.now reply.now }) }
    {
        add_all(&mut self.queue, keys)?;
        let kinds = kinds_of(self.role.kind);
        let passes = is_passing(kinds, self.pass.behind, kind);
        self.pass = pass_after(self.pass, passes, request, reply);
        Ok(())
    }

    /// Takes an answer to the call of the task under way.
    fn told_task(&mut self, reply: &Reply) -> Result<(), OutOfMemory>
        ensures { OnOk result (self.new ≡ task_told self.old reply.now self.old.under) }
    {
        let under = match self.under.take() {
            None => return Ok(()),
            Some(under) => under,
        };
        let After { key, next, parks } = under.after(self.alloc, reply)?;
        match next {
            Some(next) => self.under = Some(next),
            None => {
                if parks {
                    self.queue.retry_later(&key);
                } else {
                    self.queue.done(&key);
                }
            }
        }
        Ok(())
    }

    /// Drops the task whose call was lost, and parks its key. Any other call is made again.
    fn lost(&mut self)
        ensures { self.new ≡ lost_to self.old }
    {
        if let Some(Given::Task) = self.given {
            self.lost_task();
        }
        self.given = None;
    }

    fn lost_task(&mut self)
        ensures { self.new ≡ record (lost_under self.old self.old.under) { given = self.old.given } }
    {
        let under = match self.under.take() {
            None => return,
            Some(under) => under,
        };
        self.queue.retry_later(&under.key);
    }

    /// Begins a pass, and queues every cached key, in the order of the kinds and then of namespace and name. The next
    /// answer of `next` is then not `Idle`.
    pub fn wake(&mut self) -> Result<(), OutOfMemory>
        ensures state { OnOk result (self.new ≡ woken self.old) }
        ensures stands { OnOk result ((mine : List Entry) → StandsFor self.old mine → StandsFor self.new mine) }
        ensures keys { OnOk result (WakesKeys self.old self.new) }
        ensures busy { OnOk result (WokenIsBusy self.new) }
    {
        self.stand();
        self.queue_all()
    }

    fn queue_all(&mut self) -> Result<(), OutOfMemory>
        ensures { OnOk result (self.new ≡ woken self.old) }
    {
        let kinds = kinds_of(self.role.kind);
        add_cached(&mut self.queue, &self.caches, kinds)?;
        self.pass = Pass {
            behind: 0,
            event: false,
        };
        Ok(())
    }

    /// As made new. It takes no memory.
    pub fn restart(&mut self)
        ensures is { IsNew self.old.role self.new }
        ensures stands { StandsFor self.new [] }
    {
        self.clear();
    }

    fn clear(&mut self)
        ensures { IsNew self.old.role self.new }
    {
        self.caches = new_caches(self.alloc, self.role.kind);
        self.queue = Queue::new(self.alloc);
        self.pass = Pass {
            behind: kinds_of(self.role.kind).len(),
            event: true,
        };
        self.memory = Remembered::new(self.alloc);
        self.under = None;
        self.given = None;
    }
}

/// Caches that were told nothing. Those of an actor that chooses volumes keep an index of them.
fn new_caches(alloc: Global, kind: SeatKind) -> Caches
    ensures { AllStandFor result [] }
{
    match kind {
        SeatKind::Binder | SeatKind::Ops | SeatKind::Scheduler => Caches::with_index(alloc),
        SeatKind::ClaimProtect | SeatKind::VolumeProtect | SeatKind::Agent | SeatKind::User => {
            Caches::new(alloc)
        }
    }
}
