//! The calls of an actor, as the steps of a life.

ghost use Rattle.std.specs.Prelude.{◌≡◌, List, [], ◌∷◌, Some, None, IfOk, OnOk, false};
ghost use Rattle.call_types.specs.declared.entry.Entry.{Entry};
ghost use Rattle.informer_cache.specs.Cache.{IsTold};
ghost use Rattle.worker_core.specs.declared.role.Role.{Role};
ghost use Rattle.worker_core.specs.declared.turn.Next.TheVariants as nexts;
ghost use Rattle.worker_core.specs.Roles.{IsBuiltKind};
ghost use Rattle.worker_core.specs.Stands.{AreOwn, StandsFor};
ghost use Rattle.worker_core.specs.States.{ActorState, asked};
ghost use Rattle.attention_law.specs.Diligence.{Call, entries};
ghost use Rattle.attention_law.specs.Played.{IsPlayed, Turns};

use call_types::reply::Reply;
use call_types::request::{Request, SeatKind};
use kube_types::copies::OutOfMemory;
use kube_types::text::Text;
use std::alloc::Global;
use worker_core::actor::Actor;
use worker_core::turn::{Next, Outcome};

/// An actor at the beginning of its first life.
pub fn begin(alloc: Global, kind: SeatKind, node: &Text) -> Result<Actor, OutOfMemory>
    requires { IsBuiltKind kind }
    ensures { IfOk result (λ actor. IsPlayed (record { kind = kind; node = node.now }) actor []) }
{
    Actor::new(alloc, kind, node)
}

/// The actor at the beginning of a new life.
pub fn restart(actor: &mut Actor)
    ensures { IsPlayed actor.old.role actor.new [] }
{
    actor.restart();
}

/// What the actor asks next.
pub fn turn(actor: &mut Actor) -> Result<Next, OutOfMemory>
    ensures turns { IfOk result (λ answer. (mine : List Entry) → StandsFor actor.old mine → Turns actor.old actor.new answer mine) }
    ensures asked { IfOk result (λ answer. (request : Request) → answer ≡ nexts.Call request → asked actor.new ≡ Some request) }
{
    actor.next()
}

/// The call was told.
pub fn told(actor: &mut Actor, request: &Request, reply: Reply) -> Result<(), OutOfMemory>
    requires { asked actor.old ≡ Some request.now }
    ensures { OnOk result ((role : Role) (s : ActorState) (calls : List Call) (e : Entry) → IsPlayed role s calls → Turns s actor.old (nexts.Call request.now) (entries calls) → IsTold e request.now reply → e.kind ≡ actor.old.role.kind → AreOwn (e ∷ entries calls) → IsPlayed role actor.new (Some e ∷ calls)) }
{
    actor.absorb(request, Outcome::Told(reply))
}

/// The call was lost.
pub fn lost(actor: &mut Actor, request: &Request) -> Result<(), OutOfMemory>
    requires { asked actor.old ≡ Some request.now }
    ensures before { OnOk result ((role : Role) (s : ActorState) (calls : List Call) → IsPlayed role s calls → Turns s actor.old (nexts.Call request.now) (entries calls) → IsPlayed role actor.new (None ∷ calls)) }
    ensures after { OnOk result ((role : Role) (s : ActorState) (calls : List Call) (e : Entry) → IsPlayed role s calls → Turns s actor.old (nexts.Call request.now) (entries calls) → e.told ≡ false → e.request ≡ request.now → e.kind ≡ actor.old.role.kind → AreOwn (e ∷ entries calls) → IsPlayed role actor.new (Some e ∷ calls)) }
{
    actor.absorb(request, Outcome::Lost)
}

/// The actor was idle, and is woken.
pub fn wake(actor: &mut Actor) -> Result<(), OutOfMemory>
    ensures { OnOk result ((role : Role) (s : ActorState) (calls : List Call) → IsPlayed role s calls → Turns s actor.old nexts.Idle (entries calls) → IsPlayed role actor.new calls) }
{
    actor.wake()
}
