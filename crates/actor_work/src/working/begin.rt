//! The beginning of an actor's work.

ghost use Rattle.std.specs.Prelude.{◌≡◌, [], All, IfOk};
ghost use Rattle.actor_work.specs.Lives.Lived.{AreLives, past_of};
ghost use Rattle.shared_world.specs.Passes.{IsOf, past_given};
ghost use Rattle.worker_core.specs.Roles.{IsBuiltKind};
ghost use Rattle.actor_turns.specs.Steps.Playing.{SomePlays};
ghost use Rattle.actor_work.specs.Work.Beginning.{AreFrom};
ghost use Rattle.actor_work.specs.Work.Working.{SomeLives};

use actor_turns::part::Part;
use actor_turns::player::Player;
use kube_types::copies::OutOfMemory;
use kube_types::items::Items;
use kube_types::text::Text;
use shared_world::shared::{SharedWorld, WorldPass};
use std::alloc::Global;
use worker_core::actor::Actor;

/// An actor before its first call. An agent serves the node.
pub fn begin(alloc: Global, part: Part, node: &Text) -> Result<Player, OutOfMemory>
    requires built { IsBuiltKind part.kind }
    ensures part { IfOk result (λ x. x.part ≡ part) }
    ensures made { IfOk result (λ x. x.made ≡ 0) }
    ensures held { IfOk result (λ x. x.held ≡ []) }
    ensures role { IfOk result (λ x. x.actor.role ≡ record { kind = part.kind; node = node.now }) }
    ensures plays { IfOk result (λ x. SomePlays x []) }
    ensures lives { IfOk result (λ x. SomeLives (record { kind = part.kind; node = node.now }) x []) }
{
    let actor = Actor::new(alloc, part.kind, node)?;
    let held = Items::new(alloc);
    let seat = part.first;
    Ok(Player {
        part,
        seat,
        made: 0,
        held,
        began: 0,
        actor,
    })
}

/// Passes of a new shared world without entries, whose numbers follow one another, may be those of an actor's lives. It does
/// nothing: its contract is what callers know of the passes.
pub fn have_lives(shared: &SharedWorld, made: u64, first: u64, passes: &Vec<WorldPass>)
    requires from { AreFrom shared.now made first passes.now.items }
    requires none { past_given shared.now ≡ [] }
    ensures lives { AreLives shared.now made first passes.now.items }
    ensures none { past_of passes.now.items ≡ [] }
{
    let _ = shared;
    let _ = (made, first);
    let _ = passes;
}

/// The passes of an actor's lives are of the shared world. It does nothing: its contract is what callers know of them.
pub fn have_passes(shared: &SharedWorld, made: u64, first: u64, passes: &Vec<WorldPass>)
    requires { AreLives shared.now made first passes.now.items }
    ensures { All (IsOf shared.now) passes.now.items }
{
    let _ = shared;
    let _ = (made, first);
    let _ = passes;
}
