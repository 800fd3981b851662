//! The four users of a script, at the same time.

ghost use Rattle.std.specs.Prelude.{◌≡◌, [], ◌∷◌, IfOk};
ghost use Rattle.shared_work.specs.Users.{AreOfUsers};

use crate::crew::{Hired, run_crew};
use crate::lines::UserLines;
use fault_io::gate::Gate;
use kube_types::copies::OutOfMemory;
use script_text::script::Script;
use std::alloc::Global;
use std::sync::Wait;
use std::thread::Threads;
use world_core::kept::KeptWorld;

/// A user has one seat.
fn user<'a, G: Gate>(alloc: Global, gate: &'a G, script: &'a Script) -> Hired<UserLines<'a, G>>
    ensures script { result.worker.script.now ≡ script.now }
    ensures seats { result.seats ≡ 1 }
{
    Hired {
        worker: UserLines {
            alloc,
            listener: gate,
            script,
        },
        seats: 1,
    }
}

/// The four users do their lines of the script on the world, each on a thread of its own where one can be made. Lines that are
/// no user's are passed over.
pub fn run_users<R: Threads + Wait + Sync, G: Gate>(
    rt: &R,
    alloc: Global,
    gate: &G,
    world: KeptWorld,
    script: &Script,
) -> Result<KeptWorld, OutOfMemory>
    requires { world.past ≡ [] }
    ensures setup { IfOk result (λ after. after.setup ≡ world.setup) }
    ensures users { IfOk result (λ after. AreOfUsers script.now.lines after.past) }
{
    let one = user(alloc, gate, script);
    let two = user(alloc, gate, script);
    let three = user(alloc, gate, script);
    let four = user(alloc, gate, script);
    let users = vec![in alloc; one, two, three, four]?;
    run_crew(rt, alloc, world, users)
}
