//! The users of a script.

ghost use Rattle.std.specs.Prelude.{◌≡◌, ℕ, ◌+◌, ◌^◌, ◌<◌, OnOk};
ghost use Rattle.shared_world.specs.Passes.{IsOf};
ghost use Rattle.shared_work.specs.Lines.{HasAsked, HasDone};
ghost use Rattle.shared_work.specs.Seats.{IsKept, seat_of};

use crate::worker::Worker;
use call_types::ask::Ask;
use call_types::request::{Request, SeatKind};
use fault_io::gate::Listener;
use kube_types::copies::{OutOfMemory, Plain};
use script_text::script::{Line, Script};
use shared_world::shared::{SharedWorld, WorldPass};
use std::alloc::Global;
use std::sync::Wait;

/// Makes a user's call, the one of this number.
fn ask<R: Wait, L: Listener>(
    rt: &R,
    alloc: Global,
    listener: &L,
    shared: &SharedWorld,
    pass: &mut WorldPass,
    nth: u64,
    request: &Request,
) -> Result<(), OutOfMemory>
    requires pass { IsOf shared.now pass.old }
    ensures pass { OnOk result (IsOf shared.now pass.new) }
    ensures kept { OnOk result (IsKept pass.old pass.new) }
    ensures asked { OnOk result (HasAsked request.now (seat_of pass.old) (seat_of pass.new)) }
{
    let request = request.copy(alloc)?;
    let ask = Ask {
        kind: SeatKind::User,
        request,
    };
    listener.comes(pass.number(), nth);
    let _reply = shared.call(rt, pass, &ask, true)?;
    listener.went(pass.number(), nth);
    Ok(())
}

/// Makes the calls of a user's lines, in order, with the pass whose number is the user's. Other lines are passed over.
pub fn do_lines<R: Wait, L: Listener>(
    rt: &R,
    alloc: Global,
    listener: &L,
    shared: &SharedWorld,
    pass: &mut WorldPass,
    lines: &[Line],
) -> Result<(), OutOfMemory>
    requires pass { IsOf shared.now pass.old }
    ensures pass { OnOk result (IsOf shared.now pass.new) }
    ensures kept { OnOk result (IsKept pass.old pass.new) }
    ensures done { OnOk result (HasDone lines.now (seat_of pass.old) (seat_of pass.new)) }
{
    let mut made = 0;
    for line in lines {
        if let Line::Call { user, request } = line {
            if *user == pass.number() {
                made += 1;
                ask(rt, alloc, listener, shared, pass, made, request)?;
            }
        }
    }
    Ok(())
}

/// A user, who does the lines of its number in the script. It has one seat.
#[derive(Drop)]
pub struct UserLines<'a, L> {
    pub alloc: Global,
    pub listener: &'a L,
    pub script: &'a Script,
}

impl<'a, L: Listener> Worker for UserLines<'a, L> {
    ghost use Rattle.std.specs.Prelude.{⊤};
    ghost use Rattle.shared_work.specs.Lines.{DoLines};
    ghost use Rattle.shared_work.specs.Seats.{IsOneSeat};

    ghost needs = { λ user before. IsOneSeat before };

    ghost does = { λ user before after. DoLines user.script.now.lines before after };

    ghost leaves = { λ user past. ⊤ };

    fn work<R: Wait>(
        self,
        rt: &R,
        shared: &SharedWorld,
        _made: u64,
        passes: Vec<WorldPass>,
    ) -> Result<Vec<WorldPass>, OutOfMemory> {
        let mut passes = passes;
        do_lines(
            rt,
            self.alloc,
            self.listener,
            shared,
            &mut passes[0],
            self.script.lines.as_slice(),
        )?;
        Ok(passes)
    }
}
