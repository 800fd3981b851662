//! A world with its side, moved by one work of an extended script at a time.

ghost use Rattle.std.specs.Prelude.{◌≡◌, ◌+◌, ◌<◌, ◌≤◌, [], ◌∷◌, IfOk, OnOk, ℕ, Option, Some, length, slice_get};
ghost use Rattle.call_types.specs.declared.request.Request.TheVariants.{Create};
ghost use Rattle.size_law.specs.Calls.Calls.{AreByActors};
ghost use Rattle.script_text.specs.declared.script.Line.{Line};
ghost use Rattle.script_text.specs.declared.script.Line.TheVariants.{Call};
ghost use Rattle.script_text.specs.declared.script.Script.{Script};
ghost use Rattle.script_runs.specs.Limits.{IsReadable};
ghost use Rattle.extended_runs.specs.Steps.Sides.{SomeSide};
ghost use Rattle.extended_runs.specs.Works.{OfGrowth, OfScript, with_side};
ghost use Rattle.extended_play.specs.Steps.Walking.{BeginsWalk, EndsWalk, HasEntered, HasWalked, LinesDone, SomeWalks};

use call_types::request::Request;
use extended_runs::sides::{KeptSide, held_by};
use extended_text::sides::SideLine;
use kube_types::copies::OutOfMemory;
use kube_types::key::Key;
use kube_types::objects::Object;
use script_runs::stage::{Stage, begin as begin_stage};
use script_text::script::{Line, Script};
use side_calls::quotas::Quota;
use std::alloc::Global;
use world_core::drained::Drained;
use world_core::kept::KeptWorld;

/// The world of a script and all who call it, the side, and the place of the line that comes next.
pub struct Walk {
    pub stage: Stage,
    pub side: KeptSide,
    pub place: usize,
}

impl Drop for Walk {
    fn drop(self) {
        let Walk {
            stage,
            side,
            place: _,
        } = self;
        drop(stage);
        drop(side);
    }
}

/// A world of the script's setup, new actors, and a side with these quotas and so many bytes for growth.
pub fn begin(
    alloc: Global,
    script: &Script,
    quotas: &[Quota],
    reserve: u64,
    option: Option<u64>,
) -> Result<Walk, OutOfMemory>
    requires { IsReadable script.now }
    ensures begins { IfOk result (BeginsWalk script.now (record { quotas = quotas.now; reserve = reserve }) option) }
    ensures place { IfOk result (λ w. w.place ≡ 0) }
{
    let stage = begin_stage(alloc, script, option)?;
    let side = KeptSide::new(alloc, quotas, reserve, stage.world.world())?;
    Ok(Walk {
        stage,
        side,
        place: 0,
    })
}

impl Walk {
    /// The line that comes next reaches the world, and the side is told what it did there.
    fn enter(&mut self, script: &Script, option: Option<u64>) -> Result<(), OutOfMemory>
        requires readable { IsReadable script.now }
        requires place { self.old.place < length script.now.lines }
        requires stands { SomeWalks script.now option self.old }
        ensures entered { OnOk result ((line : Line) → slice_get script.now.lines self.old.place ≡ Some line → HasEntered script.now option line self.old self.new) }
        ensures place { OnOk result (self.new.place ≡ self.old.place + 1) }
    {
        self.stage.play(script, option, self.place)?;
        self.side.catch_up(self.stage.world.world())?;
        self.place += 1;
        Ok(())
    }

    /// A user's create comes next: it is held back where a quota refuses it.
    fn create(
        &mut self,
        script: &Script,
        option: Option<u64>,
        user: u64,
        object: &Object,
    ) -> Result<(), OutOfMemory>
        requires readable { IsReadable script.now }
        requires place { self.old.place < length script.now.lines }
        requires stands { SomeWalks script.now option self.old }
        requires there { slice_get script.now.lines self.old.place ≡ Some (Call user (Create object.now)) }
        ensures walked { OnOk result (HasWalked script.now option (OfScript (Call user (Create object.now)) ∷ []) self.old self.new) }
        ensures place { OnOk result (self.new.place ≡ self.old.place + 1) }
    {
        match held_by(&self.side.quotas, object) {
            Some(over) => {
                self.place += 1;
                self.side.hold(user, object, over)
            }
            None => self.enter(script, option),
        }
    }

    /// A user's call comes next.
    fn call(
        &mut self,
        script: &Script,
        option: Option<u64>,
        user: u64,
        request: &Request,
    ) -> Result<(), OutOfMemory>
        requires readable { IsReadable script.now }
        requires place { self.old.place < length script.now.lines }
        requires stands { SomeWalks script.now option self.old }
        requires there { slice_get script.now.lines self.old.place ≡ Some (Call user request.now) }
        ensures walked { OnOk result (HasWalked script.now option (OfScript (Call user request.now) ∷ []) self.old self.new) }
        ensures place { OnOk result (self.new.place ≡ self.old.place + 1) }
    {
        match request {
            Request::Create { object } => self.create(script, option, user, object),
            _ => self.enter(script, option),
        }
    }

    /// Does what the line says that comes next, and after a drain lets growth go on until it rests.
    fn line(&mut self, script: &Script, option: Option<u64>) -> Result<(), OutOfMemory>
        requires readable { IsReadable script.now }
        requires place { self.old.place < length script.now.lines }
        requires stands { SomeWalks script.now option self.old }
        ensures walked { OnOk result ((line : Line) → slice_get script.now.lines self.old.place ≡ Some line → HasWalked script.now option (OfScript line ∷ []) self.old self.new) }
        ensures place { OnOk result (self.new.place ≡ self.old.place + 1) }
    {
        match &script.lines.as_slice()[self.place] {
            Line::Call { user, request } => self.call(script, option, *user, request),
            Line::Drain => {
                self.enter(script, option)?;
                self.side.rest()
            }
            Line::Lose {
                actor: _,
                call: _,
                after: _,
            }
            | Line::Restart { actor: _, after: _ }
            | Line::Turn { actor: _, calls: _ } => self.enter(script, option),
        }
    }

    /// Does what the lines say from the one that comes next up to this place, or up to the last.
    pub fn lines_before(
        &mut self,
        script: &Script,
        option: Option<u64>,
        before: usize,
    ) -> Result<(), OutOfMemory>
        requires readable { IsReadable script.now }
        requires stands { SomeWalks script.now option self.old }
        ensures { OnOk result (LinesDone script.now option before self.old self.new) }
    {
        'lines: while self.place < before && self.place < script.lines.as_slice().len() {
            self.line(script, option)?;
        }
        Ok(())
    }

    /// Answers a user's wish that the claim of a key grow.
    fn grow(&mut self, user: u64, key: &Key, bytes: u64) -> Result<(), OutOfMemory>
        requires { SomeSide self.old.stage.world.setup self.old.stage.world.past self.old.side }
        ensures walked { OnOk result ((script : Script) (option : Option ℕ) → HasWalked script option (OfGrowth user key.now bytes ∷ []) self.old self.new) }
        ensures place { self.new.place ≡ self.old.place }
    {
        self.side.grow(self.stage.world.world(), user, key, bytes)
    }

    /// Does what a line of the side asks; a quota and the bytes for growth are there from the start.
    pub fn ask(&mut self, line: &SideLine) -> Result<(), OutOfMemory>
        requires { SomeSide self.old.stage.world.setup self.old.stage.world.past self.old.side }
        ensures walked { OnOk result ((script : Script) (option : Option ℕ) → HasWalked script option (with_side line.now []) self.old self.new) }
        ensures place { self.new.place ≡ self.old.place }
    {
        match line {
            SideLine::Grow { user, key, bytes } => self.grow(*user, key, *bytes),
            SideLine::Quota(_) => Ok(()),
            SideLine::Reserve { bytes: _ } => Ok(()),
        }
    }

    /// Drains, lets growth go on until it rests, and says how all drains ended.
    pub fn end(
        &mut self,
        alloc: Global,
        script: &Script,
        option: Option<u64>,
    ) -> Result<Drained, OutOfMemory>
        requires { SomeWalks script.now option self.old }
        ensures { IfOk result (EndsWalk script.now option self.old self.new) }
    {
        let ending = self.stage.end(alloc, script, option)?;
        let side = &mut self.side;
        side.catch_up(self.stage.world.world())?;
        side.rest()?;
        Ok(ending)
    }

    /// The world and the side alone.
    pub fn into_parts(self) -> (KeptWorld, KeptSide)
        ensures world { result.0 ≡ self.stage.world }
        ensures side { result.1 ≡ self.side }
    {
        let Walk {
            stage,
            side,
            place: _,
        } = self;
        (stage.into_world(), side)
    }
}
