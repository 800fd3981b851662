//! What the lines of the side said so far.

ghost use Rattle.std.specs.Prelude.{◌≡◌, IfOk, OnOk, Ok};
ghost use Rattle.serde_json.specs.View.{view};
ghost use Rattle.script_lines.specs.Answers.{ScriptGives};
ghost use Rattle.extended_text.specs.Extended.{extended_by, or_none, with_script, with_side};
ghost use Rattle.extended_text.specs.Sides.{and_side, and_word, no_sides};
ghost use Rattle.extended_text.specs.Steps.Read.{TakesSide, read_so_far, side_view};

use crate::line_readers::{SideText, side_line};
use crate::places::placed_all;
use crate::sides::{Extended, NumberedSide, SideLine, SideWord};
use kube_types::copies::{OutOfMemory, Plain};
use kube_types::items::Items;
use script_lines::errors::{BadLine, LineError, Reason, ScriptError};
use script_text::script::Numbered;
use serde_json::Value;
use side_calls::quotas::Quota;
use std::alloc::Global;

const MOST_LINES: u64 = 4096;

/// How many namespaces may have a quota.
const MOST_QUOTAS: usize = 64;

/// What was said: the quotas, the bytes for growth, and the lines in their order.
pub struct SideSaid {
    pub quotas: Items<Quota>,
    pub reserve: Option<u64>,
    pub sides: Items<NumberedSide>,
}

impl Drop for SideSaid {
    fn drop(self) {
        let SideSaid {
            quotas,
            reserve: _,
            sides,
        } = self;
        drop(quotas);
        drop(sides);
    }
}

/// What was said, and the first line that was refused.
pub struct SidesRead {
    pub said: SideSaid,
    pub fault: Option<BadLine>,
}

impl Drop for SidesRead {
    fn drop(self) {
        let SidesRead { said, fault: _ } = self;
        drop(said);
    }
}

impl SideSaid {
    fn note(&mut self, alloc: Global, number: u64, line: SideLine) -> Result<(), OutOfMemory>
        ensures ok { OnOk result (self.new ≡ and_side self.old number line) }
    {
        match &line {
            SideLine::Quota(quota) => self.quotas.push(quota.copy(alloc)?)?,
            SideLine::Reserve { bytes } => self.reserve = Some(*bytes),
            SideLine::Grow {
                user: _,
                key: _,
                bytes: _,
            } => {}
        }
        self.sides.push(NumberedSide { number, line })
    }

    /// Takes the line of this number, unless it is refused.
    #[tactic(auto, unfolding(crate::specs::Sides::and_word))]
    fn take(
        &mut self,
        alloc: Global,
        number: u64,
        word: SideWord,
        value: &Value,
    ) -> Result<(), LineError>
        ensures { TakesSide result self.new (and_word self.old number word (view value.now)) }
    {
        let line = side_line(alloc, word, self, value)?;
        if number > MOST_LINES {
            return Err(LineError::Refused(Reason::TooManyLines));
        }
        self.note(alloc, number, line)?;
        if self.quotas.as_slice().len() > MOST_QUOTAS {
            return Err(LineError::Refused(Reason::TooManyQuotas));
        }
        Ok(())
    }
}

impl SidesRead {
    /// Nothing was read. It takes no memory.
    pub(crate) fn new(alloc: Global) -> SidesRead
        ensures { read_so_far result ≡ Ok no_sides }
    {
        SidesRead {
            said: SideSaid {
                quotas: Items::new(alloc),
                reserve: None,
                sides: Items::new(alloc),
            },
            fault: None,
        }
    }

    /// Takes a line of this number, unless one was refused before.
    pub(crate) fn take(
        &mut self,
        alloc: Global,
        number: u64,
        side: &SideText,
    ) -> Result<(), OutOfMemory>
        ensures ok { OnOk result (read_so_far self.new ≡ with_side (read_so_far self.old) number (side_view side.now)) }
    {
        if self.fault.is_some() {
            return Ok(());
        }
        match self.said.take(alloc, number, side.word, side.tree.value()) {
            Ok(()) => {}
            Err(LineError::OutOfMemory) => return Err(OutOfMemory),
            Err(LineError::Refused(reason)) => {
                self.fault = Some(BadLine {
                    line: number,
                    reason,
                });
            }
        }
        Ok(())
    }
}

// ---- beside a script

fn or_none(reserve: Option<u64>) -> u64
    ensures { result ≡ or_none reserve }
{
    match reserve {
        Some(bytes) => bytes,
        None => 0,
    }
}

impl SideSaid {
    /// The extended script of a script and of what was said.
    #[tactic(auto, unfolding(crate::specs::Extended::extended_by))]
    fn beside(self, alloc: Global, numbered: Numbered) -> Result<Extended, OutOfMemory>
        ensures said { IfOk result (λ e. e ≡ extended_by numbered self) }
        ensures script { IfOk result (λ e. e.script ≡ numbered.script) }
    {
        let sides = placed_all(alloc, numbered.numbers.as_slice(), self.sides.as_slice())?;
        let SideSaid {
            quotas,
            reserve,
            sides: _,
        } = self;
        Ok(Extended {
            script: numbered.into_script(),
            quotas,
            reserve: or_none(reserve),
            sides,
        })
    }
}

impl SidesRead {
    /// With the script of the other half.
    pub(crate) fn with_script(
        self,
        alloc: Global,
        numbered: Numbered,
    ) -> Result<Extended, ScriptError>
        ensures gives { ScriptGives result (with_script numbered (read_so_far self)) }
        ensures script { IfOk result (λ e. e.script ≡ numbered.script) }
    {
        let SidesRead { said, fault } = self;
        match fault {
            Some(bad) => Err(ScriptError::BadLine(bad)),
            None => Ok(said.beside(alloc, numbered)?),
        }
    }
}
