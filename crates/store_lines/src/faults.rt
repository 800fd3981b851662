//! Why a line is answered with nothing done.

ghost use Rattle.std.specs.Prelude.{◌≡◌, IfOk, string_bytes};
ghost use Rattle.store_lines.specs.Faults.{fault_text, fault_word};

use kube_types::copies::OutOfMemory;
use script_lines::errors::Reason;
use script_lines::refusals::reason_text;
use std::alloc::Global;
use store_asks::errors::AskMember;

/// Why a line is answered with nothing done, the first that applies.
#[derive(Clone, Copy)]
pub enum LineFault {
    /// The line has more than 4,194,304 bytes.
    TooLong,
    /// It is no JSON text of at most 127 levels, or not in UTF-8.
    NotJson,
    /// The value is no object.
    NotObject,
    /// No member tells what the line is.
    UnknownLine,
    /// It is not the text that is printed of a setup, or its imports do not pass.
    BadSetup,
    /// A member of an ask is at fault.
    BadAsk(AskMember),
    /// It is no line of a script.
    BadScript(Reason),
    /// It is a line of a script, but no user's call.
    NotCall,
    /// No setup came before it.
    NoSetup,
    /// A setup came before it.
    SecondSetup,
}

/// Why no line was read.
#[derive(Clone, Copy)]
pub enum StoreLineError {
    OutOfMemory,
    Refused(LineFault),
}

impl From<OutOfMemory> for StoreLineError {
    ghost use Rattle.std.specs.Prelude.{◌≡◌};
    ghost use Rattle.store_lines.specs.declared.faults.StoreLineError.TheVariants.{OutOfMemory};

    ghost from_gives = { λ _ e. e ≡ OutOfMemory };

    fn from(_e: OutOfMemory) -> StoreLineError {
        StoreLineError::OutOfMemory
    }
}

fn fault_word(fault: LineFault) -> &'static str
    ensures { result.now ≡ fault_word fault }
{
    match fault {
        LineFault::TooLong => "TooLong",
        LineFault::NotJson => "NotJson",
        LineFault::NotObject => "NotObject",
        LineFault::UnknownLine => "UnknownLine",
        LineFault::BadSetup => "BadSetup",
        LineFault::BadAsk(_) => "BadAsk",
        LineFault::BadScript(_) => "BadScript",
        LineFault::NotCall => "NotCall",
        LineFault::NoSetup => "NoSetup",
        LineFault::SecondSetup => "SecondSetup",
    }
}

/// The word of the fault; behind a blank the member of an ask, or why the line is none of a script.
#[tactic(auto, unfolding(crate::specs::Faults::fault_text))]
pub fn fault_text(alloc: Global, fault: LineFault) -> Result<String, OutOfMemory>
    ensures { IfOk result (λ text. string_bytes text ≡ fault_text fault) }
{
    let word = fault_word(fault);
    match fault {
        LineFault::BadAsk(member) => {
            let name = member.name();
            Ok(format!(in alloc; "{word} {name}")?)
        }
        LineFault::BadScript(reason) => {
            let reason = reason_text(alloc, reason)?;
            Ok(format!(in alloc; "{word} {reason}")?)
        }
        _ => Ok(String::from_str(alloc, word)?),
    }
}
