//! The check of a manifest or of a list of manifests.

ghost use Rattle.std.specs.Prelude.{◌≡◌, [], Err, IfOk, string_bytes};
ghost use Rattle.object_text.specs.Listing.{list_of};
ghost use Rattle.binder_console.specs.Checks.{with_member_word, reason_text, refusal_line, check_text, refusal_text, ChecksList, IfRefused};

use crate::errors::CheckError;
use crate::printing::print_line;
use history_text::lines::{Lines, push_objects};
use kube_types::items::Items;
use kube_types::objects::Object;
use object_text::errors::{ListError, Member, ObjectError};
use object_text::listing::read_list;
use piece_print::pieces::PieceText;
use plain_data::copies::OutOfMemory;
use std::alloc::Global;
use std::mem::forget;

/// The lines of the objects, whose memory is not given back: a program ends with a check.
fn print_objects(
    alloc: Global,
    lines: Lines,
    objects: Items<Object>,
) -> Result<PieceText, OutOfMemory>
    requires { lines ≡ [] }
    ensures { IfOk result (λ text. text ≡ check_text objects) }
{
    let mut lines = lines;
    push_objects(&mut lines, objects.as_slice())?;
    forget(objects);
    Ok(PieceText::of(alloc, lines.into_bytes()))
}

/// The canonical line of each object, or the first refusal. Room for the lines is taken before the input is read, which
/// leaves many small pieces of free memory that an allocator would join for a large one. The memory of the objects is not
/// given back.
#[tactic(auto, using(crate::proofs::Refusals::refused_is))]
pub fn checked(alloc: Global, input: &[u8]) -> Result<PieceText, CheckError>
    ensures ok { IfOk result (λ text. ChecksList input.now text) }
    ensures refused { IfRefused result (λ e. list_of input.now ≡ Err e) }
{
    let lines = Lines::with_room(alloc, input.len())?;
    match read_list(alloc, input) {
        Ok(objects) => Ok(print_objects(alloc, lines, objects)?),
        Err(error) => {
            if error.reason == ObjectError::OutOfMemory {
                Err(CheckError::OutOfMemory)
            } else {
                Err(CheckError::Refused(error))
            }
        }
    }
}

fn with_member(alloc: Global, word: &str, member: Member) -> Result<String, OutOfMemory>
    ensures { IfOk result (λ text. string_bytes text ≡ with_member_word word.now member) }
{
    let name = member.name();
    Ok(format!(in alloc; "{word} {name}")?)
}

fn word_alone(alloc: Global, word: &str) -> Result<String, OutOfMemory>
    ensures { IfOk result (λ text. string_bytes text ≡ word.now) }
{
    Ok(String::from_str(alloc, word)?)
}

#[tactic(auto, unfolding(crate::specs::Checks::reason_text))]
fn reason_text(alloc: Global, reason: ObjectError) -> Result<String, OutOfMemory>
    ensures { IfOk result (λ text. string_bytes text ≡ reason_text reason) }
{
    match reason {
        ObjectError::OutOfMemory => word_alone(alloc, "OutOfMemory"),
        ObjectError::TooLong => word_alone(alloc, "TooLong"),
        ObjectError::NotJson => word_alone(alloc, "NotJson"),
        ObjectError::NotObject => word_alone(alloc, "NotObject"),
        ObjectError::NotWhole => word_alone(alloc, "NotWhole"),
        ObjectError::UnknownKind => word_alone(alloc, "UnknownKind"),
        ObjectError::Missing(member) => with_member(alloc, "Missing", member),
        ObjectError::WrongType(member) => with_member(alloc, "WrongType", member),
        ObjectError::BadQuantity(member) => with_member(alloc, "BadQuantity", member),
    }
}

#[tactic(auto, unfolding(crate::specs::Checks::refusal_line))]
fn refusal_line(alloc: Global, error: ListError) -> Result<String, OutOfMemory>
    ensures { IfOk result (λ text. string_bytes text ≡ refusal_line error) }
{
    let item = error.item;
    let reason = reason_text(alloc, error.reason)?;
    Ok(format!(in alloc; "item {item}: {reason}")?)
}

/// The line of a refusal.
pub fn print_refusal(alloc: Global, error: ListError) -> Result<PieceText, OutOfMemory>
    ensures { IfOk result (λ text. text ≡ refusal_text error) }
{
    let line = refusal_line(alloc, error)?;
    print_line(alloc, line.as_str())
}
