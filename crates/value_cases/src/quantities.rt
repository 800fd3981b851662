//! Lines of quantities: `amount` or `bytes`, a blank and the text.

use crate::words::word;
use plain_data::copies::OutOfMemory;
use quantity_text::{AmountError, amount_bytes, read_amount};
use sample_objects::lines::split;
use std::alloc::Global;

fn refusal(alloc: Global, error: AmountError) -> Result<String, OutOfMemory> {
    match error {
        AmountError::OutOfMemory => Err(OutOfMemory),
        AmountError::Empty => word(alloc, "Empty"),
        AmountError::Negative => word(alloc, "Negative"),
        AmountError::BadNumber(at) => Ok(format!(in alloc; "BadNumber {at}")?),
        AmountError::BadSuffix(at) => Ok(format!(in alloc; "BadSuffix {at}")?),
        AmountError::TooManyDigits => word(alloc, "TooManyDigits"),
        AmountError::BadExponent => word(alloc, "BadExponent"),
        AmountError::TooLarge => word(alloc, "TooLarge"),
    }
}

/// The bytes of a quantity and its text, or why it is none.
fn amount(alloc: Global, text: &str) -> Result<String, OutOfMemory> {
    match read_amount(alloc, text.as_bytes()) {
        Err(error) => refusal(alloc, error),
        Ok(amount) => {
            let bytes = amount.bytes;
            let text = amount.text.as_str();
            Ok(format!(in alloc; "{bytes} {text}")?)
        }
    }
}

/// The bytes of a quantity.
fn bytes(alloc: Global, text: &str) -> Result<String, OutOfMemory> {
    match amount_bytes(text.as_bytes()) {
        Err(error) => refusal(alloc, error),
        Ok(bytes) => Ok(format!(in alloc; "{bytes}")?),
    }
}

/// What a call answers of a text.
pub fn answer(alloc: Global, line: &str) -> Result<String, OutOfMemory> {
    let (call, text) = split(line);
    match call {
        "amount" => amount(alloc, text),
        "bytes" => bytes(alloc, text),
        _ => word(alloc, "no such call"),
    }
}
