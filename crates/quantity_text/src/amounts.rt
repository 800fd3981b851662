//! The reading of a quantity.

ghost use Rattle.std.specs.Prelude.{◌≡◌, ◌*◌, ◌^◌, ◌≤◌, ◌<◌, true, IfOk, IsErrOf};
ghost use Rattle.std.specs.Result.{IsOk};
ghost use Rattle.std.specs.Int.{div_ceil};
ghost use Rattle.std.specs.List.{list_all};
ghost use Rattle.std.specs.Char.{is_ascii_digit};
ghost use Rattle.quantity_text.specs.Steps.Capped.{IsNamed, IsNear};
ghost use Rattle.quantity_text.specs.Quantity.{Gives, after_fraction, amount_of, denominator, fraction_at, has_bad_exponent, numerator, scaled, unsigned_amount, with_text};

use crate::digits::{LIMIT, digit_count, number_behind};
use crate::errors::AmountError;
use crate::scales::{Scale, scale_of};
use kube_types::copies::OutOfMemory;
use kube_types::objects::Amount;
use kube_types::text::Text;
use std::alloc::Global;

/// The most bytes that a quantity stands for.
const MOST: u128 = 9_223_372_036_854_775_807;

fn has_bad_exponent(scale: Scale) -> bool
    ensures { result ≡ has_bad_exponent scale }
{
    match scale {
        Scale::Binary(_) => false,
        Scale::Decimal(x) => x > 18,
        Scale::Fraction(x) => x > 18,
    }
}

#[tactic(auto, using(crate::proofs::Powers::ten_small, crate::proofs::Powers::ten_positive))]
fn power_of_ten(x: u64) -> u128
    requires { x ≤ 18 }
    ensures value { result ≡ 10 ^ x }
    ensures small { result ≤ 1_000_000_000_000_000_000 }
    ensures positive { 0 < result }
{
    10u128.pow(x as u32)
}

#[tactic(auto, using(crate::proofs::Powers::two_small))]
fn numerator(scale: Scale) -> u128
    requires { IsNear scale }
    ensures value { result ≡ numerator scale }
    ensures small { result ≤ 1_152_921_504_606_846_976 }
{
    match scale {
        Scale::Binary(x) => 2u128.pow(x as u32),
        Scale::Decimal(x) => power_of_ten(x),
        Scale::Fraction(_) => 1,
    }
}

fn denominator(scale: Scale) -> u128
    requires { IsNear scale }
    ensures value { result ≡ denominator scale }
    ensures small { result ≤ 1_000_000_000_000_000_000 }
    ensures positive { 0 < result }
{
    match scale {
        Scale::Binary(_) => 1,
        Scale::Decimal(_) => 1,
        Scale::Fraction(x) => power_of_ten(x),
    }
}

/// The number of this many places behind the point, times the scale, rounded up.
#[tactic(auto, using(crate::proofs::Powers::product_positive))]
fn rounded_up(number: u64, places: usize, scale: Scale) -> u128
    requires number { number < LIMIT }
    requires places { places ≤ 18 }
    requires scale { IsNear scale }
    ensures { result ≡ div_ceil (number * numerator scale) (10 ^ places * denominator scale) }
{
    let above = number as u128 * numerator(scale);
    let below = power_of_ten(places as u64) * denominator(scale);
    above.div_ceil(below)
}

/// The bytes of a number by its digits before the point and behind it, and a scale.
#[tactic(auto, using(crate::proofs::Limits::digits_test), unfolding(crate::specs::Quantity::scaled, crate::specs::Quantity::refuse, crate::specs::Quantity::value_of))]
fn scaled(whole: &[u8], fraction: &[u8], scale: Scale) -> Result<u64, AmountError>
    requires whole { list_all is_ascii_digit whole.now ≡ true }
    requires fraction { list_all is_ascii_digit fraction.now ≡ true }
    requires scale { IsNamed scale }
    ensures { result ≡ scaled whole.now fraction.now scale }
{
    let number = number_behind(number_behind(0, whole), fraction);
    if number >= LIMIT || fraction.len() > 18 {
        return Err(AmountError::TooManyDigits);
    }
    if has_bad_exponent(scale) {
        return Err(AmountError::BadExponent);
    }
    let value = rounded_up(number, fraction.len(), scale);
    if value > MOST {
        return Err(AmountError::TooLarge);
    }
    Ok(value as u64)
}

/// The digits behind a point at the front, and the text behind them.
fn split_fraction(text: &[u8]) -> (&[u8], &[u8])
    ensures digits { result.0.now ≡ fraction_at text.now }
    ensures rest { result.1.now ≡ after_fraction text.now }
{
    match text {
        [b'.', behind @ ..] => behind.split_at(digit_count(behind)),
        _ => (&text[..0], text),
    }
}

/// The bytes of a number with its suffix, whose first byte stands at this place.
#[tactic(auto, using(crate::proofs::DigitFacts::digits_are, crate::proofs::DigitFacts::fraction_digits_are, crate::proofs::Limits::scaled_capped), unfolding(crate::specs::Quantity::unsigned_amount, crate::specs::Quantity::refuse))]
fn unsigned_amount(text: &[u8], at: usize) -> Result<u64, AmountError>
    requires { at ≤ 1 }
    ensures { result ≡ unsigned_amount at text.now }
{
    let (whole, rest) = text.split_at(digit_count(text));
    let (fraction, suffix) = split_fraction(rest);
    if whole.is_empty() && fraction.is_empty() {
        return Err(AmountError::BadNumber(at));
    }
    match scale_of(suffix) {
        None => Err(AmountError::BadSuffix(at + (text.len() - suffix.len()))),
        Some(scale) => scaled(whole, fraction, scale),
    }
}

/// The bytes that a quantity stands for, rounded up.
#[tactic(auto, unfolding(crate::specs::Quantity::amount_of, crate::specs::Quantity::refuse))]
pub fn amount_bytes(text: &[u8]) -> Result<u64, AmountError>
    ensures answer { result ≡ amount_of text.now }
    ensures no_memory { IsErrOf result AmountError.OutOfMemory → ⊥ }
{
    match text {
        [] => Err(AmountError::Empty),
        [b'-', ..] => Err(AmountError::Negative),
        [b'+', rest @ ..] => unsigned_amount(rest, 1),
        _ => unsigned_amount(text, 0),
    }
}

/// The text of an amount.
#[tactic(auto, using(crate::proofs::PlainBytes::amount_is_text))]
fn amount_text(alloc: Global, text: &[u8]) -> Result<Text, OutOfMemory>
    requires { IsOk (amount_of text.now) }
    ensures { IfOk result (λ t. t ≡ text.now) }
{
    match str::from_utf8(text) {
        Ok(text) => Text::new(alloc, text),
        Err(_) => unreachable!(),
    }
}

/// The quantity of a text: the text as it is written, and its bytes, rounded up.
pub fn read_amount(alloc: Global, text: &[u8]) -> Result<Amount, AmountError>
    ensures { Gives result (with_text text.now (amount_of text.now)) }
{
    let bytes = amount_bytes(text)?;
    let text = amount_text(alloc, text)?;
    Ok(Amount { text, bytes })
}
