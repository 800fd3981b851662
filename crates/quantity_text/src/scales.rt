//! What suffixes multiply by.

ghost use Rattle.std.specs.Prelude.{◌≡◌, option_map, IfSome};
ghost use Rattle.quantity_text.specs.Steps.Capped.{IsNamed, capped, capped_scale};
ghost use Rattle.quantity_text.specs.Quantity.{exponent_of, exponent_scale, named_scales, scale_named, scale_of, signed_exponent};

use crate::digits::{are_digits, number_behind};

/// What a number is multiplied by: 2^x, 10^x or 10^-x.
#[derive(Clone, Copy, Debug, PartialEq, Eq)]
pub enum Scale {
    Binary(u64),
    Decimal(u64),
    Fraction(u64),
}

/// Answers the scale of the name that the text is.
macro_rules! named {
    ($text:ident, $($name:literal => $scale:expr),+) => {
        $(if $text == $name.as_slice() {
            return Some($scale);
        })+
    };
}

/// The scale of a suffix that has a name.
fn scale_named(text: &[u8]) -> Option<Scale>
    ensures scale { result ≡ scale_named text.now named_scales }
    ensures named { IfSome result IsNamed }
{
    named!(text,
        b"" => Scale::Decimal(0),
        b"Ki" => Scale::Binary(10),
        b"Mi" => Scale::Binary(20),
        b"Gi" => Scale::Binary(30),
        b"Ti" => Scale::Binary(40),
        b"Pi" => Scale::Binary(50),
        b"Ei" => Scale::Binary(60),
        b"n" => Scale::Fraction(9),
        b"u" => Scale::Fraction(6),
        b"m" => Scale::Fraction(3),
        b"k" => Scale::Decimal(3),
        b"M" => Scale::Decimal(6),
        b"G" => Scale::Decimal(9),
        b"T" => Scale::Decimal(12),
        b"P" => Scale::Decimal(15),
        b"E" => Scale::Decimal(18));
    None
}

/// The number that one or more digits write, at most 10^18.
fn exponent_of(text: &[u8]) -> Option<u64>
    ensures { result ≡ option_map capped (exponent_of text.now) }
{
    if text.is_empty() || !are_digits(text) {
        return None;
    }
    Some(number_behind(0, text))
}

fn signed_exponent(text: &[u8]) -> Option<Scale>
    ensures { result ≡ option_map capped_scale (signed_exponent text.now) }
{
    match text {
        [] => None,
        [b'+', digits @ ..] => Some(Scale::Decimal(exponent_of(digits)?)),
        [b'-', digits @ ..] => Some(Scale::Fraction(exponent_of(digits)?)),
        digits => Some(Scale::Decimal(exponent_of(digits)?)),
    }
}

fn exponent_scale(text: &[u8]) -> Option<Scale>
    ensures { result ≡ option_map capped_scale (exponent_scale text.now) }
{
    match text {
        [b'e' | b'E', rest @ ..] => signed_exponent(rest),
        _ => None,
    }
}

/// What a suffix multiplies by, with exponents of at most 10^18; None where the text is no suffix.
#[tactic(auto, unfolding(crate::specs::Quantity::scale_of))]
pub fn scale_of(text: &[u8]) -> Option<Scale>
    ensures scale { result ≡ option_map capped_scale (scale_of text.now) }
    ensures named { IfSome result IsNamed }
{
    match scale_named(text) {
        Some(scale) => Some(scale),
        None => exponent_scale(text),
    }
}
