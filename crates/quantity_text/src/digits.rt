//! Digits and the numbers that they write.

ghost use Rattle.std.specs.Prelude.{◌≡◌, ◌≤◌, true, length};
ghost use Rattle.std.specs.List.{list_all, prefix_len};
ghost use Rattle.std.specs.Char.{is_ascii_digit};
ghost use Rattle.std.specs.Str.Parse.{digits_value_after};
ghost use Rattle.quantity_text.specs.Steps.Capped.{capped};

/// The least number with 19 digits.
pub const LIMIT: u64 = 1_000_000_000_000_000_000;

/// How many digits stand at the front.
pub fn digit_count(text: &[u8]) -> usize
    ensures count { result ≡ prefix_len is_ascii_digit text.now }
    ensures within { result ≤ length text.now }
{
    for (at, byte) in text.iter().enumerate() {
        if !byte.is_ascii_digit() {
            return at;
        }
    }
    text.len()
}

/// Whether each byte is a digit.
pub fn are_digits(text: &[u8]) -> bool
    ensures { result ≡ list_all is_ascii_digit text.now }
{
    text.iter().all(|byte| byte.is_ascii_digit())
}

/// The number that the digits write behind those of another number, at most 10^18.
#[tactic(auto, using(crate::proofs::DigitFacts::value_step, crate::proofs::DigitFacts::number_at_limit))]
pub fn number_behind(front: u64, digits: &[u8]) -> u64
    requires small { front ≤ LIMIT }
    requires digits { list_all is_ascii_digit digits.now ≡ true }
    ensures { result ≡ capped (digits_value_after 10 front digits.now) }
{
    let mut number = front;
    for digit in digits {
        if number >= LIMIT {
            return LIMIT;
        }
        number = number * 10 + u64::from(*digit - b'0');
    }
    number.min(LIMIT)
}
