// Numbers, as a script spells them.
ghost use Rattle.std.specs.Prelude.{◌≡◌, ◌<◌, ◌≤◌, ◌^◌, ◌↔◌, IsTrue, MatchOption, ℕ, slice_index};
ghost use Rattle.std.specs.Str.Parse.{IsNumeral, digits_value, without_leading_plus};
ghost use Rattle.std.specs.Fmt.{decimal};
ghost use Rattle.script_text.specs.Texts.{hex_digit};
ghost use Rattle.script_text.specs.Texts.{IsCount, IsHex, IsPlace, ReadsText};

use tuples::MAX_NUMBER;

/// A number from 0 to 2^63 - 1 in decimal, without a sign or leading zeros.
pub(crate) fn parse_place(text: &[u8]) -> Option<u64>
    ensures { ReadsText IsPlace decimal text.now result }
{
    if text == b"0".as_slice() {
        Some(0)
    } else {
        parse_count(text)
    }
}

/// A number from 1 to 2^63 - 1 in decimal, without a sign or leading zeros.
pub(crate) fn parse_count(text: &[u8]) -> Option<u64>
    ensures { ReadsText IsCount decimal text.now result }
{
    // A sign or a leading zero is no number here, but `parse` would take either.
    if !begins_a_count(text) {
        return None;
    }
    let number = parse_decimal(text)?;
    if number > MAX_NUMBER {
        return None;
    }
    Some(number)
}

fn begins_a_count(text: &[u8]) -> bool
    ensures { IsTrue result ↔ ((49 ≤ slice_index text.now 0) × (slice_index text.now 0 ≤ 57)) }
{
    match text.first() {
        None => false,
        Some(digit) => matches!(*digit, b'1'..=b'9'),
    }
}

// As `str::parse` reads it, which takes a leading plus and leading zeros.
fn parse_decimal(text: &[u8]) -> Option<u64>
    ensures { MatchOption result ((n : ℕ) → n < 2 ^ 64 → text.now ≡ decimal n → ⊥) (λ n. let digits = without_leading_plus text.now in IsNumeral 10 digits × (digits_value 10 digits < 2 ^ 64) × (n ≡ digits_value 10 digits)) }
{
    let Ok(text) = std::str::from_utf8(text) else {
        return None;
    };
    match text.parse::<u64>() {
        Ok(number) => Some(number),
        Err(_) => None,
    }
}

/// The value of a lower-case hexadecimal digit.
pub(crate) fn parse_hex(digit: u8) -> Option<u8>
    ensures { MatchOption result ((d : ℕ) → IsHex d → digit ≡ hex_digit d → ⊥) (λ d. IsHex d × (digit ≡ hex_digit d)) }
{
    match digit {
        b'0'..=b'9' => Some(digit - b'0'),
        b'a'..=b'f' => Some(digit - b'a' + 10),
        _ => None,
    }
}
