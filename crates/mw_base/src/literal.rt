// Numbers as texts spell them.
ghost use Rattle.std.specs.Prelude.{◌≡◌, ◌≤◌, ◌^◌, IfNone, IfSome};
ghost use Rattle.mw_base.specs.Literals.{digit_of, all_digits, value_of, digits_number, base_named, number_spelled};

use crate::cause::Cause;

fn digit_of(c: u8) -> u8
    ensures { result ≡ digit_of c }
{
    match c {
        b'0'..=b'9' => c - b'0',
        b'a'..=b'f' => c - b'a' + 10,
        b'A'..=b'F' => c - b'A' + 10,
        _ => 36,
    }
}

fn are_digits(text: &[u8], base: u8) -> bool
    ensures { result ≡ all_digits base text.now }
{
    text.iter().all(|c| digit_of(*c) < base)
}

/// The number that digits stand for. None where it is 2^128 or more.
fn value_of(text: &[u8], base: u8) -> Option<u128>
    requires { 2 ≤ base }
    ensures some { IfSome result (λ n. n ≡ value_of base text.now) }
    ensures none { IfNone result (2 ^ 128 ≤ value_of base text.now) }
{
    let mut value = 0u128;
    for c in text {
        let more = value.checked_mul(u128::from(base))?;
        value = more.checked_add(u128::from(digit_of(*c)))?;
    }
    Some(value)
}

#[tactic(auto, unfolding(crate::specs::Literals::digits_number))]
fn digits_number(text: &[u8], base: u8) -> Result<u128, Cause>
    requires { 2 ≤ base }
    ensures { result ≡ digits_number base text.now }
{
    if text.is_empty() || !are_digits(text, base) {
        return Err(Cause::BadNumber);
    }
    match value_of(text, base) {
        Some(value) => Ok(value),
        None => Err(Cause::TooWide),
    }
}

/// The base that the letter of `0o`, `0x` or `0b` names.
fn base_named(letter: u8) -> Option<u8>
    ensures exact { result ≡ base_named letter }
    ensures least { IfSome result (λ base. 2 ≤ base) }
{
    match letter {
        b'o' => Some(8),
        b'x' => Some(16),
        b'b' => Some(2),
        _ => None,
    }
}

/// The number that the whole text spells: decimal digits, or `0o`, `0x` or `0b` and digits of that base, hexadecimal
/// ones of either case.
///
/// # Errors
///
/// Cause 2 where the text spells no number, and cause 3 where it spells one of 2^128 or more.
#[tactic(auto, unfolding(crate::specs::Literals::number_spelled))]
pub fn number(text: &[u8]) -> Result<u128, Cause>
    ensures { result ≡ number_spelled text.now }
{
    if let [b'0', letter, digits @ ..] = text {
        if let Some(base) = base_named(*letter) {
            return digits_number(digits, base);
        }
    }
    digits_number(text, 10)
}
