// Numbers as reports print them.
ghost use Rattle.std.specs.Prelude.{◌≡◌, ◌<◌, ◌≤◌, ◌++◌, map, OnOk, OnErr, length, take};
ghost use Rattle.std.specs.Int.Digits.{digits_of};
ghost use Rattle.mw_base.specs.Numbers.{hex, decimal, numeral, padded, glyph};

use crate::memory::NoMemory;
use std::alloc::Global;

fn digit_glyph(digit: u8) -> u8
    requires { digit < 16 }
    ensures { result ≡ glyph digit }
{
    if digit < 10 {
        digit + b'0'
    } else {
        digit - 10 + b'A'
    }
}

fn push_digits(text: &mut Vec<u8>, base: u128, value: u128) -> Result<(), NoMemory>
    requires least { 2 ≤ base }
    requires most { base ≤ 16 }
    ensures ok { OnOk result (text.new.items ≡ text.old.items ++ map glyph (digits_of base value)) }
    ensures front { take (length text.old.items) text.new.items ≡ text.old.items }
{
    if value > 0 {
        push_digits(text, base, value / base)?;
        text.push(digit_glyph((value % base) as u8))?;
    }
    Ok(())
}

#[tactic(auto, unfolding(crate::specs::Numbers::numeral))]
fn push_numeral(text: &mut Vec<u8>, base: u128, value: u128) -> Result<(), NoMemory>
    requires least { 2 ≤ base }
    requires most { base ≤ 16 }
    ensures ok { OnOk result (text.new.items ≡ text.old.items ++ numeral base value) }
    ensures front { take (length text.old.items) text.new.items ≡ text.old.items }
{
    if value == 0 {
        text.push(b'0')?;
        return Ok(());
    }
    push_digits(text, base, value)
}

fn push_number(text: &mut Vec<u8>, prefix: &[u8], base: u128, value: u128) -> Result<(), NoMemory>
    requires least { 2 ≤ base }
    requires most { base ≤ 16 }
    ensures ok { OnOk result (text.new.items ≡ text.old.items ++ (prefix.now ++ numeral base value)) }
    ensures front { take (length text.old.items) text.new.items ≡ text.old.items }
{
    text.extend_from_slice(prefix)?;
    push_numeral(text, base, value)
}

/// What pushing answered; where memory ran out, the text keeps its first bytes alone.
fn truncate_on_error(
    text: &mut Vec<u8>,
    before: usize,
    pushed: Result<(), NoMemory>,
) -> Result<(), NoMemory>
    ensures same { result ≡ pushed }
    ensures ok { OnOk pushed (text.new.items ≡ text.old.items) }
    ensures err { OnErr pushed (text.new.items ≡ take before text.old.items) }
{
    if pushed.is_err() {
        text.truncate(before);
    }
    pushed
}

/// Appends a prefix and the digits of a number in a base. After want of memory the text is as before.
fn append(text: &mut Vec<u8>, prefix: &[u8], base: u128, value: u128) -> Result<(), NoMemory>
    requires least { 2 ≤ base }
    requires most { base ≤ 16 }
    ensures ok { OnOk result (text.new.items ≡ text.old.items ++ (prefix.now ++ numeral base value)) }
    ensures err { OnErr result (text.new.items ≡ text.old.items) }
{
    let before = text.len();
    let pushed = push_number(text, prefix, base, value);
    truncate_on_error(text, before, pushed)
}

/// Appends the printed form of a number: `0x` and upper-case hexadecimal without leading zeros; 0 is `0x0`.
/// After want of memory the text is as before.
pub fn append_hex(_alloc: Global, text: &mut Vec<u8>, value: u128) -> Result<(), NoMemory>
    ensures ok { OnOk result (text.new.items ≡ text.old.items ++ hex value) }
    ensures err { OnErr result (text.new.items ≡ text.old.items) }
{
    append(text, b"0x", 16, value)
}

/// Appends a count: decimal digits without leading zeros. After want of memory the text is as before.
pub fn append_decimal(_alloc: Global, text: &mut Vec<u8>, value: u64) -> Result<(), NoMemory>
    ensures ok { OnOk result (text.new.items ≡ text.old.items ++ decimal value) }
    ensures err { OnErr result (text.new.items ≡ text.old.items) }
{
    append(text, b"", 10, u128::from(value))
}

#[tactic(auto, unfolding(crate::specs::Numbers::padded))]
fn push_padded(text: &mut Vec<u8>, digits: u8, value: u128) -> Result<(), NoMemory>
    ensures ok { OnOk result (text.new.items ≡ text.old.items ++ padded digits value) }
    ensures front { take (length text.old.items) text.new.items ≡ text.old.items }
{
    if digits > 0 {
        push_padded(text, digits - 1, value / 16)?;
        text.push(digit_glyph((value % 16) as u8))?;
    }
    Ok(())
}

/// Appends the lowest hexadecimal digits of a number, this many of them, leading zeros too: `00F` for three digits
/// of 15. After want of memory the text is as before.
pub fn append_padded(
    _alloc: Global,
    text: &mut Vec<u8>,
    digits: u8,
    value: u128,
) -> Result<(), NoMemory>
    ensures ok { OnOk result (text.new.items ≡ text.old.items ++ padded digits value) }
    ensures err { OnErr result (text.new.items ≡ text.old.items) }
{
    let before = text.len();
    let pushed = push_padded(text, digits, value);
    truncate_on_error(text, before, pushed)
}
