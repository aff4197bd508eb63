// What the ops make of words.
ghost use Rattle.std.specs.Prelude.{◌≡◌, ◌+◌, ◌-◌, ◌%◌, ◌^◌, ◌<◌, ◌≤◌, ◌==◌};
ghost use Rattle.mw_base.specs.Carries.{carry_at};
ghost use Rattle.mw_base.specs.Words as words;

/// The low bits of a word, so many, at most 32.
pub(crate) fn cut(word: u32, bits: u8) -> u32
    requires { bits ≤ 32 }
    ensures { result ≡ word % 2 ^ bits }
{
    (u64::from(word) % (1 << bits)) as u32
}

/// Each bit of a word of a width, at most 32, turned over.
pub(crate) fn complement(word: u32, width: u8) -> u32
    requires most { width ≤ 32 }
    requires below { word < 2 ^ width }
    ensures { result ≡ words.complement width word }
{
    ((1u64 << width) - 1 - u64::from(word)) as u32
}

/// The sum of two words and a carry in, modulo 2 to the width, at most 32.
pub(crate) fn sum(a: u32, b: u32, carry: u32, width: u8) -> u32
    requires { width ≤ 32 }
    ensures { result ≡ (a + b + carry) % 2 ^ width }
{
    ((u64::from(a) + u64::from(b) + u64::from(carry)) % (1 << width)) as u32
}

/// The carry into a bit, at most 32, of the sum of two words and a carry in.
pub(crate) fn carry_into(a: u32, b: u32, carry: u32, bit: u8) -> bool
    requires most { bit ≤ 32 }
    requires carry { carry < 2 }
    ensures { result ≡ carry_at a b (carry == 1) bit }
{
    let past = 1u64 << bit;
    u64::from(a) % past + u64::from(b) % past + u64::from(carry) >= past
}

/// Whether the carry into the top bit of such a sum differs from the carry out of it.
pub(crate) fn overflows(a: u32, b: u32, carry: u32, width: u8) -> bool
    requires least { 1 ≤ width }
    requires most { width ≤ 32 }
    requires carry { carry < 2 }
    ensures { result ≡ words.differ (carry_at a b (carry == 1) (width - 1)) (carry_at a b (carry == 1) width) }
{
    carry_into(a, b, carry, width - 1) != carry_into(a, b, carry, width)
}

/// A word above another, both together of at most 32 bits.
pub(crate) fn join(high: u32, high_width: u8, low: u32, low_width: u8) -> u32
    requires most { high_width + low_width ≤ 32 }
    requires high_below { high < 2 ^ high_width }
    requires low_below { low < 2 ^ low_width }
    ensures { result ≡ words.join low_width high low }
{
    ((u64::from(high) << low_width) + u64::from(low)) as u32
}
