// Bits of a microword that are set.
ghost use Rattle.std.specs.Prelude.{◌≡◌, ◌+◌, ◌<◌, ◌≤◌, ◌^◌};
ghost use Rattle.mw_asm.specs.Bits.{no_bits, field_bits, agree, union, word_of};

use mw_board::Field;

/// Some bits of a microword, and what they are set to.
#[derive(Clone, Copy)]
pub(crate) struct SetBits {
    /// The bits that are set.
    pub mask: u128,
    /// Their values; the bits that aren't set are 0.
    pub value: u128,
}

/// 2^bits.
pub(crate) fn power(bits: u8) -> u128
    requires { bits < 128 }
    ensures { result ≡ 2 ^ bits }
{
    1 << bits
}

impl SetBits {
    /// No bit is set.
    pub(crate) fn none() -> SetBits
        ensures { result ≡ no_bits }
    {
        SetBits { mask: 0, value: 0 }
    }

    /// The bits of a field, set to a value of its width.
    pub(crate) fn of_field(field: Field, value: u128) -> SetBits
        requires fits { field.low + field.width ≤ 128 }
        requires wide { field.width ≤ 32 }
        requires some { 1 ≤ field.width }
        requires within { value < 2 ^ field.width }
        ensures { result ≡ field_bits field value }
    {
        SetBits {
            mask: (power(field.width) - 1) << field.low,
            value: value << field.low,
        }
    }

    /// Whether each bit that both set has one value.
    pub(crate) fn agrees(self, other: SetBits) -> bool
        ensures { result ≡ agree self other }
    {
        let common = self.mask & other.mask;
        common & self.value == common & other.value
    }

    /// The bits that either sets.
    pub(crate) fn union(self, other: SetBits) -> SetBits
        ensures { result ≡ union self other }
    {
        SetBits {
            mask: self.mask | other.mask,
            value: self.value | other.value,
        }
    }

    /// The microword with these bits, and those of `unset` elsewhere.
    pub(crate) fn word(self, unset: u128) -> u128
        ensures { result ≡ word_of unset self }
    {
        self.value | (unset & !self.mask)
    }
}
