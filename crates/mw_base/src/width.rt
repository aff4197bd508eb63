// Words of 1 to 32 bits.
ghost use Rattle.std.specs.Prelude.{◌≡◌, ℕ, ◌<◌, ◌≤◌, ◌^◌, ◌-◌, ◌↔◌, IsSome, IfSome};
ghost use Rattle.mw_base.specs.Words.{bit_of, ones};

use std::marker::Model;

/// A width of 1 to 32 bits, seen as that number.
#[derive(Clone, Copy, Debug, PartialEq, Eq)]
pub struct Width {
    bits: u8,
}

impl Model for Width {
    ghost Value = { ℕ };

    ghost view = { λ w. w.bits };

    ghost invariant = { λ w. (1 ≤ w.bits) × (w.bits ≤ 32) };

    ghost inverse = { λ n. record { bits = n } };
}

impl Width {
    /// The width of so many bits. None where that is 0 or over 32.
    pub fn new(bits: u8) -> Option<Width>
        ensures some { IsSome result ↔ ((1 ≤ bits) × (bits ≤ 32)) }
        ensures value { IfSome result (λ w. w ≡ bits) }
    {
        if bits >= 1 && bits <= 32 {
            Some(Width { bits })
        } else {
            None
        }
    }

    /// How many bits it is, from 1 to 32.
    pub fn bits(self) -> u8
        ensures exact { result ≡ self }
        ensures least { 1 ≤ result }
        ensures most { result ≤ 32 }
    {
        self.bits
    }
}

/// The word of a width whose bits are all 1, which is its greatest.
pub fn mask(width: Width) -> u32
    ensures { result ≡ ones width }
{
    ((1u64 << width.bits()) - 1) as u32
}

/// The bit at a place, from 0, the least, to 31.
pub fn bit(value: u32, place: u8) -> bool
    requires { place < 32 }
    ensures { result ≡ bit_of value place }
{
    (value >> place) & 1 == 1
}
