// What names of a microprogram stand for.
ghost use Rattle.std.specs.Prelude.{◌≡◌};
ghost use Rattle.mw_asm.specs.Names.{number_named, bits_named};

use crate::bits::SetBits;

/// What a name stands for.
#[derive(Clone, Copy)]
pub(crate) enum Meaning {
    /// The number of an `equ`.
    Number(u128),
    /// The bits that a `def` sets.
    Bits(SetBits),
    /// The address of a label.
    Label(u16),
}

/// The kind of line in which items stand.
#[derive(Clone, Copy)]
pub(crate) enum Scope {
    /// A `def`: a value's name is an `equ`.
    Def,
    /// A word: a value's name is an `equ` or a label.
    Word,
}

/// The number that a name of this meaning stands for as a value.
pub(crate) fn number_named(scope: Scope, meaning: Option<Meaning>) -> Option<u128>
    ensures { result ≡ number_named scope meaning }
{
    match (scope, meaning) {
        (_, Some(Meaning::Number(value))) => Some(value),
        (Scope::Word, Some(Meaning::Label(address))) => Some(u128::from(address)),
        _ => None,
    }
}

/// The bits that a name of this meaning sets alone.
pub(crate) fn bits_named(meaning: Option<Meaning>) -> Option<SetBits>
    ensures { result ≡ bits_named meaning }
{
    match meaning {
        Some(Meaning::Bits(bits)) => Some(bits),
        _ => None,
    }
}
