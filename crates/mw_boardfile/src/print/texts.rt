// The texts of bits, loads and sources of D.
ghost use Rattle.std.specs.Prelude.{◌≡◌, ◌++◌, ◌∷◌, string_bytes, IfOk};
ghost use Rattle.toml.specs.View.{view};
ghost use Rattle.mw_boardfile.specs.Printed.{bit_text, bit_printed, load_text, load_printed};
ghost use Rattle.mw_boardfile.specs.Printed.{from_text, masked_text, source_printed};
ghost use Rattle.mw_boardfile.specs.Views.{FieldsAreNamed, FlipFlopsAreNamed};

use crate::print::names::{field_name, flipflop_name};
use crate::print::values::{decimal_digits, hex_digits};
use mw_base::NoMemory;
use mw_board::{Bit, DFrom, DSource, FlipFlop, Load, NamedField};
use std::alloc::Global;
use toml::Value;

/// A text that is a word.
fn word(alloc: Global, word: &str) -> Result<String, NoMemory>
    ensures { IfOk result (λ text. string_bytes text ≡ word.now) }
{
    Ok(String::from_str(alloc, word)?)
}

/// Two texts, one behind the other.
fn joined(alloc: Global, front: &str, back: &str) -> Result<String, NoMemory>
    ensures { IfOk result (λ text. string_bytes text ≡ front.now ++ back.now) }
{
    let mut text = String::from_str(alloc, front)?;
    text.push_str(back)?;
    Ok(text)
}

/// The text of a bit.
fn bit_text(alloc: Global, flipflops: &[FlipFlop], bit: Bit) -> Result<String, NoMemory>
    requires { FlipFlopsAreNamed flipflops.now }
    ensures { IfOk result (λ text. string_bytes text ≡ bit_text flipflops.now bit) }
{
    match bit {
        Bit::Zero => word(alloc, "zero"),
        Bit::One => word(alloc, "one"),
        Bit::Carry => word(alloc, "carry"),
        Bit::Overflow => word(alloc, "overflow"),
        Bit::FZero => word(alloc, "f_zero"),
        Bit::Sign => word(alloc, "sign"),
        Bit::FLow => word(alloc, "f_low"),
        Bit::FHigh => word(alloc, "f_high"),
        Bit::QLow => word(alloc, "q_low"),
        Bit::QHigh => word(alloc, "q_high"),
        Bit::Line => word(alloc, "line"),
        Bit::Full => word(alloc, "full"),
        Bit::Ir(n) => joined(alloc, "ir:", decimal_digits(alloc, n)?.as_str()),
        Bit::Flip(n) => joined(alloc, "ff:", flipflop_name(flipflops, n)),
    }
}

/// A bit.
pub(crate) fn bit(alloc: Global, flipflops: &[FlipFlop], bit: Bit) -> Result<Value, NoMemory>
    requires { FlipFlopsAreNamed flipflops.now }
    ensures { IfOk result (λ value. view value ≡ bit_printed flipflops.now bit) }
{
    Ok(Value::from(bit_text(alloc, flipflops, bit)?))
}

/// The text of a load.
fn load_text(alloc: Global, flipflops: &[FlipFlop], load: Load) -> Result<String, NoMemory>
    requires { FlipFlopsAreNamed flipflops.now }
    ensures { IfOk result (λ text. string_bytes text ≡ load_text flipflops.now load) }
{
    match load {
        Load::Hold => word(alloc, "hold"),
        Load::Invert => word(alloc, "invert"),
        Load::XorCarry => word(alloc, "xor_carry"),
        Load::Take(bit) => bit_text(alloc, flipflops, bit),
    }
}

/// A load of a flip-flop.
pub(crate) fn load(alloc: Global, flipflops: &[FlipFlop], load: Load) -> Result<Value, NoMemory>
    requires { FlipFlopsAreNamed flipflops.now }
    ensures { IfOk result (λ value. view value ≡ load_printed flipflops.now load) }
{
    Ok(Value::from(load_text(alloc, flipflops, load)?))
}

/// The text of a source of D without its mask.
fn from_text(
    alloc: Global,
    fields: &[NamedField],
    flipflops: &[FlipFlop],
    from: DFrom,
) -> Result<String, NoMemory>
    requires fields { FieldsAreNamed fields.now }
    requires flipflops { FlipFlopsAreNamed flipflops.now }
    ensures { IfOk result (λ text. string_bytes text ≡ from_text fields.now flipflops.now from) }
{
    match from {
        DFrom::Zero => word(alloc, "zero"),
        DFrom::Memory => word(alloc, "memory"),
        DFrom::Ir => word(alloc, "ir"),
        DFrom::Mar => word(alloc, "mar"),
        DFrom::Input => word(alloc, "input"),
        DFrom::Field(n) => joined(alloc, "field:", field_name(fields, n)),
        DFrom::Flip(n) => joined(alloc, "ff:", flipflop_name(flipflops, n)),
    }
}

/// A text, and behind & the mask, where there is one.
fn masked_text(alloc: Global, text: &str, mask: Option<u32>) -> Result<String, NoMemory>
    ensures { IfOk result (λ masked. string_bytes masked ≡ masked_text text.now mask) }
{
    match mask {
        Some(mask) => {
            let mask = joined(alloc, "&", hex_digits(alloc, u128::from(mask))?.as_str())?;
            joined(alloc, text, mask.as_str())
        }
        None => word(alloc, text),
    }
}

/// A source of D.
pub(crate) fn source(
    alloc: Global,
    fields: &[NamedField],
    flipflops: &[FlipFlop],
    source: DSource,
) -> Result<Value, NoMemory>
    requires fields { FieldsAreNamed fields.now }
    requires flipflops { FlipFlopsAreNamed flipflops.now }
    ensures { IfOk result (λ value. view value ≡ source_printed fields.now flipflops.now source) }
{
    let from = from_text(alloc, fields, flipflops, source.from)?;
    Ok(Value::from(masked_text(alloc, from.as_str(), source.mask)?))
}
