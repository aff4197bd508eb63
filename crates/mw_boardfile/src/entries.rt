// The entries of lists: bits, sources of D and loads.
ghost use Rattle.std.specs.Prelude.{◌≡◌, ◌<◌, ◌^◌, option_map, option_copied, IfSome, IfOk, length};
ghost use Rattle.std.specs.Str.{bytes_eq};
ghost use Rattle.toml.specs.View.{view};
ghost use Rattle.mw_boardfile.specs.Entries.{after, part_number, has_name, flip_number, named_bit, ir_bit};
ghost use Rattle.mw_boardfile.specs.Entries.{flip_bit, bit_spelled, bit_in, carry_in_in, named_load, bit_load};
ghost use Rattle.mw_boardfile.specs.Entries.{load_spelled, load_in};
ghost use Rattle.mw_boardfile.specs.Entries.{named_source, field_source, flip_source, source_spelled};
ghost use Rattle.mw_boardfile.specs.Entries.{mask_number, masked, d_source_in, is_text_at};
ghost use Rattle.mw_boardfile.specs.Fields.{field_number};
ghost use Rattle.mw_board.specs.Rules.{bit_rule, carry_in_rule, load_rule, d_source_rule};
ghost use Rattle.mw_boardfile.specs.Kept.{Kept};
ghost use Rattle.mw_boardfile.specs.Views.{given, data_of};

use crate::fields::field_number;
use crate::lists::first_place;
use crate::values::{member, text};
use mw_base::{Cause, number};
use mw_board::{
    Bit, DFrom, DSource, Load, NamedField, bit_rule, carry_in_rule, d_source_rule, load_rule,
};
use toml::Value;

/// What follows a prefix of a text.
fn after<'a>(prefix: &[u8], text: &'a [u8]) -> Option<&'a [u8]>
    ensures { option_map (λ rest. rest.now) result ≡ after prefix.now text.now }
{
    text.strip_prefix(prefix)
}

/// A number that can be one of a board's parts: cause 24 for a greater one.
pub(crate) fn part_number(n: u128) -> Result<u8, Cause>
    ensures { result ≡ part_number n }
{
    if n < 256 {
        Ok(n as u8)
    } else {
        Err(Cause::BadValue)
    }
}

/// Whether a value is this text.
fn is_text_at(name: &[u8], value: Option<&Value>) -> bool
    ensures { result ≡ is_text_at name.now (given value.entry) }
{
    match value {
        Some(value) => match value.as_str() {
            Some(text) => name == text.as_bytes(),
            None => false,
        },
        None => false,
    }
}

/// Whether a flip-flop has this name.
#[tactic(auto, unfolding(crate::specs::Entries::has_name))]
fn has_name(name: &[u8], flipflop: &Value) -> bool
    ensures { result ≡ has_name name.now (view flipflop.now) }
{
    match flipflop.as_table() {
        Some(table) => is_text_at(name, member(table, "name")),
        None => false,
    }
}

/// The number of the flip-flop of this name: cause 24 where there is none.
#[tactic(auto, unfolding(crate::specs::Entries::flip_number))]
fn flip_number(flipflops: &[Value], name: &[u8]) -> Result<u8, Cause>
    ensures { result ≡ flip_number (data_of flipflops.now) name.now }
{
    match first_place(flipflops, |flipflop| has_name(name, flipflop)) {
        Some(n) => part_number(n as u128),
        None => Err(Cause::BadValue),
    }
}

/// The bit that has this name.
fn named_bit(text: &str) -> Option<Bit>
    ensures { result ≡ named_bit text.now }
{
    match text {
        "zero" => Some(Bit::Zero),
        "one" => Some(Bit::One),
        "carry" => Some(Bit::Carry),
        "overflow" => Some(Bit::Overflow),
        "f_zero" => Some(Bit::FZero),
        "sign" => Some(Bit::Sign),
        "f_low" => Some(Bit::FLow),
        "f_high" => Some(Bit::FHigh),
        "q_low" => Some(Bit::QLow),
        "q_high" => Some(Bit::QHigh),
        "line" => Some(Bit::Line),
        "full" => Some(Bit::Full),
        _ => None,
    }
}

/// ir:N, from N on.
fn ir_bit(digits: &[u8]) -> Result<Bit, Cause>
    ensures { result ≡ ir_bit digits.now }
{
    let n = part_number(number(digits)?)?;
    Ok(Bit::Ir(n))
}

/// ff:NAME, from NAME on.
fn flip_bit(flipflops: &[Value], name: &[u8]) -> Result<Bit, Cause>
    ensures { result ≡ flip_bit (data_of flipflops.now) name.now }
{
    let n = flip_number(flipflops, name)?;
    Ok(Bit::Flip(n))
}

/// A bit: cause 2, 3 or 24.
#[tactic(auto, unfolding(crate::specs::Entries::bit_spelled))]
fn bit_spelled(flipflops: &[Value], text: &str) -> Result<Bit, Cause>
    ensures { result ≡ bit_spelled (data_of flipflops.now) text.now }
{
    if let Some(bit) = named_bit(text) {
        return Ok(bit);
    }
    if let Some(digits) = after(b"ir:", text.as_bytes()) {
        return ir_bit(digits);
    }
    if let Some(name) = after(b"ff:", text.as_bytes()) {
        return flip_bit(flipflops, name);
    }
    Err(Cause::BadValue)
}

/// A bit of a condition or a link: cause 23, 2, 3 or 24.
#[tactic(auto, unfolding(crate::specs::Entries::bit_in))]
pub(crate) fn bit(width: u8, flipflops: &[Value], value: &Value) -> Result<Bit, Cause>
    ensures exact { result ≡ bit_in width (data_of flipflops.now) (view value.now) }
    ensures kept { IfOk result (λ bit. Kept (bit_rule width (length flipflops.now) bit)) }
{
    let bit = bit_spelled(flipflops, text(value)?)?;
    bit_rule(width, flipflops.len(), bit)?;
    Ok(bit)
}

/// A bit of the carry in: cause 23, 2, 3 or 24.
#[tactic(auto, unfolding(crate::specs::Entries::carry_in_in))]
pub(crate) fn carry_in(width: u8, flipflops: &[Value], value: &Value) -> Result<Bit, Cause>
    ensures exact { result ≡ carry_in_in width (data_of flipflops.now) (view value.now) }
    ensures kept { IfOk result (λ bit. Kept (carry_in_rule width (length flipflops.now) bit)) }
{
    let bit = bit_spelled(flipflops, text(value)?)?;
    carry_in_rule(width, flipflops.len(), bit)?;
    Ok(bit)
}

/// The load that has this name.
fn named_load(text: &str) -> Option<Load>
    ensures { result ≡ named_load text.now }
{
    match text {
        "hold" => Some(Load::Hold),
        "invert" => Some(Load::Invert),
        "xor_carry" => Some(Load::XorCarry),
        _ => None,
    }
}

/// The bit that a flip-flop takes: cause 2, 3 or 24.
fn bit_load(flipflops: &[Value], text: &str) -> Result<Load, Cause>
    ensures { result ≡ bit_load (data_of flipflops.now) text.now }
{
    let bit = bit_spelled(flipflops, text)?;
    Ok(Load::Take(bit))
}

/// A load: cause 2, 3 or 24.
#[tactic(auto, unfolding(crate::specs::Entries::load_spelled))]
fn load_spelled(flipflops: &[Value], text: &str) -> Result<Load, Cause>
    ensures { result ≡ load_spelled (data_of flipflops.now) text.now }
{
    if let Some(load) = named_load(text) {
        return Ok(load);
    }
    bit_load(flipflops, text)
}

/// A load of a flip-flop: cause 23, 2, 3 or 24.
#[tactic(auto, unfolding(crate::specs::Entries::load_in))]
pub(crate) fn load(width: u8, flipflops: &[Value], value: &Value) -> Result<Load, Cause>
    ensures exact { result ≡ load_in width (data_of flipflops.now) (view value.now) }
    ensures kept { IfOk result (λ load. Kept (load_rule width (length flipflops.now) load)) }
{
    let load = load_spelled(flipflops, text(value)?)?;
    load_rule(width, flipflops.len(), load)?;
    Ok(load)
}

/// Whether a text is this name.
fn is(text: &[u8], name: &[u8]) -> bool
    ensures { result ≡ bytes_eq text.now name.now }
{
    text == name
}

/// The source of D that has this name.
fn named_source(text: &[u8]) -> Option<DFrom>
    ensures { result ≡ named_source text.now }
{
    if is(text, b"zero") {
        return Some(DFrom::Zero);
    }
    if is(text, b"memory") {
        return Some(DFrom::Memory);
    }
    if is(text, b"ir") {
        return Some(DFrom::Ir);
    }
    if is(text, b"mar") {
        return Some(DFrom::Mar);
    }
    if is(text, b"input") {
        return Some(DFrom::Input);
    }
    None
}

/// field:NAME, from NAME on.
fn field_source(fields: &[NamedField], name: &[u8]) -> Result<DFrom, Cause>
    ensures { result ≡ field_source fields.now name.now }
{
    match field_number(fields, name) {
        Some(n) => Ok(DFrom::Field(part_number(n as u128)?)),
        None => Err(Cause::BadValue),
    }
}

/// ff:NAME, from NAME on.
fn flip_source(flipflops: &[Value], name: &[u8]) -> Result<DFrom, Cause>
    ensures { result ≡ flip_source (data_of flipflops.now) name.now }
{
    let n = flip_number(flipflops, name)?;
    Ok(DFrom::Flip(n))
}

/// A source of D without its mask: cause 24.
#[tactic(auto, unfolding(crate::specs::Entries::source_spelled))]
fn source_spelled(fields: &[NamedField], flipflops: &[Value], text: &[u8]) -> Result<DFrom, Cause>
    ensures { result ≡ source_spelled fields.now (data_of flipflops.now) text.now }
{
    if let Some(source) = named_source(text) {
        return Ok(source);
    }
    if let Some(name) = after(b"field:", text) {
        return field_source(fields, name);
    }
    if let Some(name) = after(b"ff:", text) {
        return flip_source(flipflops, name);
    }
    Err(Cause::BadValue)
}

/// A mask of 32 bits: cause 24 for a greater number.
fn mask_number(n: u128) -> Result<u32, Cause>
    ensures { result ≡ mask_number n }
{
    if n < 0x1_0000_0000 {
        Ok(n as u32)
    } else {
        Err(Cause::BadValue)
    }
}

/// A source and its mask, which begins behind the &, if there is one: cause 2, 3 or 24.
fn masked(
    fields: &[NamedField],
    flipflops: &[Value],
    text: &[u8],
    and: Option<usize>,
) -> Result<DSource, Cause>
    requires { IfSome and (λ n. n < length text.now) }
    ensures { result ≡ masked fields.now (data_of flipflops.now) text.now and }
{
    match and {
        Some(n) => {
            let mask = mask_number(number(&text[n + 1..])?)?;
            let from = source_spelled(fields, flipflops, &text[..n])?;
            Ok(DSource {
                from,
                mask: Some(mask),
            })
        }
        None => {
            let from = source_spelled(fields, flipflops, text)?;
            Ok(DSource { from, mask: None })
        }
    }
}

/// A source of D, perhaps with a mask: cause 23, 2, 3 or 24.
#[tactic(auto, unfolding(crate::specs::Entries::d_source_in))]
pub(crate) fn d_source(
    width: u8,
    fields: &[NamedField],
    flipflops: &[Value],
    value: &Value,
) -> Result<DSource, Cause>
    ensures exact { result ≡ d_source_in width fields.now (data_of flipflops.now) (view value.now) }
    ensures kept { IfOk result
        (λ source. Kept (d_source_rule width (length fields.now) (length flipflops.now) source)) }
{
    let bytes = text(value)?.as_bytes();
    let source = masked(fields, flipflops, bytes, first_place(bytes, |c| *c == b'&'))?;
    d_source_rule(width, fields.len(), flipflops.len(), source)?;
    Ok(source)
}
