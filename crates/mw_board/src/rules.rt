// The rules of a board's parts, one for each key of a board file. They take values as a file may have them.
ghost use Rattle.std.specs.Prelude.{◌≡◌, ◌+◌, ◌^◌, ◌<◌, ◌≤◌, ◌==◌, length, nat_lt, nat_le, slice_get, OnOk, IsTrue};
ghost use Rattle.std.specs.List.{list_any};
ghost use Rattle.std.specs.Str.{bytes_eq};
ghost use Rattle.mw_board.specs.Rules.{ask, all_of, width_rule, microword_rule, address_rule, word_rule};
ghost use Rattle.mw_board.specs.Rules.{vector_rule, stack_rule, fields_rule, name_rule, field_rule, flipflops_rule};
ghost use Rattle.mw_board.specs.Rules.{is_flipflop_name, flipflop_name_rule, width_of};
ghost use Rattle.mw_board.specs.Rules.{control_rule, point_rule, driver_rule, chosen_rule, list_rule, bit_rule};
ghost use Rattle.mw_board.specs.Rules.{carry_in_rule, load_rule, source_rule, mask_rule, d_source_rule};
ghost use Rattle.mw_board.specs.Rules.{map_bits_rule, map_entry_rule, map_size, map_entries_rule};
ghost use Rattle.mw_seq.specs.Sequencer.{IsDepth};

use crate::bit::{Bit, DFrom, DSource, Load};
use crate::control::Control;
use crate::element::is_reserved;
use crate::field::NamedField;
use crate::flipflop::FlipFlop;
use crate::point::Point;
use mw_base::{Cause, is_name};
use mw_seq::is_depth;

/// The cause, where the test doesn't hold.
fn ask(test: bool, cause: Cause) -> Result<(), Cause>
    ensures exact { result ≡ ask test cause }
    ensures kept { OnOk result (IsTrue test) }
{
    if test { Ok(()) } else { Err(cause) }
}

/// Cause 12 where the width isn't a multiple of 4 from 4 to 32.
#[tactic(auto, unfolding(crate::specs::Rules::width_rule))]
pub fn width_rule(width: u64) -> Result<(), Cause>
    ensures exact { result ≡ width_rule width }
    ensures kept { OnOk result (width ≤ 32) }
{
    ask(4 <= width && width <= 32 && width % 4 == 0, Cause::BadWidth)
}

/// Cause 12 where a microword doesn't have 1 to 128 bits.
#[tactic(auto, unfolding(crate::specs::Rules::microword_rule))]
pub fn microword_rule(microword: u64) -> Result<(), Cause>
    ensures exact { result ≡ microword_rule microword }
    ensures kept { OnOk result (microword ≤ 128) }
{
    ask(1 <= microword && microword <= 128, Cause::BadWidth)
}

/// Cause 12 where a memory address doesn't have 1 to 16 bits, or has more than the width.
#[tactic(auto, unfolding(crate::specs::Rules::address_rule))]
pub fn address_rule(width: u8, address: u64) -> Result<(), Cause>
    ensures exact { result ≡ address_rule width address }
    ensures kept { OnOk result (address ≤ 16) }
{
    ask(
        1 <= address && address <= u64::from(width) && address <= 16,
        Cause::BadWidth,
    )
}

/// Cause 24 where the word has more bits than a microword.
#[tactic(auto, unfolding(crate::specs::Rules::word_rule))]
pub fn word_rule(microword: u8, word: u128) -> Result<(), Cause>
    ensures { result ≡ word_rule microword word }
{
    ask(has_bits(word, microword), Cause::BadValue)
}

/// Whether a number is below 2 to the power of bits.
fn has_bits(number: u128, bits: u8) -> bool
    ensures { result ≡ nat_lt number (2 ^ bits) }
{
    bits >= 128 || number < 1u128 << bits
}

/// Cause 24 where the vector isn't below 4,096.
#[tactic(auto, unfolding(crate::specs::Rules::vector_rule))]
pub fn vector_rule(vector: u64) -> Result<(), Cause>
    ensures exact { result ≡ vector_rule vector }
    ensures kept { OnOk result (vector < 4096) }
{
    ask(vector < 4096, Cause::BadValue)
}

/// Cause 24 where a stack has neither 5 nor 9 words.
#[tactic(auto, unfolding(crate::specs::Rules::stack_rule))]
pub fn stack_rule(stack: u64) -> Result<(), Cause>
    ensures exact { result ≡ stack_rule stack }
    ensures kept { OnOk result (IsDepth stack) }
{
    ask(is_depth(stack), Cause::BadValue)
}

/// Cause 14 where there are more than 64 fields.
#[tactic(auto, unfolding(crate::specs::Rules::fields_rule))]
pub fn fields_rule(count: usize) -> Result<(), Cause>
    ensures { result ≡ fields_rule count }
{
    ask(count <= 64, Cause::TooMany)
}

/// Cause 24 where the text is no name.
#[tactic(auto, unfolding(crate::specs::Rules::name_rule))]
pub fn name_rule(name: &[u8]) -> Result<(), Cause>
    ensures { result ≡ name_rule name.now }
{
    ask(is_name(name), Cause::BadValue)
}

/// Cause 12 where a field doesn't have 1 to 32 bits, then cause 10 where it passes the end of the microword.
#[tactic(auto, unfolding(crate::specs::Rules::field_rule))]
pub fn field_rule(microword: u8, low: u64, width: u64) -> Result<(), Cause>
    ensures exact { result ≡ field_rule microword low width }
    ensures kept { OnOk result (low + width ≤ microword) }
{
    ask(1 <= width && width <= 32, Cause::BadWidth)?;
    let microword = u64::from(microword);
    ask(
        width <= microword && low <= microword - width,
        Cause::FieldOutside,
    )
}

/// Cause 14 where there are more than 16 flip-flops.
#[tactic(auto, unfolding(crate::specs::Rules::flipflops_rule))]
pub fn flipflops_rule(count: usize) -> Result<(), Cause>
    ensures { result ≡ flipflops_rule count }
{
    ask(count <= 16, Cause::TooMany)
}

/// Whether one of the flip-flops has the name.
fn is_flipflop_name(flipflops: &[FlipFlop], name: &[u8]) -> bool
    ensures { result ≡ is_flipflop_name flipflops.now name.now }
{
    flipflops.iter().any(|f| name == f.name.as_slice())
}

/// Cause 24 where the text is no name, then cause 31 where another element of the board, whose stack has `depth` words,
/// or a flip-flop before this one, has it.
#[tactic(auto, unfolding(crate::specs::Rules::flipflop_name_rule))]
pub fn flipflop_name_rule(depth: u8, earlier: &[FlipFlop], name: &[u8]) -> Result<(), Cause>
    ensures { result ≡ flipflop_name_rule depth earlier.now name.now }
{
    ask(is_name(name), Cause::BadValue)?;
    ask(!is_reserved(depth, name), Cause::Twice)?;
    ask(!is_flipflop_name(earlier, name), Cause::Twice)
}

/// The width of the field with this number, 0 where there is none.
fn width_of(fields: &[NamedField], number: u8) -> u8
    ensures { result ≡ width_of (slice_get fields.now number) }
{
    match fields.get(usize::from(number)) {
        Some(named) => named.field.width,
        None => 0,
    }
}

/// Cause 24 where the control is a field that there isn't.
#[tactic(auto, unfolding(crate::specs::Rules::control_rule))]
pub fn control_rule(fields: &[NamedField], control: Control) -> Result<(), Cause>
    ensures { result ≡ control_rule fields.now control }
{
    match control {
        Control::Field(number) => ask(usize::from(number) < fields.len(), Cause::BadValue),
        Control::Fixed(_) => Ok(()),
    }
}

/// The rule of a control point of so many bits: cause 24 where its control is a field that there isn't, or a constant
/// of more bits, then cause 11 where it is a wider field.
#[tactic(auto, unfolding(crate::specs::Rules::point_rule))]
pub fn point_rule(bits: u8, fields: &[NamedField], control: Control) -> Result<(), Cause>
    ensures { result ≡ point_rule bits fields.now control }
{
    match control {
        Control::Field(number) => {
            ask(usize::from(number) < fields.len(), Cause::BadValue)?;
            ask(width_of(fields, number) <= bits, Cause::SelectTooWide)
        }
        Control::Fixed(value) => ask(has_bits(u128::from(value), bits), Cause::BadValue),
    }
}

/// The rule of what drives a point: `point_rule` of its bits, or `control_rule` where it chooses from a list.
pub fn driver_rule(fields: &[NamedField], point: Point, driver: Control) -> Result<(), Cause>
    ensures { result ≡ driver_rule fields.now point driver }
{
    match point.bits() {
        Some(bits) => point_rule(bits, fields, driver),
        None => control_rule(fields, driver),
    }
}

/// Cause 24 where a list has no entry, or where the constant that chooses from it is past its end.
#[tactic(auto, unfolding(crate::specs::Rules::chosen_rule))]
pub fn chosen_rule(control: Control, entries: usize) -> Result<(), Cause>
    ensures { result ≡ chosen_rule control entries }
{
    match control {
        Control::Field(_) => ask(0 < entries, Cause::BadValue),
        Control::Fixed(value) => ask((value as usize) < entries, Cause::BadValue),
    }
}

/// Cause 11 where a list has more entries than the field that chooses from it has values, then cause 14 where it has
/// more than 64.
#[tactic(auto, unfolding(crate::specs::Rules::list_rule))]
pub fn list_rule(fields: &[NamedField], control: Control, entries: usize) -> Result<(), Cause>
    ensures { result ≡ list_rule fields.now control entries }
{
    if let Control::Field(number) = control {
        ask(
            has_values(width_of(fields, number), entries),
            Cause::SelectTooWide,
        )?;
    }
    ask(entries <= 64, Cause::TooMany)
}

/// Whether so many bits have at least so many values.
fn has_values(bits: u8, count: usize) -> bool
    ensures { result ≡ nat_le count (2 ^ bits) }
{
    bits >= 64 || count as u64 <= 1u64 << bits
}

/// Cause 24 where the bit is one that the instruction register doesn't have, or a flip-flop that there isn't.
#[tactic(auto, unfolding(crate::specs::Rules::bit_rule))]
pub fn bit_rule(width: u8, flipflops: usize, bit: Bit) -> Result<(), Cause>
    ensures { result ≡ bit_rule width flipflops bit }
{
    match bit {
        Bit::Ir(number) => ask(number < width, Cause::BadValue),
        Bit::Flip(number) => ask(usize::from(number) < flipflops, Cause::BadValue),
        _ => Ok(()),
    }
}

/// Cause 24 where the bit follows from F, which a carry in can't read; and as `bit_rule`.
#[tactic(auto, unfolding(crate::specs::Rules::carry_in_rule))]
pub fn carry_in_rule(width: u8, flipflops: usize, bit: Bit) -> Result<(), Cause>
    ensures { result ≡ carry_in_rule width flipflops bit }
{
    match bit {
        Bit::Carry | Bit::Overflow | Bit::FZero | Bit::Sign | Bit::FLow | Bit::FHigh => {
            Err(Cause::BadValue)
        }
        _ => bit_rule(width, flipflops, bit),
    }
}

/// Cause 24 where a flip-flop takes a bit that there isn't.
#[tactic(auto, unfolding(crate::specs::Rules::load_rule))]
pub fn load_rule(width: u8, flipflops: usize, load: Load) -> Result<(), Cause>
    ensures { result ≡ load_rule width flipflops load }
{
    match load {
        Load::Take(bit) => bit_rule(width, flipflops, bit),
        _ => Ok(()),
    }
}

#[tactic(auto, unfolding(crate::specs::Rules::source_rule))]
fn source_rule(fields: usize, flipflops: usize, from: DFrom) -> Result<(), Cause>
    ensures { result ≡ source_rule fields flipflops from }
{
    match from {
        DFrom::Field(number) => ask(usize::from(number) < fields, Cause::BadValue),
        DFrom::Flip(number) => ask(usize::from(number) < flipflops, Cause::BadValue),
        _ => Ok(()),
    }
}

#[tactic(auto, unfolding(crate::specs::Rules::mask_rule))]
fn mask_rule(width: u8, mask: Option<u32>) -> Result<(), Cause>
    ensures { result ≡ mask_rule width mask }
{
    match mask {
        Some(mask) => ask(has_bits(u128::from(mask), width), Cause::BadValue),
        None => Ok(()),
    }
}

/// Cause 24 where D comes from a field or a flip-flop that there isn't, or where its mask has more bits than the width.
#[tactic(auto, unfolding(crate::specs::Rules::d_source_rule))]
pub fn d_source_rule(
    width: u8,
    fields: usize,
    flipflops: usize,
    source: DSource,
) -> Result<(), Cause>
    ensures { result ≡ d_source_rule width fields flipflops source }
{
    source_rule(fields, flipflops, source.from)?;
    mask_rule(width, source.mask)
}

/// Cause 13 where the map sees more than 8 bits, or bits that the instruction register doesn't have.
#[tactic(auto, unfolding(crate::specs::Rules::map_bits_rule))]
pub fn map_bits_rule(width: u8, low: u64, bits: u64) -> Result<(), Cause>
    ensures exact { result ≡ map_bits_rule width low bits }
    ensures kept { OnOk result (low + bits ≤ width) }
{
    let width = u64::from(width);
    ask(
        bits <= 8 && bits <= width && low <= width - bits,
        Cause::MapSize,
    )
}

/// Cause 24 where an entry of the map isn't below 4,096.
#[tactic(auto, unfolding(crate::specs::Rules::map_entry_rule))]
pub fn map_entry_rule(entry: u64) -> Result<(), Cause>
    ensures exact { result ≡ map_entry_rule entry }
    ensures kept { OnOk result (entry < 4096) }
{
    ask(entry < 4096, Cause::BadValue)
}

/// Whether there is an entry for each value of so many bits; none where there are no bits.
fn is_whole_map(bits: u8, entries: usize) -> bool
    ensures { result ≡ (entries == map_size bits) }
{
    if bits == 0 {
        return entries == 0;
    }
    bits < 64 && entries as u64 == 1u64 << bits
}

/// Cause 13 where the map hasn't one entry for each value of its bits; without bits it has none.
#[tactic(auto, unfolding(crate::specs::Rules::map_entries_rule))]
pub fn map_entries_rule(bits: u8, entries: usize) -> Result<(), Cause>
    ensures { result ≡ map_entries_rule bits entries }
{
    ask(is_whole_map(bits, entries), Cause::MapSize)
}
