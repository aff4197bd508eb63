// The rules of boards in the order of a board file's keys.
ghost use Rattle.std.specs.Prelude.{◌≡◌, ◌<◌, ◌≤◌, ℕ, [], length, min, Result};
ghost use Rattle.mw_base.specs.declared.cause.Cause.{Cause};
ghost use Rattle.mw_board.specs.Rules.{Verdict, bit_rule, carry_in_rule, d_source_rule, load_rule, map_entry_rule};
ghost use Rattle.mw_board.specs.Check.{placed, number_16, at_key, at_flipflop, in_list, in_load, each_from};
ghost use Rattle.mw_board.specs.Check.{list_check, sizes_check, field_check, fields_check, flipflop_check};
ghost use Rattle.mw_board.specs.Check.{flipflops_from, flipflops_check, points_check, lists_check};
ghost use Rattle.mw_board.specs.Check.{point_check, map_check, check_of};
ghost use Rattle.mw_board.specs.Keys.{carry_in_key, d_key, map_entries_key};
ghost use Rattle.mw_board.specs.Points.{all_points};
ghost use Rattle.mw_board.specs.Following.{Follows, place_of};

use crate::bit::{Bit, DSource, Load};
use crate::control::{Control, Points};
use crate::fault::PartFault;
use crate::field::NamedField;
use crate::flipflop::FlipFlop;
use crate::parts::BoardParts;
use crate::point::Point;
use crate::{key, rules};
use mw_base::Cause;

/// A list of a board.
#[derive(Clone, Copy)]
pub(crate) enum ListKey {
    /// That of this key.
    Key(u8),
    /// The loads of this flip-flop.
    Loads(u16),
}

fn placed(row: u8, index: u16, entry: u16, verdict: Result<(), Cause>) -> Result<(), PartFault>
    ensures { result ≡ placed row index entry verdict }
{
    match verdict {
        Ok(()) => Ok(()),
        Err(cause) => Err(PartFault {
            cause,
            row,
            index,
            entry,
        }),
    }
}

fn at_key(row: u8, verdict: Result<(), Cause>) -> Result<(), PartFault>
    ensures { result ≡ at_key row verdict }
{
    placed(row, 0, 0, verdict)
}

/// The number in 16 bits; the last one stands for each that is greater.
fn number_16(n: usize) -> u16
    ensures { result ≡ number_16 n }
{
    if n < 65_535 { n as u16 } else { 65_535 }
}

/// The rule of an entry of a list, or of a whole list, whose number is then 0.
fn placed_in(list: ListKey, n: usize, verdict: Result<(), Cause>) -> Result<(), PartFault>
    ensures { result ≡ place_of list n verdict }
{
    match list {
        ListKey::Key(row) => placed(row, number_16(n), 0, verdict),
        ListKey::Loads(flipflop) => placed(key::LOAD, flipflop, number_16(n), verdict),
    }
}

/// One rule on each entry.
fn each<T, F: Fn(&T) -> Result<(), Cause>>(
    list: ListKey,
    entries: &[T],
    rule: F,
) -> Result<(), PartFault>
    requires { F.IsAlwaysCallable rule }
    // What is so of every rule that the closure follows.
    ensures { (test : T → Verdict) → Follows (F.post rule) test
        → result ≡ each_from (λ n entry. place_of list n (test entry)) 0 entries.now }
{
    for (n, entry) in entries.iter().enumerate() {
        placed_in(list, n, rule(entry))?;
    }
    Ok(())
}

/// A list from which a control chooses.
#[tactic(auto, unfolding(crate::specs::Check::list_check))]
fn chosen_list<T, F: Fn(&T) -> Result<(), Cause>>(
    list: ListKey,
    fields: &[NamedField],
    control: Control,
    entries: &[T],
    rule: F,
) -> Result<(), PartFault>
    requires { F.IsAlwaysCallable rule }
    // What is so of every rule that the closure follows.
    ensures { (test : T → Verdict) → Follows (F.post rule) test
        → result ≡ list_check (place_of list) fields.now control test entries.now }
{
    placed_in(list, 0, rules::chosen_rule(control, entries.len()))?;
    each(list, entries, rule)?;
    placed_in(list, 0, rules::list_rule(fields, control, entries.len()))
}

/// A list of bits, after the key's number.
fn check_bits(
    row: u8,
    fields: &[NamedField],
    control: Control,
    bits: &[Bit],
    width: u8,
    flipflops: usize,
) -> Result<(), PartFault>
    ensures { result ≡ list_check (in_list row) fields.now control (bit_rule width flipflops) bits.now }
{
    chosen_list(ListKey::Key(row), fields, control, bits, |bit| {
        rules::bit_rule(width, flipflops, *bit)
    })
}

/// The bits of the carry in.
fn check_carry_ins(
    fields: &[NamedField],
    control: Control,
    bits: &[Bit],
    width: u8,
    flipflops: usize,
) -> Result<(), PartFault>
    ensures { result ≡ list_check (in_list carry_in_key) fields.now control (carry_in_rule width flipflops) bits.now }
{
    chosen_list(ListKey::Key(key::CARRY_IN), fields, control, bits, |bit| {
        rules::carry_in_rule(width, flipflops, *bit)
    })
}

/// The sources of D.
fn check_sources(
    fields: &[NamedField],
    control: Control,
    sources: &[DSource],
    width: u8,
    flipflops: usize,
) -> Result<(), PartFault>
    ensures { result ≡ list_check (in_list d_key) fields.now control
        (d_source_rule width (length fields.now) flipflops) sources.now }
{
    chosen_list(ListKey::Key(key::D), fields, control, sources, |source| {
        rules::d_source_rule(width, fields.len(), flipflops, *source)
    })
}

/// The loads of a flip-flop.
fn check_loads(
    i: usize,
    fields: &[NamedField],
    control: Control,
    loads: &[Load],
    width: u8,
    flipflops: usize,
) -> Result<(), PartFault>
    ensures { result ≡ list_check (in_load i) fields.now control (load_rule width flipflops) loads.now }
{
    chosen_list(
        ListKey::Loads(number_16(i)),
        fields,
        control,
        loads,
        |load| { rules::load_rule(width, flipflops, *load) },
    )
}

/// The entries of the map.
fn check_entries(entries: &[u16]) -> Result<(), PartFault>
    ensures { result ≡ each_from (λ n entry. in_list map_entries_key n (map_entry_rule entry)) 0 entries.now }
{
    each(ListKey::Key(key::MAP_ENTRIES), entries, |entry| {
        rules::map_entry_rule(u64::from(*entry))
    })
}

#[tactic(auto, unfolding(crate::specs::Check::sizes_check))]
fn check_sizes(parts: &BoardParts) -> Result<(), PartFault>
    ensures { result ≡ sizes_check parts.now }
{
    at_key(key::WIDTH, rules::width_rule(u64::from(parts.width)))?;
    at_key(
        key::MICROWORD,
        rules::microword_rule(u64::from(parts.microword)),
    )?;
    at_key(
        key::ADDRESS,
        rules::address_rule(parts.width, u64::from(parts.address)),
    )?;
    at_key(key::FILL, rules::word_rule(parts.microword, parts.fill))?;
    at_key(key::UNSET, rules::word_rule(parts.microword, parts.unset))?;
    at_key(key::VECTOR, rules::vector_rule(u64::from(parts.vector)))?;
    at_key(key::STACK, rules::stack_rule(u64::from(parts.stack)))
}

fn check_field(microword: u8, n: usize, named: &NamedField) -> Result<(), PartFault>
    ensures { result ≡ field_check microword n named.now }
{
    let field = &named.field;
    placed_in(
        ListKey::Key(key::FIELDS),
        n,
        rules::name_rule(named.name.as_slice()),
    )?;
    placed_in(
        ListKey::Key(key::FIELDS),
        n,
        rules::field_rule(microword, u64::from(field.low), u64::from(field.width)),
    )
}

fn check_each_field(microword: u8, fields: &[NamedField]) -> Result<(), PartFault>
    ensures { result ≡ each_from (field_check microword) 0 fields.now }
{
    for (n, named) in fields.iter().enumerate() {
        check_field(microword, n, named)?;
    }
    Ok(())
}

#[tactic(auto, unfolding(crate::specs::Check::fields_check))]
fn check_fields(parts: &BoardParts) -> Result<(), PartFault>
    ensures { result ≡ fields_check parts.now }
{
    let fields = parts.fields.as_slice();
    at_key(key::FIELDS, rules::fields_rule(fields.len()))?;
    check_each_field(parts.microword, fields)
}

#[tactic(auto, unfolding(crate::specs::Check::flipflop_check))]
fn check_flipflop(
    parts: &BoardParts,
    earlier: &[FlipFlop],
    i: usize,
    flipflop: &FlipFlop,
) -> Result<(), PartFault>
    ensures { result ≡ flipflop_check parts.now earlier.now i flipflop.now }
{
    let fields = parts.fields.as_slice();
    let count = parts.flipflop.as_slice().len();
    let control = flipflop.control;
    let number = number_16(i);
    placed(
        key::NAME,
        number,
        0,
        rules::flipflop_name_rule(parts.depth(), earlier, flipflop.name.as_slice()),
    )?;
    placed(
        key::CONTROL,
        number,
        0,
        rules::control_rule(fields, control),
    )?;
    check_loads(
        i,
        fields,
        control,
        flipflop.load.as_slice(),
        parts.width,
        count,
    )
}

fn check_each_flipflop(parts: &BoardParts, flipflops: &[FlipFlop]) -> Result<(), PartFault>
    ensures { result ≡ flipflops_from parts.now [] 0 flipflops.now }
{
    for (i, flipflop) in flipflops.iter().enumerate() {
        check_flipflop(parts, &flipflops[..i], i, flipflop)?;
    }
    Ok(())
}

#[tactic(auto, unfolding(crate::specs::Check::flipflops_check))]
fn check_flipflops(parts: &BoardParts) -> Result<(), PartFault>
    ensures { result ≡ flipflops_check parts.now }
{
    let flipflops = parts.flipflop.as_slice();
    at_key(key::FLIPFLOP, rules::flipflops_rule(flipflops.len()))?;
    check_each_flipflop(parts, flipflops)
}

fn check_point(
    fields: &[NamedField],
    control: &Points,
    n: usize,
    point: &Point,
) -> Result<(), PartFault>
    requires { n < length all_points }
    ensures { result ≡ point_check fields.now control.now n point.now }
{
    let driver = control.driver(*point);
    at_key(
        key::FIRST_POINT + n as u8,
        rules::driver_rule(fields, *point, driver),
    )
}

fn check_each_point(
    fields: &[NamedField],
    control: &Points,
    points: &[Point],
) -> Result<(), PartFault>
    requires { length points.now ≤ length all_points }
    ensures { result ≡ each_from (point_check fields.now control.now) 0 points.now }
{
    for (n, point) in points.iter().enumerate() {
        check_point(fields, control, n, point)?;
    }
    Ok(())
}

#[tactic(auto, unfolding(crate::specs::Check::points_check))]
fn check_points(parts: &BoardParts) -> Result<(), PartFault>
    ensures { result ≡ points_check parts.now }
{
    check_each_point(parts.fields.as_slice(), &parts.control, &Point::ALL)
}

#[tactic(auto, unfolding(crate::specs::Check::lists_check))]
fn check_lists(parts: &BoardParts) -> Result<(), PartFault>
    ensures { result ≡ lists_check parts.now }
{
    let fields = parts.fields.as_slice();
    let points = parts.control;
    let width = parts.width;
    let flipflops = parts.flipflop.as_slice().len();
    check_carry_ins(
        fields,
        points.carry_in,
        parts.carry_in.as_slice(),
        width,
        flipflops,
    )?;
    check_bits(
        key::CONDITION,
        fields,
        points.condition,
        parts.condition.as_slice(),
        width,
        flipflops,
    )?;
    check_bits(
        key::RAM_LINK,
        fields,
        points.link,
        parts.ram_link.as_slice(),
        width,
        flipflops,
    )?;
    check_bits(
        key::Q_LINK,
        fields,
        points.link,
        parts.q_link.as_slice(),
        width,
        flipflops,
    )?;
    check_sources(fields, points.d, parts.d.as_slice(), width, flipflops)
}

#[tactic(auto, unfolding(crate::specs::Check::map_check))]
fn check_map(parts: &BoardParts) -> Result<(), PartFault>
    ensures { result ≡ map_check parts.now }
{
    let entries = parts.map_entries.as_slice();
    at_key(
        key::MAP_BITS,
        rules::map_bits_rule(
            parts.width,
            u64::from(parts.map_low),
            u64::from(parts.map_bits),
        ),
    )?;
    check_entries(entries)?;
    at_key(
        key::MAP_ENTRIES,
        rules::map_entries_rule(parts.map_bits, entries.len()),
    )
}

/// The first rule of boards that the parts break, in the order of a board file's keys.
#[tactic(auto, unfolding(crate::specs::Check::check_of))]
pub(crate) fn check_parts(parts: &BoardParts) -> Result<(), PartFault>
    ensures { result ≡ check_of parts.now }
{
    check_sizes(parts)?;
    check_fields(parts)?;
    check_flipflops(parts)?;
    check_points(parts)?;
    check_lists(parts)?;
    check_map(parts)
}
