// select.LIST.
ghost use Rattle.std.specs.Prelude.{◌≡◌, option_map, IfOk};
ghost use Rattle.toml.specs.View.{view, table_view};
ghost use Rattle.mw_boardfile.specs.Printed.{is_alone, is_zero_bit, is_zero_source, bits_printed, sources_printed};
ghost use Rattle.mw_boardfile.specs.Printed.{lists_printed};
ghost use Rattle.mw_boardfile.specs.Tables.{table_of};
ghost use Rattle.mw_boardfile.specs.Views.{FieldsAreNamed, FlipFlopsAreNamed};

use crate::print::texts::{bit, source};
use crate::print::values::{each, put_given};
use mw_base::NoMemory;
use mw_board::{Bit, BoardParts, DFrom, DSource, FlipFlop, NamedField};
use std::alloc::Global;
use toml::{Table, Value};

/// Whether the bits are zero alone.
fn is_zero_bit_alone(bits: &[Bit]) -> bool
    ensures { result ≡ is_alone is_zero_bit bits.now }
{
    match bits {
        [Bit::Zero] => true,
        _ => false,
    }
}

/// Bits that aren't printed where they are zero alone.
fn bits(alloc: Global, flipflops: &[FlipFlop], bits: &[Bit]) -> Result<Option<Value>, NoMemory>
    requires { FlipFlopsAreNamed flipflops.now }
    ensures { IfOk result (λ value. option_map view value ≡ bits_printed flipflops.now bits.now) }
{
    if is_zero_bit_alone(bits) {
        return Ok(None);
    }
    let values = each(alloc, bits, &|entry| bit(alloc, flipflops, *entry))?;
    Ok(Some(Value::from(values)))
}

/// Whether a source is zero, without a mask.
fn is_zero_source(source: DSource) -> bool
    ensures { result ≡ is_zero_source source }
{
    match (source.mask, source.from) {
        (None, DFrom::Zero) => true,
        _ => false,
    }
}

/// Whether the sources are zero alone.
fn is_zero_source_alone(sources: &[DSource]) -> bool
    ensures { result ≡ is_alone is_zero_source sources.now }
{
    match sources {
        [source] => is_zero_source(*source),
        _ => false,
    }
}

/// Sources that aren't printed where they are zero alone.
fn sources(
    alloc: Global,
    fields: &[NamedField],
    flipflops: &[FlipFlop],
    sources: &[DSource],
) -> Result<Option<Value>, NoMemory>
    requires fields { FieldsAreNamed fields.now }
    requires flipflops { FlipFlopsAreNamed flipflops.now }
    ensures { IfOk result (λ value. option_map view value ≡ sources_printed fields.now flipflops.now sources.now) }
{
    if is_zero_source_alone(sources) {
        return Ok(None);
    }
    let values = each(
        alloc,
        sources,
        &|entry| { source(alloc, fields, flipflops, *entry) },
    )?;
    Ok(Some(Value::from(values)))
}

/// select.
#[tactic(auto, unfolding(crate::specs::Tables::table_of))]
pub(crate) fn lists(alloc: Global, parts: &BoardParts) -> Result<Table, NoMemory>
    requires fields { FieldsAreNamed parts.now.fields }
    requires flipflops { FlipFlopsAreNamed parts.now.flipflop }
    ensures { IfOk result (λ table. table_view table ≡ table_of (lists_printed parts.now)) }
{
    let mut table = Table::new(alloc);
    let fields = parts.fields.as_slice();
    let flipflops = parts.flipflop.as_slice();
    let d = sources(alloc, fields, flipflops, parts.d.as_slice())?;
    put_given(alloc, &mut table, "d", d)?;
    let q_link = bits(alloc, flipflops, parts.q_link.as_slice())?;
    put_given(alloc, &mut table, "q_link", q_link)?;
    let ram_link = bits(alloc, flipflops, parts.ram_link.as_slice())?;
    put_given(alloc, &mut table, "ram_link", ram_link)?;
    let condition = bits(alloc, flipflops, parts.condition.as_slice())?;
    put_given(alloc, &mut table, "condition", condition)?;
    let carry_in = bits(alloc, flipflops, parts.carry_in.as_slice())?;
    put_given(alloc, &mut table, "carry_in", carry_in)?;
    Ok(table)
}
