// map.low, map.bits and map.entries.
ghost use Rattle.std.specs.Prelude.{◌≡◌, map, IfOk};
ghost use Rattle.toml.specs.View.{view, table_view};
ghost use Rattle.mw_boardfile.specs.Printed.{integer_of, map_printed};
ghost use Rattle.mw_boardfile.specs.Tables.{table_of};

use crate::print::values::{each, integer, integer_unless_zero, list_unless_empty, put_given};
use mw_base::NoMemory;
use mw_board::BoardParts;
use std::alloc::Global;
use toml::{Table, Value};

/// The entries of a map.
fn entries(alloc: Global, entries: &[u16]) -> Result<Vec<Value>, NoMemory>
    ensures { IfOk result (λ values. map view values.items ≡ map integer_of entries.now) }
{
    each(alloc, entries, &|entry| Ok(integer(u32::from(*entry))))
}

/// map.
#[tactic(auto, unfolding(crate::specs::Tables::table_of))]
pub(crate) fn map(alloc: Global, parts: &BoardParts) -> Result<Table, NoMemory>
    ensures { IfOk result (λ table. table_view table ≡ table_of (map_printed parts.now)) }
{
    let mut table = Table::new(alloc);
    let entries = entries(alloc, parts.map_entries.as_slice())?;
    put_given(alloc, &mut table, "entries", list_unless_empty(entries))?;
    let bits = integer_unless_zero(u32::from(parts.map_bits));
    put_given(alloc, &mut table, "bits", bits)?;
    let low = integer_unless_zero(u32::from(parts.map_low));
    put_given(alloc, &mut table, "low", low)?;
    Ok(table)
}
