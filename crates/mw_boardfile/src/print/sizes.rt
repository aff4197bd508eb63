// version to stack.
ghost use Rattle.std.specs.Prelude.{◌≡◌, OnOk};
ghost use Rattle.toml.specs.View.{table_view};
ghost use Rattle.mw_boardfile.specs.Printed.{sizes_printed};
ghost use Rattle.mw_boardfile.specs.Tables.{put_all};

use crate::print::values::{integer, integer_unless_zero, number, number_unless_zero, put_given};
use mw_base::NoMemory;
use mw_board::BoardParts;
use std::alloc::Global;
use toml::Table;

/// A document takes the sizes.
pub(crate) fn put_sizes(
    alloc: Global,
    table: &mut Table,
    parts: &BoardParts,
) -> Result<(), NoMemory>
    ensures { OnOk result (table_view table.new ≡ put_all (sizes_printed parts.now) (table_view table.old)) }
{
    put_given(alloc, table, "stack", Some(integer(u32::from(parts.stack))))?;
    put_given(
        alloc,
        table,
        "vector",
        integer_unless_zero(u32::from(parts.vector)),
    )?;
    put_given(
        alloc,
        table,
        "unset",
        number_unless_zero(alloc, parts.unset)?,
    )?;
    put_given(alloc, table, "fill", Some(number(alloc, parts.fill)?))?;
    put_given(
        alloc,
        table,
        "address",
        Some(integer(u32::from(parts.address))),
    )?;
    put_given(
        alloc,
        table,
        "microword",
        Some(integer(u32::from(parts.microword))),
    )?;
    put_given(alloc, table, "width", Some(integer(u32::from(parts.width))))?;
    put_given(alloc, table, "version", Some(integer(2)))
}
