// flipflop.
ghost use Rattle.std.specs.Prelude.{◌≡◌, map, option_map, true, IfOk};
ghost use Rattle.toml.specs.View.{view, table_view};
ghost use Rattle.mw_base.specs.Names.{is_name};
ghost use Rattle.mw_boardfile.specs.Printed.{list_of, load_printed, flipflop_keys_printed, flipflop_printed};
ghost use Rattle.mw_boardfile.specs.Tables.{table_of};
ghost use Rattle.mw_boardfile.specs.Views.{FieldsAreNamed, FlipFlopsAreNamed};

use crate::print::names::name_text;
use crate::print::points::control;
use crate::print::texts::load;
use crate::print::values::{each, put};
use mw_base::NoMemory;
use mw_board::{FlipFlop, Load, NamedField};
use std::alloc::Global;
use toml::{Table, Value};

/// The loads of a flip-flop.
fn loads(alloc: Global, flipflops: &[FlipFlop], loads: &[Load]) -> Result<Value, NoMemory>
    requires { FlipFlopsAreNamed flipflops.now }
    ensures { IfOk result (λ value. view value ≡ list_of (map (load_printed flipflops.now) loads.now)) }
{
    let values = each(alloc, loads, &|entry| load(alloc, flipflops, *entry))?;
    Ok(Value::from(values))
}

/// name, control and load.
#[tactic(auto, unfolding(crate::specs::Tables::table_of))]
fn keys(
    alloc: Global,
    fields: &[NamedField],
    flipflops: &[FlipFlop],
    flipflop: &FlipFlop,
) -> Result<Table, NoMemory>
    requires fields { FieldsAreNamed fields.now }
    requires flipflops { FlipFlopsAreNamed flipflops.now }
    requires name { is_name flipflop.now.name ≡ true }
    ensures { IfOk result (λ table. table_view table
        ≡ table_of (flipflop_keys_printed fields.now flipflops.now flipflop.now)) }
{
    let mut table = Table::new(alloc);
    let loads = loads(alloc, flipflops, flipflop.load.as_slice())?;
    put(alloc, &mut table, "load", loads)?;
    let control = control(alloc, fields, flipflop.control)?;
    put(alloc, &mut table, "control", control)?;
    let name = Value::string(alloc, name_text(flipflop.name.as_slice()))?;
    put(alloc, &mut table, "name", name)?;
    Ok(table)
}

/// The tables of the flip-flops.
pub(crate) fn flipflops(
    alloc: Global,
    fields: &[NamedField],
    flipflops: &[FlipFlop],
) -> Result<Vec<Value>, NoMemory>
    requires fields { FieldsAreNamed fields.now }
    requires flipflops { FlipFlopsAreNamed flipflops.now }
    ensures { IfOk result (λ values. map view values.items
        ≡ map (flipflop_printed fields.now flipflops.now) flipflops.now) }
{
    let mut values = Vec::new(alloc);
    for flipflop in flipflops {
        values.push(Value::from(keys(alloc, fields, flipflops, flipflop)?))?;
    }
    Ok(values)
}
