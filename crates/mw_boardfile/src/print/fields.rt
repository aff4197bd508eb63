// fields.NAME.
ghost use Rattle.std.specs.Prelude.{◌≡◌, IfOk};
ghost use Rattle.toml.specs.View.{view, table_view};
ghost use Rattle.mw_boardfile.specs.Printed.{field_printed, fields_printed};
ghost use Rattle.mw_boardfile.specs.Views.{FieldsAreNamed};

use crate::print::names::name_text;
use crate::print::values::{integer, put};
use mw_base::NoMemory;
use mw_board::NamedField;
use std::alloc::Global;
use toml::{Table, Value};

/// [low, width].
fn field(alloc: Global, named: &NamedField) -> Result<Value, NoMemory>
    ensures { IfOk result (λ value. view value ≡ field_printed named.now) }
{
    let mut entries = Vec::new(alloc);
    entries.push(integer(u32::from(named.field.low)))?;
    entries.push(integer(u32::from(named.field.width)))?;
    Ok(Value::from(entries))
}

/// fields: the table of the fields, from the last one on.
pub(crate) fn fields(alloc: Global, fields: &[NamedField]) -> Result<Table, NoMemory>
    requires { FieldsAreNamed fields.now }
    ensures { IfOk result (λ table. table_view table ≡ fields_printed fields.now) }
{
    let mut table = Table::new(alloc);
    let mut n = fields.len();
    while n > 0 {
        n -= 1;
        let named = &fields[n];
        let value = field(alloc, named)?;
        put(alloc, &mut table, name_text(named.name.as_slice()), value)?;
    }
    Ok(table)
}
