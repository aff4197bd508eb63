// control.POINT.
ghost use Rattle.std.specs.Prelude.{◌≡◌, map, option_map, IfOk};
ghost use Rattle.toml.specs.View.{view, table_view};
ghost use Rattle.mw_boardfile.specs.Printed.{usual_constant, control_printed, driver_printed, point_printed};
ghost use Rattle.mw_boardfile.specs.Tables.{table_of};
ghost use Rattle.mw_boardfile.specs.Views.{FieldsAreNamed};

use crate::print::names::field_name;
use crate::print::values::{integer, put_given};
use mw_base::NoMemory;
use mw_board::{Control, NamedField, Point, Points};
use std::alloc::Global;
use toml::{Table, Value};

/// A field's name, or a constant.
pub(crate) fn control(
    alloc: Global,
    fields: &[NamedField],
    control: Control,
) -> Result<Value, NoMemory>
    requires { FieldsAreNamed fields.now }
    ensures { IfOk result (λ value. view value ≡ control_printed fields.now control) }
{
    match control {
        Control::Field(n) => Ok(Value::string(alloc, field_name(fields, n))?),
        Control::Fixed(value) => Ok(integer(value)),
    }
}

/// The constant that drives a point whose key isn't there.
fn usual_constant(point: Point) -> u32
    ensures { result ≡ usual_constant point }
{
    match point {
        Point::Ci => 1,
        _ => 0,
    }
}

/// What drives a point, where that isn't what drives it without a key.
fn driver(
    alloc: Global,
    fields: &[NamedField],
    point: Point,
    driver: Control,
) -> Result<Option<Value>, NoMemory>
    requires { FieldsAreNamed fields.now }
    ensures { IfOk result (λ value. option_map view value ≡ driver_printed fields.now point driver) }
{
    match driver {
        Control::Field(_) => Ok(Some(control(alloc, fields, driver)?)),
        Control::Fixed(value) => {
            if value == usual_constant(point) {
                Ok(None)
            } else {
                Ok(Some(integer(value)))
            }
        }
    }
}

/// The table of these points, from the last one on.
#[tactic(auto, unfolding(crate::specs::Tables::table_of))]
pub(crate) fn points(
    alloc: Global,
    fields: &[NamedField],
    drivers: &Points,
    points: &[Point],
) -> Result<Table, NoMemory>
    requires { FieldsAreNamed fields.now }
    ensures { IfOk result (λ table. table_view table
        ≡ table_of (map (point_printed fields.now drivers.now) points.now)) }
{
    let mut table = Table::new(alloc);
    let mut n = points.len();
    while n > 0 {
        n -= 1;
        let point = points[n];
        let value = driver(alloc, fields, point, drivers.driver(point))?;
        put_given(alloc, &mut table, point.name(), value)?;
    }
    Ok(table)
}
