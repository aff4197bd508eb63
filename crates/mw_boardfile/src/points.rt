// control.POINT.
ghost use Rattle.std.specs.Prelude.{◌≡◌, ◌-◌, ◌^◌, min, option_copied, IfOk};
ghost use Rattle.toml.specs.Data.{as_str, as_integer};
ghost use Rattle.toml.specs.View.{view, table_view};
ghost use Rattle.mw_base.specs.Reading.{Gives};
ghost use Rattle.mw_board.specs.Points.{default_points};
ghost use Rattle.mw_board.specs.Rules.{control_rule, driver_rule, DriversKeep};
ghost use Rattle.mw_boardfile.specs.Control.{constant, control_field, named_or_constant, control_in, driver_in};
ghost use Rattle.mw_boardfile.specs.Control.{given_point, each_point, points_of};
ghost use Rattle.mw_boardfile.specs.Kept.{Kept};
ghost use Rattle.mw_boardfile.specs.Views.{given, members};

use crate::entries::part_number;
use crate::fault::BoardRefusal;
use crate::fields::field_number;
use crate::paths::{below, under_whole};
use crate::values::{member, member_of, not_negative, table_or_none};
use mw_base::Cause;
use mw_board::{Control, NamedField, Point, Points, control_rule, driver_rule};
use std::alloc::Global;
use toml::{Table, Value};

/// A constant: cause 24. The greatest number of 32 bits stands for each that is greater: it fits no point, and is past
/// the end of every list, as they are.
fn constant(integer: i64) -> Result<Control, Cause>
    ensures { result ≡ constant integer }
{
    let value = not_negative(integer)?;
    if value < 0xFFFF_FFFF {
        Ok(Control::Fixed(value as u32))
    } else {
        Ok(Control::Fixed(0xFFFF_FFFF))
    }
}

/// The field of this name: cause 24.
fn control_field(fields: &[NamedField], name: &[u8]) -> Result<Control, Cause>
    ensures { result ≡ control_field fields.now name.now }
{
    match field_number(fields, name) {
        Some(n) => Ok(Control::Field(part_number(n as u128)?)),
        None => Err(Cause::BadValue),
    }
}

/// A field's name, or a constant: cause 23 or 24.
#[tactic(auto, unfolding(crate::specs::Control::control_in))]
pub(crate) fn control(fields: &[NamedField], value: &Value) -> Result<Control, Cause>
    ensures exact { result ≡ control_in fields.now (view value.now) }
    ensures kept { IfOk result (λ control. Kept (control_rule fields.now control)) }
{
    let control = named_or_constant(fields, value)?;
    control_rule(fields, control)?;
    Ok(control)
}

fn named_or_constant(fields: &[NamedField], value: &Value) -> Result<Control, Cause>
    ensures { result ≡ named_or_constant fields.now (as_str (view value.now)) (as_integer (view value.now)) }
{
    match value.as_str() {
        Some(name) => control_field(fields, name.as_bytes()),
        None => match value.as_integer() {
            Some(integer) => constant(integer),
            None => Err(Cause::WrongKind),
        },
    }
}

/// What drives a point: cause 23, 24 or 11.
#[tactic(auto, unfolding(crate::specs::Control::driver_in))]
fn driver(fields: &[NamedField], point: Point, value: &Value) -> Result<Control, Cause>
    ensures exact { result ≡ driver_in fields.now point (view value.now) }
    ensures kept { IfOk result (λ driver. Kept (driver_rule fields.now point driver)) }
{
    let driver = named_or_constant(fields, value)?;
    driver_rule(fields, point, driver)?;
    Ok(driver)
}

/// The points so far, and one that is driven as its key says; without a key it stays as it is.
fn given_point(
    alloc: Global,
    fields: &[NamedField],
    points: Points,
    point: Point,
    value: Option<&Value>,
) -> Result<Points, BoardRefusal>
    ensures gives { Gives (λ points. points) result (given_point fields.now points point (given value.entry)) }
    ensures kept { DriversKeep fields.now points → IfOk result (DriversKeep fields.now) }
{
    match value {
        Some(value) => {
            let key = below(alloc, b"control", point.name().as_bytes())?;
            let driver = under_whole(alloc, &key, driver(fields, point, value))?;
            Ok(points.with(point, driver))
        }
        None => Ok(points),
    }
}

/// The points where there are no keys, and each of these as its key says.
fn each_point(
    alloc: Global,
    fields: &[NamedField],
    table: Option<&Table>,
    points: &[Point],
) -> Result<Points, BoardRefusal>
    ensures gives { Gives (λ points. points) result
        (each_point fields.now (members table.entry) default_points points.now) }
    ensures kept { IfOk result (DriversKeep fields.now) }
{
    let mut drivers = Points::DEFAULT;
    for point in points {
        let value = member_of(table, point.name());
        drivers = given_point(alloc, fields, drivers, *point, value)?;
    }
    Ok(drivers)
}

/// The control points that there are under the key control.
#[tactic(auto, unfolding(crate::specs::Control::points_of))]
pub(crate) fn points(
    alloc: Global,
    fields: &[NamedField],
    document: &Table,
) -> Result<Points, BoardRefusal>
    ensures gives { Gives (λ points. points) result (points_of fields.now (table_view document.now)) }
    ensures kept { IfOk result (DriversKeep fields.now) }
{
    let table = under_whole(
        alloc,
        b"control",
        table_or_none(member(document, "control")),
    )?;
    each_point(alloc, fields, table, &Point::ALL)
}
