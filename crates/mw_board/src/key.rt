//! The keys of a board file by number, counted from 0, which is version, in their order.

use crate::point::Point;

/// width.
pub const WIDTH: u8 = 1;
/// microword.
pub const MICROWORD: u8 = 2;
/// address.
pub const ADDRESS: u8 = 3;
/// fill.
pub const FILL: u8 = 4;
/// unset.
pub const UNSET: u8 = 5;
/// vector.
pub const VECTOR: u8 = 6;
/// stack.
pub const STACK: u8 = 7;
/// fields.
pub const FIELDS: u8 = 8;
/// flipflop.
pub const FLIPFLOP: u8 = 9;
/// flipflop.N.name.
pub const NAME: u8 = 10;
/// flipflop.N.control.
pub const CONTROL: u8 = 11;
/// flipflop.N.load.
pub const LOAD: u8 = 12;
/// control.alu_source, behind which the other points stand.
pub const FIRST_POINT: u8 = 13;
/// select.carry_in, behind the points.
pub const CARRY_IN: u8 = FIRST_POINT + Point::ALL.len() as u8;
/// select.condition.
pub const CONDITION: u8 = CARRY_IN + 1;
/// select.ram_link.
pub const RAM_LINK: u8 = CONDITION + 1;
/// select.q_link.
pub const Q_LINK: u8 = RAM_LINK + 1;
/// select.d.
pub const D: u8 = Q_LINK + 1;
/// map.bits, behind map.low.
pub const MAP_BITS: u8 = D + 2;
/// map.entries.
pub const MAP_ENTRIES: u8 = MAP_BITS + 1;
