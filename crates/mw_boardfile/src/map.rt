// map.low, map.bits and map.entries.
ghost use Rattle.std.specs.Prelude.{◌≡◌, ◌+◌, ◌≤◌, length, All, OnOk, IfOk};
ghost use Rattle.toml.specs.View.{view, table_view};
ghost use Rattle.mw_boardfile.specs.Board.{map_of};
ghost use Rattle.mw_base.specs.Reading.{Gives};
ghost use Rattle.mw_base.specs.declared.cause.Cause.TheVariants.{WrongKind, BadValue};
ghost use Rattle.mw_boardfile.specs.Map.{natural_or_zero, bits_in, entry_in, entry_faults, entries_in};
ghost use Rattle.mw_boardfile.specs.Lists.{none_refused, each_of};
ghost use Rattle.mw_board.specs.Rules.{map_bits_rule, map_entry_rule, map_entries_rule};
ghost use Rattle.mw_boardfile.specs.Kept.{Kept, EntriesKeep, MapKeeps};
ghost use Rattle.mw_boardfile.specs.Views.{given, data_of};

use crate::fault::{BoardRefusal, Fault};
use crate::lists::{each, none_refused, whole};
use crate::paths::{under_list, under_whole};
use crate::values::{list_or_none, member, member_of, natural, table_or_none};
use mw_base::{Cause, Items, Refused};
use mw_board::{map_bits_rule, map_entries_rule, map_entry_rule};
use std::alloc::Global;
use toml::{Table, Value};

/// map.low or map.bits, 0 where it isn't there: cause 23 or 24.
fn natural_or_zero(value: Option<&Value>) -> Result<u64, Cause>
    ensures { result ≡ natural_or_zero (given value.entry) }
{
    match value {
        Some(value) => natural(value),
        None => Ok(0),
    }
}

/// map.bits, 0 where it isn't there: cause 23, 24 or 13.
#[tactic(auto, unfolding(crate::specs::Map::bits_in))]
fn bits(width: u8, low_bit: u64, value: Option<&Value>) -> Result<u8, Cause>
    ensures exact { result ≡ bits_in width low_bit (given value.entry) }
    ensures within { IfOk result (λ bits. low_bit + bits ≤ width) }
    ensures kept { IfOk result (λ bits. Kept (map_bits_rule width low_bit bits)) }
{
    let bits = natural_or_zero(value)?;
    map_bits_rule(width, low_bit, bits)?;
    Ok(bits as u8)
}

/// An entry of the map: cause 23 or 24.
#[tactic(auto, unfolding(crate::specs::Map::entry_in))]
fn entry(value: &Value) -> Result<u16, Cause>
    ensures exact { result ≡ entry_in (view value.now) }
    ensures kept { IfOk result (λ entry. Kept (map_entry_rule entry)) }
{
    let entry = natural(value)?;
    map_entry_rule(entry)?;
    Ok(entry as u16)
}

/// No fault of the entries: cause 23, 24 or 13.
#[tactic(auto, unfolding(crate::specs::Map::entry_faults))]
fn check(bits: u8, values: &[Value]) -> Result<(), Fault>
    ensures exact { result ≡ entry_faults bits (data_of values.now) }
    ensures kept { OnOk result (Kept (map_entries_rule bits (length values.now))) }
{
    none_of(values, Cause::WrongKind)?;
    none_of(values, Cause::BadValue)?;
    whole(map_entries_rule(bits, values.len()))?;
    Ok(())
}

/// No entry is refused for this cause.
fn none_of(values: &[Value], cause: Cause) -> Result<(), Fault>
    ensures { result ≡ none_refused entry_in cause 0 (data_of values.now) }
{
    none_refused(values, cause, &|value| entry(value))
}

/// The entries, read.
fn read(alloc: Global, values: &[Value]) -> Result<Items<u16>, Refused<Fault>>
    ensures gives { Gives (λ entries. entries) result (each_of entry_in 0 (data_of values.now)) }
    ensures count { IfOk result (λ entries. length entries ≡ length values.now) }
    ensures kept { IfOk result (λ entries. All (λ entry. Kept (map_entry_rule entry)) entries) }
{
    each(alloc, values, &|value| entry(value))
}

/// map.entries, none where it isn't there: cause 23, 24 or 13.
#[tactic(auto, unfolding(crate::specs::Map::entries_in))]
fn entries(alloc: Global, bits: u8, value: Option<&Value>) -> Result<Items<u16>, Refused<Fault>>
    ensures gives { Gives (λ entries. entries) result (entries_in bits (given value.entry)) }
    ensures kept { IfOk result (EntriesKeep bits) }
{
    let values = match list_or_none(value) {
        Ok(values) => values,
        Err(cause) => return Err(Refused::At(Fault::whole(cause))),
    };
    match check(bits, values) {
        Ok(()) => read(alloc, values),
        Err(fault) => Err(Refused::At(fault)),
    }
}

/// The map.
#[derive(Drop)]
pub(crate) struct BoardMap {
    /// The lowest bit of the instruction register that it sees.
    pub(crate) low: u8,
    /// How many bits it sees.
    pub(crate) bits: u8,
    /// The address for each of their values.
    pub(crate) entries: Items<u16>,
}

/// map: low, bits and entries.
#[tactic(auto, unfolding(crate::specs::Board::map_of))]
pub(crate) fn map(alloc: Global, width: u8, document: &Table) -> Result<BoardMap, BoardRefusal>
    ensures gives { Gives (λ map. map) result (map_of width (table_view document.now)) }
    ensures kept { IfOk result (MapKeeps width) }
{
    let table = under_whole(alloc, b"map", table_or_none(member(document, "map")))?;
    let low = under_whole(alloc, b"map.low", natural_or_zero(member_of(table, "low")))?;
    let bits = under_whole(
        alloc,
        b"map.bits",
        bits(width, low, member_of(table, "bits")),
    )?;
    let entries = entries(alloc, bits, member_of(table, "entries"));
    let entries = under_list(alloc, b"map.entries", entries)?;
    Ok(BoardMap {
        low: low as u8,
        bits,
        entries,
    })
}
