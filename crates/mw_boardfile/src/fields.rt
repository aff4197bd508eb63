// fields.NAME.
ghost use Rattle.std.specs.Prelude.{◌≡◌, ◌+◌, ◌≤◌, codes, map, option_map, All, IfOk};
ghost use Rattle.toml.specs.View.{view, table_view};
ghost use Rattle.mw_base.specs.Reading.{Gives};
ghost use Rattle.mw_board.specs.Order.{AreInOrder};
ghost use Rattle.mw_boardfile.specs.Fields.{pair, field_in, field_of, count_of, each_field, fields_of, field_number};
ghost use Rattle.mw_boardfile.specs.Lists.{none_refused};
ghost use Rattle.mw_base.specs.declared.cause.Cause.TheVariants.{WrongKind};
ghost use Rattle.mw_boardfile.specs.Values.{Answers, whole, at_entry, natural, list};
ghost use Rattle.mw_boardfile.specs.Kept.{FieldKeeps, FieldsKeep, names_of};
ghost use Rattle.mw_boardfile.specs.Views.{given, data_of, members};

use crate::fault::{BoardRefusal, Fault};
use crate::lists::{first_place, none_refused, whole};
use crate::paths::{below, under, under_whole};
use crate::values::{list, member, natural, table_or_none};
use mw_base::{Cause, Items, Name};
use mw_board::{Field, NamedField, field_rule, fields_rule, name_rule};
use std::alloc::Global;
use toml::{Table, Value};

/// A list of two entries: cause 24.
fn pair(entries: &[Value]) -> Result<(&Value, &Value), Cause>
    ensures { Answers (λ p. (view p.0.now, view p.1.now)) result (pair (data_of entries.now)) }
{
    match entries {
        [low, width] => Ok((low, width)),
        _ => Err(Cause::BadValue),
    }
}

/// The number of an entry: cause 23 or 24.
fn natural_at(n: usize, value: &Value) -> Result<u64, Fault>
    ensures { result ≡ at_entry n (natural (view value.now)) }
{
    match natural(value) {
        Ok(number) => Ok(number),
        Err(cause) => Err(Fault::at(n, cause)),
    }
}

/// [low, width], the value of fields.NAME.
#[tactic(auto, unfolding(crate::specs::Fields::field_in))]
fn field(microword: u8, name: &[u8], value: &Value) -> Result<Field, Fault>
    ensures exact { result ≡ field_in microword name.now (view value.now) }
    ensures kept { IfOk result (λ field. FieldKeeps microword (record { name = name.now; field = field })) }
{
    let entries = whole_list(value)?;
    integers_only(entries)?;
    let (low, width) = whole_pair(entries)?;
    whole(name_rule(name))?;
    let low = natural_at(0, low)?;
    let width = natural_at(1, width)?;
    whole(field_rule(microword, low, width))?;
    Ok(Field {
        low: low as u8,
        width: width as u8,
    })
}

fn whole_list(value: &Value) -> Result<&[Value], Fault>
    ensures { Answers (λ vs. data_of vs.now) result (whole (list (view value.now))) }
{
    match list(value) {
        Ok(values) => Ok(values),
        Err(cause) => Err(Fault::whole(cause)),
    }
}

fn whole_pair(entries: &[Value]) -> Result<(&Value, &Value), Fault>
    ensures { Answers (λ p. (view p.0.now, view p.1.now)) result (whole (pair (data_of entries.now))) }
{
    match pair(entries) {
        Ok(two) => Ok(two),
        Err(cause) => Err(Fault::whole(cause)),
    }
}

/// Each entry is an integer: cause 23.
fn integers_only(entries: &[Value]) -> Result<(), Fault>
    ensures { result ≡ none_refused natural WrongKind 0 (data_of entries.now) }
{
    none_refused(entries, Cause::WrongKind, &|entry| natural(entry))
}

/// fields.NAME.
#[tactic(auto, unfolding(crate::specs::Fields::field_of))]
fn named_field(
    alloc: Global,
    microword: u8,
    name: &[u8],
    value: &Value,
) -> Result<NamedField, BoardRefusal>
    ensures gives { Gives (λ f. f) result (field_of microword name.now (view value.now)) }
    ensures name { IfOk result (λ f. f.name ≡ name.now) }
    ensures kept { IfOk result (FieldKeeps microword) }
{
    let key = below(alloc, b"fields", name)?;
    let field = under(alloc, &key, field(microword, name, value))?;
    let name = Name::new(alloc, name)?;
    Ok(NamedField { name, field })
}

/// Each field of a table.
fn each_field(
    alloc: Global,
    microword: u8,
    table: &Table,
) -> Result<Items<NamedField>, BoardRefusal>
    ensures gives { Gives (λ fields. fields) result (each_field microword (table_view table.now)) }
    ensures names { IfOk result (λ fields. map (λ f. f.name) fields ≡ names_of (table_view table.now)) }
    ensures kept { IfOk result (λ fields. All (FieldKeeps microword) fields) }
    ensures order { IfOk result (λ fields. AreInOrder fields) }
{
    let mut fields = Vec::new(alloc);
    for (name, value) in table.iter() {
        fields.push(named_field(alloc, microword, name.as_bytes(), value)?)?;
    }
    Ok(Items::from_vec(fields))
}

/// How many members a table has.
fn count_of(table: &Table) -> usize
    ensures { result ≡ count_of (table_view table.now) }
{
    table.len()
}

/// The fields that there are under the key fields.
#[tactic(auto, using(crate::proofs::InOrder::none_in_order), unfolding(crate::specs::Fields::fields_of))]
pub(crate) fn fields(
    alloc: Global,
    microword: u8,
    document: &Table,
) -> Result<Items<NamedField>, BoardRefusal>
    ensures gives { Gives (λ fields. fields) result (fields_of microword (table_view document.now)) }
    ensures kept { IfOk result (FieldsKeep microword) }
    ensures order { IfOk result (λ fields. AreInOrder fields) }
{
    match under_whole(alloc, b"fields", table_or_none(member(document, "fields")))? {
        Some(table) => {
            under_whole(alloc, b"fields", fields_rule(count_of(table)))?;
            each_field(alloc, microword, table)
        }
        None => Ok(Items::from_vec(Vec::new(alloc))),
    }
}

/// The number of the field of this name.
#[tactic(auto, unfolding(crate::specs::Fields::field_number))]
pub(crate) fn field_number(fields: &[NamedField], name: &[u8]) -> Option<usize>
    ensures { result ≡ field_number fields.now name.now }
{
    first_place(fields, |f| name == f.name.as_slice())
}
