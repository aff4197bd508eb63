// Readers of the values of a document.
ghost use Rattle.std.specs.Prelude.{◌≡◌, ◌≤◌, option_map};
ghost use Rattle.toml.specs.Data.{get_member, as_str, as_table};
ghost use Rattle.toml.specs.View.{view, table_view};
ghost use Rattle.mw_boardfile.specs.Values.{Answers, required, kind, not_negative, natural, number_text};
ghost use Rattle.mw_boardfile.specs.Values.{list, list_or_none, table_or_none};
ghost use Rattle.mw_boardfile.specs.Views.{given, members, data_of};

use mw_base::{Cause, number};
use toml::{Table, Value};

/// The value under a key of a table; none where the key isn't there.
pub(crate) fn member<'a>(table: &'a Table, key: &str) -> Option<&'a Value>
    ensures { given result ≡ get_member key.now (table_view table.now) }
{
    table.get(key)
}

/// The value under a key of a table, which has none where it isn't there itself.
pub(crate) fn member_of<'a>(table: Option<&'a Table>, key: &str) -> Option<&'a Value>
    ensures { given result ≡ get_member key.now (members table.entry) }
{
    match table {
        Some(table) => member(table, key),
        None => None,
    }
}

/// The value of a required key, or cause 21.
pub(crate) fn required<'a>(value: Option<&'a Value>) -> Result<&'a Value, Cause>
    ensures { Answers (λ v. view v.now) result (required (given value.entry)) }
{
    match value {
        Some(value) => Ok(value),
        None => Err(Cause::MissingKey),
    }
}

/// The number, where it isn't negative; else cause 24.
pub(crate) fn not_negative(integer: i64) -> Result<u64, Cause>
    ensures { result ≡ not_negative integer }
{
    match u64::try_from(integer) {
        Ok(n) => Ok(n),
        Err(_) => Err(Cause::BadValue),
    }
}

/// An integer that isn't negative: cause 23 or 24.
#[tactic(auto, unfolding(crate::specs::Values::natural))]
pub(crate) fn natural(value: &Value) -> Result<u64, Cause>
    ensures { result ≡ natural (view value.now) }
{
    match value.as_integer() {
        Some(integer) => not_negative(integer),
        None => Err(Cause::WrongKind),
    }
}

/// A text: cause 23.
pub(crate) fn text(value: &Value) -> Result<&str, Cause>
    ensures { Answers (λ text. text.now) result (kind (as_str (view value.now))) }
{
    match value.as_str() {
        Some(text) => Ok(text),
        None => Err(Cause::WrongKind),
    }
}

/// A text of one number: cause 23, 2 or 3.
#[tactic(auto, unfolding(crate::specs::Values::number_text))]
pub(crate) fn number_text(value: &Value) -> Result<u128, Cause>
    ensures { result ≡ number_text (view value.now) }
{
    match value.as_str() {
        Some(text) => number(text.as_bytes()),
        None => Err(Cause::WrongKind),
    }
}

/// The values of a list: cause 23.
#[tactic(auto, unfolding(crate::specs::Values::list))]
pub(crate) fn list(value: &Value) -> Result<&[Value], Cause>
    ensures { Answers (λ vs. data_of vs.now) result (list (view value.now)) }
{
    match value.as_array() {
        Some(array) => Ok(array.as_slice()),
        None => Err(Cause::WrongKind),
    }
}

/// The list under a key, without values where the key isn't there: cause 23.
pub(crate) fn list_or_none<'a>(value: Option<&'a Value>) -> Result<&'a [Value], Cause>
    ensures { Answers (λ vs. data_of vs.now) result (list_or_none (given value.entry)) }
{
    match value {
        Some(value) => list(value),
        None => Ok(&[]),
    }
}

/// The table under a key, without members where the key isn't there: cause 23.
pub(crate) fn table_or_none<'a>(value: Option<&'a Value>) -> Result<Option<&'a Table>, Cause>
    ensures { Answers members result (table_or_none (given value.entry)) }
{
    match value {
        Some(value) => match value.as_table() {
            Some(table) => Ok(Some(table)),
            None => Err(Cause::WrongKind),
        },
        None => Ok(None),
    }
}
