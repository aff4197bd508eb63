// Values and tables that are printed.
ghost use Rattle.std.specs.Prelude.{◌≡◌, map, option_map, string_bytes, IfOk, OnOk};
ghost use Rattle.std.specs.Str.{IsUtf8};
ghost use Rattle.toml.specs.Data.{Data};
ghost use Rattle.toml.specs.View.{view, table_view};
ghost use Rattle.mw_base.specs.Numbers.{hex, decimal};
ghost use Rattle.mw_boardfile.specs.Printed.{integer_of, text_of, unless_zero, unless_empty, list_unless_empty};
ghost use Rattle.mw_boardfile.specs.Tables.{put, put_given};
ghost use Rattle.mw_boardfile.specs.Views.{Prints};

use mw_base::{NoMemory, append_decimal, append_hex};
use std::alloc::Global;
use toml::{Table, Value};

/// An integer.
pub(crate) fn integer(n: u32) -> Value
    ensures { view result ≡ integer_of n }
{
    Value::from(n)
}

/// An integer that isn't printed where it is 0.
pub(crate) fn integer_unless_zero(n: u32) -> Option<Value>
    ensures { option_map view result ≡ unless_zero integer_of n }
{
    if n == 0 { None } else { Some(integer(n)) }
}

/// Bytes that are a text.
fn text(bytes: Vec<u8>) -> String
    requires { IsUtf8 bytes.items }
    ensures { string_bytes result ≡ bytes.items }
{
    match String::from_utf8(bytes) {
        Ok(text) => text,
        Err(_) => unreachable!(),
    }
}

/// The hexadecimal digits of a number.
pub(crate) fn hex_digits(alloc: Global, n: u128) -> Result<String, NoMemory>
    ensures { IfOk result (λ text. string_bytes text ≡ hex n) }
{
    let mut bytes = Vec::new(alloc);
    append_hex(alloc, &mut bytes, n)?;
    Ok(text(bytes))
}

/// The decimal digits of a number.
pub(crate) fn decimal_digits(alloc: Global, n: u8) -> Result<String, NoMemory>
    ensures { IfOk result (λ text. string_bytes text ≡ decimal n) }
{
    let mut bytes = Vec::new(alloc);
    append_decimal(alloc, &mut bytes, u64::from(n))?;
    Ok(text(bytes))
}

/// A number as a text.
pub(crate) fn number(alloc: Global, n: u128) -> Result<Value, NoMemory>
    ensures { IfOk result (λ value. view value ≡ text_of n) }
{
    Ok(Value::from(hex_digits(alloc, n)?))
}

/// A number as a text that isn't printed where it is 0.
pub(crate) fn number_unless_zero(alloc: Global, n: u128) -> Result<Option<Value>, NoMemory>
    ensures { IfOk result (λ value. option_map view value ≡ unless_zero text_of n) }
{
    if n == 0 {
        Ok(None)
    } else {
        Ok(Some(number(alloc, n)?))
    }
}

/// What is printed of each of these.
pub(crate) fn each<T, F: Fn(&T) -> Result<Value, NoMemory>>(
    alloc: Global,
    items: &[T],
    print: &F,
) -> Result<Vec<Value>, NoMemory>
    requires { F.IsAlwaysCallable print.now }
    // What is so of every printer that the closure follows.
    ensures { (printed : T → Data) → Prints (F.post print.now) printed
        → IfOk result (λ values. map view values.items ≡ map printed items.now) }
{
    let mut values = Vec::new(alloc);
    for item in items {
        values.push(print(item)?)?;
    }
    Ok(values)
}

/// A list that isn't printed where it has no entries.
pub(crate) fn list_unless_empty(values: Vec<Value>) -> Option<Value>
    ensures { option_map view result ≡ list_unless_empty (map view values.items) }
{
    if values.is_empty() {
        None
    } else {
        Some(Value::from(values))
    }
}

/// A table that isn't printed where it has no members.
pub(crate) fn table_unless_empty(table: Table) -> Option<Value>
    ensures { option_map view result ≡ unless_empty (table_view table) }
{
    if table.is_empty() {
        None
    } else {
        Some(Value::from(table))
    }
}

/// A table takes one more value.
pub(crate) fn put(alloc: Global, table: &mut Table, key: &str, value: Value) -> Result<(), NoMemory>
    ensures { OnOk result (table_view table.new ≡ put key.now (view value) (table_view table.old)) }
{
    table.insert(String::from_str(alloc, key)?, value)?;
    Ok(())
}

/// A table takes one more value, where there is one.
pub(crate) fn put_given(
    alloc: Global,
    table: &mut Table,
    key: &str,
    value: Option<Value>,
) -> Result<(), NoMemory>
    ensures { OnOk result (table_view table.new ≡ put_given key.now (option_map view value) (table_view table.old)) }
{
    match value {
        Some(value) => put(alloc, table, key, value),
        None => Ok(()),
    }
}
