// Keys that the format doesn't have.
ghost use Rattle.std.specs.Prelude.{◌≡◌, ◌++◌, codes, IfOk};
ghost use Rattle.std.specs.List.{list_any};
ghost use Rattle.std.specs.Str.{bytes_eq};
ghost use Rattle.mw_board.specs.Points.{name_of};
ghost use Rattle.toml.specs.Data.{get_member};
ghost use Rattle.toml.specs.View.{table_view};
ghost use Rattle.mw_base.specs.Numbers.{decimal};
ghost use Rattle.mw_base.specs.Reading.{Gives};
ghost use Rattle.mw_boardfile.specs.Sizes.{version_in};
ghost use Rattle.mw_boardfile.specs.Unknown.{keys_of, file_of};
ghost use Rattle.mw_boardfile.specs.Unknown.{is_one_of, lesser, with_key, with_members, with_table, table_at};
ghost use Rattle.mw_boardfile.specs.Unknown.{with_flipflops, flipflops_at, unknown_key, known_or_fault};
ghost use Rattle.mw_boardfile.specs.Views.{given, data_of};

use crate::fault::{BoardRefusal, KeyFault};
use crate::sizes::version;
use crate::values::member;
use mw_base::{Cause, Name, NoMemory, Refused, append_decimal, is_one_of};
use mw_board::Point;
use std::alloc::Global;
use toml::{Table, Value};

/// A table whose keys the format names.
#[derive(Clone, Copy)]
enum KeyTable {
    /// The file itself, of version 1.
    File,
    /// The file itself, of version 2.
    SecondFile,
    /// A flip-flop.
    FlipFlop,
    /// The control points.
    Control,
    /// The lists.
    Select,
    /// The map.
    Map,
}

/// The keys of a file of version 1.
const FILE_KEYS: [&[u8]; 12] = [
    b"version",
    b"width",
    b"microword",
    b"address",
    b"fill",
    b"unset",
    b"vector",
    b"fields",
    b"flipflop",
    b"control",
    b"select",
    b"map",
];

/// The keys of a flip-flop.
const FLIPFLOP_KEYS: [&[u8]; 3] = [b"name", b"control", b"load"];

/// The lists.
const SELECT_KEYS: [&[u8]; 5] = [b"carry_in", b"condition", b"ram_link", b"q_link", b"d"];

/// The keys of the map.
const MAP_KEYS: [&[u8]; 3] = [b"low", b"bits", b"entries"];

/// Whether one of the control points has the key.
fn is_point(points: &[Point], key: &[u8]) -> bool
    ensures { result ≡ list_any (λ point. bytes_eq key.now (name_of point)) points.now }
{
    points.iter().any(|point| key == point.name().as_bytes())
}

/// Whether a key is one that the format has in such a table.
fn is_known(kind: KeyTable, key: &[u8]) -> bool
    ensures { result ≡ is_one_of (keys_of kind) key.now }
{
    match kind {
        KeyTable::File => is_one_of(&FILE_KEYS, key),
        KeyTable::SecondFile => key == b"stack".as_slice() || is_one_of(&FILE_KEYS, key),
        KeyTable::FlipFlop => is_one_of(&FLIPFLOP_KEYS, key),
        KeyTable::Control => is_point(&Point::ALL, key),
        KeyTable::Select => is_one_of(&SELECT_KEYS, key),
        KeyTable::Map => is_one_of(&MAP_KEYS, key),
    }
}

/// The lesser by bytes of the least so far and one more.
fn lesser(least: Option<Name>, key: Name) -> Option<Name>
    ensures { result ≡ lesser least key }
{
    match least {
        Some(least) => {
            if key.as_slice().cmp(least.as_slice()).is_lt() {
                Some(key)
            } else {
                Some(least)
            }
        }
        None => Some(key),
    }
}

/// A key behind its prefix.
fn behind(alloc: Global, prefix: &[u8], key: &str) -> Result<Name, NoMemory>
    ensures { IfOk result (λ path. path ≡ prefix.now ++ key.now) }
{
    let mut path = Vec::from_slice(alloc, prefix)?;
    path.extend_from_slice(key.as_bytes())?;
    Ok(Name::from_vec(path))
}

/// With one key, where it isn't known.
fn with_key(
    alloc: Global,
    kind: KeyTable,
    prefix: &[u8],
    key: &str,
    least: Option<Name>,
) -> Result<Option<Name>, NoMemory>
    ensures { IfOk result (λ now. now ≡ with_key (keys_of kind) prefix.now key.now least) }
{
    if is_known(kind, key.as_bytes()) {
        return Ok(least);
    }
    let path = behind(alloc, prefix, key)?;
    Ok(lesser(least, path))
}

/// With the keys of a table that aren't known.
fn with_members(
    alloc: Global,
    kind: KeyTable,
    prefix: &[u8],
    table: &Table,
    least: Option<Name>,
) -> Result<Option<Name>, NoMemory>
    ensures { IfOk result (λ now. now ≡ with_members (keys_of kind) prefix.now (table_view table.now) least) }
{
    let mut least = least;
    'members: for (key, _) in table.iter() {
        least = with_key(alloc, kind, prefix, key.as_str(), least)?;
    }
    Ok(least)
}

/// With those of a value, which has none where it is no table.
fn with_table(
    alloc: Global,
    kind: KeyTable,
    prefix: &[u8],
    value: Option<&Value>,
    least: Option<Name>,
) -> Result<Option<Name>, NoMemory>
    ensures { IfOk result (λ now. now ≡ with_table (keys_of kind) prefix.now (table_at (given value.entry)) least) }
{
    match value {
        Some(value) => match value.as_table() {
            Some(table) => with_members(alloc, kind, prefix, table, least),
            None => Ok(least),
        },
        None => Ok(least),
    }
}

/// What stands before the keys of a flip-flop.
fn flipflop_prefix(alloc: Global, n: usize) -> Result<Vec<u8>, NoMemory>
    ensures { IfOk result (λ prefix. prefix.items ≡ codes "flipflop." ++ (decimal n ++ codes ".")) }
{
    let mut prefix = Vec::from_slice(alloc, b"flipflop.")?;
    append_decimal(alloc, &mut prefix, n as u64)?;
    prefix.push(b'.')?;
    Ok(prefix)
}

/// With those of the flip-flops.
fn with_flipflops(
    alloc: Global,
    flipflops: &[Value],
    least: Option<Name>,
) -> Result<Option<Name>, NoMemory>
    ensures { IfOk result (λ now. now ≡ with_flipflops 0 (data_of flipflops.now) least) }
{
    let mut least = least;
    'flipflops: for (n, value) in flipflops.iter().enumerate() {
        let prefix = flipflop_prefix(alloc, n)?;
        least = with_table(alloc, KeyTable::FlipFlop, &prefix, Some(value), least)?;
    }
    Ok(least)
}

/// The values of the flip-flops, none where they are no list.
fn flipflops(document: &Table) -> &[Value]
    ensures { data_of result.now ≡ flipflops_at (get_member (codes "flipflop") (table_view document.now)) }
{
    match member(document, "flipflop") {
        Some(value) => match value.as_array() {
            Some(array) => array.as_slice(),
            None => &[],
        },
        None => &[],
    }
}

/// The table of the file's own keys: of version 2 where `version` is 2, and else of version 1.
fn file_of(value: Option<&Value>) -> KeyTable
    ensures { result ≡ file_of (version_in (given value.entry)) }
{
    match version(value) {
        Ok(version) => {
            if version == 2 {
                KeyTable::SecondFile
            } else {
                KeyTable::File
            }
        }
        Err(_) => KeyTable::File,
    }
}

/// The least unknown key of a document, by the bytes of its dotted path.
#[tactic(auto, unfolding(crate::specs::Unknown::unknown_key))]
fn unknown_key(alloc: Global, document: &Table) -> Result<Option<Name>, NoMemory>
    ensures { IfOk result (λ least. least ≡ unknown_key (table_view document.now)) }
{
    let file = file_of(member(document, "version"));
    let least = with_members(alloc, file, b"", document, None)?;
    let least = with_table(
        alloc,
        KeyTable::Control,
        b"control.",
        member(document, "control"),
        least,
    )?;
    let least = with_table(
        alloc,
        KeyTable::Select,
        b"select.",
        member(document, "select"),
        least,
    )?;
    let least = with_table(
        alloc,
        KeyTable::Map,
        b"map.",
        member(document, "map"),
        least,
    )?;
    with_flipflops(alloc, flipflops(document), least)
}

/// No key is unknown, else cause 22 at the least that is.
pub(crate) fn known_only(alloc: Global, document: &Table) -> Result<(), BoardRefusal>
    ensures { Gives (λ done. done) result (known_or_fault (unknown_key (table_view document.now))) }
{
    match unknown_key(alloc, document) {
        Ok(None) => Ok(()),
        Ok(Some(key)) => Err(Refused::At(KeyFault {
            cause: Cause::UnknownKey,
            key,
        })),
        Err(NoMemory) => Err(Refused::NoMemory),
    }
}
