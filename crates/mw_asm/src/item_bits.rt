// The bits that items set.
ghost use Rattle.std.specs.Prelude.{◌≡◌, IfSome};
ghost use Rattle.mw_base.specs.Named.{names_seen};
ghost use Rattle.mw_asm.specs.Bits.{no_bits};
ghost use Rattle.mw_asm.specs.ItemBits.{FitsWord, field_named, value_of, field_set, valued_bits, alone_bits, item_bits};
ghost use Rattle.mw_asm.specs.ItemBits.{beside, with_item, bits_of};

use crate::bits::{SetBits, power};
use crate::items::Item;
use crate::names::{Meaning, Scope, bits_named, number_named};
use mw_base::{Cause, Kind, Names, TextFault, Token, fault_on, spelled};
use mw_board::{Board, Field, NamedField};

/// The field of this name.
#[tactic(auto, unfolding(crate::specs::ItemBits::field_named))]
fn field_named(fields: &[NamedField], name: &[u8]) -> Option<Field>
    ensures { result ≡ field_named fields.now name.now }
{
    fields
        .iter()
        .find(|f| f.name.as_slice() == name)
        .map(|f| f.field)
}

/// The field of this name of a board.
fn field_of_board(board: &Board, name: &[u8]) -> Option<Field>
    ensures exact { result ≡ field_named board.now.fields name.now }
    ensures fits { IfSome result (λ field. FitsWord field) }
{
    field_named(board.parts().fields.as_slice(), name)
}

/// A value: a number, or the name of one. Cause 30.
#[tactic(auto, unfolding(crate::specs::ItemBits::value_of))]
fn value_of(
    text: &[u8],
    names: &Names<Meaning>,
    scope: Scope,
    token: Token,
) -> Result<u128, TextFault>
    ensures { result ≡ value_of text.now (names_seen names.now) scope token }
{
    match token.kind {
        Kind::Number(value) => Ok(value),
        _ => number_named(scope, names.get(spelled(text, token))).ok_or(fault_on(
            token,
            Cause::UnknownName,
        )),
    }
}

/// A field set to the value that a token gives: cause 33.
#[tactic(auto, unfolding(crate::specs::ItemBits::field_set))]
fn field_set(field: Field, token: Token, value: u128) -> Result<SetBits, TextFault>
    requires { FitsWord field }
    ensures { result ≡ field_set field token value }
{
    if value < power(field.width) {
        Ok(SetBits::of_field(field, value))
    } else {
        Err(fault_on(token, Cause::ValueTooWide))
    }
}

/// FIELD = VALUE: cause 30 or 33.
#[tactic(auto, unfolding(crate::specs::ItemBits::valued_bits))]
fn valued_bits(
    board: &Board,
    text: &[u8],
    names: &Names<Meaning>,
    scope: Scope,
    name: Token,
    token: Token,
) -> Result<SetBits, TextFault>
    ensures { result ≡ valued_bits board.now.fields text.now (names_seen names.now) scope name token }
{
    let unknown = fault_on(name, Cause::UnknownName);
    let field = field_of_board(board, spelled(text, name)).ok_or(unknown)?;
    let value = value_of(text, names, scope, token)?;
    field_set(field, token, value)
}

/// The name of a `def`: cause 30.
#[tactic(auto, unfolding(crate::specs::ItemBits::alone_bits))]
fn alone_bits(text: &[u8], names: &Names<Meaning>, name: Token) -> Result<SetBits, TextFault>
    ensures { result ≡ alone_bits text.now (names_seen names.now) name }
{
    bits_named(names.get(spelled(text, name))).ok_or(fault_on(name, Cause::UnknownName))
}

/// The bits that an item sets: cause 30 or 33.
fn item_bits(
    board: &Board,
    text: &[u8],
    names: &Names<Meaning>,
    scope: Scope,
    item: Item,
) -> Result<SetBits, TextFault>
    ensures { result ≡ item_bits board.now.fields text.now (names_seen names.now) scope item.name item.value }
{
    match item.value {
        Some(value) => valued_bits(board, text, names, scope, item.name, value),
        None => alone_bits(text, names, item.name),
    }
}

/// These bits beside those that earlier items of the line set: cause 32.
#[tactic(auto, unfolding(crate::specs::ItemBits::beside))]
fn beside(item: Token, before: SetBits, bits: SetBits) -> Result<SetBits, TextFault>
    ensures { result ≡ beside item before bits }
{
    if before.agrees(bits) {
        Ok(before.union(bits))
    } else {
        Err(fault_on(item, Cause::FieldConflict))
    }
}

/// The bits that an item sets beside those of the earlier items: cause 30, then 33, then 32.
#[tactic(auto, unfolding(crate::specs::ItemBits::with_item))]
fn with_item(
    board: &Board,
    text: &[u8],
    names: &Names<Meaning>,
    scope: Scope,
    before: SetBits,
    item: Item,
) -> Result<SetBits, TextFault>
    ensures { result ≡ with_item board.now.fields text.now (names_seen names.now) scope before item }
{
    let bits = item_bits(board, text, names, scope, item)?;
    beside(item.name, before, bits)
}

/// The bits that items set: for each item in order cause 30, then 33, then 32.
pub(crate) fn bits_of(
    board: &Board,
    text: &[u8],
    names: &Names<Meaning>,
    scope: Scope,
    items: &[Item],
) -> Result<SetBits, TextFault>
    ensures { result ≡ bits_of board.now.fields text.now (names_seen names.now) scope no_bits items.now }
{
    let mut bits = SetBits::none();
    for item in items {
        bits = with_item(board, text, names, scope, bits, *item)?;
    }
    Ok(bits)
}
