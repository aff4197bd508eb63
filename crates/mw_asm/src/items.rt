// Lists of items.
ghost use Rattle.std.specs.Prelude.{◌≡◌, List, ◌∷◌, IfOk, IfErr};
ghost use Rattle.mw_base.specs.declared.token.Token.{Token};
ghost use Rattle.mw_base.specs.Reading.{with_front, Fails, Gives};
ghost use Rattle.mw_asm.specs.Items.{alone, valued, follow, ended, passed, items_from, items_of, optional_items};

use mw_base::{Cursor, Items, Refusal, Refused, Sign, Symbol, Token, symbol_of};
use std::alloc::Global;

/// An item: a field and its value, or the name of a `def` alone.
#[derive(Clone, Copy)]
pub(crate) struct Item {
    /// The name of the field or of the `def`.
    pub name: Token,
    /// The value, a number or a name.
    pub value: Option<Token>,
}

/// What can follow in a list of items.
#[derive(Clone, Copy)]
pub(crate) enum Awaits {
    /// An item's name.
    Name,
    /// `=`, or what ends this item: a `,` or the line's end.
    Equals(Item),
    /// The value of the field of this name.
    Value(Token),
    /// What ends this item.
    Comma(Item),
}

fn alone(name: Token) -> Item
    ensures { result ≡ alone name }
{
    Item { name, value: None }
}

fn valued(name: Token, value: Token) -> Item
    ensures { result ≡ valued name value }
{
    Item {
        name,
        value: Some(value),
    }
}

impl Awaits {
    /// What can follow this token, which is no comma; nothing where the token can't stand here.
    fn follow(self, token: Token, symbol: Symbol) -> Option<Awaits>
        ensures { result ≡ follow self token symbol }
    {
        match (self, symbol) {
            (Awaits::Name, Symbol::Name) => Some(Awaits::Equals(alone(token))),
            (Awaits::Equals(item), Symbol::Sign(Sign::Equals)) => Some(Awaits::Value(item.name)),
            (Awaits::Value(name), Symbol::Name | Symbol::Number(_)) => {
                Some(Awaits::Comma(valued(name, token)))
            }
            _ => None,
        }
    }

    /// The item that ends here, if one can.
    fn ended(self) -> Option<Item>
        ensures { result ≡ ended self }
    {
        match self {
            Awaits::Equals(item) | Awaits::Comma(item) => Some(item),
            Awaits::Name | Awaits::Value(_) => None,
        }
    }
}

/// Adds the item that a token of a line ends, if any, and answers what can follow the token.
fn pass(
    items: &mut Vec<Item>,
    line: &Cursor,
    before: Awaits,
    token: Token,
) -> Result<Awaits, Refusal>
    ensures goes { IfOk result (λ next. (rest : List Token) → with_front items.new.items (items_from line.now next rest)
        ≡ with_front items.old.items (items_from line.now before (token ∷ rest))) }
    ensures refused { IfErr result (λ refusal. Fails refusal (passed line.now before token)) }
{
    let symbol = symbol_of(line.text(), token);
    if symbol.is_sign(Sign::Comma) {
        return match before.ended() {
            Some(item) => {
                items.push(item)?;
                Ok(Awaits::Name)
            }
            None => Err(Refused::At(line.misplaced(token))),
        };
    }
    match before.follow(token, symbol) {
        Some(next) => Ok(next),
        None => Err(Refused::At(line.misplaced(token))),
    }
}

/// The items that these tokens of a line are; there are one or more. Cause 36.
pub(crate) fn items_of(alloc: Global, line: &Cursor) -> Result<Items<Item>, Refusal>
    ensures { Gives (λ items. items) result (items_of line.now) }
{
    let mut items = Vec::new(alloc);
    let mut awaits = Awaits::Name;
    for token in line.tokens() {
        awaits = pass(&mut items, line, awaits, *token)?;
    }
    match awaits.ended() {
        Some(item) => {
            items.push(item)?;
            Ok(Items::from_vec(items))
        }
        None => Err(Refused::At(line.end_fault())),
    }
}

/// The items that these tokens of a line are, or none where there are no tokens. Cause 36.
pub(crate) fn optional_items(alloc: Global, line: &Cursor) -> Result<Items<Item>, Refusal>
    ensures { Gives (λ items. items) result (optional_items line.now) }
{
    match line.tokens() {
        [] => Ok(Items::from_vec(Vec::new(alloc))),
        _ => items_of(alloc, line),
    }
}
