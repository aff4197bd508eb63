// The elements of a relation that stand in tokens, each NAME . NAME.
ghost use Rattle.std.specs.Prelude.{◌≡◌, ◌<◌, IfOk, IfSome, OnOk, ◌++◌, length};
ghost use Rattle.mw_base.specs.Symbols.{spelled};
ghost use Rattle.mw_expr.specs.Grammar.{number_by_name};
ghost use Rattle.mw_descfile.specs.RelationLines.{dotted_number, use_at, use_first, uses_of};

use mw_base::{Cursor, Name, NoMemory, Sign, Token, symbol_of};
use std::alloc::Global;

/// An element that stands on the right of a line.
#[derive(Clone, Copy)]
pub(crate) struct Use {
    /// Its first token.
    pub name: Token,
    /// Its number.
    pub number: usize,
}

/// The number of the element of a name, if there is one.
fn number_by_name(names: &[Name], name: &[u8]) -> Option<usize>
    ensures exact { result ≡ number_by_name names.now name.now }
    ensures within { IfSome result (λ n. n < length names.now) }
{
    names.iter().position(|other| other.as_slice() == name)
}

/// The number of the element OWNER . NAME of a line, if there is one.
pub(crate) fn dotted_number(
    alloc: Global,
    names: &[Name],
    line: &Cursor,
    owner: Token,
    name: Token,
) -> Result<Option<usize>, NoMemory>
    ensures exact { IfOk result (λ n. n ≡ dotted_number line.now.text names.now owner name) }
    ensures within { IfOk result (λ n. IfSome n (λ n. n < length names.now)) }
{
    let mut whole = Vec::from_slice(alloc, line.spelled(owner))?;
    whole.push(b'.')?;
    whole.extend_from_slice(line.spelled(name))?;
    Ok(number_by_name(names, &whole))
}

/// Appends the element with this number at its first token, if there is one.
fn push_use(uses: &mut Vec<Use>, owner: Token, number: Option<usize>) -> Result<(), NoMemory>
    ensures { OnOk result (uses.new.items ≡ uses.old.items ++ use_at owner number) }
{
    match number {
        Some(number) => Ok(uses.push(Use {
            name: owner,
            number,
        })?),
        None => Ok(()),
    }
}

/// Appends the element with which the tokens of a line begin, if they begin with one.
fn push_first(
    alloc: Global,
    uses: &mut Vec<Use>,
    names: &[Name],
    line: &Cursor,
) -> Result<(), NoMemory>
    ensures { OnOk result (uses.new.items ≡ uses.old.items ++ use_first line.now.text names.now line.now.tokens) }
{
    match line.tokens() {
        [owner, dot, name, ..] => {
            if symbol_of(line.text(), *dot).is_sign(Sign::Dot) {
                push_use(
                    uses,
                    *owner,
                    dotted_number(alloc, names, line, *owner, *name)?,
                )
            } else {
                Ok(())
            }
        }
        _ => Ok(()),
    }
}

/// The elements that stand in the tokens of a line, in their order.
pub(crate) fn uses_of(alloc: Global, names: &[Name], line: &Cursor) -> Result<Vec<Use>, NoMemory>
    ensures { IfOk result (λ uses. uses.items ≡ uses_of line.now.text names.now line.now.tokens) }
{
    let mut uses = Vec::new(alloc);
    for place in 0..line.tokens().len() {
        push_first(alloc, &mut uses, names, &line.after(place))?;
    }
    Ok(uses)
}
