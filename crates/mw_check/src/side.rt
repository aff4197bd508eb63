// The sides of a question's text.
ghost use Rattle.std.specs.Prelude.{◌≡◌};
ghost use Rattle.mw_base.specs.FirstFaults.{first_in};
ghost use Rattle.mw_base.specs.Reading.{Gives};
ghost use Rattle.mw_expr.specs.Faults.{is_other};
ghost use Rattle.mw_expr.specs.Text.{IsShape};
ghost use Rattle.mw_expr.specs.Written.{written};
ghost use Rattle.mw_check.specs.QuestionText.{uneven, first_of_side, side_unless, side_of};
ghost use Rattle.mw_check.specs.QuestionViews.{side_seen};

use mw_base::{Cause, Cursor, Name, Refusal, Refused, TextFault, Token, fault_on, note_fault};
use mw_expr::{Expr, Shape, Written};
use std::alloc::Global;

/// A side without a fault.
#[derive(Drop)]
pub(crate) struct Side {
    /// The expression.
    pub expr: Expr,
    /// Its width.
    pub width: Option<u8>,
}

/// Whether there is a width, and it isn't this one.
fn is_other(width: u8, seen: Option<u8>) -> bool
    ensures { result ≡ is_other width seen }
{
    match seen {
        Some(seen) => seen != width,
        None => false,
    }
}

/// Keeps the first of what was the first before and of the fault of another width than the one before: cause 41 at
/// the word.
fn note_uneven(first: &mut Option<TextFault>, before: Option<u8>, word: Token, seen: Option<u8>)
    ensures { first.new ≡ first_in first.old (uneven before word seen) }
{
    match before {
        Some(width) => {
            if is_other(width, seen) {
                note_fault(first, fault_on(word, Cause::WidthsDiffer));
            }
        }
        None => {}
    }
}

/// The side of this tree after a word, where the side before has this width: its first fault, with 41 at the word.
fn side_in(
    alloc: Global,
    shape: &Shape,
    before: Option<u8>,
    word: Token,
    tree: &Written,
) -> Result<Side, Refusal>
    requires proper { IsShape shape.now }
    ensures { Gives side_seen result (side_unless (first_of_side shape.now before word (written tree.now))
        shape.now (written tree.now)) }
{
    let mut first = None;
    let width = tree.check(shape, &mut first);
    note_uneven(&mut first, before, word, width);
    match first {
        Some(fault) => Err(Refused::At(fault)),
        None => Ok(Side {
            expr: tree.build(alloc)?,
            width,
        }),
    }
}

/// The side that the tokens after a word are, where the side before has this width: cause 60, then 41 at the word and
/// its own causes, by place.
#[tactic(auto, unfolding(crate::specs::QuestionText::side_of))]
pub(crate) fn side_of(
    alloc: Global,
    names: &[Name],
    shape: &Shape,
    before: Option<u8>,
    word: Token,
    rest: &Cursor,
) -> Result<Side, Refusal>
    requires proper { IsShape shape.now }
    ensures { Gives side_seen result (side_of names.now shape.now before word rest.now) }
{
    let tree = Written::read(alloc, rest, names, shape)?;
    side_in(alloc, shape, before, word, &tree)
}
