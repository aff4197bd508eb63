// Expressions on the lines of descriptions.
ghost use Rattle.std.specs.Prelude.{◌≡◌, None, Some, slice_get, slice_index};
ghost use Rattle.mw_base.specs.FirstFaults.{first_in};
ghost use Rattle.mw_base.specs.Reading.{Gives};
ghost use Rattle.mw_expr.specs.Faults.{faults, is_other};
ghost use Rattle.mw_expr.specs.Text.{IsShape};
ghost use Rattle.mw_expr.specs.Written.{written};
ghost use Rattle.mw_descfile.specs.Expressions.{written_of, asked, asked_whole, surplus, whole_of};
ghost use Rattle.mw_descfile.specs.Views.{whole_seen};

use crate::scope::Scope;
use mw_base::{Cause, Cursor, Refusal, Refused, TextFault, Token, fault_on, note_fault};
use mw_expr::{Expr, Shape, Written};
use std::alloc::Global;

/// An expression without a fault.
#[derive(Drop)]
pub(crate) struct Whole {
    /// The expression.
    pub expr: Expr,
    /// How many memory reads are left after it.
    pub left: usize,
}

impl Scope {
    /// The expression that tokens of a line are, as it stands there: the cursor's own cause.
    pub(crate) fn written(&self, alloc: Global, cursor: &Cursor) -> Result<Written, Refusal>
        ensures { Gives written result (written_of self.now cursor.now) }
    {
        Written::read(alloc, cursor, self.names.as_slice(), &self.shape)
    }

    /// The width of an element; 0 where there is none.
    pub(crate) fn width_of(&self, element: usize) -> u8
        ensures { result ≡ slice_index self.now.shape.widths element }
    {
        self.shape
            .widths
            .as_slice()
            .get(element)
            .copied()
            .unwrap_or(0)
    }

    /// An expression of this width that may have so many memory reads: cause 41 at the token, then its own causes,
    /// and 14, by place.
    #[tactic(auto, unfolding(crate::specs::Expressions::asked_whole))]
    pub(crate) fn whole_of(
        &self,
        alloc: Global,
        left: usize,
        width: u8,
        token: Token,
        tree: &Written,
    ) -> Result<Whole, Refusal>
        requires proper { IsShape self.now.shape }
        ensures { Gives whole_seen result (asked_whole self.now.shape left width token (written tree.now)) }
    {
        let mut first = None;
        let seen = tree.check(&self.shape, &mut first);
        check_asked(width, token, seen).map_err(Refused::At)?;
        whole_of(alloc, &self.shape, left, tree, first)
    }
}

/// Whether there is a width, and it isn't this one.
fn is_other(width: u8, seen: Option<u8>) -> bool
    ensures { result ≡ is_other width seen }
{
    match seen {
        Some(seen) => seen != width,
        None => false,
    }
}

/// A width has to be the one asked for, where there is one: cause 41 at the token.
pub(crate) fn check_asked(width: u8, token: Token, seen: Option<u8>) -> Result<(), TextFault>
    ensures { result ≡ asked width token seen }
{
    if is_other(width, seen) {
        Err(fault_on(token, Cause::WidthsDiffer))
    } else {
        Ok(())
    }
}

/// Keeps the first of the fault of a memory read that is one too many, if there is one, and of what was the first
/// before: cause 14.
fn note_surplus(first: &mut Option<TextFault>, mem: Option<Token>)
    ensures { first.new ≡ first_in first.old (surplus mem) }
{
    match mem {
        Some(mem) => note_fault(first, fault_on(mem, Cause::TooMany)),
        None => {}
    }
}

/// The memory read after so many, if there is one.
fn read_after(mems: &[Token], left: usize) -> Option<Token>
    ensures { result ≡ slice_get mems.now left }
{
    mems.get(left).copied()
}

/// An expression that may have so many memory reads, where the first fault of its own is known: that fault, or 14 at
/// the read after those, whichever stands first.
#[tactic(auto, unfolding(crate::specs::Expressions::whole_of))]
pub(crate) fn whole_of(
    alloc: Global,
    shape: &Shape,
    left: usize,
    tree: &Written,
    own: Option<TextFault>,
) -> Result<Whole, Refusal>
    requires proper { IsShape shape.now }
    requires own { own ≡ first_in None (faults shape.now (Some 64) (written tree.now)) }
    ensures { Gives whole_seen result (whole_of shape.now left (written tree.now)) }
{
    let mems = tree.mems(alloc)?;
    let mut first = own;
    note_surplus(&mut first, read_after(&mems, left));
    match first {
        Some(fault) => Err(Refused::At(fault)),
        None => Ok(Whole {
            expr: tree.build(alloc)?,
            left: left.saturating_sub(mems.len()),
        }),
    }
}
