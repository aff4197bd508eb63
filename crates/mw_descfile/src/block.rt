// What the lines of a boundary say, line by line.
ghost use Rattle.std.specs.Prelude.{◌≡◌, ◌<◌, ◌≤◌, ◌++◌, OnOk, IfOk, List, [], length, map, None};
ghost use Rattle.std.specs.List.{flat_map};
ghost use Rattle.mw_base.specs.FirstFaults.{first_in};
ghost use Rattle.mw_base.specs.Reading.{Gives};
ghost use Rattle.mw_expr.specs.Text.{IsShape};
ghost use Rattle.mw_expr.specs.Written.{written};
ghost use Rattle.mw_rel.specs.Seen.{boundary_of, boundaries_of, lines_of};
ghost use Rattle.mw_descfile.specs.Boundaries.{PlacedLine as SeenPlacedLine, place_token, is_taken, bounded, block_of};
ghost use Rattle.mw_descfile.specs.Boundaries.{with_stack_pointer, with_equation, is_left, twice_left, used_left};
ghost use Rattle.mw_descfile.specs.Boundaries.{line_faults, unsolved, closed_block};
ghost use Rattle.mw_descfile.specs.RelationViews.{given_seen, block_seen};
ghost use Rattle.mw_descfile.specs.Statements.{allowed};

use crate::declared::ranged;
use crate::relation_line::Beginning;
use crate::scope::Scope;
use crate::uses::{Use, dotted_number};
use mw_asm::{Label, address_of};
use mw_base::{
    Cause, Cursor, Dotted, Items, NoMemory, Numeral, Place, Refusal, Refused, TextFault, Token,
    fault_on, note_fault, spelled,
};
use mw_expr::Written;
use mw_rel::{Boundary, Line};
use std::alloc::Global;

/// The most boundaries.
const MOST_BOUNDARIES: usize = 64;

/// The most lines of a boundary.
const MOST_LINES: usize = 256;

/// The most memory reads in a boundary.
const MOST_READS: usize = 64;

/// A line as it was given.
#[derive(Drop)]
pub(crate) struct PlacedLine {
    /// What it says.
    pub line: Line,
    /// The first token of its left element.
    pub name: Token,
    /// The elements that stand on its right.
    pub uses: Vec<Use>,
}

/// A boundary whose `end` hasn't come.
#[derive(Drop)]
pub(crate) struct Block {
    /// Its control address.
    pub address: u16,
    /// The most cycles of a segment that begins there.
    pub bound: u32,
    /// Its stack pointer, where that was given.
    pub sp: Option<u8>,
    /// How many more memory reads there may be.
    pub reads_left: usize,
    /// Its lines so far.
    pub lines: Vec<PlacedLine>,
}

/// What can be, or this fault.
pub(crate) fn check(can_be: bool, fault: TextFault) -> Result<(), TextFault>
    ensures { result ≡ allowed can_be fault }
{
    if can_be { Ok(()) } else { Err(fault) }
}

/// The token of a PLACE.
fn place_token(place: Place) -> Token
    ensures { result ≡ place_token place }
{
    match place {
        Place::Label(token) => token,
        Place::Address(numeral) => numeral.token,
    }
}

/// Whether a boundary has this address.
fn is_taken(boundaries: &[Boundary], address: u16) -> bool
    ensures { result ≡ is_taken (boundaries_of boundaries.now) address }
{
    for boundary in boundaries {
        if boundary.address == address {
            return true;
        }
    }
    false
}

/// A bound: cause 54.
fn bounded(number: Numeral) -> Result<u32, TextFault>
    ensures exact { result ≡ bounded number }
{
    if 1 <= number.value && number.value <= 500 {
        Ok(number.value as u32)
    } else {
        Err(fault_on(number.token, Cause::BadBound))
    }
}

/// Whether an element is left of one of some lines.
fn is_left(lines: &[PlacedLine], number: usize) -> bool
    ensures { result ≡ is_left (map given_seen lines.now) number }
{
    for given in lines {
        if given.line.left as usize == number {
            return true;
        }
    }
    false
}

/// The first of what was the first before and of the fault of a line whose left element is left of one before it.
fn first_twice(
    first: Option<TextFault>,
    before: &[PlacedLine],
    given: &PlacedLine,
) -> Option<TextFault>
    ensures { result ≡ first_in first (twice_left (map given_seen before.now) (given_seen given.now)) }
{
    let mut first = first;
    if is_left(before, given.line.left as usize) {
        note_fault(&mut first, fault_on(given.name, Cause::LeftTwice));
    }
    first
}

/// The first of what was the first before and of the fault of a use of a left element.
fn first_used(first: Option<TextFault>, all: &[PlacedLine], found: &Use) -> Option<TextFault>
    ensures { result ≡ first_in first (used_left (map given_seen all.now) found.now) }
{
    let mut first = first;
    if is_left(all, found.number) {
        note_fault(&mut first, fault_on(found.name, Cause::LeftUsedOnRight));
    }
    first
}

/// The same for all uses of a line.
fn first_of_uses(before: Option<TextFault>, all: &[PlacedLine], uses: &[Use]) -> Option<TextFault>
    ensures { result ≡ first_in before (flat_map (used_left (map given_seen all.now)) uses.now) }
{
    let mut first = before;
    for found in uses {
        first = first_used(first, all, found);
    }
    first
}

/// The first of what was the first before and of the faults of a line.
fn first_of_line(
    first: Option<TextFault>,
    all: &[PlacedLine],
    before: &[PlacedLine],
    given: &PlacedLine,
) -> Option<TextFault>
    ensures { result ≡ first_in first (line_faults (map given_seen all.now) (map given_seen before.now)
        (given_seen given.now)) }
{
    first_of_uses(first_twice(first, before, given), all, &given.uses)
}

/// The first fault of all lines of a boundary, if there is one: cause 50 or 51.
fn first_unsolved(lines: &[PlacedLine]) -> Option<TextFault>
    ensures { result ≡ first_in None (unsolved (map given_seen lines.now) [] (map given_seen lines.now)) }
{
    let mut first = None;
    for place in 0..lines.len() {
        first = first_of_line(first, lines, &lines[..place], &lines[place]);
    }
    first
}

/// Appends lines, without where they were given. There are at most 256, so the stack isn't deep.
#[tactic(auto, using(crate::proofs::Pushed::last_line))]
fn push_lines(lines: &mut Vec<Line>, mut given: Vec<PlacedLine>) -> Result<(), NoMemory>
    ensures { OnOk result (lines_of lines.new.items
        ≡ lines_of lines.old.items ++ map (λ (g : SeenPlacedLine). g.line) (map given_seen given.items)) }
{
    match given.pop() {
        Some(last) => {
            push_lines(lines, given)?;
            lines.push(last.line)?;
            Ok(())
        }
        None => Ok(()),
    }
}

/// The lines, without where they were given.
fn plain_lines(alloc: Global, given: Vec<PlacedLine>) -> Result<Vec<Line>, NoMemory>
    ensures { IfOk result (λ lines. lines_of lines.items
        ≡ map (λ (g : SeenPlacedLine). g.line) (map given_seen given.items)) }
{
    let mut lines = Vec::new(alloc);
    push_lines(&mut lines, given)?;
    Ok(lines)
}

impl Block {
    /// boundary PLACE BOUND: cause 14 at `boundary`, 30, 31 or 33 at the PLACE, 54 at the bound.
    #[tactic(auto, unfolding(crate::specs::Boundaries::block_of))]
    pub(crate) fn begin(
        alloc: Global,
        text: &[u8],
        labels: &[Label],
        before: &[Boundary],
        said: Beginning,
    ) -> Result<Block, Refusal>
        ensures { Gives block_seen result (block_of text.now labels.now (boundaries_of before.now) said) }
    {
        check(
            before.len() < MOST_BOUNDARIES,
            fault_on(said.word, Cause::TooMany),
        )
        .map_err(Refused::At)?;
        let address = address_of(said.place, text, labels).map_err(Refused::At)?;
        check(
            !is_taken(before, address),
            fault_on(place_token(said.place), Cause::Twice),
        )
        .map_err(Refused::At)?;
        let bound = bounded(said.bound).map_err(Refused::At)?;
        Ok(Block {
            address,
            bound,
            sp: None,
            reads_left: MOST_READS,
            lines: Vec::new(alloc),
        })
    }

    /// sp N, on a stack of so many words: cause 31 at `sp`, 33 at the number.
    #[tactic(auto, unfolding(crate::specs::Boundaries::with_stack_pointer))]
    pub(crate) fn set_stack_pointer(
        &mut self,
        depth: u8,
        word: Token,
        value: Numeral,
    ) -> Result<(), Refusal>
        ensures { Gives (λ done. block_seen self.new) result
            (with_stack_pointer depth word value (block_seen self.old)) }
    {
        check(self.sp.is_none(), fault_on(word, Cause::Twice)).map_err(Refused::At)?;
        self.sp = Some(ranged(0, depth, value).map_err(Refused::At)?);
        Ok(())
    }

    /// ELEMENT = E: cause 14 or 40 at the element, 41 at the `=`, and the value's own.
    #[tactic(auto, unfolding(crate::specs::Boundaries::with_equation))]
    pub(crate) fn add_equation(
        &mut self,
        alloc: Global,
        scope: &Scope,
        line: &Cursor,
        element: Dotted,
        sign: Token,
        value: &Written,
        uses: Vec<Use>,
    ) -> Result<(), Refusal>
        requires proper { IsShape scope.now.shape }
        requires named { length scope.now.names ≤ length scope.now.shape.widths }
        ensures { Gives (λ done. block_seen self.new) result
            (with_equation line.now.text scope.now element sign (written value.now) uses.items (block_seen self.old)) }
    {
        let owner = element.owner;
        check(
            self.lines.len() < MOST_LINES,
            fault_on(owner, Cause::TooMany),
        )
        .map_err(Refused::At)?;
        let found = dotted_number(alloc, scope.names.as_slice(), line, owner, element.name)?;
        let left = found
            .ok_or(fault_on(owner, Cause::UnknownElement))
            .map_err(Refused::At)?;
        let width = scope.width_of(left);
        let whole = scope.whole_of(alloc, self.reads_left, width, sign, value)?;
        self.reads_left = whole.left;
        self.lines.push(PlacedLine {
            line: Line {
                left: left as u32,
                right: whole.expr,
            },
            name: owner,
            uses,
        })?;
        Ok(())
    }

    /// end: cause 50 and 51 by place, then 52 at `end`.
    #[tactic(auto, unfolding(crate::specs::Boundaries::closed_block))]
    pub(crate) fn close(self, alloc: Global, word: Token) -> Result<Boundary, Refusal>
        ensures { Gives boundary_of result (closed_block (block_seen self) word) }
    {
        if let Some(fault) = first_unsolved(&self.lines) {
            return Err(Refused::At(fault));
        }
        let missing = fault_on(word, Cause::NoStackPointer);
        let sp = self.sp.ok_or(missing).map_err(Refused::At)?;
        Ok(Boundary {
            address: self.address,
            bound: self.bound,
            sp,
            lines: Items::from_vec(plain_lines(alloc, self.lines)?),
        })
    }
}
