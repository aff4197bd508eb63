// The terms of the elements of both boards at a block.
ghost use Rattle.std.specs.Prelude.{◌≡◌, ℕ, ◌+◌, ◌<◌, ◌≤◌, ◌^◌, [], length, drop, IfOk, IfSome, OnOk, Some};
ghost use Rattle.mw_board.specs.Elements.{element_count, element_width};
ghost use Rattle.mw_revise.specs.Kept.{IsBlock};
ghost use Rattle.mw_revise.specs.Elements.{line_about};
ghost use Rattle.mw_revise.specs.TwinStartWords.{all_element_words, new_element_words, old_element_words};
ghost use Rattle.mw_revise.specs.TwinStartWords.{twin_start_words, widths_of};
ghost use Rattle.mw_space.specs.Spaces.{list_of_space};
ghost use Rattle.mw_symboard.specs.Parts.{AreElements};
ghost use Rattle.mw_symmem.specs.Memory.{IsOfWidth};
ghost use Rattle.mw_symmem.specs.Workspace.{HaveKinds};
ghost use Rattle.mw_term.specs.declared.kinds.WordKind.TheVariants.{Element};
ghost use Rattle.mw_term.specs.Table.{IsTable, IsWidth};
ghost use Rattle.mw_term.specs.WordList.{ended, with_constant, with_variable};
ghost use Rattle.mw_twin.specs.ElementTerms.{AreMade, HasBelow, HasValue, HasValuesBelow, HasVariable, IsNew, IsNewBy};
ghost use Rattle.mw_twin.specs.ElementTerms.{IsOld, IsOldBy, WentOn};
ghost use Rattle.mw_twin.specs.ElementWords.{all_ended, new_maker, old_maker, with_elements};
ghost use Rattle.mw_twin.specs.Origins.{IsGround, IsElementKind, ground_in};

use mw_base::NoMemory;
use mw_board::Board;
use mw_revise::{Block, KeepLine};
use mw_space::Space;
use mw_term::{Op, Term, WordKind};
use std::alloc::Global;

/// A variable for an element, with this number.
fn variable(alloc: Global, number: u32, width: u8, space: &mut Space) -> Result<Term, NoMemory>
    requires width { IsWidth width }
    requires below { HasBelow number space.old }
    ensures wide { IfOk result (IsOfWidth space.new.terms width) }
    ensures is { IfOk result (HasVariable space.new.words number) }
    ensures below { OnOk result (HasBelow (number + 1) space.new) }
    ensures on { OnOk result (WentOn space.old space.new) }
    ensures listed { IfOk result (λ term. ended term (list_of_space space.new)
        ≡ with_variable (Element number) width (list_of_space space.old)) }
{
    let term = space
        .words
        .fresh(alloc, &mut space.terms, WordKind::Element(number), width)?;
    Ok(term)
}

/// A constant of this value.
fn constant(alloc: Global, value: u32, width: u8, space: &mut Space) -> Result<Term, NoMemory>
    requires width { IsWidth width }
    requires fits { value < 2 ^ width }
    ensures wide { IfOk result (IsOfWidth space.new.terms width) }
    ensures is { IfOk result (HasValue space.new.terms value) }
    ensures below { OnOk result ((number : ℕ) → HasBelow number space.old → HasBelow number space.new) }
    ensures on { OnOk result (WentOn space.old space.new) }
    ensures listed { IfOk result (λ term. ended term (list_of_space space.new)
        ≡ with_constant value width (list_of_space space.old)) }
{
    let term = space.terms.write(alloc, Op::Con(value, width))?;
    Ok(term)
}

/// The line about the element of this number, if there is one.
fn line_about(lines: &[KeepLine], number: u32) -> Option<KeepLine>
    ensures { result ≡ line_about lines.now number }
{
    for line in lines {
        if line.element() == number {
            return Some(*line);
        }
    }
    None
}

/// How many bits the element of this number has, which is one of the board.
pub fn width_of(board: &Board, number: u32) -> u8
    requires { number < element_count board.now }
    ensures exact { element_width board.now number ≡ Some result }
    ensures range { IsWidth result }
{
    // A call for the proof: the rules of boards, which say how wide an element can be.
    let _ = board.parts();
    board.element_width(number as usize).unwrap_or(0)
}

/// How many elements the board has.
fn count_of(board: &Board) -> u32
    ensures exact { result ≡ element_count board.now }
    ensures few { result ≤ 46 }
{
    // A call for the proof: the rules of boards, by which there are few elements.
    let _ = board.parts();
    board.element_count() as u32
}

/// The term of an old element, by the line about it: a constant where its value is fixed, and else a variable.
fn old_term(
    alloc: Global,
    about: Option<KeepLine>,
    number: u32,
    width: u8,
    space: &mut Space,
) -> Result<Term, NoMemory>
    requires width { IsWidth width }
    requires fits { IfSome about (HasValuesBelow (2 ^ width)) }
    requires below { HasBelow number space.old }
    ensures wide { IfOk result (IsOfWidth space.new.terms width) }
    ensures is { IfOk result (IsOldBy about number space.new.terms space.new.words) }
    ensures below { OnOk result (HasBelow (number + 1) space.new) }
    ensures on { OnOk result (WentOn space.old space.new) }
    ensures listed { IfOk result (λ term. ended term (list_of_space space.new)
        ≡ old_element_words about number width (list_of_space space.old)) }
{
    match about {
        Some(KeepLine::Fixed(_, value, _)) => constant(alloc, value, width, space),
        Some(KeepLine::Equal(_)) | None => variable(alloc, number, width, space),
    }
}

/// One more of the old elements' terms, of the element of this number.
fn push_old(
    alloc: Global,
    board: &Board,
    block: &Block,
    number: u32,
    space: &mut Space,
    before: &mut Vec<Term>,
) -> Result<(), NoMemory>
    requires block { IsBlock board.now block.now }
    requires there { number < element_count board.now }
    requires so_far { AreMade board.now (IsOld block.now.lines) number number space.old before.old.items }
    ensures so_far { OnOk result
        (AreMade board.now (IsOld block.now.lines) (number + 1) (number + 1) space.new before.new.items) }
    ensures on { OnOk result (WentOn space.old space.new) }
    ensures listed { OnOk result (with_elements (old_maker block.now.lines) number
        (drop number (widths_of board.now)) (all_ended before.old.items (list_of_space space.old))
        ≡ with_elements (old_maker block.now.lines) (number + 1)
        (drop (number + 1) (widths_of board.now)) (all_ended before.new.items (list_of_space space.new))) }
{
    let about = line_about(block.lines.as_slice(), number);
    let width = width_of(board, number);
    let term = old_term(alloc, about, number, width, space)?;
    before.push(term)?;
    Ok(())
}

/// The terms of the old elements, by their numbers.
fn old_terms(
    alloc: Global,
    board: &Board,
    block: &Block,
    space: &mut Space,
) -> Result<Vec<Term>, NoMemory>
    requires block { IsBlock board.now block.now }
    requires table { IsTable space.old.terms }
    requires below { HasBelow 0 space.old }
    ensures made { IfOk result (λ before. AreMade board.now (IsOld block.now.lines)
        (element_count board.now) (element_count board.now) space.new before.items) }
    ensures on { OnOk result (WentOn space.old space.new) }
    ensures listed { IfOk result (λ before.
        all_element_words (old_maker block.now.lines) 0 (widths_of board.now) (list_of_space space.old)
        ≡ all_ended before.items (list_of_space space.new)) }
{
    let mut before = Vec::new(alloc);
    for number in 0..count_of(board) {
        push_old(alloc, board, block, number, space, &mut before)?;
    }
    Ok(before)
}

/// The term of a new element, by the line about it: the old one's where it is kept, a constant where its value is fixed,
/// and else a variable.
fn new_term(
    alloc: Global,
    about: Option<KeepLine>,
    number: u32,
    width: u8,
    kept: Term,
    space: &mut Space,
) -> Result<Term, NoMemory>
    requires width { IsWidth width }
    requires fits { IfSome about (HasValuesBelow (2 ^ width)) }
    requires kept { IsOfWidth space.old.terms width kept }
    requires table { IsTable space.old.terms }
    requires below { HasBelow number space.old }
    ensures wide { IfOk result (IsOfWidth space.new.terms width) }
    ensures is { IfOk result (IsNewBy about kept number space.new.terms space.new.words) }
    ensures below { OnOk result (HasBelow (number + 1) space.new) }
    ensures on { OnOk result (WentOn space.old space.new) }
    ensures listed { IfOk result (λ term. ended term (list_of_space space.new)
        ≡ new_element_words about number width kept (list_of_space space.old)) }
{
    match about {
        Some(KeepLine::Equal(_)) => Ok(kept),
        Some(KeepLine::Fixed(_, _, value)) => constant(alloc, value, width, space),
        None => variable(alloc, number, width, space),
    }
}

/// One more of the new elements' terms, of the element of this number. Behind all old ones its variable has a number of
/// its own.
fn push_new(
    alloc: Global,
    board: &Board,
    block: &Block,
    before: &[Term],
    number: u32,
    space: &mut Space,
    after: &mut Vec<Term>,
) -> Result<(), NoMemory>
    requires block { IsBlock board.now block.now }
    requires count { length before.now ≡ element_count board.now }
    requires before { AreElements board.now space.old.terms before.now }
    requires there { number < element_count board.now }
    requires table { IsTable space.old.terms }
    requires so_far { AreMade board.now (IsNew board.now block.now.lines before.now) number
        (element_count board.now + number) space.old after.old.items }
    ensures so_far { OnOk result (AreMade board.now (IsNew board.now block.now.lines before.now) (number + 1)
        (element_count board.now + (number + 1)) space.new after.new.items) }
    ensures on { OnOk result (WentOn space.old space.new) }
    ensures listed { OnOk result (with_elements (new_maker board.now block.now.lines before.now) number
        (drop number (widths_of board.now)) (all_ended after.old.items (list_of_space space.old))
        ≡ with_elements (new_maker board.now block.now.lines before.now) (number + 1)
        (drop (number + 1) (widths_of board.now)) (all_ended after.new.items (list_of_space space.new))) }
{
    let about = line_about(block.lines.as_slice(), number);
    let width = width_of(board, number);
    let kept = before[number as usize];
    let term = new_term(alloc, about, count_of(board) + number, width, kept, space)?;
    after.push(term)?;
    Ok(())
}

/// The terms of the new elements, by their numbers.
fn new_terms(
    alloc: Global,
    board: &Board,
    block: &Block,
    before: &[Term],
    space: &mut Space,
) -> Result<Vec<Term>, NoMemory>
    requires block { IsBlock board.now block.now }
    requires count { length before.now ≡ element_count board.now }
    requires before { AreElements board.now space.old.terms before.now }
    requires table { IsTable space.old.terms }
    requires below { HasBelow (element_count board.now) space.old }
    ensures made { IfOk result (λ after. AreMade board.now (IsNew board.now block.now.lines before.now)
        (element_count board.now) (element_count board.now + element_count board.now) space.new after.items) }
    ensures on { OnOk result (WentOn space.old space.new) }
    ensures listed { IfOk result (λ after.
        all_element_words (new_maker board.now block.now.lines before.now) 0 (widths_of board.now)
        (list_of_space space.old)
        ≡ all_ended after.items (list_of_space space.new)) }
{
    let mut after = Vec::new(alloc);
    for number in 0..count_of(board) {
        push_new(alloc, board, block, before, number, space, &mut after)?;
    }
    Ok(after)
}

/// The elements of both programs' boards at a block, as terms, and what these are terms of.
#[derive(Drop)]
pub struct Elements {
    /// What runs from there work on.
    pub space: Space,
    /// The terms of the old board's elements, by their numbers.
    pub before: Vec<Term>,
    /// The terms of the new board's elements, by their numbers. A kept one has the old one's.
    pub after: Vec<Term>,
}

/// The elements of both boards at a block: a variable for each old one that isn't fixed, of the element's number, and
/// then one for each new one that is neither kept nor fixed, of its number behind those of all old ones. A fixed one is
/// a constant, and a kept one the old one's term. No cycle is made, and the memory is neither read nor written.
///
/// # Errors
///
/// Memory ran out.
pub fn elements_at(alloc: Global, board: &Board, block: &Block) -> Result<Elements, NoMemory>
    requires { IsBlock board.now block.now }
    ensures stands { IfOk result (λ e. IsGround board.now block.now (ground_in e.space e.before.items e.after.items)) }
    ensures counts { IfOk result (λ e. (length e.before.items ≡ element_count board.now)
        × (length e.after.items ≡ element_count board.now)) }
    ensures kinds { IfOk result (λ e. HaveKinds IsElementKind e.space.words) }
    ensures unread { IfOk result (λ e. e.space.memory.reads ≡ []) }
    ensures unwritten { IfOk result (λ e. (e.space.memory.board ≡ []) × (e.space.memory.machine ≡ [])) }
    ensures listed { IfOk result (λ e. twin_start_words board.now block.now.lines ≡ record {
      list = list_of_space e.space;
      old_terms = e.before.items;
      new_terms = e.after.items;
    }) }
{
    let mut space = Space::new(alloc, board)?;
    let before = old_terms(alloc, board, block, &mut space)?;
    let after = new_terms(alloc, board, block, &before, &mut space)?;
    // A call for the proof: no two variables have one kind.
    let _ = space.words.count();
    Ok(Elements {
        space,
        before,
        after,
    })
}
