// The relation of a text.
ghost use Rattle.std.specs.Prelude.{◌≡◌, ◌<◌, ◌≤◌, ◌^◌, [], None, ◌++◌, codes, IfOk, OnOk, length, map, nat_lt};
ghost use Rattle.std.specs.Prelude.{slice_get, take, true};
ghost use Rattle.std.specs.Option.{option_to_list};
ghost use Rattle.mw_base.specs.Reading.{Gives};
ghost use Rattle.mw_base.specs.Steps.{steps};
ghost use Rattle.mw_base.specs.TokenLines.{last_fault};
ghost use Rattle.mw_board.specs.Elements.{elements_of};
ghost use Rattle.mw_macro.specs.Described.{description_of};
ghost use Rattle.mw_rel.specs.Job.{AreForEachOther, memories_agree, shape_of};
ghost use Rattle.mw_rel.specs.Seen.{boundaries_of};
ghost use Rattle.mw_rel.specs.Views.{relation_of as relation_seen};
ghost use Rattle.mw_descfile.specs.KeptRelation.{IsScope, IsKnownRelation};
ghost use Rattle.mw_descfile.specs.Relation.{names_of, scope_for, sides_of, with_told, with_tokens, with_line, relation_with};
ghost use Rattle.mw_descfile.specs.Relation.{finished, relation_of};
ghost use Rattle.mw_descfile.specs.RelationViews.{told_seen, block_seen, known_seen};

use crate::block::{Block, check};
use crate::relation_line::{Told, beginning_of, told_of};
use crate::scope::Scope;
use mw_asm::{Assembled, Label};
use mw_base::{
    Cause, Cursor, Items, Line, Name, NoMemory, Refusal, Refused, TextFault, lines, text_end,
};
use mw_board::Board;
use mw_expr::Shape;
use mw_macro::Machine;
use mw_rel::{Boundary, Relation, shape_of};
use std::alloc::Global;

/// What is known after some lines.
#[derive(Drop)]
pub(crate) struct Known {
    /// The boundaries that have ended.
    pub boundaries: Vec<Boundary>,
    /// The one that hasn't.
    pub block: Option<Block>,
}

/// What the lines of a relation are over.
#[derive(Drop)]
pub(crate) struct Sides {
    /// What its expressions are over.
    pub scope: Scope,
    /// How many words the board's stack has.
    pub depth: u8,
}

/// A name behind the letter of its side and a dot.
fn dotted(alloc: Global, side: &[u8], name: &[u8]) -> Result<Name, NoMemory>
    ensures { IfOk result (λ whole. whole ≡ side.now ++ name.now) }
{
    let mut whole = Vec::from_slice(alloc, side)?;
    whole.extend_from_slice(name)?;
    Ok(Name::from_vec(whole))
}

/// Appends the name of the element of a board with this number.
fn push_element(
    alloc: Global,
    names: &mut Vec<Name>,
    board: &Board,
    number: usize,
) -> Result<(), NoMemory>
    ensures { OnOk result (names.new.items ≡ names.old.items
        ++ map (λ element. codes "b." ++ element.name) (option_to_list (slice_get (elements_of board.now) number))) }
{
    if let Some(name) = board.element_name(number) {
        names.push(dotted(alloc, b"b.", name)?)?;
    }
    Ok(())
}

/// The names of registers.
fn register_names(alloc: Global, registers: &[Name]) -> Result<Vec<Name>, NoMemory>
    ensures { IfOk result (λ names. names.items ≡ map (λ name. codes "m." ++ name) registers.now) }
{
    let mut names = Vec::new(alloc);
    for register in registers {
        names.push(dotted(alloc, b"m.", register.as_slice())?)?;
    }
    Ok(names)
}

/// The names of the elements of a board.
fn board_names(alloc: Global, board: &Board) -> Result<Vec<Name>, NoMemory>
    ensures { IfOk result (λ names. names.items ≡ map (λ element. codes "b." ++ element.name) (elements_of board.now)) }
{
    let mut names = Vec::new(alloc);
    for number in 0..board.element_count() {
        push_element(alloc, &mut names, board, number)?;
    }
    Ok(names)
}

/// The names of the elements of a relation.
#[tactic(auto, unfolding(crate::specs::Relation::names_of))]
fn names_of(alloc: Global, board: &Board, machine: &Machine) -> Result<Vec<Name>, NoMemory>
    ensures { IfOk result (λ names. names.items ≡ names_of board.now (description_of machine.now)) }
{
    let mut names = board_names(alloc, board)?;
    let registers = &machine.names()[..machine.registers() as usize];
    names.append(&mut register_names(alloc, registers)?)?;
    Ok(names)
}

/// What the expressions of a relation are over.
fn scope_for(alloc: Global, board: &Board, machine: &Machine) -> Result<Scope, NoMemory>
    ensures exact { IfOk result (λ scope. scope ≡ scope_for board.now (description_of machine.now)) }
    ensures kept { IfOk result (λ scope. IsScope scope) }
{
    // A call for the proof: its clause `valid` says what the widths of a board's elements are.
    let _ = board.parts();
    Ok(Scope {
        names: Items::from_vec(names_of(alloc, board, machine)?),
        shape: shape_of(alloc, board, machine)?,
    })
}

/// What the lines of a relation are over.
fn sides_of(alloc: Global, board: &Board, machine: &Machine) -> Result<Sides, NoMemory>
    ensures exact { IfOk result (λ sides. sides ≡ sides_of board.now (description_of machine.now)) }
    ensures kept { IfOk result (λ sides. IsScope sides.scope) }
{
    Ok(Sides {
        scope: scope_for(alloc, board, machine)?,
        depth: board.depth(),
    })
}

/// What is known after what a line of the open boundary says: its causes but 60, by place.
#[tactic(auto, unfolding(crate::specs::Relation::with_told))]
fn with_told(
    alloc: Global,
    line: &Cursor,
    sides: &Sides,
    mut boundaries: Vec<Boundary>,
    mut block: Block,
    told: Told,
) -> Result<Known, Refusal>
    requires scope { IsScope sides.now.scope }
    ensures { Gives known_seen result (with_told line.now.text sides.now (boundaries_of boundaries.items)
        (block_seen block) (told_seen told)) }
{
    match told {
        Told::StackPointer(word, value) => block.set_stack_pointer(sides.depth, word, value)?,
        Told::Equation(element, sign, value, uses) => {
            block.add_equation(alloc, &sides.scope, line, element, sign, &value, uses)?
        }
        Told::End(word) => {
            boundaries.push(block.close(alloc, word)?)?;
            return Ok(Known {
                boundaries,
                block: None,
            });
        }
    }
    Ok(Known {
        boundaries,
        block: Some(block),
    })
}

/// What is known after a line that isn't blank: cause 60, then its other causes by place.
#[tactic(auto, unfolding(crate::specs::Relation::with_tokens))]
fn with_tokens(
    alloc: Global,
    text: &[u8],
    labels: &[Label],
    sides: &Sides,
    known: Known,
    line: &Line,
) -> Result<Known, Refusal>
    requires scope { IsScope sides.now.scope }
    ensures { Gives known_seen result (with_tokens text.now labels.now sides.now (known_seen known).boundaries
        (known_seen known).block line.now) }
{
    let cursor = Cursor::new(text, line, Cause::BadSyntax);
    let Known { boundaries, block } = known;
    match block {
        None => {
            let said = beginning_of(&cursor).map_err(Refused::At)?;
            let block = Block::begin(alloc, text, labels, &boundaries, said)?;
            Ok(Known {
                boundaries,
                block: Some(block),
            })
        }
        Some(block) => {
            let told = told_of(alloc, &sides.scope, &cursor)?;
            with_told(alloc, &cursor, sides, boundaries, block, told)
        }
    }
}

/// What is known after a line; a blank one says nothing.
fn with_line(
    alloc: Global,
    text: &[u8],
    labels: &[Label],
    sides: &Sides,
    known: Known,
    line: &Line,
) -> Result<Known, Refusal>
    requires scope { IsScope sides.now.scope }
    ensures { Gives known_seen result (with_line text.now labels.now sides.now (known_seen known) line.now) }
{
    match line.tokens.as_slice() {
        [] => Ok(known),
        [_, ..] => with_tokens(alloc, text, labels, sides, known, line),
    }
}

/// What is known after all lines of a text.
fn known_of(
    alloc: Global,
    text: &[u8],
    labels: &[Label],
    sides: &Sides,
    lines: &[Line],
) -> Result<Known, Refusal>
    requires scope { IsScope sides.now.scope }
    ensures exact { Gives known_seen result (steps (with_line text.now labels.now sides.now)
        (record { boundaries = []; block = None }) lines.now) }
    ensures kept { IfOk result (λ known. IsKnownRelation sides.now.scope.shape (known_seen known)) }
{
    let mut known = Known {
        boundaries: Vec::new(alloc),
        block: None,
    };
    for line in lines {
        known = with_line(alloc, text, labels, sides, known, line)?;
    }
    Ok(known)
}

/// A fault at the beginning of a text.
fn first_place(cause: Cause) -> TextFault
    ensures { result ≡ last_fault None cause }
{
    TextFault {
        line: 1,
        column: 1,
        cause,
    }
}

/// Whether there is a boundary.
fn has_some(boundaries: &[Boundary]) -> bool
    ensures { result ≡ nat_lt 0 (length (boundaries_of boundaries.now)) }
{
    !boundaries.is_empty()
}

/// The relation of some boundaries: cause 53 where there is none.
fn relation_with(boundaries: Vec<Boundary>, shape: Shape) -> Result<Relation, Refusal>
    requires kept { IsKnownRelation shape (record { boundaries = boundaries_of boundaries.items; block = None }) }
    ensures { Gives relation_seen result (relation_with (boundaries_of boundaries.items) shape) }
{
    if !has_some(&boundaries) {
        return Err(Refused::At(first_place(Cause::NoBoundary)));
    }
    match Relation::new(boundaries, shape) {
        Ok(relation) => Ok(relation),
        Err(_) => unreachable!(),
    }
}

/// The relation of what is known at the end of a text, where that is this fault if a boundary is open.
fn finished(shape: Shape, fault: TextFault, known: Known) -> Result<Relation, Refusal>
    requires kept { IsKnownRelation shape (known_seen known) }
    ensures { Gives relation_seen result (finished shape fault (known_seen known).boundaries
        (known_seen known).block) }
{
    match known.block {
        Some(_) => Err(Refused::At(fault)),
        None => relation_with(known.boundaries, shape),
    }
}

/// Whether a machine has the memory of a board.
fn memories_agree(board: &Board, machine: &Machine) -> bool
    ensures { result ≡ memories_agree board.now (description_of machine.now) }
{
    let parts = board.parts();
    let shape = machine.shape();
    shape.address == parts.address && shape.word == parts.width
}

/// The relation of a text, or its first fault.
#[tactic(auto, unfolding(crate::specs::Relation::relation_of))]
fn relation_in(
    alloc: Global,
    board: &Board,
    made: &Assembled,
    machine: &Machine,
    text: &[u8],
) -> Result<Relation, Refusal>
    requires { length text.now < 2 ^ 32 }
    ensures { Gives relation_seen result (relation_of board.now made.now.labels (description_of machine.now) text.now) }
{
    let lines = lines(alloc, text)?;
    let agree = memories_agree(board, machine);
    check(agree, first_place(Cause::ShapesDiffer)).map_err(Refused::At)?;
    let sides = sides_of(alloc, board, machine)?;
    let known = known_of(alloc, text, made.labels.as_slice(), &sides, &lines)?;
    finished(sides.scope.shape, text_end(&lines, Cause::BadSyntax), known)
}

/// The relation that a text describes between a board with its assembled microprogram and a machine.
///
/// It is made for that board and that machine, whose memories have the same widths: a job can be made of them. The text
/// has fewer than 2^32 bytes. The time is linear in its length, and in that of the list of labels for each
/// boundary.
///
/// # Errors
///
/// The first fault. Causes 1 to 4 of the text's bytes come first, by position, each at the byte, the number or column
/// 4,097. Then comes 55 at line 1 and column 1, where the machine's memory has other widths than the board's. Then come
/// the lines, one after another; of a line cause 60 comes first, at the first token that can't follow those before it,
/// or at the line's end. Then come its other causes, by place, at one place the least:
///
/// - 14 at the word `boundary` of the 65th boundary, at the left element of the line after 256, and at the `mem` of
///   the read after 64 in a boundary;
/// - 30 at a PLACE that is no label, 33 at one that isn't below 4,096, 31 at one that is another boundary's;
/// - 54 at a bound that isn't 1 to 500;
/// - 31 at a second `sp`, 33 at a stack pointer over as many words as the board's stack has;
/// - 40 at the first token of an element that there isn't;
/// - 41 at the `=` of a line whose sides aren't equally wide, and in an expression at the operator;
/// - 42 at the first token of an expression at level 65;
/// - 3 at a value that doesn't fit the width after its `#`;
/// - at an `end`, where nothing else is wrong, the first by place of 50 at an element that is left a second time and of
///   51 at a left element on a right side, then 52 at the `end` of a boundary without `sp`.
///
/// Last come 60 just past the text's last line, where a boundary is open there, and 53 at line 1 and column 1, where
/// there is none. Want of memory.
pub fn read_relation(
    alloc: Global,
    board: &Board,
    made: &Assembled,
    machine: &Machine,
    text: &[u8],
) -> Result<Relation, Refusal>
    requires { length text.now < 2 ^ 32 }
    ensures gives { Gives relation_seen result
        (relation_of board.now made.now.labels (description_of machine.now) text.now) }
    ensures made { IfOk result
        (λ relation. AreForEachOther board.now (description_of machine.now) (relation_seen relation)) }
    ensures agree { OnOk result (memories_agree board.now (description_of machine.now) ≡ true) }
{
    relation_in(alloc, board, made, machine, text)
}
