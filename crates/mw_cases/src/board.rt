// The board of every job.
ghost use Rattle.std.specs.Prelude.{◌≡◌, ◌++◌, ◌∷◌, [], OnOk, IfOk};
ghost use Rattle.mw_cases.specs.Board.{generated_fields, generated_map, generated_board};

use crate::instructions::INSTRUCTIONS;
use crate::layout;
use crate::store::first_address;
use mw_base::{Items, NoMemory};
use mw_board::{Bit, Board, BoardParts, Control, DFrom, DSource, Field, NamedField, Points};
use std::alloc::Global;

/// The control points: what the fields drive, by their numbers in byte order of their names.
const POINTS: Points = Points {
    alu_source: Control::Field(11),
    alu_function: Control::Field(6),
    alu_destination: Control::Field(5),
    a_address: Control::Field(0),
    b_address: Control::Field(1),
    sequencer: Control::Field(10),
    branch: Control::Field(2),
    test_disable: Control::Field(9),
    polarity: Control::Fixed(0),
    ci: Control::Fixed(1),
    rld: Control::Fixed(0),
    mar_load: Control::Field(8),
    ir_load: Control::Field(7),
    memory_write: Control::Fixed(0),
    out: Control::Fixed(0),
    carry_in: Control::Field(3),
    d: Control::Field(4),
    condition: Control::Fixed(0),
    link: Control::Fixed(0),
};

/// D is the memory's word.
const FROM_MEMORY: DSource = DSource {
    from: DFrom::Memory,
    mask: None,
};

/// Adds a field behind others.
fn push_field(
    alloc: Global,
    fields: &mut Vec<NamedField>,
    name: &[u8],
    field: Field,
) -> Result<(), NoMemory>
    ensures { OnOk result (fields.new.items
        ≡ fields.old.items ++ record { name = name.now; field = field } ∷ []) }
{
    fields.push(NamedField::new(alloc, name, field.low, field.width)?)?;
    Ok(())
}

/// The fields, in byte order of their names.
#[tactic(auto, unfolding(crate::specs::Board::generated_fields))]
fn fields(alloc: Global) -> Result<Items<NamedField>, NoMemory>
    ensures { IfOk result (λ fields. fields ≡ generated_fields) }
{
    let mut fields = Vec::new(alloc);
    push_field(alloc, &mut fields, b"a", layout::A)?;
    push_field(alloc, &mut fields, b"b", layout::B)?;
    push_field(alloc, &mut fields, b"br", layout::BRANCH)?;
    push_field(alloc, &mut fields, b"cin", layout::CARRY_IN)?;
    push_field(alloc, &mut fields, b"d", layout::D)?;
    push_field(alloc, &mut fields, b"dst", layout::DESTINATION)?;
    push_field(alloc, &mut fields, b"fun", layout::FUNCTION)?;
    push_field(alloc, &mut fields, b"ir", layout::IR_LOAD)?;
    push_field(alloc, &mut fields, b"mar", layout::MAR_LOAD)?;
    push_field(alloc, &mut fields, b"off", layout::TEST_DISABLE)?;
    push_field(alloc, &mut fields, b"seq", layout::SEQUENCER)?;
    push_field(alloc, &mut fields, b"src", layout::SOURCE)?;
    Ok(Items::from_vec(fields))
}

/// What the map gives: for each instruction the address of its first word.
#[tactic(auto, unfolding(crate::specs::Board::generated_map))]
fn map_entries(alloc: Global) -> Result<Items<u16>, NoMemory>
    ensures { IfOk result (λ entries. entries ≡ generated_map) }
{
    let mut entries = Vec::new(alloc);
    for instruction in 0..INSTRUCTIONS {
        entries.push(first_address(instruction))?;
    }
    Ok(Items::from_vec(entries))
}

/// The parts of the board.
#[tactic(auto, unfolding(crate::specs::Board::generated_board))]
fn parts(alloc: Global) -> Result<BoardParts, NoMemory>
    ensures { IfOk result (λ parts. parts ≡ generated_board) }
{
    Ok(BoardParts {
        width: 16,
        microword: 38,
        address: 8,
        fill: 0,
        unset: 0,
        vector: 0,
        stack: 5,
        fields: fields(alloc)?,
        flipflop: Items::from_vec(Vec::new(alloc)),
        control: POINTS,
        carry_in: Items::from_slice(alloc, &[Bit::Zero, Bit::One])?,
        condition: Items::from_slice(alloc, &[Bit::Zero])?,
        ram_link: Items::from_slice(alloc, &[Bit::Zero])?,
        q_link: Items::from_slice(alloc, &[Bit::Zero])?,
        d: Items::from_slice(alloc, &[DSource::ZERO, FROM_MEMORY])?,
        map_low: 8,
        map_bits: 8,
        map_entries: map_entries(alloc)?,
    })
}

/// The board.
///
/// # Errors
///
/// Memory ran out.
pub(crate) fn board(alloc: Global) -> Result<Board, NoMemory>
    ensures { IfOk result (λ board. board ≡ generated_board) }
{
    match Board::new(parts(alloc)?) {
        Ok(board) => Ok(board),
        Err(_) => unreachable!(),
    }
}
