// The relation of every job.
ghost use Rattle.std.specs.Prelude.{◌≡◌, ◌++◌, ◌∷◌, [], OnOk, IfOk};
ghost use Rattle.mw_expr.specs.Tree.{view};
ghost use Rattle.mw_macro.specs.Described.{description_of};
ghost use Rattle.mw_rel.specs.Job.{shape_of};
ghost use Rattle.mw_rel.specs.Seen.{boundary_of, line_of, lines_of};
ghost use Rattle.mw_rel.specs.Views.{relation_of};
ghost use Rattle.mw_cases.specs.Related.{counter_line, equal_registers, generated_boundary};
ghost use Rattle.mw_cases.specs.Related.{generated_elements, generated_relation};

use mw_base::{Items, NoMemory};
use mw_board::Board;
use mw_expr::Expr;
use mw_macro::Machine;
use mw_rel::{Boundary, Line, Relation, shape_of};
use std::alloc::Global;

/// The microprogram counter's number among the elements of both.
const MICROPROGRAM_COUNTER: u32 = 19;

/// The number of the machine's first register, behind the board's elements.
const FIRST_REGISTER: u32 = 26;

/// The line by which the microprogram counter is 1.
fn counter_line() -> Line
    ensures { line_of result ≡ counter_line }
{
    Line {
        left: MICROPROGRAM_COUNTER,
        right: Expr::Con(1, 12),
    }
}

/// The line by which a register of the board has the value of one of the machine.
fn equal_registers(board: u8, machine: u8) -> Line
    ensures { line_of result ≡ equal_registers board machine }
{
    Line {
        left: u32::from(board),
        right: Expr::Element(FIRST_REGISTER + u32::from(machine)),
    }
}

/// The lines of the boundary.
fn lines(alloc: Global) -> Result<Items<Line>, NoMemory>
    ensures { IfOk result (λ lines. lines_of lines ≡ generated_boundary.lines) }
{
    let mut lines = Vec::new(alloc);
    lines.push(counter_line())?;
    lines.push(equal_registers(0, 1))?;
    lines.push(equal_registers(1, 2))?;
    lines.push(equal_registers(2, 3))?;
    lines.push(equal_registers(3, 4))?;
    lines.push(equal_registers(15, 0))?;
    Ok(Items::from_vec(lines))
}

/// The boundary.
fn boundary(alloc: Global) -> Result<Boundary, NoMemory>
    ensures { IfOk result (λ boundary. boundary_of boundary ≡ generated_boundary) }
{
    Ok(Boundary {
        address: 0,
        bound: 7,
        sp: 0,
        lines: lines(alloc)?,
    })
}

/// The relation between a board and a machine.
///
/// # Errors
///
/// Memory ran out.
pub(crate) fn relation(
    alloc: Global,
    board: &Board,
    machine: &Machine,
) -> Result<Relation, NoMemory>
    requires { shape_of board.now (description_of machine.now) ≡ generated_elements }
    ensures { IfOk result (λ relation. relation_of relation ≡ generated_relation) }
{
    let mut boundaries = Vec::new(alloc);
    boundaries.push(boundary(alloc)?)?;
    match Relation::new(boundaries, shape_of(alloc, board, machine)?) {
        Ok(relation) => Ok(relation),
        Err(_) => unreachable!(),
    }
}
