// The cycles of a segment.
ghost use Rattle.std.specs.Prelude.{◌≡◌, ℕ, ◌+◌, ◌-◌, ◌<◌, ◌≤◌, ◌^◌, Bool, List, None, IfOk, OnOk, length};
ghost use Rattle.mw_cycle.specs.Boundary.{is_named};
ghost use Rattle.mw_cycle.specs.SegmentWords.{Segment};
ghost use Rattle.mw_segment.specs.Left.{ComesAlong, IsAlongSegment};
ghost use Rattle.mw_segment.specs.Segments.{ComesOnPath, HasCome, IsOnSegment, IsRunKind, IsRunning};
ghost use Rattle.mw_segment.specs.Turns.{HasTurned, TurnsAlong, TurnsOnPath};
ghost use Rattle.mw_symboard.specs.Paths.{Origin};
ghost use Rattle.mw_symboard.specs.Turns.{other_side, reads_to_come};
ghost use Rattle.mw_symmem.specs.Memory.{writes_of};
ghost use Rattle.mw_symmem.specs.Words.{HaveOwnKinds};
ghost use Rattle.mw_symmem.specs.Workspace.{GoesOn};
ghost use Rattle.mw_term.specs.declared.decided.Decided.{Decided};
ghost use Rattle.mw_term.specs.Functions.{Function};

use crate::program::Program;
use mw_base::NoMemory;
use mw_space::Space;
use mw_symboard::SymBoard;
use mw_symmem::Turn;
use mw_term::{DecidedKind, Term};
use std::alloc::Global;

/// Where a run comes to in its segment.
#[derive(Clone, Copy)]
pub enum Came {
    /// It waits for the next bit.
    Asks {
        /// What the bit says.
        kind: DecidedKind,
        /// A term of one bit, which has the bit's value.
        term: Term,
    },
    /// It is at a boundary, between two cycles.
    Reached,
    /// It is at no boundary, and has finished as many cycles as its bound allows.
    Late,
}

/// Whether a control address is that of a boundary.
fn is_boundary(program: &Program, at: u16) -> bool
    ensures { result ≡ is_named program.now.addresses at }
{
    program.addresses.iter().any(|address| *address == at)
}

/// Goes on to the next bit of the cycle, or to its end. The board waits for no bit.
fn turn(
    alloc: Global,
    program: &Program,
    space: &mut Space,
    board: &mut SymBoard,
) -> Result<Turn, NoMemory>
    requires running { IsRunning program.now space.old board.old }
    requires idle { board.old.asked ≡ None }
    requires below { board.old.place.cycle < 500 }
    requires few { length space.old.memory.reads < 2 ^ 32 }
    ensures running { OnOk result (IsRunning program.now space.new board.new) }
    ensures turned { IfOk result (HasTurned program.now space.new board.old board.new) }
    ensures goes { OnOk result (GoesOn (IsRunKind board.old.place) space.old.terms space.new.terms space.old.words
        space.new.words space.old.memory space.new.memory) }
    ensures own { OnOk result (HaveOwnKinds space.new.words) }
    ensures side { OnOk result (board.new.place.side ≡ board.old.place.side) }
    ensures other { OnOk result (writes_of space.new.memory (other_side board.old.place.side)
        ≡ writes_of space.old.memory (other_side board.old.place.side)) }
    ensures reads { OnOk result (length space.new.memory.reads + reads_to_come board.new
        ≤ length space.old.memory.reads + reads_to_come board.old + (board.new.place.cycle - board.old.place.cycle)) }
    ensures paths { IfOk result (λ turn. (b : Origin) (bits : List Decided) (path : Function)
        → IsOnSegment program.now space.old b board.old bits path
        → TurnsOnPath program.now space.new b board.new bits path turn) }
    ensures listed { IfOk result (λ turn. (bound : ℕ) (whole : List Bool → Segment) (bits : List Bool)
        → IsAlongSegment program.now bound whole bits space.old board.old
        → TurnsAlong program.now bound whole bits space.new board.new turn) }
{
    let turn = board.sym_cycle(
        alloc,
        program.board,
        program.store,
        &mut space.terms,
        &mut space.words,
        &mut space.memory,
    )?;
    // A call for the proof: no two variables have one kind.
    let _ = space.words.count();
    Ok(turn)
}

/// Goes on through the cycles of a segment: to the next bit, or to its end. The board waits for no bit.
///
/// The bound is how many cycles the whole segment may take, those that are finished included: more than these, and at
/// most 500. The base reads so far, and one for each cycle of the bound, are fewer than 2^32.
///
/// # Errors
///
/// Memory ran out.
pub fn segment(
    alloc: Global,
    program: &Program,
    bound: u32,
    space: &mut Space,
    board: &mut SymBoard,
) -> Result<Came, NoMemory>
    requires running { IsRunning program.now space.old board.old }
    requires idle { board.old.asked ≡ None }
    requires below { board.old.place.cycle < bound }
    requires most { bound ≤ 500 }
    requires few { length space.old.memory.reads + reads_to_come board.old + bound < 2 ^ 32 }
    ensures running { OnOk result (IsRunning program.now space.new board.new) }
    ensures goes { OnOk result (GoesOn (IsRunKind board.old.place) space.old.terms space.new.terms space.old.words
        space.new.words space.old.memory space.new.memory) }
    ensures own { OnOk result (HaveOwnKinds space.new.words) }
    ensures side { OnOk result (board.new.place.side ≡ board.old.place.side) }
    ensures line { OnOk result (board.new.place.cycle ≡ board.old.place.cycle
        → board.new.place.line ≡ board.old.place.line) }
    ensures other { OnOk result (writes_of space.new.memory (other_side board.old.place.side)
        ≡ writes_of space.old.memory (other_side board.old.place.side)) }
    ensures later { OnOk result (board.old.place.cycle ≤ board.new.place.cycle) }
    ensures reads { OnOk result (length space.new.memory.reads + reads_to_come board.new
        ≤ length space.old.memory.reads + reads_to_come board.old + (board.new.place.cycle - board.old.place.cycle)) }
    ensures comes { IfOk result (HasCome program.now bound space.new board.new) }
    ensures paths { IfOk result (λ came. (b : Origin) (bits : List Decided) (path : Function)
        → IsOnSegment program.now space.old b board.old bits path
        → ComesOnPath program.now bound space.new b board.new bits path came) }
    ensures listed { IfOk result (λ came. (whole : List Bool → Segment) (bits : List Bool)
        → IsAlongSegment program.now bound whole bits space.old board.old
        → ComesAlong program.now bound whole bits space.new board.new came) }
{
    loop {
        if let Turn::Ask { kind, term } = turn(alloc, program, space, board)? {
            return Ok(Came::Asks { kind, term });
        }
        if is_boundary(program, board.at()) {
            return Ok(Came::Reached);
        }
        if board.cycles() == bound {
            return Ok(Came::Late);
        }
    }
}
