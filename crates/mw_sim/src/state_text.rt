// The state of a board as the lines of an environment.
ghost use Rattle.std.specs.Prelude.{◌≡◌, ◌<◌, ◌++◌, OnOk};
ghost use Rattle.mw_board.specs.Elements.{element_count};
ghost use Rattle.mw_cycle.specs.State.{Fits};
ghost use Rattle.mw_sim.specs.StateText.{element_line, element_lines, set_line, state_text};

use crate::texts::{append_hex_line, append_memory, append_value_line};
use mw_base::NoMemory;
use mw_board::Board;
use mw_cycle::State;
use std::alloc::Global;

/// Appends the line that sets an element with a name; none where its value is 0.
fn append_set(alloc: Global, report: &mut Vec<u8>, name: &[u8], value: u32) -> Result<(), NoMemory>
    ensures { OnOk result (report.new.items ≡ report.old.items ++ set_line name.now value) }
{
    append_value_line(alloc, report, b"set b.", name, value)
}

/// Appends the line of the element with a number.
fn append_element(
    alloc: Global,
    report: &mut Vec<u8>,
    board: &Board,
    state: &State,
    number: usize,
) -> Result<(), NoMemory>
    requires fits { Fits board.now state.now }
    requires there { number < element_count board.now }
    ensures { OnOk result (report.new.items ≡ report.old.items ++ element_line board.now state.now number) }
{
    let name = board.element_name(number).unwrap_or(b"");
    append_set(alloc, report, name, state.element(board, number))
}

/// Appends the lines of the elements, by number.
fn append_elements(
    alloc: Global,
    report: &mut Vec<u8>,
    board: &Board,
    state: &State,
) -> Result<(), NoMemory>
    requires fits { Fits board.now state.now }
    ensures { OnOk result (report.new.items ≡ report.old.items ++ element_lines board.now state.now) }
{
    for number in 0..board.element_count() {
        append_element(alloc, report, board, state, number)?;
    }
    Ok(())
}

/// Appends the lines of an environment from which a run goes on in this state: the control address, the elements that
/// aren't 0 by number, the stack pointer where it isn't 0, and the words of the memory that aren't 0 in rising order of
/// addresses. The state fits the board.
///
/// # Errors
///
/// Memory ran out: the text may only be dropped then.
#[tactic(auto, unfolding(crate::specs::StateText::state_text))]
pub fn append_state(
    alloc: Global,
    report: &mut Vec<u8>,
    board: &Board,
    state: &State,
) -> Result<(), NoMemory>
    requires fits { Fits board.now state.now }
    ensures { OnOk result (report.new.items ≡ report.old.items ++ state_text board.now state.now) }
{
    append_hex_line(alloc, report, b"at ", u32::from(state.at))?;
    append_elements(alloc, report, board, state)?;
    append_set(alloc, report, b"sp", u32::from(state.seq.sp))?;
    append_memory(alloc, report, &state.memory)
}
