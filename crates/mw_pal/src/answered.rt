// A step of a console run, made in two parts.
ghost use Rattle.std.specs.Prelude.{◌≡◌, ℕ, ◌<◌, ◌^◌, ◌++◌, IfOk, OnOk, length, map, slice_index};
ghost use Rattle.mw_cycle.specs.Boundary.{numbers};
ghost use Rattle.mw_macro.specs.Described.{description_of};
ghost use Rattle.mw_macro.specs.DescribedStep.{AreInputs};
ghost use Rattle.mw_macro.specs.State.{Fits};
ghost use Rattle.mw_pal.specs.Console.{asked, step_with, taken_of, longer_run};
ghost use Rattle.mw_pal.specs.Devices.{answer_to, transfer_of};
ghost use Rattle.mw_pal.specs.Views.{HasRoom, IsReady, run_seen};

use crate::devices::{Console, Transfer, transfer_of};
use mw_base::{Event, NoMemory};
use mw_macro::{MacState, Machine, step};
use std::alloc::Global;

/// The most events of a described step.
const MOST_EVENTS: usize = 4096;

/// What a described step needs room for.
#[derive(Drop)]
pub(crate) struct StepRoom {
    /// The events of the last step.
    events: Vec<Event>,
    /// Nothing: a step keeps nothing here.
    temps: Vec<u32>,
}

impl StepRoom {
    /// Room for each described step.
    pub fn new(alloc: Global) -> Result<StepRoom, NoMemory>
        ensures { IfOk result (λ room. HasRoom room) }
    {
        Ok(StepRoom {
            events: Vec::with_capacity(alloc, MOST_EVENTS)?,
            temps: Vec::new(alloc),
        })
    }
}

/// The described step from a state without a request, with these inputs and 0 past them: how many it took. It lists its
/// events alone.
fn step_with(machine: &Machine, state: &mut MacState, inputs: &[u32], room: &mut StepRoom) -> u32
    requires fits { Fits (description_of machine.now) state.old }
    requires inputs { AreInputs (description_of machine.now) inputs.now }
    requires room { HasRoom room.old }
    ensures state { state.new ≡ (step_with (description_of machine.now) state.old inputs.now).state }
    ensures events { room.new.events.items ≡ (step_with (description_of machine.now) state.old inputs.now).events }
    ensures taken { result ≡ (step_with (description_of machine.now) state.old inputs.now).taken }
    ensures fits { Fits (description_of machine.now) state.new }
    ensures room { HasRoom room.new }
{
    room.events.clear();
    step(
        machine,
        state,
        false,
        inputs,
        0,
        &mut room.temps,
        &mut room.events,
    )
}

/// Makes a state of a machine the same as another.
fn copy_state(from: &MacState, to: &mut MacState)
    requires registers { length from.now.registers ≡ length to.old.registers }
    requires memory { length from.now.memory ≡ length to.old.memory }
    ensures { to.new ≡ from.now }
{
    to.registers.copy_from_slice(&from.registers);
    to.memory.copy_from_slice(&from.memory);
}

/// The transfer that the next step makes, if it makes one: that of the described step with zeros as its inputs, made
/// from a copy of the state.
pub(crate) fn asked(
    machine: &Machine,
    state: &MacState,
    copy: &mut MacState,
    room: &mut StepRoom,
) -> Option<Transfer>
    requires fits { Fits (description_of machine.now) state.now }
    requires copy { Fits (description_of machine.now) copy.old }
    requires room { HasRoom room.old }
    ensures exact { result ≡ transfer_of (asked (description_of machine.now) state.now) }
    ensures copy { Fits (description_of machine.now) copy.new }
    ensures room { HasRoom room.new }
{
    copy_state(state, copy);
    step_with(machine, copy, &[], room);
    transfer_of(&room.events)
}

/// The word at a number of a list; past its end 0.
fn word_at(words: &[u32], number: u32) -> u32
    ensures { result ≡ slice_index words.now number }
{
    words.get(number as usize).copied().unwrap_or(0)
}

/// Appends the inputs that a step took, so many of these and of 0 past their end.
fn push_taken(inputs: &mut Vec<u32>, answer: &[u32], taken: u32) -> Result<(), NoMemory>
    ensures { OnOk result
        (inputs.new.items ≡ inputs.old.items ++ map (slice_index answer.now) (numbers 0 taken)) }
{
    for number in 0..taken {
        inputs.push(word_at(answer, number))?;
    }
    Ok(())
}

/// The next step, with this answer as its inputs: appends those that it took.
fn take(
    machine: &Machine,
    state: &mut MacState,
    answer: &[u32],
    inputs: &mut Vec<u32>,
    room: &mut StepRoom,
) -> Result<(), NoMemory>
    requires fits { Fits (description_of machine.now) state.old }
    requires answer { AreInputs (description_of machine.now) answer.now }
    requires small { AreInputs (description_of machine.now) inputs.old.items }
    requires room { HasRoom room.old }
    ensures state { OnOk result (state.new ≡ (step_with (description_of machine.now) state.old answer.now).state) }
    ensures inputs { OnOk result (inputs.new.items ≡ inputs.old.items
        ++ taken_of answer.now (step_with (description_of machine.now) state.old answer.now)) }
    ensures fits { Fits (description_of machine.now) state.new }
    ensures small { OnOk result (AreInputs (description_of machine.now) inputs.new.items) }
    ensures room { HasRoom room.new }
{
    let taken = step_with(machine, state, answer, room);
    push_taken(inputs, answer, taken)?;
    Ok(())
}

/// The next step, with the console's answer to a transfer.
pub(crate) fn answer(
    machine: &Machine,
    console: &Console,
    transfer: Option<Transfer>,
    state: &mut MacState,
    inputs: &mut Vec<u32>,
    room: &mut StepRoom,
) -> Result<(), NoMemory>
    requires word { (description_of machine.now).shape.word ≡ 12 }
    requires fits { Fits (description_of machine.now) state.old }
    requires small { AreInputs (description_of machine.now) inputs.old.items }
    requires room { HasRoom room.old }
    ensures state { OnOk result (state.new
        ≡ (step_with (description_of machine.now) state.old (answer_to console.now transfer)).state) }
    ensures inputs { OnOk result (inputs.new.items ≡ inputs.old.items
        ++ taken_of (answer_to console.now transfer)
        (step_with (description_of machine.now) state.old (answer_to console.now transfer))) }
    ensures fits { Fits (description_of machine.now) state.new }
    ensures small { OnOk result (AreInputs (description_of machine.now) inputs.new.items) }
    ensures room { HasRoom room.new }
{
    match transfer {
        Some(transfer) => {
            let words = [console.status(transfer), console.data(transfer)];
            take(machine, state, &words, inputs, room)
        }
        None => take(machine, state, &[], inputs, room),
    }
}
