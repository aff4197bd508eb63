// Console runs.
ghost use Rattle.std.specs.Prelude.{◌≡◌, IfOk, OnOk};
ghost use Rattle.mw_macro.specs.Described.{description_of};
ghost use Rattle.mw_macro.specs.State.{Fits};
ghost use Rattle.mw_pal.specs.Console.{before_run, longer_run, run_of};
ghost use Rattle.mw_pal.specs.Views.{IsReady, run_seen};

use crate::answered::{StepRoom, answer, asked};
use crate::devices::Console;
use mw_base::NoMemory;
use mw_macro::{MacState, Machine};
use std::alloc::Global;

/// Where a console run has come to, and what its steps need.
#[derive(Drop)]
pub(crate) struct Stand<'a> {
    /// The described machine's state.
    pub state: MacState,
    /// The console.
    pub console: Console<'a>,
    /// The inputs that the steps took.
    pub inputs: Vec<u32>,
    /// A state for the first part of a step.
    pub copy: MacState,
    /// Room for a step.
    pub room: StepRoom,
}

/// A console run before its first step.
fn begin<'a>(
    alloc: Global,
    machine: &Machine,
    state: MacState,
    keys: &'a [u8],
) -> Result<Stand<'a>, NoMemory>
    requires word { (description_of machine.now).shape.word ≡ 12 }
    requires fits { Fits (description_of machine.now) state }
    ensures run { IfOk result (λ stand. run_seen stand ≡ before_run state keys.now) }
    ensures ready { IfOk result (λ stand. IsReady (description_of machine.now) stand) }
{
    Ok(Stand {
        state,
        console: Console::new(alloc, keys),
        inputs: Vec::new(alloc),
        copy: MacState::new(alloc, machine)?,
        room: StepRoom::new(alloc)?,
    })
}

/// Makes a step, in two parts: the first asks what the console answers, and the second is the step.
#[tactic(auto, unfolding(crate::specs::Console::longer_run))]
fn make_step(machine: &Machine, stand: &mut Stand) -> Result<(), NoMemory>
    requires { IsReady (description_of machine.now) stand.old }
    ensures run { OnOk result (run_seen stand.new ≡ longer_run (description_of machine.now) (run_seen stand.old)) }
    ensures ready { OnOk result (IsReady (description_of machine.now) stand.new) }
{
    let transfer = asked(machine, &stand.state, &mut stand.copy, &mut stand.room);
    answer(
        machine,
        &stand.console,
        transfer,
        &mut stand.state,
        &mut stand.inputs,
        &mut stand.room,
    )?;
    stand.console.make(transfer)
}

/// The console run of so many steps from a state.
pub(crate) fn run<'a>(
    alloc: Global,
    machine: &Machine,
    state: MacState,
    keys: &'a [u8],
    steps: u32,
) -> Result<Stand<'a>, NoMemory>
    requires word { (description_of machine.now).shape.word ≡ 12 }
    requires fits { Fits (description_of machine.now) state }
    ensures run { IfOk result (λ stand. run_seen stand ≡ run_of (description_of machine.now) state keys.now steps) }
    ensures ready { IfOk result (λ stand. IsReady (description_of machine.now) stand) }
{
    let mut stand = begin(alloc, machine, state, keys)?;
    for _ in 0..steps {
        make_step(machine, &mut stand)?;
    }
    Ok(stand)
}
