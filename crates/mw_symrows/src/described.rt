// `call described request=BIT inputs=WORD,.. NAME=VALUE .. mem:ADDRESS=WORD ..`: a step of a machine on terms. Its
// registers and its request are variables, and have these values; inputs and words of the memory that aren't named
// are 0. Each bit that the step asks for has the value of its term. The registers after the step, the memory's words at
// the addresses that are named, the events, how many inputs were taken, and the branch bits, a line each. Words and
// addresses are hexadecimal. `call step-words` with the same words: the words that the step adds. Before it there are
// variables for an address of the memory, for the request and for each register, by their numbers.
ghost use Rattle.std.specs.Prelude.{◌≡◌, false};
ghost use Rattle.mw_macro.specs.Described.{description_of};
ghost use Rattle.mw_symmach.specs.Turns.{is_asked};
ghost use Rattle.mw_symrows.specs.StepRuns.{IsEnded, IsUnderway};

use crate::listed::push_words;
use crate::stepping::{MemoryWord, Scene, StepRun};
use crate::valued::{SymbolicStop, numbered, set, value};
use mw_macro::Machine;
use mw_rowfile::named::{bit, hexadecimal, word};
use mw_rowfile::{Fault, Report, wrong};
use mw_symmem::SymEvent;
use mw_term::{Assignment, Term, WordKind};
use std::alloc::Global;

/// What is printed of a step.
#[derive(Clone, Copy)]
enum Printed {
    /// The registers, the memory's words, the events, how many inputs were taken, and the branch bits.
    State,
    /// The words that it adds.
    Words,
}

/// What the words of a call give a step.
#[derive(Drop)]
struct Setting {
    /// The values of the registers, by their numbers.
    registers: Vec<u32>,
    request: bool,
    scene: Scene,
}

/// The number of a register.
fn register_named(machine: &Machine, text: &str) -> Option<usize> {
    let registers = machine.registers() as usize;
    for (number, name) in machine.names().iter().enumerate() {
        if number < registers && name.as_slice() == text.as_bytes() {
            return Some(number);
        }
    }
    None
}

/// A value of so many bits.
fn fitting(text: &str, bits: u8) -> Result<u32, Fault> {
    let value = word(hexadecimal(text)?)?;
    match value.checked_shr(u32::from(bits)) {
        None | Some(0) => Ok(value),
        Some(_) => Err(wrong("a value has too many bits")),
    }
}

impl Setting {
    /// Nothing but 0.
    fn new(alloc: Global, machine: &Machine) -> Result<Setting, Fault> {
        Ok(Setting {
            registers: vec![in alloc; 0; machine.registers() as usize]?,
            request: false,
            scene: Scene {
                inputs: Vec::new(alloc),
                memory: Vec::new(alloc),
            },
        })
    }

    /// The inputs are these, with commas between.
    fn take_inputs(&mut self, machine: &Machine, text: &str) -> Result<(), Fault> {
        for input in text.split(',') {
            let input = fitting(input, machine.shape().word)?;
            self.scene.inputs.push(input)?;
        }
        Ok(())
    }

    /// The memory has a word at an address.
    fn take_place(&mut self, machine: &Machine, address: &str, text: &str) -> Result<(), Fault> {
        let address = fitting(address, machine.shape().address)?;
        let word = fitting(text, machine.shape().word)?;
        self.scene.memory.push(MemoryWord { address, word })?;
        Ok(())
    }

    /// A register has a value.
    fn take_register(&mut self, machine: &Machine, name: &str, text: &str) -> Result<(), Fault> {
        let Some(number) = register_named(machine, name) else {
            return Err(wrong("no such register"));
        };
        let bits = machine
            .shape()
            .widths
            .as_slice()
            .get(number)
            .copied()
            .unwrap_or(0);
        let value = fitting(text, bits)?;
        match self.registers.get_mut(number) {
            Some(register) => {
                *register = value;
                Ok(())
            }
            None => Err(wrong("no such register")),
        }
    }

    /// What one word says.
    fn take(&mut self, machine: &Machine, given: &str) -> Result<(), Fault> {
        let Some((name, text)) = given.split_once('=') else {
            return Err(wrong("a value is `NAME=VALUE`"));
        };
        if let Some(address) = name.strip_prefix("mem:") {
            return self.take_place(machine, address, text);
        }
        match name {
            "request" => {
                self.request = bit(hexadecimal(text)?)?;
                Ok(())
            }
            "inputs" => self.take_inputs(machine, text),
            _ => self.take_register(machine, name, text),
        }
    }

    /// What all words of a call say.
    fn take_all(&mut self, machine: &Machine, given: &[String]) -> Result<(), Fault> {
        for word in given {
            self.take(machine, word)?;
        }
        Ok(())
    }

    /// Gives the variables of registers and of the request their values.
    fn assign(
        &self,
        alloc: Global,
        run: &StepRun,
        given: &mut Assignment,
    ) -> Result<(), SymbolicStop> {
        for (number, &value) in self.registers.iter().enumerate() {
            let kind = WordKind::Element(numbered(number)?);
            set(alloc, given, &run.words, kind, value)?;
        }
        let request = u32::from(self.request);
        set(alloc, given, &run.words, WordKind::Line(0), request)
    }
}

/// What the words of a call say.
fn setting_of(alloc: Global, machine: &Machine, given: &[String]) -> Result<Setting, Fault> {
    let mut setting = Setting::new(alloc, machine)?;
    match setting.take_all(machine, given) {
        Ok(()) => Ok(setting),
        Err(fault) => {
            drop(setting);
            Err(fault)
        }
    }
}

/// Appends the registers.
fn push_registers(
    alloc: Global,
    report: &mut Report,
    machine: &Machine,
    run: &StepRun,
    given: &Assignment,
) -> Result<(), SymbolicStop>
    requires { IsEnded (description_of machine.now) run.now.terms run.now.words run.now.memory run.now.step }
{
    report.push(b"registers");
    for number in 0..machine.registers() {
        let value = run.register(alloc, machine, number, given)?;
        let Some(name) = machine.names().get(number as usize) else {
            return Err(SymbolicStop::Unlike);
        };
        report.push(b" ");
        report.push(name.as_slice());
        report.push_named(b"=", u64::from(value));
    }
    Ok(())
}

/// Appends the memory's words at the addresses that are named.
fn push_memory(
    alloc: Global,
    report: &mut Report,
    machine: &Machine,
    places: &[MemoryWord],
    bases: u32,
    run: &mut StepRun,
    given: &mut Assignment,
) -> Result<(), SymbolicStop>
    requires { IsEnded (description_of machine.now) run.old.terms run.old.words run.old.memory run.old.step }
{
    report.push(b"\nmemory");
    let read = run.read(alloc, machine)?;
    for place in places {
        let word = run.word(alloc, *place, bases, read, given)?;
        report.push_named(b" ", u64::from(place.address));
        report.push_named(b"=", u64::from(word));
    }
    Ok(())
}

/// Appends an event, with a blank before it.
fn push_event(
    alloc: Global,
    report: &mut Report,
    run: &StepRun,
    event: SymEvent,
    given: &Assignment,
) -> Result<(), SymbolicStop> {
    let (name, term): (&[u8], Term) = match event {
        SymEvent::Out(term) => (b" out:", term),
        SymEvent::Taken(term) => (b" taken:", term),
    };
    let word = value(alloc, &run.terms, term, given)?;
    report.push_named(name, u64::from(word));
    Ok(())
}

/// Appends the line of the events.
fn push_events(
    alloc: Global,
    report: &mut Report,
    run: &StepRun,
    given: &Assignment,
) -> Result<(), SymbolicStop> {
    report.push(b"\nevents");
    for event in run.step.events() {
        push_event(alloc, report, run, *event, given)?;
    }
    Ok(())
}

/// Appends the line of how many inputs were taken.
fn push_inputs(report: &mut Report, run: &StepRun) -> Result<(), SymbolicStop> {
    let inputs = run.inputs()?;
    report.push(b"\ninputs ");
    report.push_decimal(u64::from(inputs));
    Ok(())
}

/// Appends the line of the branch bits.
fn push_branches(report: &mut Report, bits: &[bool]) {
    report.push(b"\nbranches");
    for &bit in bits {
        report.push(if bit { b" 1" } else { b" 0" });
    }
    report.push(b"\n");
}

/// Appends the lines of what a step came to, which has so many base reads and these branch bits.
fn push_state(
    alloc: Global,
    report: &mut Report,
    machine: &Machine,
    places: &[MemoryWord],
    run: &mut StepRun,
    given: &mut Assignment,
    bases: u32,
    bits: &[bool],
) -> Result<(), SymbolicStop>
    requires { IsEnded (description_of machine.now) run.old.terms run.old.words run.old.memory run.old.step }
{
    push_registers(alloc, report, machine, run, given)?;
    push_memory(alloc, report, machine, places, bases, run, given)?;
    push_events(alloc, report, run, given)?;
    push_inputs(report, run)?;
    push_branches(report, bits);
    Ok(())
}

/// Appends what a step that isn't begun comes to, where variables have the values of this assignment.
fn push_step(
    alloc: Global,
    report: &mut Report,
    machine: &Machine,
    setting: &Setting,
    run: &mut StepRun,
    given: &mut Assignment,
    printed: Printed,
) -> Result<(), SymbolicStop>
    requires under { IsUnderway (description_of machine.now) run.old.terms run.old.words run.old.memory run.old.step }
    requires idle { is_asked run.old.step.pending ≡ false }
{
    let first = run.words.count();
    let scene = &setting.scene;
    setting.assign(alloc, run, given)?;
    let mut bits = Vec::new(alloc);
    let bases = run.run(alloc, machine, scene, given, &mut bits)?;
    match printed {
        Printed::State => {
            push_state(
                alloc,
                report,
                machine,
                &scene.memory,
                run,
                given,
                bases,
                &bits,
            )
        }
        Printed::Words => push_words(report, &run.terms, &run.words, first),
    }
}

/// Appends what a step that isn't begun comes to.
fn push_run(
    alloc: Global,
    report: &mut Report,
    machine: &Machine,
    setting: &Setting,
    run: &mut StepRun,
    printed: Printed,
) -> Result<(), SymbolicStop>
    requires under { IsUnderway (description_of machine.now) run.old.terms run.old.words run.old.memory run.old.step }
    requires idle { is_asked run.old.step.pending ≡ false }
{
    let mut given = Assignment::new(alloc);
    let outcome = push_step(alloc, report, machine, setting, run, &mut given, printed);
    drop(given);
    outcome
}

/// Appends what a step of a machine comes to with what the words of a call give it.
fn push_setting(
    alloc: Global,
    report: &mut Report,
    machine: &Machine,
    setting: &Setting,
    printed: Printed,
) -> Result<(), SymbolicStop> {
    let mut run = StepRun::new(alloc, machine)?;
    let outcome = push_run(alloc, report, machine, setting, &mut run, printed);
    drop(run);
    outcome
}

/// Appends what a step of a machine comes to with what the words of a call say.
fn push_stepped(
    alloc: Global,
    report: &mut Report,
    machine: &Machine,
    given: &[String],
    printed: Printed,
) -> Result<(), Fault> {
    let setting = setting_of(alloc, machine, given)?;
    let outcome = push_setting(alloc, report, machine, &setting, printed);
    drop(setting);
    Ok(outcome?)
}

/// Appends what a step of a machine comes to.
///
/// # Errors
///
/// Words that aren't what the call reads, and want of memory.
pub fn run(
    alloc: Global,
    report: &mut Report,
    given: &[String],
    machine: &Machine,
) -> Result<(), Fault> {
    push_stepped(alloc, report, machine, given, Printed::State)
}

/// Appends the words that this step adds.
///
/// # Errors
///
/// As `run`.
pub fn words(
    alloc: Global,
    report: &mut Report,
    given: &[String],
    machine: &Machine,
) -> Result<(), Fault> {
    push_stepped(alloc, report, machine, given, Printed::Words)
}
