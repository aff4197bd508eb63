// A described step on terms with what it works on.
ghost use Rattle.std.specs.Prelude.{◌≡◌, ◌<◌, ◌≤◌, ◌+◌, [], true, false, length, slice_index, IfOk, OnOk};
ghost use Rattle.mw_macro.specs.Described.{description_of};
ghost use Rattle.mw_term.specs.Table as tables;
ghost use Rattle.mw_term.specs.Table.{IsTable, IsWidth};
ghost use Rattle.mw_symmem.specs.Memory.{IsOfWidth};
ghost use Rattle.mw_symmem.specs.Words.{AreOf};
ghost use Rattle.mw_symmem.specs.Workspace.{IsLater, IsWorkspace};
ghost use Rattle.mw_symmach.specs.Turns.{Waits, is_asked};
ghost use Rattle.mw_symrows.specs.StepRuns.{AreFirst, AreRegisters, IsEnded, IsFirstKind, IsTurned, IsUnderway};

use crate::valued::{SymbolicStop, is_of_width, numbered, set, value};
use mw_macro::Machine;
use mw_symmach::SymMach;
use mw_symmem::{Side, SymMemory, Turn, Words, are_of_at_first, is_memory_at_first};
use mw_term::{Assignment, Term, WordKind, Written};
use std::alloc::Global;

/// A described step on terms with what it works on.
#[derive(Drop)]
pub struct StepRun {
    /// The terms that were written.
    pub terms: Written,
    /// The words of the step.
    pub words: Words,
    /// The memory.
    pub memory: SymMemory,
    /// The step.
    pub step: SymMach,
}

/// A word of the memory before the step, and its address.
#[derive(Clone, Copy)]
pub struct MemoryWord {
    /// The address.
    pub address: u32,
    /// The word.
    pub word: u32,
}

/// What the step is over beside its registers and its request.
#[derive(Drop)]
pub struct Scene {
    /// The inputs, in their order. Those behind them are 0.
    pub inputs: Vec<u32>,
    /// Words of the memory before the step. Those at other addresses are 0.
    pub memory: Vec<MemoryWord>,
}

impl Scene {
    /// The word of the memory at an address before the step.
    fn word(&self, address: u32) -> u32 {
        for place in &self.memory {
            if place.address == address {
                return place.word;
            }
        }
        0
    }
}

/// A variable of a kind that isn't there yet.
fn first_variable(
    alloc: Global,
    kind: WordKind,
    width: u8,
    terms: &mut Written,
    words: &mut Words,
) -> Result<Term, SymbolicStop>
    requires kind { IsFirstKind kind }
    requires width { IsWidth width }
    requires of { AreOf terms.old words.old }
    requires first { AreFirst words.old }
    ensures wide { IfOk result (IsOfWidth terms.new width) }
    ensures later { OnOk result (IsLater terms.old terms.new) }
    ensures of { OnOk result (AreOf terms.new words.new) }
    ensures first { OnOk result (AreFirst words.new) }
{
    if words.find(kind).is_some() {
        return Err(SymbolicStop::Unlike);
    }
    let term = words.fresh(alloc, terms, kind, width)?;
    Ok(term)
}

/// How many bits a register has, by its number.
pub(crate) fn register_width(machine: &Machine, number: u32) -> u8
    requires { number < (description_of machine.now).registers }
    ensures exact { result ≡ slice_index (description_of machine.now).shape.widths number }
    ensures range { IsWidth result }
{
    machine.shape().widths.as_slice()[number as usize]
}

/// One variable more, for the register of this number.
fn push_register(
    alloc: Global,
    machine: &Machine,
    number: u32,
    terms: &mut Written,
    words: &mut Words,
    registers: &mut Vec<Term>,
) -> Result<(), SymbolicStop>
    requires there { number < (description_of machine.now).registers }
    requires count { length registers.old.items ≡ number }
    requires so_far { AreRegisters (description_of machine.now).shape terms.old number registers.old.items }
    requires of { AreOf terms.old words.old }
    requires first { AreFirst words.old }
    ensures count { OnOk result (length registers.new.items ≡ number + 1) }
    ensures so_far { OnOk result
        (AreRegisters (description_of machine.now).shape terms.new (number + 1) registers.new.items) }
    ensures later { OnOk result (IsLater terms.old terms.new) }
    ensures of { OnOk result (AreOf terms.new words.new) }
    ensures first { OnOk result (AreFirst words.new) }
{
    let width = register_width(machine, number);
    let term = first_variable(alloc, WordKind::Element(number), width, terms, words)?;
    registers.push(term)?;
    Ok(())
}

/// A variable for each register, by their numbers.
fn make_registers(
    alloc: Global,
    machine: &Machine,
    terms: &mut Written,
    words: &mut Words,
) -> Result<Vec<Term>, SymbolicStop>
    requires table { IsTable terms.old }
    requires of { AreOf terms.old words.old }
    requires first { AreFirst words.old }
    ensures count { IfOk result (λ v. length v.items ≡ (description_of machine.now).registers) }
    ensures registers { IfOk result (λ v.
        AreRegisters (description_of machine.now).shape terms.new (description_of machine.now).registers v.items) }
    ensures later { OnOk result (IsLater terms.old terms.new) }
    ensures of { OnOk result (AreOf terms.new words.new) }
    ensures first { OnOk result (AreFirst words.new) }
{
    let mut registers = Vec::new(alloc);
    for number in 0..machine.registers() {
        push_register(alloc, machine, number, terms, words, &mut registers)?;
    }
    Ok(registers)
}

/// A table without a map and without terms.
fn no_terms(alloc: Global) -> Result<Written, SymbolicStop>
    ensures exact { IfOk result (λ terms. terms ≡ tables.table_of [] []) }
    ensures table { IfOk result (λ terms. IsTable terms) }
{
    let terms = Written::new(alloc, &[])?;
    Ok(terms)
}

/// The first address at which two images differ.
fn difference(before: &[u32], after: &[u32]) -> Option<usize> {
    for (address, word) in after.iter().enumerate() {
        if before.get(address) != Some(word) {
            return Some(address);
        }
    }
    None
}

impl StepRun {
    /// A step from a variable for each register, and one for the request. There is a variable for an address of the
    /// memory too.
    ///
    /// # Errors
    ///
    /// Memory ran out.
    pub fn new(alloc: Global, machine: &Machine) -> Result<StepRun, SymbolicStop>
        ensures under { IfOk result
            (λ run. IsUnderway (description_of machine.now) run.terms run.words run.memory run.step) }
        ensures idle { IfOk result (λ run. is_asked run.step.pending ≡ false) }
    {
        are_of_at_first();
        is_memory_at_first();
        let mut terms = no_terms(alloc)?;
        let mut words = Words::new(alloc);
        let address = machine.shape().address;
        let word = machine.shape().word;
        first_variable(alloc, WordKind::Probe, address, &mut terms, &mut words)?;
        let request = first_variable(alloc, WordKind::Line(0), 1, &mut terms, &mut words)?;
        let registers = make_registers(alloc, machine, &mut terms, &mut words)?;
        let memory = SymMemory::new(alloc, address, word);
        StepRun::on(alloc, machine, terms, words, memory, &registers, request)
    }

    /// A step from these terms for the registers, by their numbers, and for the request, on what is there already.
    ///
    /// # Errors
    ///
    /// Memory ran out.
    pub fn on(
        alloc: Global,
        machine: &Machine,
        terms: Written,
        words: Words,
        memory: SymMemory,
        registers: &[Term],
        request: Term,
    ) -> Result<StepRun, SymbolicStop>
        requires waits { Waits (description_of machine.now) terms words memory registers.now request }
        requires few { length memory.reads ≤ 1000 }
        ensures under { IfOk result
            (λ run. IsUnderway (description_of machine.now) run.terms run.words run.memory run.step) }
        ensures idle { IfOk result (λ run. is_asked run.step.pending ≡ false) }
    {
        let step = SymMach::new(alloc, machine, registers, request)?;
        Ok(StepRun {
            terms,
            words,
            memory,
            step,
        })
    }

    /// Goes on to the next bit of the step, or to its end.
    fn turn(&mut self, alloc: Global, machine: &Machine) -> Result<Turn, SymbolicStop>
        requires under { IsUnderway (description_of machine.now) self.old.terms self.old.words
            self.old.memory self.old.step }
        requires idle { is_asked self.old.step.pending ≡ false }
        ensures turned { IfOk result
            (IsTurned (description_of machine.now) self.new.terms self.new.words self.new.memory self.new.step) }
        ensures workspace { OnOk result (IsWorkspace self.new.terms self.new.words self.new.memory) }
    {
        let turn = self.step.sym_step(
            alloc,
            machine,
            &mut self.terms,
            &mut self.words,
            &mut self.memory,
        )?;
        Ok(turn)
    }

    /// Gives the bit that was asked for.
    fn decide(&mut self, _machine: &Machine, value: bool)
        requires under { IsUnderway (description_of _machine.now) self.old.terms self.old.words
            self.old.memory self.old.step }
        requires asked { is_asked self.old.step.pending ≡ true }
        ensures under { IsUnderway (description_of _machine.now) self.new.terms self.new.words
            self.new.memory self.new.step }
        ensures idle { is_asked self.new.step.pending ≡ false }
    {
        self.step.decide(value);
    }

    /// The image that the base reads fit.
    fn image(&self, alloc: Global, given: &Assignment) -> Result<Vec<u32>, SymbolicStop>
        requires { IsWorkspace self.now.terms self.now.words self.now.memory }
    {
        let image = self.memory.image_of(alloc, &self.terms, given)?;
        Ok(image)
    }

    /// Gives the base read of a number the word at its address. Its address is where the image changes with it; where
    /// an older read has its address, its own word is of no account.
    fn set_base(
        &self,
        alloc: Global,
        number: u32,
        scene: &Scene,
        given: &mut Assignment,
    ) -> Result<(), SymbolicStop>
        requires { IsWorkspace self.now.terms self.now.words self.now.memory }
    {
        let before = self.image(alloc, given)?;
        set(alloc, given, &self.words, WordKind::Base(number), 1)?;
        let after = self.image(alloc, given)?;
        match difference(&before, &after) {
            Some(address) => {
                let word = scene.word(numbered(address)?);
                set(alloc, given, &self.words, WordKind::Base(number), word)
            }
            None => Ok(()),
        }
    }

    /// Gives the base reads from a number on their words, and answers how many base reads there are.
    fn set_bases(
        &self,
        alloc: Global,
        from: u32,
        scene: &Scene,
        given: &mut Assignment,
    ) -> Result<u32, SymbolicStop>
        requires { IsWorkspace self.now.terms self.now.words self.now.memory }
    {
        for number in from..257 {
            if self.words.find(WordKind::Base(number)).is_none() {
                return Ok(number);
            }
            self.set_base(alloc, number, scene, given)?;
        }
        Err(SymbolicStop::Unlike)
    }

    /// Gives the inputs their words.
    fn set_inputs(
        &self,
        alloc: Global,
        scene: &Scene,
        given: &mut Assignment,
    ) -> Result<(), SymbolicStop> {
        for (number, &word) in scene.inputs.iter().enumerate() {
            let kind = WordKind::Input(numbered(number)?);
            set(alloc, given, &self.words, kind, word)?;
        }
        Ok(())
    }

    /// The value of a bit that is asked for.
    fn bit(&self, alloc: Global, term: Term, given: &Assignment) -> Result<bool, SymbolicStop> {
        let value = value(alloc, &self.terms, term, given)?;
        Ok(value == 1)
    }

    /// Runs the step. Each bit that it asks for has the value of its term. It answers how many base reads there are.
    ///
    /// # Errors
    ///
    /// A step that doesn't end, and want of memory.
    pub fn run(
        &mut self,
        alloc: Global,
        machine: &Machine,
        scene: &Scene,
        given: &mut Assignment,
        bits: &mut Vec<bool>,
    ) -> Result<u32, SymbolicStop>
        requires under { IsUnderway (description_of machine.now) self.old.terms self.old.words
            self.old.memory self.old.step }
        requires idle { is_asked self.old.step.pending ≡ false }
        ensures { OnOk result
            (IsEnded (description_of machine.now) self.new.terms self.new.words self.new.memory self.new.step) }
    {
        let mut bases = 0;
        for _ in 0..4097 {
            let turn = self.turn(alloc, machine)?;
            self.set_inputs(alloc, scene, given)?;
            bases = self.set_bases(alloc, bases, scene, given)?;
            let Turn::Ask { term, .. } = turn else {
                return Ok(bases);
            };
            let value = self.bit(alloc, term, given)?;
            bits.push(value)?;
            self.decide(machine, value);
        }
        Err(SymbolicStop::Unlike)
    }

    /// Reads the machine's memory at the variable of an address.
    ///
    /// # Errors
    ///
    /// There is no such variable, and want of memory.
    pub fn read(&mut self, alloc: Global, machine: &Machine) -> Result<Term, SymbolicStop>
        requires { IsEnded (description_of machine.now) self.old.terms self.old.words self.old.memory self.old.step }
    {
        let Some(probe) = self.words.find(WordKind::Probe) else {
            return Err(SymbolicStop::Unlike);
        };
        if !is_of_width(&self.terms, machine.shape().address, probe) {
            return Err(SymbolicStop::Unlike);
        }
        let term = self.memory.read(
            alloc,
            Side::Machine,
            probe,
            &mut self.terms,
            &mut self.words,
        )?;
        Ok(term)
    }

    /// What the machine's memory has at an address, by the term of a read that was made behind so many base reads.
    ///
    /// # Errors
    ///
    /// Want of memory.
    pub fn word(
        &self,
        alloc: Global,
        place: MemoryWord,
        bases: u32,
        read: Term,
        given: &mut Assignment,
    ) -> Result<u32, SymbolicStop> {
        set(alloc, given, &self.words, WordKind::Probe, place.address)?;
        set(alloc, given, &self.words, WordKind::Base(bases), place.word)?;
        value(alloc, &self.terms, read, given)
    }

    /// How many inputs have a variable.
    ///
    /// # Errors
    ///
    /// There are more than a step takes.
    pub fn inputs(&self) -> Result<u32, SymbolicStop> {
        for number in 0..4097 {
            if self.words.find(WordKind::Input(number)).is_none() {
                return Ok(number);
            }
        }
        Err(SymbolicStop::Unlike)
    }

    /// The value of a register, by its number.
    ///
    /// # Errors
    ///
    /// Want of memory.
    pub fn register(
        &self,
        alloc: Global,
        machine: &Machine,
        number: u32,
        given: &Assignment,
    ) -> Result<u32, SymbolicStop>
        requires over { IsEnded (description_of machine.now) self.now.terms self.now.words
            self.now.memory self.now.step }
        requires there { number < (description_of machine.now).registers }
    {
        value(alloc, &self.terms, self.step.register(number), given)
    }
}
