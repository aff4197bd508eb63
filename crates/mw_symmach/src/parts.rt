// The parts of a described step on terms, and single statements.
ghost use Rattle.std.specs.Prelude.{◌≡◌, ℕ, ◌+◌, ◌-◌, ◌<◌, ◌≤◌, ◌^◌, List, [], ◌∷◌, ◌++◌, true, drop, length};
ghost use Rattle.std.specs.Prelude.{slice_index, take, Some, IfOk, OnOk};
ghost use Rattle.mw_expr.specs.Tree.{view};
ghost use Rattle.mw_expr.specs.Widths.{width_of};
ghost use Rattle.mw_macro.specs.Counts.{reads, own_reads, own_events, total};
ghost use Rattle.mw_macro.specs.declared.counts.Counted.TheVariants.{Reads, Events};
ghost use Rattle.mw_macro.specs.Right.{is_right, are_right, is_asked};
ghost use Rattle.mw_macro.specs.Statements.{Acts, act_of, acts, assign, write, put, take_in, choose};
ghost use Rattle.mw_macro.specs.StepWords.{assign_words, put_words, take_words, with_zeros, write_words};
ghost use Rattle.mw_term.specs.declared.word.Word.{Word};
ghost use Rattle.mw_term.specs.MemoryRead.{Held};
ghost use Rattle.mw_term.specs.Table.{IsTable, IsWidth};
ghost use Rattle.mw_term.specs.WordList.{list_of, with_input};
ghost use Rattle.mw_symmem.specs.Listed.{Lists};
ghost use Rattle.mw_symmach.specs.Walks.{ActWalks, Walks, underway_in};
ghost use Rattle.mw_symmach.specs.Places.{dropped, IsAsked, IsDone, Reaches};
ghost use Rattle.mw_symmach.specs.Steps.{IsInput, Stands, Acted, parts_of};
ghost use Rattle.mw_symmach.specs.Zeros.{AreWide, HaveZeros};

use crate::expression::expr_term;
use crate::zeros::push_zeros;
use mw_base::NoMemory;
use mw_expr::{Expr, Shape};
use mw_macro::Statement;
use mw_symmem::{Side, SymEvent, SymMemory, Words};
use mw_term::{Term, WordKind, Written};
use std::alloc::Global;
use std::marker::Model;

/// The terms of the elements, the events so far, and how many inputs were taken.
#[derive(Drop)]
pub(crate) struct Parts {
    values: Vec<Term>,
    events: Vec<SymEvent>,
    taken: u32,
}

impl Model for Parts {
    ghost use Rattle.mw_symmach.specs.Steps as steps;

    ghost Value = { steps.Parts };

    ghost view = { λ p. steps.parts_of p.values.items p.events.items p.taken };
}

/// How far statements were done.
#[derive(Clone, Copy)]
pub(crate) struct Reached {
    /// The position of the next statement.
    pub position: usize,
    /// The term of the condition that it asks for, where it is an `if`.
    pub asked: Option<Term>,
}

/// The variable of the input of a number, of so many bits, which is made where it isn't there yet.
fn input_term(
    alloc: Global,
    number: u32,
    width: u8,
    terms: &mut Written,
    words: &mut Words,
) -> Result<Term, NoMemory>
    requires { IsWidth width }
    ensures input { IfOk result (IsInput terms.old terms.new words.old words.new width number) }
    ensures listed { IfOk result (Lists (with_input number width) terms.old terms.new words.old words.new) }
{
    if let Some(term) = words.find(WordKind::Input(number)) {
        return Ok(term);
    }
    let term = words.fresh(alloc, terms, WordKind::Input(number), width)?;
    Ok(term)
}

impl Parts {
    /// The same once more.
    pub(crate) fn copy(&self, alloc: Global) -> Result<Parts, NoMemory>
        ensures { IfOk result (λ copy. copy ≡ self.now) }
    {
        Ok(Parts {
            values: Vec::from_slice(alloc, &self.values)?,
            events: Vec::from_slice(alloc, &self.events)?,
            taken: self.taken,
        })
    }

    /// These terms, with room for those of so many elements. There is no event, and no input was taken.
    pub(crate) fn new(alloc: Global, registers: &[Term], elements: usize) -> Result<Parts, NoMemory>
        ensures { IfOk result (λ parts. parts ≡ parts_of registers.now [] 0) }
    {
        let mut values = Vec::with_capacity(alloc, elements)?;
        values.extend_from_slice(registers)?;
        Ok(Parts {
            values,
            events: Vec::new(alloc),
            taken: 0,
        })
    }

    /// The elements up to a number that have no terms yet get terms of the value 0, of these widths.
    pub(crate) fn push_zeros(
        &mut self,
        alloc: Global,
        widths: &[u8],
        elements: usize,
        terms: &mut Written,
    ) -> Result<(), NoMemory>
        requires table { IsTable terms.old }
        requires widths { (i : ℕ) → i < length widths.now → IsWidth (slice_index widths.now i) }
        requires elements { elements ≤ length widths.now }
        requires count { length self.old.values ≤ elements }
        requires wide { AreWide terms.old widths.now self.old.values }
        ensures zeros { OnOk result (HaveZeros terms.old terms.new widths.now self.old.values self.new.values
            (elements - length self.old.values)) }
        ensures listed { OnOk result ((words : List Word) (reads : List Held)
            → with_zeros (take (elements - length self.old.values) (drop (length self.old.values) widths.now))
            self.old.values (list_of terms.old.ops words reads)
            ≡ record { list = list_of terms.new.ops words reads; terms = self.new.values }) }
        ensures events { OnOk result (self.new.events ≡ self.old.events) }
        ensures taken { OnOk result (self.new.taken ≡ self.old.taken) }
    {
        push_zeros(alloc, widths, elements, &mut self.values, terms)?;
        Ok(())
    }

    /// One more element gets a term.
    pub(crate) fn push(&mut self, term: Term) -> Result<(), NoMemory>
        ensures { OnOk result (self.new ≡ parts_of (self.old.values ++ term ∷ []) self.old.events self.old.taken) }
    {
        self.values.push(term)?;
        Ok(())
    }

    /// The term of an element.
    pub(crate) fn value(&self, element: usize) -> Term
        requires { element < length self.now.values }
        ensures { result ≡ slice_index self.now.values element }
    {
        self.values[element]
    }

    /// The events so far.
    pub(crate) fn events(&self) -> &[SymEvent]
        ensures { result.now ≡ self.now.events }
    {
        &self.events
    }

    /// An element gets the term of an expression.
    pub(crate) fn assign(
        &mut self,
        alloc: Global,
        shape: &Shape,
        target: u32,
        expr: &Expr,
        terms: &mut Written,
        words: &mut Words,
        memory: &mut SymMemory,
    ) -> Result<(), NoMemory>
        requires stands { Stands shape.now terms.old words.old memory.old self.old }
        requires right { is_right shape.now (assign target (view expr.now)) ≡ true }
        requires few { length memory.old.reads + own_reads (assign target (view expr.now)) ≤ 2 ^ 32 }
        ensures acted { OnOk result (Acted shape.now terms.old terms.new words.old words.new memory.old memory.new
            self.old self.new (assign target (view expr.now))) }
        ensures listed { OnOk result (underway_in terms.new words.new memory.new self.new
            ≡ assign_words shape.now target (view expr.now) (underway_in terms.old words.old memory.old self.old)) }
    {
        let _shape = shape;
        let term = expr_term(
            alloc,
            expr,
            &self.values,
            Side::Machine,
            terms,
            words,
            memory,
        )?;
        self.values[target as usize] = term;
        Ok(())
    }

    /// The memory gets the term of an expression at that of another.
    pub(crate) fn write(
        &mut self,
        alloc: Global,
        shape: &Shape,
        address: &Expr,
        expr: &Expr,
        terms: &mut Written,
        words: &mut Words,
        memory: &mut SymMemory,
    ) -> Result<(), NoMemory>
        requires stands { Stands shape.now terms.old words.old memory.old self.old }
        requires right { is_right shape.now (write (view address.now) (view expr.now)) ≡ true }
        requires few { length memory.old.reads + own_reads (write (view address.now) (view expr.now)) ≤ 2 ^ 32 }
        ensures acted { OnOk result (Acted shape.now terms.old terms.new words.old words.new memory.old memory.new
            self.old self.new (write (view address.now) (view expr.now))) }
        ensures listed { OnOk result (underway_in terms.new words.new memory.new self.new
            ≡ write_words shape.now (view address.now) (view expr.now)
            (underway_in terms.old words.old memory.old self.old)) }
    {
        let _shape = shape;
        let place = expr_term(
            alloc,
            address,
            &self.values,
            Side::Machine,
            terms,
            words,
            memory,
        )?;
        let word = expr_term(
            alloc,
            expr,
            &self.values,
            Side::Machine,
            terms,
            words,
            memory,
        )?;
        memory.write(alloc, Side::Machine, place, word)?;
        Ok(())
    }

    /// The term of an expression is put out.
    pub(crate) fn put(
        &mut self,
        alloc: Global,
        shape: &Shape,
        expr: &Expr,
        terms: &mut Written,
        words: &mut Words,
        memory: &mut SymMemory,
    ) -> Result<(), NoMemory>
        requires stands { Stands shape.now terms.old words.old memory.old self.old }
        requires right { is_right shape.now (put (view expr.now)) ≡ true }
        requires few { length memory.old.reads + own_reads (put (view expr.now)) ≤ 2 ^ 32 }
        ensures acted { OnOk result (Acted shape.now terms.old terms.new words.old words.new memory.old memory.new
            self.old self.new (put (view expr.now))) }
        ensures listed { OnOk result (underway_in terms.new words.new memory.new self.new
            ≡ put_words shape.now (view expr.now) (underway_in terms.old words.old memory.old self.old)) }
    {
        let _shape = shape;
        let term = expr_term(
            alloc,
            expr,
            &self.values,
            Side::Machine,
            terms,
            words,
            memory,
        )?;
        self.events.push(SymEvent::Out(term))?;
        Ok(())
    }

    /// An element gets the variable of the next input.
    pub(crate) fn take(
        &mut self,
        alloc: Global,
        shape: &Shape,
        target: u32,
        terms: &mut Written,
        words: &mut Words,
        _memory: &SymMemory,
    ) -> Result<(), NoMemory>
        requires stands { Stands shape.now terms.old words.old _memory.now self.old }
        requires right { is_right shape.now (take_in target) ≡ true }
        requires few { self.old.taken + 1 < 2 ^ 32 }
        ensures acted { OnOk result (Acted shape.now terms.old terms.new words.old words.new _memory.now _memory.now
            self.old self.new (take_in target)) }
        ensures listed { OnOk result (underway_in terms.new words.new _memory.now self.new
            ≡ take_words shape.now target (underway_in terms.old words.old _memory.now self.old)) }
    {
        let term = input_term(alloc, self.taken, shape.word, terms, words)?;
        self.events.push(SymEvent::Taken(term))?;
        self.values[target as usize] = term;
        self.taken += 1;
        Ok(())
    }

    /// The term of the condition of an `if`.
    fn condition(
        &self,
        alloc: Global,
        shape: &Shape,
        condition: &Expr,
        terms: &mut Written,
        words: &mut Words,
        memory: &mut SymMemory,
    ) -> Result<Term, NoMemory>
        requires stands { Stands shape.now terms.old words.old memory.old self.now }
        requires few { length memory.old.reads + reads (view condition.now) ≤ 2 ^ 32 }
        requires bit { is_asked 1 (width_of shape.now (view condition.now)) ≡ true }
        ensures asked { IfOk result (λ term. (one other : Acts)
            → is_right shape.now (choose (view condition.now) one other) ≡ true
            → IsAsked shape.now terms.old terms.new words.old words.new memory.old memory.new self.now
            (choose (view condition.now) one other) term) }
        ensures listed { IfOk result (λ term. (one other : Acts)
            → ActWalks shape.now (underway_in terms.old words.old memory.old self.now)
            (underway_in terms.new words.new memory.new self.now) (choose (view condition.now) one other) (Some term)) }
    {
        let _shape = shape;
        let term = expr_term(
            alloc,
            condition,
            &self.values,
            Side::Machine,
            terms,
            words,
            memory,
        )?;
        Ok(term)
    }

    /// Does a statement. Where it is an `if`, the answer is the term of its condition, and nothing else is done.
    pub(crate) fn act(
        &mut self,
        alloc: Global,
        shape: &Shape,
        statement: &Statement,
        terms: &mut Written,
        words: &mut Words,
        memory: &mut SymMemory,
    ) -> Result<Option<Term>, NoMemory>
        requires stands { Stands shape.now terms.old words.old memory.old self.old }
        requires right { is_right shape.now (act_of statement.now) ≡ true }
        requires few_reads { length memory.old.reads + own_reads (act_of statement.now) ≤ 2 ^ 32 }
        requires few_events { self.old.taken + own_events (act_of statement.now) < 2 ^ 32 }
        ensures done { IfOk result (IsDone shape.now terms.old terms.new words.old words.new memory.old memory.new
            self.old self.new (act_of statement.now)) }
        ensures listed { IfOk result (ActWalks shape.now (underway_in terms.old words.old memory.old self.old)
            (underway_in terms.new words.new memory.new self.new) (act_of statement.now)) }
    {
        match statement {
            Statement::Assign { target, value } => {
                self.assign(alloc, shape, *target, value, terms, words, memory)?;
                Ok(None)
            }
            Statement::Write { address, value } => {
                self.write(alloc, shape, address, value, terms, words, memory)?;
                Ok(None)
            }
            Statement::Put(value) => {
                self.put(alloc, shape, value, terms, words, memory)?;
                Ok(None)
            }
            Statement::Take(target) => {
                self.take(alloc, shape, *target, terms, words, memory)?;
                Ok(None)
            }
            Statement::If { condition, .. } => {
                let term = self.condition(alloc, shape, condition, terms, words, memory)?;
                Ok(Some(term))
            }
        }
    }

    /// Does statements from a position on, until none is left or an `if` asks for its condition.
    pub(crate) fn go_through(
        &mut self,
        alloc: Global,
        shape: &Shape,
        statements: &[Statement],
        from: usize,
        terms: &mut Written,
        words: &mut Words,
        memory: &mut SymMemory,
    ) -> Result<Reached, NoMemory>
        requires stands { Stands shape.now terms.old words.old memory.old self.old }
        requires right { are_right shape.now (acts statements.now) ≡ true }
        requires few_reads { length memory.old.reads + total Reads (dropped from (acts statements.now)) ≤ 2 ^ 32 }
        requires few_events { self.old.taken + total Events (dropped from (acts statements.now)) < 2 ^ 32 }
        ensures reaches { IfOk result
            (λ reached. Reaches shape.now terms.old terms.new words.old words.new memory.old memory.new
            self.old self.new (dropped from (acts statements.now)) (dropped reached.position (acts statements.now))
            reached.asked) }
        ensures listed { IfOk result (λ reached. Walks shape.now (underway_in terms.old words.old memory.old self.old)
            (underway_in terms.new words.new memory.new self.new) (dropped from (acts statements.now))
            (dropped reached.position (acts statements.now)) reached.asked) }
    {
        for position in from..statements.len() {
            let asked = self.act(alloc, shape, &statements[position], terms, words, memory)?;
            if let Some(term) = asked {
                return Ok(Reached {
                    position,
                    asked: Some(term),
                });
            }
        }
        Ok(Reached {
            position: statements.len(),
            asked: None,
        })
    }
}
