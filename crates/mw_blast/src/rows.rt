// The rows of the term table at one bit.
ghost use Rattle.std.specs.Prelude.{◌≡◌, [], ◌∷◌, IfOk, MatchResult, OnOk};
ghost use Rattle.mw_term.specs.Cofactors.{HasAtMostCofactors};
ghost use Rattle.mw_term.specs.Functions.{Function, never, always, made, ite};
ghost use Rattle.mw_term.specs.Rows as table;
ghost use Rattle.mw_dd.specs.Nodes.{IsDd};
ghost use Rattle.mw_dd.specs.Diagrams.{Keeps};
ghost use Rattle.mw_blast.specs.Bits.{StandsFor};
ghost use Rattle.mw_blast.specs.Rows.{row_operations, row_bit, IsStep, IsRefused};

use mw_dd::{Dd, DdFault, Diagrams};
use std::alloc::Global;

/// A row that is made bit by bit, from a bit of each operand and what is carried into it.
#[derive(Clone, Copy)]
pub(crate) enum Row {
    /// The complement of the first operand.
    Not,
    /// The bits of both.
    And,
    /// The bits of one.
    Or,
    /// The bits in which they differ.
    Xor,
    /// The sum, with the carry into the bit.
    Sum,
    /// The carry out of the bit, with that into it.
    Carry,
    /// Whether they are the same up to the bit, with whether they are before it.
    Equal,
    /// Whether the first is less up to the bit, with whether it is before it.
    Less,
    /// The first where what is carried holds, and else the second.
    Choice,
}

/// What a row makes at one bit.
#[derive(Clone, Copy)]
pub(crate) struct Step {
    /// What the row's bit is.
    pub bit: Dd,
    /// What is carried into the next bit.
    pub carried: Dd,
}

/// What a row makes that carries on what was carried into the bit.
fn alone(carried: Dd, bit: Result<Dd, DdFault>) -> Result<Step, DdFault>
    ensures { MatchResult bit (λ x. result ≡ Ok (record { bit = x; carried = carried })) (λ e. result ≡ Err e) }
{
    bit.map(|bit| Step { bit, carried })
}

/// What a row makes that carries on its bit.
fn along(bit: Result<Dd, DdFault>) -> Result<Step, DdFault>
    ensures { MatchResult bit (λ x. result ≡ Ok (record { bit = x; carried = x })) (λ e. result ≡ Err e) }
{
    bit.map(|bit| Step { bit, carried: bit })
}

/// The function that is the second where the first holds, and else the third.
pub(crate) fn operate(
    dds: &mut Diagrams,
    alloc: Global,
    f: Dd,
    g: Dd,
    h: Dd,
    budget: u32,
) -> Result<Dd, DdFault>
    requires f { IsDd dds.old f }
    requires g { IsDd dds.old g }
    requires h { IsDd dds.old h }
    ensures there { IfOk result (IsDd dds.new) }
    ensures made { (F G H : Function) → StandsFor dds.old f F → StandsFor dds.old g G → StandsFor dds.old h H
        → MatchResult result (λ x. StandsFor dds.new x (made (ite F G H))) (IsRefused (ite F G H ∷ []) budget) }
    ensures within { (F G H : Function) → StandsFor dds.old f F → StandsFor dds.old g G → StandsFor dds.old h H
        → OnOk result (HasAtMostCofactors (ite F G H) budget) }
    ensures keeps { Keeps dds.old dds.new }
{
    dds.ite(alloc, f, g, h, budget)
}

/// Where a bit is 0.
fn inverse(dds: &mut Diagrams, alloc: Global, b: Dd, budget: u32) -> Result<Dd, DdFault>
    requires { IsDd dds.old b }
    ensures there { IfOk result (IsDd dds.new) }
    ensures made { (B : Function) → StandsFor dds.old b B
        → MatchResult result (λ x. StandsFor dds.new x (made (table.inverse B)))
        (IsRefused (table.inverse B ∷ []) budget) }
    ensures keeps { Keeps dds.old dds.new }
{
    let (never, always) = (dds.constant(false), dds.constant(true));
    operate(dds, alloc, b, never, always, budget)
}

/// Where two bits differ.
pub(crate) fn difference(
    dds: &mut Diagrams,
    alloc: Global,
    a: Dd,
    b: Dd,
    budget: u32,
) -> Result<Dd, DdFault>
    requires a { IsDd dds.old a }
    requires b { IsDd dds.old b }
    ensures there { IfOk result (IsDd dds.new) }
    ensures made { (A B : Function) → StandsFor dds.old a A → StandsFor dds.old b B
        → MatchResult result (λ x. StandsFor dds.new x (made (table.difference A B)))
        (IsRefused (table.xor_row A B) budget) }
    ensures keeps { Keeps dds.old dds.new }
{
    let inverse = inverse(dds, alloc, b, budget)?;
    operate(dds, alloc, a, inverse, b, budget)
}

/// Where two bits are the same.
fn sameness(dds: &mut Diagrams, alloc: Global, a: Dd, b: Dd, budget: u32) -> Result<Dd, DdFault>
    requires a { IsDd dds.old a }
    requires b { IsDd dds.old b }
    ensures there { IfOk result (IsDd dds.new) }
    ensures made { (A B : Function) → StandsFor dds.old a A → StandsFor dds.old b B
        → MatchResult result (λ x. StandsFor dds.new x (made (table.sameness A B)))
        (IsRefused (table.inverse B ∷ table.sameness A B ∷ []) budget) }
    ensures keeps { Keeps dds.old dds.new }
{
    let inverse = inverse(dds, alloc, b, budget)?;
    operate(dds, alloc, a, b, inverse, budget)
}

/// The carry out of a bit, with that into it.
fn carry(
    dds: &mut Diagrams,
    alloc: Global,
    a: Dd,
    b: Dd,
    into: Dd,
    budget: u32,
) -> Result<Dd, DdFault>
    requires a { IsDd dds.old a }
    requires b { IsDd dds.old b }
    requires into { IsDd dds.old into }
    ensures there { IfOk result (IsDd dds.new) }
    ensures made { (A B K : Function) → StandsFor dds.old a A → StandsFor dds.old b B → StandsFor dds.old into K
        → MatchResult result (λ x. StandsFor dds.new x (row_bit Row.Carry A B K))
        (IsRefused (row_operations Row.Carry A B K) budget) }
    ensures keeps { Keeps dds.old dds.new }
{
    let differs = difference(dds, alloc, a, b, budget)?;
    operate(dds, alloc, differs, into, a, budget)
}

/// Whether words are the same up to a bit, with whether they are before it.
fn equal(
    dds: &mut Diagrams,
    alloc: Global,
    a: Dd,
    b: Dd,
    before: Dd,
    budget: u32,
) -> Result<Dd, DdFault>
    requires a { IsDd dds.old a }
    requires b { IsDd dds.old b }
    requires before { IsDd dds.old before }
    ensures there { IfOk result (IsDd dds.new) }
    ensures made { (A B K : Function) → StandsFor dds.old a A → StandsFor dds.old b B → StandsFor dds.old before K
        → MatchResult result (λ x. StandsFor dds.new x (row_bit Row.Equal A B K))
        (IsRefused (row_operations Row.Equal A B K) budget) }
    ensures keeps { Keeps dds.old dds.new }
{
    let same = sameness(dds, alloc, a, b, budget)?;
    let never = dds.constant(false);
    operate(dds, alloc, same, before, never, budget)
}

/// Whether the first of two words is less up to a bit, with whether it is before it.
fn less(
    dds: &mut Diagrams,
    alloc: Global,
    a: Dd,
    b: Dd,
    before: Dd,
    budget: u32,
) -> Result<Dd, DdFault>
    requires a { IsDd dds.old a }
    requires b { IsDd dds.old b }
    requires before { IsDd dds.old before }
    ensures there { IfOk result (IsDd dds.new) }
    ensures made { (A B K : Function) → StandsFor dds.old a A → StandsFor dds.old b B → StandsFor dds.old before K
        → MatchResult result (λ x. StandsFor dds.new x (row_bit Row.Less A B K))
        (IsRefused (row_operations Row.Less A B K) budget) }
    ensures keeps { Keeps dds.old dds.new }
{
    let differs = difference(dds, alloc, a, b, budget)?;
    operate(dds, alloc, differs, b, before, budget)
}

/// A bit of a sum and the carry out of it, with the carry into it.
fn sum(
    dds: &mut Diagrams,
    alloc: Global,
    a: Dd,
    b: Dd,
    into: Dd,
    budget: u32,
) -> Result<Step, DdFault>
    requires a { IsDd dds.old a }
    requires b { IsDd dds.old b }
    requires into { IsDd dds.old into }
    ensures bit { IfOk result (λ s. IsDd dds.new s.bit) }
    ensures carried { IfOk result (λ s. IsDd dds.new s.carried) }
    ensures made { (A B K : Function) → StandsFor dds.old a A → StandsFor dds.old b B → StandsFor dds.old into K
        → MatchResult result (IsStep dds.new Row.Sum A B K) (IsRefused (row_operations Row.Sum A B K) budget) }
    ensures keeps { Keeps dds.old dds.new }
{
    let differs = difference(dds, alloc, a, b, budget)?;
    let inverse = inverse(dds, alloc, into, budget)?;
    let bit = operate(dds, alloc, differs, inverse, into, budget)?;
    let carried = operate(dds, alloc, differs, into, a, budget)?;
    Ok(Step { bit, carried })
}

impl Row {
    /// What it makes at a bit.
    pub(crate) fn step(
        self,
        dds: &mut Diagrams,
        alloc: Global,
        a: Dd,
        b: Dd,
        carried: Dd,
        budget: u32,
    ) -> Result<Step, DdFault>
        requires a { IsDd dds.old a }
        requires b { IsDd dds.old b }
        requires carried { IsDd dds.old carried }
        ensures bit { IfOk result (λ s. IsDd dds.new s.bit) }
        ensures carried { IfOk result (λ s. IsDd dds.new s.carried) }
        ensures made { (A B K : Function) → StandsFor dds.old a A → StandsFor dds.old b B → StandsFor dds.old carried K
            → MatchResult result (IsStep dds.new self A B K) (IsRefused (row_operations self A B K) budget) }
        ensures keeps { Keeps dds.old dds.new }
    {
        match self {
            Row::Not => alone(carried, inverse(dds, alloc, a, budget)),
            Row::And => {
                let never = dds.constant(false);
                alone(carried, operate(dds, alloc, a, b, never, budget))
            }
            Row::Or => {
                let always = dds.constant(true);
                alone(carried, operate(dds, alloc, a, always, b, budget))
            }
            Row::Xor => alone(carried, difference(dds, alloc, a, b, budget)),
            Row::Sum => sum(dds, alloc, a, b, carried, budget),
            Row::Carry => along(carry(dds, alloc, a, b, carried, budget)),
            Row::Equal => along(equal(dds, alloc, a, b, carried, budget)),
            Row::Less => along(less(dds, alloc, a, b, carried, budget)),
            Row::Choice => alone(carried, operate(dds, alloc, carried, a, b, budget)),
        }
    }
}
