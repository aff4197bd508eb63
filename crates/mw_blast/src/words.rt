// The rows of the term table over all bits of two words.
ghost use Rattle.std.specs.Prelude.{◌≡◌, ◌≤◌, ℕ, [], ◌∷◌, ◌++◌, length, IfOk, MatchResult, OnOk};
ghost use Rattle.mw_term.specs.Functions.{Function};
ghost use Rattle.mw_dd.specs.Nodes.{IsDd};
ghost use Rattle.mw_dd.specs.Diagrams.{Keeps};
ghost use Rattle.mw_blast.specs.Bits.{StandsFor, AreThere, StandEach, AreFor};
ghost use Rattle.mw_blast.specs.Rows.{bit_at, operations_at, IsRefusedAt};

use crate::fault::RowFault;
use crate::functions::append;
use crate::rows::{Row, Step};
use mw_base::NoMemory;
use mw_dd::{Dd, Diagrams};
use std::alloc::Global;

/// Puts the bit of a step behind others, and gives what it carries on.
fn push_step(bits: &mut Vec<Dd>, step: Step) -> Result<Dd, NoMemory>
    ensures bits { OnOk result (bits.new.items ≡ bits.old.items ++ step.bit ∷ []) }
    ensures carried { IfOk result (λ carried. carried ≡ step.carried) }
{
    append(bits, step.bit)?;
    Ok(step.carried)
}

/// What a row makes at each bit of two words of one width, of at most 32 bits, from the lowest, and what is carried
/// into that one.
///
/// # Errors
///
/// - `Over`: an operation of the row at this bit is over the budget.
/// - `NoMemory`: memory ran out.
pub(crate) fn word(
    dds: &mut Diagrams,
    alloc: Global,
    row: Row,
    a: &[Dd],
    b: &[Dd],
    first: Dd,
    budget: u32,
) -> Result<Vec<Dd>, RowFault>
    requires width { length a.now ≡ length b.now }
    requires most { length a.now ≤ 32 }
    requires a { AreThere dds.old a.now }
    requires b { AreThere dds.old b.now }
    requires first { IsDd dds.old first }
    ensures count { IfOk result (λ v. length v.items ≡ length a.now) }
    ensures there { IfOk result (λ v. AreThere dds.new v.items) }
    ensures made { (A B : ℕ → Function) (K : Function) → StandEach dds.old a.now A → StandEach dds.old b.now B
        → StandsFor dds.old first K → MatchResult result (λ v. AreFor dds.new (length a.now) (bit_at row A B K) v.items)
        (IsRefusedAt (operations_at row A B K) (length a.now) budget) }
    ensures keeps { Keeps dds.old dds.new }
{
    let mut bits = Vec::new(alloc);
    let mut carried = first;
    for bit in 0..a.len() {
        let step = match row.step(dds, alloc, a[bit], b[bit], carried, budget) {
            Ok(step) => step,
            Err(fault) => return Err(RowFault::at(bit as u8, fault)),
        };
        carried = push_step(&mut bits, step)?;
    }
    Ok(bits)
}
