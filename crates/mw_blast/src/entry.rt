// The rows of an entry of the map.
ghost use Rattle.std.specs.Prelude.{◌≡◌, ◌+◌, ◌/◌, ◌^◌, ◌<◌, ◌≤◌, ℕ, List, length, map, IfOk, MatchResult};
ghost use Rattle.mw_term.specs.Functions.{Function, made};
ghost use Rattle.mw_term.specs.Rows.{choices, last_made};
ghost use Rattle.mw_dd.specs.Nodes.{IsDd};
ghost use Rattle.mw_dd.specs.Diagrams.{Keeps};
ghost use Rattle.mw_blast.specs.Bits.{StandsFor, AreThere, StandEach, AreFor};
ghost use Rattle.mw_blast.specs.Entries.{function_at, entry_row};
ghost use Rattle.mw_blast.specs.Rows.{IsRefused, IsRefusedAt};

use crate::fault::RowFault;
use crate::functions::{append, bits_of_each};
use crate::rows::operate;
use mw_dd::{Dd, DdFault, Diagrams};
use std::alloc::Global;

/// How many bits an entry has.
const ENTRY_BITS: u8 = 12;

/// Of each pair of neighbours, which the functions are, the second where the chosen bit holds, and else the first.
fn halved(
    dds: &mut Diagrams,
    alloc: Global,
    chosen: Dd,
    functions: &[Dd],
    budget: u32,
) -> Result<Vec<Dd>, DdFault>
    requires pairs { length functions.now / 2 + length functions.now / 2 ≡ length functions.now }
    requires chosen { IsDd dds.old chosen }
    requires there { AreThere dds.old functions.now }
    ensures there { IfOk result (λ v. AreThere dds.new v.items) }
    ensures count { IfOk result (λ v. length v.items ≡ length functions.now / 2) }
    ensures made { (I : Function) (fs : List Function) → StandsFor dds.old chosen I
        → AreFor dds.old (length fs) (function_at fs) functions.now
        → MatchResult result
        (λ v. AreFor dds.new (length (choices I fs)) (function_at (map made (choices I fs))) v.items)
        (IsRefused (choices I fs) budget) }
    ensures keeps { Keeps dds.old dds.new }
{
    let mut halves = Vec::new(alloc);
    for pair in 0..functions.len() / 2 {
        let (first, second) = (functions[2 * pair], functions[2 * pair + 1]);
        let half = operate(dds, alloc, chosen, second, first, budget)?;
        append(&mut halves, half)?;
    }
    Ok(halves)
}

/// A bit of the entry of a map at an index. The map has an entry for each value of the index.
fn entry_bit(
    dds: &mut Diagrams,
    alloc: Global,
    map: &[u16],
    index: &[Dd],
    place: u8,
    budget: u32,
) -> Result<Dd, DdFault>
    requires entries { length map.now ≡ 2 ^ length index.now }
    requires some { 1 ≤ length index.now }
    requires place { place < 32 }
    requires index { AreThere dds.old index.now }
    ensures there { IfOk result (IsDd dds.new) }
    ensures made { (F : ℕ → Function) → StandEach dds.old index.now F
        → MatchResult result (λ x. StandsFor dds.new x (last_made (entry_row F (length index.now) map.now place)))
        (IsRefused (entry_row F (length index.now) map.now place) budget) }
    ensures keeps { Keeps dds.old dds.new }
{
    let mut left = bits_of_each(dds, alloc, map, place)?;
    for chosen in index {
        left = halved(dds, alloc, *chosen, &left, budget)?;
    }
    Ok(left[0])
}

/// The bits of the entry of a map at an index, from the lowest. The map has an entry for each value of the index.
///
/// # Errors
///
/// - `Over`: an operation at this bit is over the budget.
/// - `NoMemory`: memory ran out.
pub(crate) fn entry(
    dds: &mut Diagrams,
    alloc: Global,
    map: &[u16],
    index: &[Dd],
    budget: u32,
) -> Result<Vec<Dd>, RowFault>
    requires entries { length map.now ≡ 2 ^ length index.now }
    requires some { 1 ≤ length index.now }
    requires index { AreThere dds.old index.now }
    ensures made { (F : ℕ → Function) → StandEach dds.old index.now F
        → MatchResult result
        (λ v. AreFor dds.new 12 (λ j. last_made (entry_row F (length index.now) map.now j)) v.items)
        (IsRefusedAt (entry_row F (length index.now) map.now) 12 budget) }
    ensures keeps { Keeps dds.old dds.new }
{
    let mut bits = Vec::new(alloc);
    for place in 0..ENTRY_BITS {
        match entry_bit(dds, alloc, map, index, place, budget) {
            Ok(bit) => append(&mut bits, bit)?,
            Err(fault) => return Err(RowFault::at(place, fault)),
        }
    }
    Ok(bits)
}
