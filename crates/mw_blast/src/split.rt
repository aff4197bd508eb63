// A path in two.
ghost use Rattle.std.specs.Prelude.{[], ◌∷◌, MatchResult, OnOk};
ghost use Rattle.mw_term.specs.Cofactors.{HasAtMostCofactors};
ghost use Rattle.mw_term.specs.Functions.{Function, made};
ghost use Rattle.mw_term.specs.PathWords.{path_zero, path_one};
ghost use Rattle.mw_dd.specs.Nodes.{IsDd};
ghost use Rattle.mw_dd.specs.Diagrams.{Keeps};
ghost use Rattle.mw_blast.specs.Bits.{StandsFor};
ghost use Rattle.mw_blast.specs.Rows.{IsRefused};
ghost use Rattle.mw_blast.specs.Splits.{IsSplit};

use crate::rows::operate;
use mw_dd::{Dd, DdFault, Diagrams};
use std::alloc::Global;

/// A path of a run, split by a bit.
#[derive(Clone, Copy, Debug, PartialEq, Eq)]
pub struct Split {
    /// The path where the bit is 0.
    pub zero: Dd,
    /// The path where the bit is 1.
    pub one: Dd,
}

/// The path where a bit is 0.
fn zero_path(
    dds: &mut Diagrams,
    alloc: Global,
    path: Dd,
    bit: Dd,
    budget: u32,
) -> Result<Dd, DdFault>
    requires path { IsDd dds.old path }
    requires bit { IsDd dds.old bit }
    ensures made { (P B : Function) → StandsFor dds.old path P → StandsFor dds.old bit B
        → MatchResult result (λ x. StandsFor dds.new x (made (path_zero P B))) (IsRefused (path_zero P B ∷ []) budget) }
    ensures within { (P B : Function) → StandsFor dds.old path P → StandsFor dds.old bit B
        → OnOk result (HasAtMostCofactors (path_zero P B) budget) }
    ensures keeps { Keeps dds.old dds.new }
{
    let never = dds.constant(false);
    operate(dds, alloc, bit, never, path, budget)
}

/// The path where a bit is 1.
fn one_path(
    dds: &mut Diagrams,
    alloc: Global,
    path: Dd,
    bit: Dd,
    budget: u32,
) -> Result<Dd, DdFault>
    requires path { IsDd dds.old path }
    requires bit { IsDd dds.old bit }
    ensures made { (P B : Function) → StandsFor dds.old path P → StandsFor dds.old bit B
        → MatchResult result (λ x. StandsFor dds.new x (made (path_one P B))) (IsRefused (path_one P B ∷ []) budget) }
    ensures within { (P B : Function) → StandsFor dds.old path P → StandsFor dds.old bit B
        → OnOk result (HasAtMostCofactors (path_one P B) budget) }
    ensures keeps { Keeps dds.old dds.new }
{
    let never = dds.constant(false);
    operate(dds, alloc, bit, path, never, budget)
}

/// A path in two: where a bit is 0, and where it is 1.
pub(crate) fn divide(
    dds: &mut Diagrams,
    alloc: Global,
    path: Dd,
    bit: Dd,
    budget: u32,
) -> Result<Split, DdFault>
    requires path { IsDd dds.old path }
    requires bit { IsDd dds.old bit }
    ensures made { (P B : Function) → StandsFor dds.old path P → StandsFor dds.old bit B
        → MatchResult result (IsSplit dds.new P B budget) (IsRefused (path_zero P B ∷ path_one P B ∷ []) budget) }
    ensures keeps { Keeps dds.old dds.new }
{
    let zero = zero_path(dds, alloc, path, bit, budget)?;
    let one = one_path(dds, alloc, path, bit, budget)?;
    Ok(Split { zero, one })
}
