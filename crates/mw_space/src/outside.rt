// The environment that an assignment gives.
ghost use Rattle.std.specs.Prelude.{◌≡◌, ◌≢◌, ℕ, ◌<◌, ◌≤◌, ◌^◌, if◌then◌else◌, [], length, true, Some, IfOk, OnOk};
ghost use Rattle.mw_board.specs.declared.parts.BoardParts.{BoardParts};
ghost use Rattle.mw_cycle.specs.declared.series.Series.TheVariants.{Wait};
ghost use Rattle.mw_cycle.specs.Series.{series_of_kind, width_of};
ghost use Rattle.mw_cycle.specs.SteadySeries.{Series as SteadySeries, kind_of, width_of as steady_width_of};
ghost use Rattle.mw_cycle.specs.Trimmed.{IsTrimmed};
ghost use Rattle.mw_term.specs.declared.side.Side.{Side as SideOf};
ghost use Rattle.mw_term.specs.declared.kinds.WordKind.{WordKind};
ghost use Rattle.mw_term.specs.Assigned.{given_by};
ghost use Rattle.mw_term.specs.Values.{term_value};
ghost use Rattle.mw_term.specs.WordList.{is_of};
ghost use Rattle.mw_symmem.specs.Workspace.{IsWorkspace};
ghost use Rattle.mw_symboard.specs.Variables.{HaveVariables};
ghost use Rattle.mw_space.specs.Entries.{HasEntries, HasTaken, entry, is_outside};

use crate::space::Space;
use mw_base::NoMemory;
use mw_cycle::{Env, Series};
use mw_term::{Assignment, Side, Word, WordKind};
use std::alloc::Global;

/// The value with this number of a list becomes this one, which isn't 0. A list that ends before it is filled up with
/// zeros.
fn put(env: &mut Env, series: Series, number: u32, value: u32) -> Result<(), NoMemory>
    requires some { value ≢ 0 }
    requires width { value < 2 ^ width_of 32 series }
    ensures took { OnOk result
        ((side : SideOf) (kind : WordKind) → series_of_kind side kind ≡ Some (series, number)
        → HasTaken side env.old env.new kind value) }
    ensures wait { OnOk result (series ≢ Wait → env.new.wait ≡ env.old.wait) }
    ensures trimmed { OnOk result (IsTrimmed env.old → IsTrimmed env.new) }
{
    let at = number as usize;
    while env.length(series) <= at {
        env.push(series, 0)?;
    }
    env.set(series, at, value);
    Ok(())
}

/// The environment of the board of a side takes the value of a variable, where that is one of its own. A 0 is left out.
///
/// # Errors
///
/// Memory ran out.
pub fn take(side: Side, env: &mut Env, kind: WordKind, value: u32) -> Result<(), NoMemory>
    requires fresh { entry side env.old kind ≡ 0 }
    requires width { (series : SteadySeries) (n : ℕ) → kind ≡ kind_of side series n
        → value < 2 ^ steady_width_of 32 series }
    ensures took { OnOk result (HasTaken side env.old env.new kind value) }
    ensures wait { OnOk result (env.new.wait ≡ env.old.wait) }
    ensures trimmed { OnOk result (IsTrimmed env.old → IsTrimmed env.new) }
{
    if value == 0 {
        return Ok(());
    }
    match Series::of_kind(side, kind) {
        Some((series, number)) => put(env, series, number, value),
        None => Ok(()),
    }
}

/// The environment of the board of a side takes the value of a word, where that is a variable of its own.
fn take_word(
    alloc: Global,
    side: Side,
    space: &Space,
    word: Word,
    given: &Assignment,
    env: &mut Env,
) -> Result<(), NoMemory>
    requires there { word.term < length space.now.terms.ops }
    requires fresh { (kind : WordKind) → word.kind ≡ Some kind → entry side env.old kind ≡ 0 }
    requires width { (series : SteadySeries) (n : ℕ) → word.kind ≡ Some (kind_of side series n)
        → term_value space.now.terms (given_by given.now) word.term < 2 ^ steady_width_of 32 series }
    ensures took { OnOk result ((other : WordKind) → is_outside side other ≡ true → entry side env.new other
        ≡ (if is_of word.kind other then term_value space.now.terms (given_by given.now) word.term
        else entry side env.old other)) }
    ensures wait { OnOk result (env.new.wait ≡ env.old.wait) }
    ensures trimmed { OnOk result (IsTrimmed env.old → IsTrimmed env.new) }
{
    match word.kind {
        Some(kind) => {
            let value = space.terms.value(alloc, word.term, given)?;
            take(side, env, kind, value)
        }
        None => Ok(()),
    }
}

/// The environment of the board of a side, with the values that an assignment gives the variables of its lists, and 0
/// where there is no variable. It has no waits, and no list has a 0 at its end.
///
/// # Errors
///
/// Memory ran out.
pub fn environment_of(
    alloc: Global,
    side: Side,
    space: &Space,
    given: &Assignment,
) -> Result<Env, NoMemory>
    requires workspace { IsWorkspace space.now.terms space.now.words space.now.memory }
    requires variables { (board : BoardParts) × (cycles : ℕ) × (board.width ≤ 32)
        × HaveVariables side board space.now.terms space.now.words cycles }
    ensures entries { IfOk result (HasEntries side space.now.terms space.now.words (given_by given.now)) }
    ensures wait { IfOk result (λ env. env.wait ≡ []) }
    ensures trimmed { IfOk result (λ env. IsTrimmed env) }
{
    let mut env = Env::nothing(alloc);
    for word in space.words.as_slice() {
        take_word(alloc, side, space, *word, given, &mut env)?;
    }
    Ok(env)
}
