// How a step goes on from where it stands.
ghost use Rattle.std.specs.Prelude.{◌≡◌, ◌+◌, ◌<◌, ◌≤◌, ◌^◌, true, length, take, drop, IfOk, OnOk};
ghost use Rattle.mw_macro.specs.declared.counts.Counted.TheVariants.{Reads, Events};
ghost use Rattle.mw_macro.specs.Counts.{total};
ghost use Rattle.mw_macro.specs.Right.{are_right};
ghost use Rattle.mw_macro.specs.Statements.{acts};
ghost use Rattle.mw_symmach.specs.Places.{left_of, Reaches, StopsAt};
ghost use Rattle.mw_symmach.specs.Steps.{Stands};
ghost use Rattle.mw_symmach.specs.Walks.{Walks, underway_in};

use crate::level::Level;
use crate::parts::{Parts, Reached};
use mw_base::NoMemory;
use mw_expr::Shape;
use mw_macro::Statement;
use mw_symmem::{SymMemory, Words};
use mw_term::Written;
use std::alloc::Global;

/// Goes on in statements, from a position within the levels from one on, until none of them is left or an `if` asks for
/// its condition.
pub(crate) fn go_on(
    alloc: Global,
    shape: &Shape,
    statements: &[Statement],
    level: usize,
    position: usize,
    parts: &mut Parts,
    levels: &mut Vec<Level>,
    terms: &mut Written,
    words: &mut Words,
    memory: &mut SymMemory,
) -> Result<Reached, NoMemory>
    requires stands { Stands shape.now terms.old words.old memory.old parts.old }
    requires right { are_right shape.now (acts statements.now) ≡ true }
    requires few_reads { length memory.old.reads
        + total Reads (left_of (acts statements.now) (drop level levels.old.items) position) ≤ 2 ^ 32 }
    requires few_events { parts.old.taken
        + total Events (left_of (acts statements.now) (drop level levels.old.items) position) < 2 ^ 32 }
    ensures reaches { IfOk result (λ reached. Reaches shape.now terms.old terms.new words.old words.new memory.old
        memory.new parts.old parts.new (left_of (acts statements.now) (drop level levels.old.items) position)
        (left_of (acts statements.now) (drop level levels.new.items) reached.position) reached.asked) }
    ensures listed { IfOk result (λ reached. Walks shape.now (underway_in terms.old words.old memory.old parts.old)
        (underway_in terms.new words.new memory.new parts.new)
        (left_of (acts statements.now) (drop level levels.old.items) position)
        (left_of (acts statements.now) (drop level levels.new.items) reached.position) reached.asked) }
    ensures stops { IfOk result
        (λ reached. StopsAt (acts statements.now) (drop level levels.new.items) reached.position reached.asked) }
    ensures front { OnOk result (take level levels.new.items ≡ take level levels.old.items) }
{
    if level >= levels.len() {
        let reached = parts.go_through(alloc, shape, statements, position, terms, words, memory)?;
        return Ok(reached);
    }
    let within = levels[level];
    let list = within.list(statements);
    let inner = go_on(
        alloc,
        shape,
        list,
        level + 1,
        position,
        parts,
        levels,
        terms,
        words,
        memory,
    )?;
    if let Some(term) = inner.asked {
        return Ok(Reached {
            position: inner.position,
            asked: Some(term),
        });
    }
    levels.truncate(level);
    let from = within.position as usize + 1;
    let reached = parts.go_through(alloc, shape, statements, from, terms, words, memory)?;
    Ok(reached)
}
