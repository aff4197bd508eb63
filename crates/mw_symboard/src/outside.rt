// The variables of a cycle: its line and its noise.
ghost use Rattle.std.specs.Prelude.{◌≡◌, ℕ, ◌+◌, List, Option, Some, None, IfOk, OnOk};
ghost use Rattle.std.specs.Option.{option_or};
ghost use Rattle.mw_board.specs.declared.parts.BoardParts.{BoardParts};
ghost use Rattle.mw_cycle.specs.ReadingWords.{line_words};
ghost use Rattle.mw_cycle.specs.SteadySeries.{Line, Noise, kind_of};
ghost use Rattle.mw_term.specs.MemoryRead.{Held};
ghost use Rattle.mw_term.specs.WordList.{ended, list_of, term_of, with_variable};
ghost use Rattle.mw_symmem.specs.Listed.{Lists};
ghost use Rattle.mw_symmem.specs.Memory.{Memory, IsOfWidth};
ghost use Rattle.mw_symmem.specs.Workspace.{GoesOn, IsWorkspace};
ghost use Rattle.mw_symboard.specs.Kinds.{HaveWidths, IsCycleKind};
ghost use Rattle.mw_symboard.specs.Turns.{AreNoLater};

use mw_base::NoMemory;
use mw_symmem::{Side, Words};
use mw_term::{Term, WordKind, Written};
use std::alloc::Global;

/// The line and the noise of a cycle.
#[derive(Clone, Copy)]
pub(crate) struct Variables {
    pub(crate) line: Term,
    pub(crate) noise: Term,
}

/// The kind of the line of a cycle of the board of a side.
fn line_kind(side: Side, cycle: u32) -> WordKind
    ensures { result ≡ kind_of side Line cycle }
{
    match side {
        Side::Board => WordKind::Line(cycle),
        Side::Machine => WordKind::BesideLine(cycle),
    }
}

/// The kind of its noise.
fn noise_kind(side: Side, cycle: u32) -> WordKind
    ensures { result ≡ kind_of side Noise cycle }
{
    match side {
        Side::Board => WordKind::Noise(cycle),
        Side::Machine => WordKind::BesideNoise(cycle),
    }
}

/// Makes the variable of the line of a cycle.
fn line_variable(
    alloc: Global,
    side: Side,
    cycle: u32,
    terms: &mut Written,
    words: &mut Words,
) -> Result<Term, NoMemory>
    requires none { AreNoLater side cycle words.old }
    ensures is { IfOk result (λ term. term_of words.new (kind_of side Line cycle) ≡ Some term) }
    ensures wide { IfOk result (IsOfWidth terms.new 1) }
    ensures listed { IfOk result
        (Lists (with_variable (kind_of side Line cycle) 1) terms.old terms.new words.old words.new) }
    ensures goes { OnOk result ((taken : ℕ) (m : Memory) → IsWorkspace terms.old words.old m
        → GoesOn (IsCycleKind side cycle taken None) terms.old terms.new words.old words.new m m) }
    ensures widths { OnOk result ((board : BoardParts) → HaveWidths side board terms.old words.old
        → HaveWidths side board terms.new words.new) }
    ensures noise { OnOk result (term_of words.new (kind_of side Noise cycle) ≡ None) }
    ensures none { OnOk result (AreNoLater side (cycle + 1) words.new) }
{
    let term = words.fresh(alloc, terms, line_kind(side, cycle), 1)?;
    Ok(term)
}

/// The term of the line of a cycle: this one, where it is there already, or a variable that is made.
fn line(
    alloc: Global,
    side: Side,
    cycle: u32,
    there: Option<Term>,
    terms: &mut Written,
    words: &mut Words,
) -> Result<Term, NoMemory>
    requires none { AreNoLater side cycle words.old }
    requires wide { (term : ℕ) → there ≡ Some term → IsOfWidth terms.old 1 term }
    ensures is { IfOk result (λ term. option_or there (term_of words.new (kind_of side Line cycle)) ≡ Some term) }
    ensures wide { IfOk result (IsOfWidth terms.new 1) }
    ensures listed { IfOk result (Lists (line_words side cycle there) terms.old terms.new words.old words.new) }
    ensures goes { OnOk result ((taken : ℕ) (m : Memory) → IsWorkspace terms.old words.old m
        → GoesOn (IsCycleKind side cycle taken there) terms.old terms.new words.old words.new m m) }
    ensures widths { OnOk result ((board : BoardParts) → HaveWidths side board terms.old words.old
        → HaveWidths side board terms.new words.new) }
    ensures noise { OnOk result (term_of words.new (kind_of side Noise cycle) ≡ None) }
    ensures none { OnOk result (AreNoLater side (cycle + 1) words.new) }
{
    match there {
        Some(term) => Ok(term),
        None => {
            let term = line_variable(alloc, side, cycle, terms, words)?;
            Ok(term)
        }
    }
}

/// Makes the variable of the noise of a cycle.
fn noise(
    alloc: Global,
    side: Side,
    cycle: u32,
    terms: &mut Written,
    words: &mut Words,
) -> Result<Term, NoMemory>
    requires fresh { term_of words.old (kind_of side Noise cycle) ≡ None }
    requires none { AreNoLater side (cycle + 1) words.old }
    ensures is { IfOk result (λ term. term_of words.new (kind_of side Noise cycle) ≡ Some term) }
    ensures wide { IfOk result (IsOfWidth terms.new 14) }
    ensures line { OnOk result (term_of words.new (kind_of side Line cycle) ≡ term_of words.old (kind_of side Line cycle)) }
    ensures listed { IfOk result
        (Lists (with_variable (kind_of side Noise cycle) 14) terms.old terms.new words.old words.new) }
    ensures goes { OnOk result ((taken : ℕ) (before : Option ℕ) (m : Memory) → IsWorkspace terms.old words.old m
        → GoesOn (IsCycleKind side cycle taken before) terms.old terms.new words.old words.new m m) }
    ensures widths { OnOk result ((board : BoardParts) → HaveWidths side board terms.old words.old
        → HaveWidths side board terms.new words.new) }
    ensures none { OnOk result (AreNoLater side (cycle + 1) words.new) }
    ensures stays { OnOk result ((width term : ℕ) → IsOfWidth terms.old width term → IsOfWidth terms.new width term) }
{
    let term = words.fresh(alloc, terms, noise_kind(side, cycle), 14)?;
    Ok(term)
}

/// The line and the noise of a cycle: the line may be there already, and else their variables are made.
pub(crate) fn line_and_noise(
    alloc: Global,
    side: Side,
    cycle: u32,
    there: Option<Term>,
    terms: &mut Written,
    words: &mut Words,
) -> Result<Variables, NoMemory>
    requires none { AreNoLater side cycle words.old }
    requires wide { (term : ℕ) → there ≡ Some term → IsOfWidth terms.old 1 term }
    ensures line { IfOk result (λ v. option_or there (term_of words.new (kind_of side Line cycle)) ≡ Some v.line) }
    ensures noise { IfOk result (λ v. term_of words.new (kind_of side Noise cycle) ≡ Some v.noise) }
    ensures line_wide { IfOk result (λ v. IsOfWidth terms.new 1 v.line) }
    ensures noise_wide { IfOk result (λ v. IsOfWidth terms.new 14 v.noise) }
    ensures listed { IfOk result (λ v. (reads : List Held)
        → (let line = line_words side cycle there (list_of terms.old.ops words.old reads) in
        (line.term ≡ v.line) × (with_variable (kind_of side Noise cycle) 14 line.list
        ≡ ended v.noise (list_of terms.new.ops words.new reads)))) }
    ensures goes { OnOk result ((taken : ℕ) (m : Memory) → IsWorkspace terms.old words.old m
        → GoesOn (IsCycleKind side cycle taken there) terms.old terms.new words.old words.new m m) }
    ensures widths { OnOk result ((board : BoardParts) → HaveWidths side board terms.old words.old
        → HaveWidths side board terms.new words.new) }
    ensures none { OnOk result (AreNoLater side (cycle + 1) words.new) }
{
    let line = line(alloc, side, cycle, there, terms, words)?;
    let noise = noise(alloc, side, cycle, terms, words)?;
    Ok(Variables { line, noise })
}
