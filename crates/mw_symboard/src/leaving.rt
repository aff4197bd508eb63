// What is known of a cycle's end once pass and the counter are decided.
ghost use Rattle.std.specs.Prelude.{◌≡◌, List, ◌+◌, ◌*◌, ◌<◌, ◌≤◌, ◌^◌, length, IfOk, OnOk};
ghost use Rattle.mw_base.specs.Words.{num};
ghost use Rattle.mw_board.specs.Depth.{depth_of};
ghost use Rattle.mw_cycle.specs.Microword.{IsMicroword};
ghost use Rattle.mw_symmem.specs.Memory.{IsOfWidth};
ghost use Rattle.mw_symboard.specs.Cycle.{IsCounter, IsLeaving, bits_before, effect_by, number_in, value_in};
ghost use Rattle.mw_symboard.specs.Growth.{Grew};
ghost use Rattle.mw_symboard.specs.Parts.{AreParts};
ghost use Rattle.mw_cycle.specs.LeavingWords.{counter_words, leaving_words};
ghost use Rattle.mw_term.specs.MemoryRead.{Held};
ghost use Rattle.mw_term.specs.WordList.{list_of};
ghost use Rattle.mw_symmem.specs.Listed.{Lists};
ghost use Rattle.mw_symboard.specs.Listed.{leaving_of};

use crate::address::{direct, less_one, next};
use crate::path::Path;
use crate::progress::Progress;
use mw_base::NoMemory;
use mw_board::Board;
use mw_cycle::Microword;
use mw_seq::{CounterMove, Effect, Instruction};
use mw_symmem::Words;
use mw_term::{Term, Written};
use std::alloc::Global;

/// What is known of a cycle's end once pass and the counter are decided.
#[derive(Clone, Copy)]
pub(crate) struct Leaving {
    /// The next address.
    pub(crate) next: Term,
    /// The register/counter after the edge.
    pub(crate) r: Term,
}

/// How many of a microword's decided bits stand before those of the next address.
pub(crate) fn bits_before(microword: &Microword) -> usize
    ensures exact { result ≡ bits_before microword.now }
    ensures few { result ≤ 2 }
{
    usize::from(microword.decides_pass()) + usize::from(microword.decides_counter())
}

/// The value of the decided bit of a place.
fn value_in(decided: &Path, place: usize) -> bool
    requires { place < length decided.now }
    ensures { result ≡ value_in decided.now place }
{
    decided.bit(place).value
}

/// The entry of the sequencer's table, by the bits that were decided. Where pass isn't decided it is 1, and where the
/// counter isn't it is not 0.
pub(crate) fn effect(microword: &Microword, decided: &Path) -> Effect
    requires microword { microword.now.sequencer < 16 }
    requires known { bits_before microword.now ≤ length decided.now }
    ensures { result ≡ effect_by microword.now decided.now }
{
    let tested = microword.decides_pass();
    let pass = if tested { value_in(decided, 0) } else { true };
    let zero = if microword.decides_counter() {
        value_in(decided, usize::from(tested))
    } else {
        false
    };
    Instruction::of(microword.sequencer).effect(pass, zero)
}

/// A number with one bit more behind its last.
fn with_bit(number: u16, bit: bool) -> u16
    requires { number < 2 ^ 15 }
    ensures { result ≡ number * 2 + num bit }
{
    number * 2 + u16::from(bit)
}

/// The next address, from the twelve decided bits behind the others.
pub(crate) fn address(decided: &Path, before: usize) -> u16
    requires few { before ≤ 2 }
    requires known { before + 12 ≤ length decided.now }
    ensures exact { result ≡ number_in decided.now before 12 }
    ensures below { result < 2 ^ 12 }
{
    let mut address = 0;
    for place in 0..12 {
        address = with_bit(address, value_in(decided, before + place));
    }
    address
}

/// The register/counter after the edge.
fn counter(
    alloc: Global,
    rld: bool,
    counter: CounterMove,
    old: Term,
    direct: Term,
    terms: &mut Written,
    words: &mut Words,
) -> Result<Term, NoMemory>
    requires old { IsOfWidth terms.old 12 old }
    requires direct { IsOfWidth terms.old 12 direct }
    ensures is { IfOk result (IsCounter rld counter terms.new old direct) }
    ensures wide { IfOk result (IsOfWidth terms.new 12) }
    ensures listed { IfOk result
        (Lists (counter_words rld counter old direct) terms.old terms.new words.old words.new) }
    ensures grew { OnOk result (Grew terms.old terms.new words.old words.new) }
{
    if rld {
        return Ok(direct);
    }
    match counter {
        CounterMove::Same => Ok(old),
        CounterMove::Loaded => Ok(direct),
        CounterMove::Counted => less_one(alloc, old, terms, words),
    }
}

impl Leaving {
    /// What is known of the end of the cycle from a place, of which pass and the counter are decided where they have to
    /// be. R-1 is made before the next address: only the map makes words of its own for the address at D, and JMAP
    /// doesn't count.
    pub(crate) fn new(
        alloc: Global,
        board: &Board,
        microword: &Microword,
        place: &Progress,
        noise: Term,
        terms: &mut Written,
        words: &mut Words,
    ) -> Result<Leaving, NoMemory>
        requires microword { IsMicroword board.now microword.now }
        requires known { bits_before microword.now ≤ length place.now.decided }
        requires map { terms.old.map ≡ board.now.map_entries }
        requires parts { AreParts board.now terms.old place.now.parts }
        requires sp { place.now.sp ≤ depth_of board.now }
        requires noise { IsOfWidth terms.old 14 noise }
        ensures is { IfOk result (IsLeaving board.now microword.now terms.new place.now noise) }
        ensures listed { IfOk result
            (λ leaving. (reads : List Held) → leaving_words board.now microword.now place.now.parts place.now.sp noise
            (effect_by microword.now place.now.decided) (list_of terms.old.ops words.old reads)
            ≡ record { list = list_of terms.new.ops words.new reads; leaving = leaving_of leaving }) }
        ensures grew { OnOk result (Grew terms.old terms.new words.old words.new) }
    {
        let parts = &place.parts;
        let effect = effect(microword, &place.decided);
        let direct = direct(alloc, board, microword, parts.ir, terms, words)?;
        let r = counter(
            alloc,
            microword.rld,
            effect.counter,
            parts.r,
            direct,
            terms,
            words,
        )?;
        let next = next(
            alloc,
            effect.next,
            parts,
            place.sp,
            noise,
            direct,
            board,
            terms,
            words,
        )?;
        Ok(Leaving { next, r })
    }
}
