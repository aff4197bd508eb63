// What the parts of a board take at the edge.
ghost use Rattle.std.specs.Prelude.{◌≡◌, List, [], ℕ, ◌<◌, ◌≤◌, length, slice_index, IfOk, IfSome, OnOk};
ghost use Rattle.mw_alu.specs.Instruction.{destination_of};
ghost use Rattle.mw_board.specs.declared.bit.Load.TheVariants as loads;
ghost use Rattle.mw_board.specs.Valid.{IsBit, IsLoad};
ghost use Rattle.mw_cycle.specs.Microword.{IsMicroword};
ghost use Rattle.mw_symmem.specs.Memory.{IsOfWidth};
ghost use Rattle.mw_symboard.specs.Bits.{AreBits, AreSources};
ghost use Rattle.mw_symboard.specs.Growth.{Grew};
ghost use Rattle.mw_symboard.specs.Made.{AreLoaded, IsLoaded, IsPart, IsShiftedDown, IsShiftedUp, IsWrittenB};
ghost use Rattle.mw_symboard.specs.Made.{IsWrittenQ, sources_of};
ghost use Rattle.mw_cycle.specs.EdgeWords.{pushed_word, sp_after, flips_words, linked_down_words, linked_up_words};
ghost use Rattle.mw_cycle.specs.EdgeWords.{loaded_words, q_words, register_words, turned_by_carry_words};
ghost use Rattle.mw_symboard.specs.Parts.{AreParts};
ghost use Rattle.mw_term.specs.MemoryRead.{Held};
ghost use Rattle.mw_term.specs.WordList.{with_part};
ghost use Rattle.mw_symmem.specs.Listed.{Lists};
ghost use Rattle.mw_symboard.specs.Listed.{ListsFrom, ListsTaken, loaded_in};

use crate::bits::{Bits, Sources};
use crate::make::{part, shifted_down, shifted_up, word};
use crate::parts::Parts;
use mw_alu::Destination;
use mw_base::NoMemory;
use mw_board::{Bit, Board, Load};
use mw_cycle::Microword;
use mw_seq::StackMove;
use mw_symmem::Words;
use mw_term::{Op, Term, Written};
use std::alloc::Global;

/// A word shifted down, with the bit of a link at its top.
fn linked_down(
    alloc: Global,
    board: &Board,
    parts: &Parts,
    link: Bit,
    shifted: Term,
    sp: u8,
    sources: &Sources,
    bits: &mut Bits,
    terms: &mut Written,
    words: &mut Words,
) -> Result<Option<Term>, NoMemory>
    requires valid { IsBit board.now.width (length board.now.flipflop) link }
    requires wide { IsOfWidth terms.old board.now.width shifted }
    requires parts { AreParts board.now terms.old parts.now }
    requires sources { AreSources board.now terms.old sources.now }
    requires right { AreBits board.now terms.old parts.now sp sources.now bits.old }
    ensures is { IfOk result (IsShiftedDown board.now terms.new parts.now sp sources.now link shifted) }
    ensures wide { IfOk result (λ taken. IfSome taken (IsOfWidth terms.new board.now.width)) }
    ensures right { OnOk result (AreBits board.now terms.new parts.now sp sources.now bits.new) }
    ensures listed { IfOk result
        (ListsTaken (linked_down_words board.now parts.now sp (sources_of sources.now) link shifted)
        terms.old terms.new words.old words.new bits.old bits.new) }
    ensures grew { OnOk result (Grew terms.old terms.new words.old words.new) }
{
    let width = board.width().bits();
    let high = bits.bit(alloc, link, board, parts, sp, sources, terms, words)?;
    let term = shifted_down(alloc, shifted, width, high, terms, words)?;
    Ok(Some(term))
}

/// A word shifted up, with the bit of a link at its bottom.
fn linked_up(
    alloc: Global,
    board: &Board,
    parts: &Parts,
    link: Bit,
    shifted: Term,
    sp: u8,
    sources: &Sources,
    bits: &mut Bits,
    terms: &mut Written,
    words: &mut Words,
) -> Result<Option<Term>, NoMemory>
    requires valid { IsBit board.now.width (length board.now.flipflop) link }
    requires wide { IsOfWidth terms.old board.now.width shifted }
    requires parts { AreParts board.now terms.old parts.now }
    requires sources { AreSources board.now terms.old sources.now }
    requires right { AreBits board.now terms.old parts.now sp sources.now bits.old }
    ensures is { IfOk result (IsShiftedUp board.now terms.new parts.now sp sources.now link shifted) }
    ensures wide { IfOk result (λ taken. IfSome taken (IsOfWidth terms.new board.now.width)) }
    ensures right { OnOk result (AreBits board.now terms.new parts.now sp sources.now bits.new) }
    ensures listed { IfOk result
        (ListsTaken (linked_up_words board.now parts.now sp (sources_of sources.now) link shifted)
        terms.old terms.new words.old words.new bits.old bits.new) }
    ensures grew { OnOk result (Grew terms.old terms.new words.old words.new) }
{
    let width = board.width().bits();
    let low = bits.bit(alloc, link, board, parts, sp, sources, terms, words)?;
    let term = shifted_up(alloc, shifted, width, low, terms, words)?;
    Ok(Some(term))
}

/// What the register that B addresses takes, if it takes anything.
pub(crate) fn register_word(
    alloc: Global,
    board: &Board,
    microword: &Microword,
    parts: &Parts,
    sp: u8,
    sources: &Sources,
    bits: &mut Bits,
    terms: &mut Written,
    words: &mut Words,
) -> Result<Option<Term>, NoMemory>
    requires microword { IsMicroword board.now microword.now }
    requires parts { AreParts board.now terms.old parts.now }
    requires sources { AreSources board.now terms.old sources.now }
    requires right { AreBits board.now terms.old parts.now sp sources.now bits.old }
    ensures is { IfOk result (IsWrittenB (destination_of microword.now.instruction)
        board.now microword.now terms.new parts.now sp sources.now) }
    ensures wide { IfOk result (λ taken. IfSome taken (IsOfWidth terms.new board.now.width)) }
    ensures right { OnOk result (AreBits board.now terms.new parts.now sp sources.now bits.new) }
    ensures listed { IfOk result
        (ListsTaken (register_words (destination_of microword.now.instruction) board.now microword.now parts.now sp
        (sources_of sources.now)) terms.old terms.new words.old words.new bits.old bits.new) }
    ensures grew { OnOk result (Grew terms.old terms.new words.old words.new) }
{
    match Destination::of(microword.instruction) {
        Destination::Qreg | Destination::Nop => Ok(None),
        Destination::Rama | Destination::Ramf => Ok(Some(sources.f)),
        Destination::Ramqd | Destination::Ramd => linked_down(
            alloc,
            board,
            parts,
            microword.ram_link,
            sources.f,
            sp,
            sources,
            bits,
            terms,
            words,
        ),
        Destination::Ramqu | Destination::Ramu => linked_up(
            alloc,
            board,
            parts,
            microword.ram_link,
            sources.f,
            sp,
            sources,
            bits,
            terms,
            words,
        ),
    }
}

/// What Q takes, if it takes anything.
pub(crate) fn q_word(
    alloc: Global,
    board: &Board,
    microword: &Microword,
    parts: &Parts,
    sp: u8,
    sources: &Sources,
    bits: &mut Bits,
    terms: &mut Written,
    words: &mut Words,
) -> Result<Option<Term>, NoMemory>
    requires microword { IsMicroword board.now microword.now }
    requires parts { AreParts board.now terms.old parts.now }
    requires sources { AreSources board.now terms.old sources.now }
    requires right { AreBits board.now terms.old parts.now sp sources.now bits.old }
    ensures is { IfOk result (IsWrittenQ (destination_of microword.now.instruction)
        board.now microword.now terms.new parts.now sp sources.now) }
    ensures wide { IfOk result (λ taken. IfSome taken (IsOfWidth terms.new board.now.width)) }
    ensures right { OnOk result (AreBits board.now terms.new parts.now sp sources.now bits.new) }
    ensures listed { IfOk result (ListsTaken (q_words (destination_of microword.now.instruction) board.now microword.now
        parts.now sp (sources_of sources.now)) terms.old terms.new words.old words.new bits.old bits.new) }
    ensures grew { OnOk result (Grew terms.old terms.new words.old words.new) }
{
    match Destination::of(microword.instruction) {
        Destination::Qreg => Ok(Some(sources.f)),
        Destination::Ramqd => linked_down(
            alloc,
            board,
            parts,
            microword.q_link,
            parts.q,
            sp,
            sources,
            bits,
            terms,
            words,
        ),
        Destination::Ramqu => linked_up(
            alloc,
            board,
            parts,
            microword.q_link,
            parts.q,
            sp,
            sources,
            bits,
            terms,
            words,
        ),
        Destination::Nop
        | Destination::Rama
        | Destination::Ramf
        | Destination::Ramd
        | Destination::Ramu => Ok(None),
    }
}

/// The old value turned over where there is a carry.
fn turned_by_carry(
    alloc: Global,
    old: Term,
    board: &Board,
    parts: &Parts,
    sp: u8,
    sources: &Sources,
    bits: &mut Bits,
    terms: &mut Written,
    words: &mut Words,
) -> Result<Term, NoMemory>
    requires old { IsOfWidth terms.old 1 old }
    requires parts { AreParts board.now terms.old parts.now }
    requires sources { AreSources board.now terms.old sources.now }
    requires right { AreBits board.now terms.old parts.now sp sources.now bits.old }
    ensures is { IfOk result (IsLoaded loads.XorCarry board.now terms.new parts.now sp sources.now old) }
    ensures wide { IfOk result (IsOfWidth terms.new 1) }
    ensures right { OnOk result (AreBits board.now terms.new parts.now sp sources.now bits.new) }
    ensures listed { IfOk result (ListsFrom (turned_by_carry_words board.now parts.now sp (sources_of sources.now) old)
        terms.old terms.new words.old words.new bits.old bits.new) }
    ensures grew { OnOk result (Grew terms.old terms.new words.old words.new) }
{
    let carry = bits.bit(alloc, Bit::Carry, board, parts, sp, sources, terms, words)?;
    let term = word(alloc, Op::Xor(old, carry), terms, words)?;
    Ok(term)
}

/// What a flip-flop takes, by its load.
pub(crate) fn loaded(
    alloc: Global,
    load: Load,
    old: Term,
    board: &Board,
    parts: &Parts,
    sp: u8,
    sources: &Sources,
    bits: &mut Bits,
    terms: &mut Written,
    words: &mut Words,
) -> Result<Term, NoMemory>
    requires load { IsLoad board.now.width (length board.now.flipflop) load }
    requires old { IsOfWidth terms.old 1 old }
    requires parts { AreParts board.now terms.old parts.now }
    requires sources { AreSources board.now terms.old sources.now }
    requires right { AreBits board.now terms.old parts.now sp sources.now bits.old }
    ensures is { IfOk result (IsLoaded load board.now terms.new parts.now sp sources.now old) }
    ensures wide { IfOk result (IsOfWidth terms.new 1) }
    ensures right { OnOk result (AreBits board.now terms.new parts.now sp sources.now bits.new) }
    ensures listed { IfOk result (ListsFrom (loaded_words load board.now parts.now sp (sources_of sources.now) old)
        terms.old terms.new words.old words.new bits.old bits.new) }
    ensures grew { OnOk result (Grew terms.old terms.new words.old words.new) }
{
    match load {
        Load::Hold => Ok(old),
        Load::Invert => word(alloc, Op::Not(old), terms, words),
        Load::XorCarry => turned_by_carry(
            alloc, old, board, parts, sp, sources, bits, terms, words,
        ),
        Load::Take(bit) => bits.bit(alloc, bit, board, parts, sp, sources, terms, words),
    }
}

/// The old value of the flip-flop whose new one is made next.
fn old_value(parts: &Parts, made: &[Term]) -> Term
    requires { length made.now < length parts.now.flips }
    ensures { result ≡ slice_index parts.now.flips (length made.now) }
{
    parts.flips[made.len()]
}

/// What the flip-flops take, each from the old values of all.
pub(crate) fn flips(
    alloc: Global,
    board: &Board,
    microword: &Microword,
    parts: &Parts,
    sp: u8,
    sources: &Sources,
    bits: &mut Bits,
    terms: &mut Written,
    words: &mut Words,
) -> Result<Vec<Term>, NoMemory>
    requires parts { AreParts board.now terms.old parts.now }
    requires sources { AreSources board.now terms.old sources.now }
    requires right { AreBits board.now terms.old parts.now sp sources.now bits.old }
    ensures are { IfOk result
        (λ flips. AreLoaded board.now microword.now terms.new parts.now sp sources.now flips.items) }
    ensures wide { IfOk result
        (λ flips. (k : ℕ) → k < length board.now.flipflop → IsOfWidth terms.new 1 (slice_index flips.items k)) }
    ensures right { OnOk result (AreBits board.now terms.new parts.now sp sources.now bits.new) }
    ensures listed { IfOk result (λ flips. (reads : List Held)
        → flips_words board.now microword.now parts.now sp (sources_of sources.now) board.now.flipflop parts.now.flips
        (loaded_in terms.old words.old reads bits.old []) ≡ loaded_in terms.new words.new reads bits.new flips.items) }
    ensures grew { OnOk result (Grew terms.old terms.new words.old words.new) }
{
    let mut flips = Vec::new(alloc);
    for flipflop in board.parts().flipflop.as_slice() {
        let load = microword.load(board, flipflop);
        let old = old_value(parts, flips.as_slice());
        let term = loaded(
            alloc, load, old, board, parts, sp, sources, bits, terms, words,
        )?;
        flips.push(term)?;
    }
    Ok(flips)
}

/// What the address register takes where it is loaded: the low bits of Y.
pub(crate) fn mar_word(
    alloc: Global,
    board: &Board,
    y: Term,
    terms: &mut Written,
    words: &mut Words,
) -> Result<Term, NoMemory>
    requires wide { IsOfWidth terms.old board.now.width y }
    ensures is { IfOk result (IsPart terms.new board.now.width y 0 board.now.address) }
    ensures wide { IfOk result (IsOfWidth terms.new board.now.address) }
    ensures listed { IfOk result
        (Lists (with_part board.now.width y 0 board.now.address) terms.old terms.new words.old words.new) }
    ensures grew { OnOk result (Grew terms.old terms.new words.old words.new) }
{
    part(
        alloc,
        y,
        board.width().bits(),
        0,
        board.parts().address,
        terms,
        words,
    )
}

/// The stack pointer after a move, and the word of the stack that takes PC, if one does.
#[derive(Clone, Copy)]
pub(crate) struct Moved {
    pub(crate) sp: u8,
    pub(crate) pushed: Option<u8>,
}

/// The move of a stack of so many words.
pub(crate) fn stack_move(stack: StackMove, depth: u8, sp: u8) -> Moved
    requires some { 1 ≤ depth }
    requires within { sp ≤ depth }
    ensures sp { result.sp ≡ sp_after stack depth sp }
    ensures pushed { result.pushed ≡ pushed_word stack depth sp }
{
    match stack {
        StackMove::Held => Moved { sp, pushed: None },
        StackMove::Pushed => {
            if sp < depth {
                return Moved {
                    sp: sp + 1,
                    pushed: Some(sp),
                };
            }
            Moved {
                sp,
                pushed: Some(depth - 1),
            }
        }
        StackMove::Popped => Moved {
            sp: sp.saturating_sub(1),
            pushed: None,
        },
        StackMove::Cleared => Moved {
            sp: 0,
            pushed: None,
        },
    }
}
