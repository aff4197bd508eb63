// What a cycle reads before its edge.
ghost use Rattle.std.specs.Prelude.{◌≡◌, ◌⊎◌, List, map, ℕ, ◌+◌, ◌<◌, ◌≤◌, ◌^◌, [], ◌∷◌, ◌++◌, length, slice_index};
ghost use Rattle.std.specs.Prelude.{true, Some, None, IfOk, OnOk};
ghost use Rattle.mw_alu.specs.Instruction.{destination_of, source_of};
ghost use Rattle.mw_board.specs.declared.bit.Bit.TheVariants as kinds;
ghost use Rattle.mw_board.specs.Valid.{IsBit, IsLoad};
ghost use Rattle.mw_cycle.specs.Boundary.{numbers};
ghost use Rattle.mw_board.specs.Depth.{depth_of};
ghost use Rattle.mw_cycle.specs.Microword.{IsMicroword};
ghost use Rattle.mw_symmem.specs.Memory.{IsOfWidth, writes_of};
ghost use Rattle.mw_term.specs.WordList.{list_of};
ghost use Rattle.mw_symmem.specs.Workspace.{GoesOn, IsWorkspace, KeepsWrites};
ghost use Rattle.mw_symboard.specs.Bits.{AreBits, AreSources};
ghost use Rattle.mw_symboard.specs.Cycle.{AreOperands, IsReading, IsTurned};
ghost use Rattle.mw_cycle.specs.ReadingWords.{y_term, addends_words, all_read_words, bits_in_order, condition_words};
ghost use Rattle.mw_cycle.specs.ReadingWords.{is_read, link_reads, load_reads, operands_words, read_words};
ghost use Rattle.mw_cycle.specs.ReadingWords.{reading_words, sources_words, turned_words};
ghost use Rattle.mw_symboard.specs.Growth.{Grew};
ghost use Rattle.mw_symboard.specs.Kinds.{HaveWidths, IsCycleKind};
ghost use Rattle.mw_symboard.specs.Made.{IsAddendR, IsAddendS, IsBitTerm, IsR, IsS, sources_of};
ghost use Rattle.mw_symboard.specs.Parts.{AreParts};
ghost use Rattle.mw_symboard.specs.Turns.{AreNoLater};
ghost use Rattle.mw_cycle.specs.Cycle.{load_of};
ghost use Rattle.std.specs.List.{list_any};
ghost use Rattle.mw_term.specs.declared.event.SymEvent.{SymEvent};
ghost use Rattle.mw_term.specs.MemoryRead.{Held};
ghost use Rattle.mw_symmem.specs.Listed.{Lists, list_in};
ghost use Rattle.mw_symboard.specs.Listed.{ListsFrom, bits_made, operands_in, reading_in, sources_in, standing_of};

use crate::bits::{Bits, Sources, same};
use crate::function::{addend_r, addend_s, f, r, s};
use crate::make::word;
use crate::outside::{Variables, line_and_noise};
use crate::parts::Parts;
use crate::progress::Progress;
use crate::source::{from_source, masked};
use mw_alu::{Destination, Function, Source};
use mw_base::NoMemory;
use mw_board::{Bit, Board, Load};
use mw_cycle::Microword;
use mw_symmem::{SymMemory, Words};
use mw_term::{Op, Term, Written};
use std::alloc::Global;

/// What a cycle has read before its edge.
#[derive(Drop)]
pub(crate) struct Reading {
    /// What the bits are made of.
    pub(crate) sources: Sources,
    /// The bits that were made.
    pub(crate) bits: Bits,
    /// The direct data before its mask.
    pub(crate) source: Term,
    /// The Am2901's outputs Y.
    pub(crate) y: Term,
    /// The condition, turned over where polarity is 1.
    pub(crate) condition: Term,
}

/// A load reads a bit.
fn load_reads(load: Load, bit: Bit) -> bool
    ensures exact { result ≡ load_reads load bit }
    ensures valid { result ≡ true → (width flipflops : ℕ) → IsLoad width flipflops load → IsBit width flipflops bit }
{
    match load {
        Load::Hold | Load::Invert => false,
        Load::XorCarry => same(bit, Bit::Carry),
        Load::Take(taken) => same(taken, bit),
    }
}

/// A flip-flop's chosen load reads a bit.
fn flipflop_reads(board: &Board, microword: &Microword, bit: Bit) -> bool
    ensures exact { result ≡ list_any (λ f. load_reads (load_of board.now microword.now f) bit) board.now.flipflop }
    ensures valid { result ≡ true → IsBit board.now.width (length board.now.flipflop) bit }
{
    for flipflop in board.parts().flipflop.as_slice() {
        if load_reads(microword.load(board, flipflop), bit) {
            return true;
        }
    }
    false
}

/// A link that the destination uses reads a bit.
fn link_reads(microword: &Microword, bit: Bit) -> bool
    requires { microword.now.instruction < 512 }
    ensures exact { result ≡ link_reads (destination_of microword.now.instruction) microword.now bit }
    ensures valid { result ≡ true → (microword.now.ram_link ≡ bit) ⊎ (microword.now.q_link ≡ bit) }
{
    match Destination::of(microword.instruction) {
        Destination::Ramqd | Destination::Ramqu => {
            same(microword.ram_link, bit) || same(microword.q_link, bit)
        }
        Destination::Ramd | Destination::Ramu => same(microword.ram_link, bit),
        _ => false,
    }
}

/// The condition, a link that is used, or a chosen load reads a bit, which then is one of the board's.
fn is_read(board: &Board, microword: &Microword, bit: Bit) -> bool
    requires { IsMicroword board.now microword.now }
    ensures exact { result ≡ is_read board.now microword.now bit }
    ensures valid { result ≡ true → IsBit board.now.width (length board.now.flipflop) bit }
{
    if same(microword.condition, bit) {
        return true;
    }
    if link_reads(microword, bit) {
        return true;
    }
    flipflop_reads(board, microword, bit)
}

/// The bits that are read, in the order of the list of bits, but for those of the instruction register.
const IN_ORDER: [Bit; 8] = [
    Bit::Carry,
    Bit::Overflow,
    Bit::FZero,
    Bit::Sign,
    Bit::FLow,
    Bit::FHigh,
    Bit::QLow,
    Bit::QHigh,
];

/// Makes a bit where it is read.
fn make_read(
    alloc: Global,
    bit: Bit,
    board: &Board,
    microword: &Microword,
    place: &Progress,
    sources: &Sources,
    bits: &mut Bits,
    terms: &mut Written,
    words: &mut Words,
) -> Result<(), NoMemory>
    requires microword { IsMicroword board.now microword.now }
    requires parts { AreParts board.now terms.old place.now.parts }
    requires sources { AreSources board.now terms.old sources.now }
    requires right { AreBits board.now terms.old place.now.parts place.now.sp sources.now bits.old }
    ensures right { OnOk result (AreBits board.now terms.new place.now.parts place.now.sp sources.now bits.new) }
    ensures listed { OnOk result ((reads : List Held)
        → read_words board.now microword.now place.now.parts place.now.sp (sources_of sources.now) bit
        (bits_made terms.old words.old reads bits.old)
        ≡ bits_made terms.new words.new reads bits.new) }
    ensures grew { OnOk result (Grew terms.old terms.new words.old words.new) }
{
    if !is_read(board, microword, bit) {
        return Ok(());
    }
    bits.bit(
        alloc,
        bit,
        board,
        &place.parts,
        place.sp,
        sources,
        terms,
        words,
    )?;
    Ok(())
}

/// Makes those of some bits that are read, each once, in their order.
fn make_all(
    alloc: Global,
    in_order: &[Bit],
    board: &Board,
    microword: &Microword,
    place: &Progress,
    sources: &Sources,
    bits: &mut Bits,
    terms: &mut Written,
    words: &mut Words,
) -> Result<(), NoMemory>
    requires microword { IsMicroword board.now microword.now }
    requires parts { AreParts board.now terms.old place.now.parts }
    requires sources { AreSources board.now terms.old sources.now }
    requires right { AreBits board.now terms.old place.now.parts place.now.sp sources.now bits.old }
    ensures right { OnOk result (AreBits board.now terms.new place.now.parts place.now.sp sources.now bits.new) }
    ensures listed { OnOk result ((reads : List Held)
        → all_read_words board.now microword.now place.now.parts place.now.sp (sources_of sources.now)
        in_order.now (bits_made terms.old words.old reads bits.old)
        ≡ bits_made terms.new words.new reads bits.new) }
    ensures grew { OnOk result (Grew terms.old terms.new words.old words.new) }
{
    for bit in in_order {
        make_read(
            alloc, *bit, board, microword, place, sources, bits, terms, words,
        )?;
    }
    Ok(())
}

/// Makes those bits of the instruction register that are read, each once, by rising numbers.
fn make_ir_bits(
    alloc: Global,
    board: &Board,
    microword: &Microword,
    place: &Progress,
    sources: &Sources,
    bits: &mut Bits,
    terms: &mut Written,
    words: &mut Words,
) -> Result<(), NoMemory>
    requires microword { IsMicroword board.now microword.now }
    requires parts { AreParts board.now terms.old place.now.parts }
    requires sources { AreSources board.now terms.old sources.now }
    requires right { AreBits board.now terms.old place.now.parts place.now.sp sources.now bits.old }
    ensures right { OnOk result (AreBits board.now terms.new place.now.parts place.now.sp sources.now bits.new) }
    ensures listed { OnOk result ((reads : List Held)
        → all_read_words board.now microword.now place.now.parts place.now.sp (sources_of sources.now)
        (map kinds.Ir (numbers 0 board.now.width)) (bits_made terms.old words.old reads bits.old)
        ≡ bits_made terms.new words.new reads bits.new) }
    ensures grew { OnOk result (Grew terms.old terms.new words.old words.new) }
{
    for number in 0..board.width().bits() {
        let bit = Bit::Ir(number);
        make_read(
            alloc, bit, board, microword, place, sources, bits, terms, words,
        )?;
    }
    Ok(())
}

/// Makes the bits that are read, each once, in the order of the list of bits.
fn make_bits(
    alloc: Global,
    board: &Board,
    microword: &Microword,
    place: &Progress,
    sources: &Sources,
    bits: &mut Bits,
    terms: &mut Written,
    words: &mut Words,
) -> Result<(), NoMemory>
    requires microword { IsMicroword board.now microword.now }
    requires parts { AreParts board.now terms.old place.now.parts }
    requires sources { AreSources board.now terms.old sources.now }
    requires right { AreBits board.now terms.old place.now.parts place.now.sp sources.now bits.old }
    ensures right { OnOk result (AreBits board.now terms.new place.now.parts place.now.sp sources.now bits.new) }
    ensures listed { OnOk result ((reads : List Held)
        → all_read_words board.now microword.now place.now.parts place.now.sp (sources_of sources.now)
        (bits_in_order board.now) (bits_made terms.old words.old reads bits.old)
        ≡ bits_made terms.new words.new reads bits.new) }
    ensures grew { OnOk result (Grew terms.old terms.new words.old words.new) }
{
    make_all(
        alloc, &IN_ORDER, board, microword, place, sources, bits, terms, words,
    )?;
    make_ir_bits(alloc, board, microword, place, sources, bits, terms, words)
}

/// A bit, turned over where polarity is 1.
fn turned(
    alloc: Global,
    polarity: bool,
    bit: Term,
    terms: &mut Written,
    words: &mut Words,
) -> Result<Term, NoMemory>
    requires wide { IsOfWidth terms.old 1 bit }
    ensures is { IfOk result (IsTurned polarity terms.new bit) }
    ensures wide { IfOk result (IsOfWidth terms.new 1) }
    ensures listed { IfOk result (Lists (turned_words polarity bit) terms.old terms.new words.old words.new) }
    ensures grew { OnOk result (Grew terms.old terms.new words.old words.new) }
{
    if !polarity {
        return Ok(bit);
    }
    let term = word(alloc, Op::Not(bit), terms, words)?;
    Ok(term)
}

/// The condition, turned over where polarity is 1.
fn condition(
    alloc: Global,
    board: &Board,
    microword: &Microword,
    place: &Progress,
    sources: &Sources,
    bits: &mut Bits,
    terms: &mut Written,
    words: &mut Words,
) -> Result<Term, NoMemory>
    requires microword { IsMicroword board.now microword.now }
    requires parts { AreParts board.now terms.old place.now.parts }
    requires sources { AreSources board.now terms.old sources.now }
    requires right { AreBits board.now terms.old place.now.parts place.now.sp sources.now bits.old }
    ensures is { IfOk result (λ term.
        (bit : ℕ) × IsBitTerm board.now terms.new place.now.parts place.now.sp sources.now microword.now.condition bit
        × IsTurned microword.now.polarity terms.new bit term) }
    ensures wide { IfOk result (IsOfWidth terms.new 1) }
    ensures right { OnOk result (AreBits board.now terms.new place.now.parts place.now.sp sources.now bits.new) }
    ensures listed { IfOk result
        (ListsFrom (condition_words board.now microword.now place.now.parts place.now.sp (sources_of sources.now))
        terms.old terms.new words.old words.new bits.old bits.new) }
    ensures grew { OnOk result (Grew terms.old terms.new words.old words.new) }
{
    let bit = bits.bit(
        alloc,
        microword.condition,
        board,
        &place.parts,
        place.sp,
        sources,
        terms,
        words,
    )?;
    let term = turned(alloc, microword.polarity, bit, terms, words)?;
    Ok(term)
}

/// The term of a register.
fn register(parts: &Parts, number: u8) -> Term
    requires { number < length parts.now.regs }
    ensures { result ≡ slice_index parts.now.regs number }
{
    parts.regs[usize::from(number)]
}

/// The operands R and S.
fn operands(
    alloc: Global,
    board: &Board,
    microword: &Microword,
    parts: &Parts,
    d: Term,
    terms: &mut Written,
    words: &mut Words,
) -> Result<(Term, Term), NoMemory>
    requires microword { IsMicroword board.now microword.now }
    requires parts { AreParts board.now terms.old parts.now }
    requires d { IsOfWidth terms.old board.now.width d }
    ensures r { IfOk result (λ o. IsR terms.new board.now.width (source_of microword.now.instruction) (slice_index
        parts.now.regs microword.now.a_address) d o.0) }
    ensures s { IfOk result (λ o. IsS terms.new board.now.width (source_of microword.now.instruction) (slice_index
        parts.now.regs microword.now.a_address) (slice_index parts.now.regs microword.now.b_address) parts.now.q o.1) }
    ensures r_wide { IfOk result (λ o. IsOfWidth terms.new board.now.width o.0) }
    ensures s_wide { IfOk result (λ o. IsOfWidth terms.new board.now.width o.1) }
    ensures listed { IfOk result (λ o.
        (reads : List Held) → operands_words board.now microword.now parts.now d (list_of terms.old.ops words.old reads)
        ≡ operands_in terms.new words.new reads o) }
    ensures grew { OnOk result (Grew terms.old terms.new words.old words.new) }
{
    let width = board.width().bits();
    let a = register(parts, microword.a_address);
    let b = register(parts, microword.b_address);
    let from = Source::of(microword.instruction);
    let r = r(alloc, from, a, d, width, terms, words)?;
    let s = s(alloc, from, a, b, parts.q, width, terms, words)?;
    Ok((r, s))
}

/// What is added for the operands.
fn addends(
    alloc: Global,
    function: Function,
    operands: (Term, Term),
    width: u8,
    terms: &mut Written,
    words: &mut Words,
) -> Result<(Term, Term), NoMemory>
    requires r { IsOfWidth terms.old width operands.0 }
    requires s { IsOfWidth terms.old width operands.1 }
    ensures first { IfOk result (λ a. IsAddendR terms.new function operands.0 a.0) }
    ensures second { IfOk result (λ a. IsAddendS terms.new function operands.1 a.1) }
    ensures first_wide { IfOk result (λ a. IsOfWidth terms.new width a.0) }
    ensures second_wide { IfOk result (λ a. IsOfWidth terms.new width a.1) }
    ensures listed { IfOk result
        (λ a. (reads : List Held) → addends_words function operands.0 operands.1 (list_of terms.old.ops words.old reads)
        ≡ operands_in terms.new words.new reads a) }
    ensures grew { OnOk result (Grew terms.old terms.new words.old words.new) }
{
    let (r, s) = operands;
    let first = addend_r(alloc, function, r, width, terms, words)?;
    let second = addend_s(alloc, function, s, width, terms, words)?;
    Ok((first, second))
}

/// The carry in, what a sum adds, and F.
fn make_sources(
    alloc: Global,
    board: &Board,
    microword: &Microword,
    place: &Progress,
    variables: Variables,
    d: Term,
    bits: &mut Bits,
    terms: &mut Written,
    words: &mut Words,
) -> Result<Sources, NoMemory>
    requires microword { IsMicroword board.now microword.now }
    requires parts { AreParts board.now terms.old place.now.parts }
    requires line { IsOfWidth terms.old 1 variables.line }
    requires noise { IsOfWidth terms.old 14 variables.noise }
    requires d { IsOfWidth terms.old board.now.width d }
    requires early { bits.old.early ≡ [] }
    requires late { bits.old.late ≡ [] }
    ensures line { IfOk result (λ n. n.line ≡ variables.line) }
    ensures noise { IfOk result (λ n. n.noise ≡ variables.noise) }
    ensures are { IfOk result (AreOperands board.now microword.now terms.new place.now.parts place.now.sp d) }
    ensures right { IfOk result (λ n. AreBits board.now terms.new place.now.parts place.now.sp n bits.new) }
    ensures listed { IfOk result (λ n. (reads : List Held)
        → sources_words board.now microword.now place.now.parts place.now.sp variables.line variables.noise d
        (list_of terms.old.ops words.old reads) ≡ sources_in terms.new words.new reads n bits.new) }
    ensures grew { OnOk result (Grew terms.old terms.new words.old words.new) }
{
    let Variables { line, noise } = variables;
    let parts = &place.parts;
    let width = board.width().bits();
    let carry_in = microword.carry_in;
    let carry = bits.early(alloc, carry_in, board, parts, place.sp, line, terms, words)?;
    let function = Function::of(microword.instruction);
    let (r, s) = operands(alloc, board, microword, parts, d, terms, words)?;
    let (first, second) = addends(alloc, function, (r, s), width, terms, words)?;
    let operands = (r, s);
    let addends = (first, second);
    let f = f(
        alloc, function, operands, addends, carry, width, terms, words,
    )?;
    Ok(Sources {
        line,
        noise,
        function,
        first,
        second,
        carry,
        f,
    })
}

/// The Am2901's outputs Y: A in RAMA, and else F.
fn y(microword: &Microword, place: &Progress, f: Term) -> Term
    requires instruction { microword.now.instruction < 512 }
    requires a_address { microword.now.a_address < length place.now.parts.regs }
    ensures { result ≡ y_term (destination_of microword.now.instruction)
        (slice_index place.now.parts.regs microword.now.a_address) f }
{
    match Destination::of(microword.instruction) {
        Destination::Rama => register(&place.parts, microword.a_address),
        _ => f,
    }
}

impl Reading {
    /// The same once more.
    pub(crate) fn copy(&self, alloc: Global) -> Result<Reading, NoMemory>
        ensures { IfOk result (λ copy. copy ≡ self.now) }
    {
        Ok(Reading {
            sources: self.sources,
            bits: self.bits.copy(alloc)?,
            source: self.source,
            y: self.y,
            condition: self.condition,
        })
    }

    /// Reads what the cycle from a place reads: its variables, D, F, the bits and the condition.
    pub(crate) fn new(
        alloc: Global,
        board: &Board,
        microword: &Microword,
        place: &Progress,
        terms: &mut Written,
        words: &mut Words,
        memory: &mut SymMemory,
    ) -> Result<Reading, NoMemory>
        requires microword { IsMicroword board.now microword.now }
        requires few { length memory.old.reads < 2 ^ 32 }
        requires address { memory.old.address ≡ board.now.address }
        requires word { memory.old.word ≡ board.now.width }
        requires workspace { IsWorkspace terms.old words.old memory.old }
        requires parts { AreParts board.now terms.old place.now.parts }
        requires sp { place.now.sp ≤ depth_of board.now }
        requires line { (term : ℕ) → place.now.line ≡ Some term → IsOfWidth terms.old 1 term }
        requires widths { HaveWidths place.now.side board.now terms.old words.old }
        requires none { AreNoLater place.now.side place.now.cycle words.old }
        ensures is { IfOk result (IsReading board.now microword.now terms.new words.new memory.new place.now) }
        ensures listed { IfOk result (λ reading. (events : List SymEvent)
            → reading_words board.now microword.now
            (standing_of place.now (writes_of memory.old place.now.side) events)
            (list_in terms.old words.old memory.old) ≡ reading_in terms.new words.new memory.new reading) }
        ensures goes { OnOk result (GoesOn (IsCycleKind place.now.side place.now.cycle place.now.taken place.now.line)
            terms.old terms.new words.old words.new memory.old memory.new) }
        ensures reads { OnOk result (length memory.new.reads ≤ length memory.old.reads + 1) }
        ensures writes { OnOk result (KeepsWrites memory.old memory.new) }
        ensures widths { OnOk result (HaveWidths place.now.side board.now terms.new words.new) }
        ensures none { OnOk result (AreNoLater place.now.side (place.now.cycle + 1) words.new) }
    {
        let width = board.width().bits();
        let parts = &place.parts;
        let variables = line_and_noise(alloc, place.side, place.cycle, place.line, terms, words)?;
        let source = from_source(
            alloc,
            board,
            microword,
            place.side,
            parts,
            place.taken,
            terms,
            words,
            memory,
        )?;
        let d = masked(alloc, microword.d.mask, source, width, terms, words)?;
        let mut bits = Bits::new(alloc);
        let sources = make_sources(
            alloc, board, microword, place, variables, d, &mut bits, terms, words,
        )?;
        make_bits(
            alloc, board, microword, place, &sources, &mut bits, terms, words,
        )?;
        let condition = condition(
            alloc, board, microword, place, &sources, &mut bits, terms, words,
        )?;
        let y = y(microword, place, sources.f);
        Ok(Reading {
            sources,
            bits,
            source,
            y,
            condition,
        })
    }
}
