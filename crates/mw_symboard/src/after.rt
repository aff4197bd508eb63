// The parts of a board after the edge.
ghost use Rattle.std.specs.Prelude.{◌≡◌, List, ◌+◌, ◌%◌, ◌<◌, ◌≤◌, ◌^◌, ℕ, length, slice_index, if◌then◌else◌, IfOk};
ghost use Rattle.std.specs.Prelude.{IfSome, OnOk};
ghost use Rattle.mw_base.specs.Words.{num};
ghost use Rattle.mw_board.specs.Depth.{depth_of};
ghost use Rattle.mw_cycle.specs.Microword.{IsMicroword};
ghost use Rattle.mw_symmem.specs.Memory.{IsOfWidth};
ghost use Rattle.mw_symboard.specs.Bits.{AreBits, AreSources};
ghost use Rattle.mw_symboard.specs.Cycle.{IsEdge, IsMar, bits_before, effect_by, number_in};
ghost use Rattle.mw_cycle.specs.EdgeWords.{or_taken, with_pushed, with_taken, pushed_word, sp_after, edge_made};
ghost use Rattle.mw_cycle.specs.EdgeWords.{edge_words, mar_words};
ghost use Rattle.mw_symboard.specs.Growth.{Grew};
ghost use Rattle.mw_symboard.specs.Made.{AreLoaded, IsWrittenB, IsWrittenQ};
ghost use Rattle.mw_alu.specs.Instruction.{destination_of};
ghost use Rattle.mw_symboard.specs.Parts.{AreParts};
ghost use Rattle.mw_term.specs.declared.event.SymEvent.{SymEvent};
ghost use Rattle.mw_term.specs.MemoryRead.{Held};
ghost use Rattle.mw_term.specs.WordList.{list_of};
ghost use Rattle.mw_symmem.specs.Listed.{Lists};
ghost use Rattle.mw_symboard.specs.Listed.{leaving_of, reading_of, standing_after, standing_of};

use crate::edge::{Moved, flips, mar_word, q_word, register_word, stack_move};
use crate::leaving::{Leaving, address, bits_before, effect};
use crate::make::constant;
use crate::parts::Parts;
use crate::progress::Progress;
use crate::reading::Reading;
use mw_base::NoMemory;
use mw_board::Board;
use mw_cycle::Microword;
use mw_seq::StackMove;
use mw_symmem::Words;
use mw_term::{Term, Written};
use std::alloc::Global;

/// The item of a place takes what there is to take.
fn take(items: &mut [Term], place: usize, taken: Option<Term>)
    requires { place < length items.old }
    ensures { items.new ≡ with_taken items.old place taken }
{
    if let Some(term) = taken {
        items[place] = term;
    }
}

/// The item of a place, if there is one, takes this.
fn push(items: &mut [Term], place: Option<u8>, taken: Term)
    requires { IfSome place (λ n. n < length items.old) }
    ensures { items.new ≡ with_pushed items.old place taken }
{
    if let Some(place) = place {
        items[usize::from(place)] = taken;
    }
}

/// The address register after the edge.
fn mar(
    alloc: Global,
    load: bool,
    board: &Board,
    old: Term,
    y: Term,
    terms: &mut Written,
    words: &mut Words,
) -> Result<Term, NoMemory>
    requires old { IsOfWidth terms.old board.now.address old }
    requires y { IsOfWidth terms.old board.now.width y }
    ensures is { IfOk result (IsMar load board.now terms.new old y) }
    ensures wide { IfOk result (IsOfWidth terms.new board.now.address) }
    ensures listed { IfOk result (Lists (mar_words load board.now old y) terms.old terms.new words.old words.new) }
    ensures grew { OnOk result (Grew terms.old terms.new words.old words.new) }
{
    if load {
        return mar_word(alloc, board, y, terms, words);
    }
    Ok(old)
}

/// What the parts take at the edge that was made by words.
#[derive(Drop)]
struct Taken {
    /// What the register that B addresses takes.
    register: Option<Term>,
    /// What Q takes.
    q: Option<Term>,
    /// What the flip-flops take.
    flips: Vec<Term>,
    /// The address register.
    mar: Term,
}

/// What the parts take at the edge that is made by words, in the order of the word table.
fn edge_made(
    alloc: Global,
    board: &Board,
    microword: &Microword,
    place: &Progress,
    reading: &mut Reading,
    terms: &mut Written,
    words: &mut Words,
) -> Result<Taken, NoMemory>
    requires microword { IsMicroword board.now microword.now }
    requires parts { AreParts board.now terms.old place.now.parts }
    requires sources { AreSources board.now terms.old reading.old.sources }
    requires bits { AreBits board.now terms.old place.now.parts place.now.sp reading.old.sources reading.old.bits }
    requires y { IsOfWidth terms.old board.now.width reading.old.y }
    ensures register { IfOk result (λ t. IsWrittenB (destination_of microword.now.instruction) board.now
        microword.now terms.new place.now.parts place.now.sp reading.old.sources t.register) }
    ensures register_wide { IfOk result (λ t. IfSome t.register (IsOfWidth terms.new board.now.width)) }
    ensures q { IfOk result (λ t. IsWrittenQ (destination_of microword.now.instruction) board.now microword.now
        terms.new place.now.parts place.now.sp reading.old.sources t.q) }
    ensures q_wide { IfOk result (λ t. IfSome t.q (IsOfWidth terms.new board.now.width)) }
    ensures flips { IfOk result (λ t.
        AreLoaded board.now microword.now terms.new place.now.parts place.now.sp reading.old.sources t.flips.items) }
    ensures flips_wide { IfOk result
        (λ t. (k : ℕ) → k < length board.now.flipflop → IsOfWidth terms.new 1 (slice_index t.flips.items k)) }
    ensures mar { IfOk result
        (λ t. IsMar microword.now.mar_load board.now terms.new place.now.parts.mar reading.old.y t.mar) }
    ensures mar_wide { IfOk result (λ t. IsOfWidth terms.new board.now.address t.mar) }
    ensures source { reading.new.source ≡ reading.old.source }
    ensures y { reading.new.y ≡ reading.old.y }
    ensures listed { IfOk result (λ t. (reads : List Held)
        → edge_made board.now microword.now place.now.parts place.now.sp (reading_of reading.old)
        (list_of terms.old.ops words.old reads) ≡ record {
          list = list_of terms.new.ops words.new reads;
          register = t.register;
          q = t.q;
          flips = t.flips.items;
          mar = t.mar;
        }) }
    ensures grew { OnOk result (Grew terms.old terms.new words.old words.new) }
{
    let sources = reading.sources;
    let y = reading.y;
    let bits = &mut reading.bits;
    let parts = &place.parts;
    let sp = place.sp;
    let register = register_word(
        alloc, board, microword, parts, sp, &sources, bits, terms, words,
    )?;
    let q = q_word(
        alloc, board, microword, parts, sp, &sources, bits, terms, words,
    )?;
    let flips = flips(
        alloc, board, microword, parts, sp, &sources, bits, terms, words,
    )?;
    let mar = mar(alloc, microword.mar_load, board, parts.mar, y, terms, words)?;
    Ok(Taken {
        register,
        q,
        flips,
        mar,
    })
}

/// What there is to take, or else what was there.
fn or_taken(old: Term, taken: Option<Term>) -> Term
    ensures { result ≡ or_taken old taken }
{
    match taken {
        Some(term) => term,
        None => old,
    }
}

/// A new term where there is a load, or else what was there.
fn if_loaded(load: bool, new: Term, old: Term) -> Term
    ensures { result ≡ (if load then new else old) }
{
    if load { new } else { old }
}

/// What the microprogram counter counts to from an address.
fn counted(at: u16, ci: bool) -> u16
    requires { at < 2 ^ 12 }
    ensures exact { result ≡ (at + num ci) % 2 ^ 12 }
    ensures below { result < 2 ^ 12 }
{
    (at + u16::from(ci)) % 0x1000
}

/// The address that was decided.
fn decided_address(place: &Progress, microword: &Microword) -> u16
    requires { bits_before microword.now + 12 ≤ length place.now.decided }
    ensures exact { result ≡ number_in place.now.decided (bits_before microword.now) 12 }
    ensures below { result < 2 ^ 12 }
{
    let before = bits_before(microword);
    address(&place.decided, before)
}

/// Where a cycle goes on, and what the microprogram counter counts to from there.
#[derive(Clone, Copy)]
struct Next {
    at: u16,
    pc: u16,
}

/// Where the cycle goes on: at the address that was decided.
fn decided_next(place: &Progress, microword: &Microword) -> Next
    requires { bits_before microword.now + 12 ≤ length place.now.decided }
    ensures at { result.at ≡ number_in place.now.decided (bits_before microword.now) 12 }
    ensures pc { result.pc ≡ (result.at + num microword.now.ci) % 2 ^ 12 }
    ensures at_below { result.at < 2 ^ 12 }
    ensures pc_below { result.pc < 2 ^ 12 }
{
    let at = decided_address(place, microword);
    let pc = counted(at, microword.ci);
    Next { at, pc }
}

/// What the bits that were decided do to the stack.
fn decided_move(board: &Board, microword: &Microword, place: &Progress) -> StackMove
    requires microword { IsMicroword board.now microword.now }
    requires known { bits_before microword.now ≤ length place.now.decided }
    ensures { result ≡ (effect_by microword.now place.now.decided).stack }
{
    effect(microword, &place.decided).stack
}

/// The move of the stack that was decided.
fn moved(board: &Board, microword: &Microword, place: &Progress) -> Moved
    requires microword { IsMicroword board.now microword.now }
    requires known { bits_before microword.now ≤ length place.now.decided }
    requires sp { place.now.sp ≤ depth_of board.now }
    ensures sp { result.sp
        ≡ sp_after (effect_by microword.now place.now.decided).stack (depth_of board.now) place.now.sp }
    ensures pushed { result.pushed
        ≡ pushed_word (effect_by microword.now place.now.decided).stack (depth_of board.now) place.now.sp }
    ensures sp_within { result.sp ≤ depth_of board.now }
    ensures pushed_within { IfSome result.pushed (λ n. n < depth_of board.now) }
{
    let stack = decided_move(board, microword, place);
    stack_move(stack, board.depth(), place.sp)
}

/// The parts take their new terms: the register that B addresses, Q, the address and the instruction register, the
/// flip-flops, PC, the counter, and the word of the stack that takes the old PC.
fn put(
    parts: &mut Parts,
    microword: &Microword,
    taken: Taken,
    pushed: Option<u8>,
    y: Term,
    pc: Term,
    r: Term,
)
    requires b_address { microword.now.b_address < length parts.old.regs }
    requires pushed { IfSome pushed (λ n. n < length parts.old.stack) }
    ensures regs { parts.new.regs ≡ with_taken parts.old.regs microword.now.b_address taken.register }
    ensures q { parts.new.q ≡ or_taken parts.old.q taken.q }
    ensures mar { parts.new.mar ≡ taken.mar }
    ensures ir { parts.new.ir ≡ (if microword.now.ir_load then y else parts.old.ir) }
    ensures flips { parts.new.flips ≡ taken.flips.items }
    ensures pc { parts.new.pc ≡ pc }
    ensures r { parts.new.r ≡ r }
    ensures stack { parts.new.stack ≡ with_pushed parts.old.stack pushed parts.old.pc }
{
    take(
        &mut parts.regs,
        usize::from(microword.b_address),
        taken.register,
    );
    push(&mut parts.stack, pushed, parts.pc);
    parts.q = or_taken(parts.q, taken.q);
    parts.mar = taken.mar;
    parts.ir = if_loaded(microword.ir_load, y, parts.ir);
    parts.flips = taken.flips;
    parts.pc = pc;
    parts.r = r;
}

/// The place goes on to an address, with its new terms.
fn go_to_address(
    place: &mut Progress,
    microword: &Microword,
    taken: Taken,
    moved: Moved,
    at: u16,
    y: Term,
    pc: Term,
    r: Term,
)
    requires b_address { microword.now.b_address < length place.old.parts.regs }
    requires pushed { IfSome moved.pushed (λ n. n < length place.old.parts.stack) }
    ensures at { place.new.at ≡ at }
    ensures sp { place.new.sp ≡ moved.sp }
    ensures regs { place.new.parts.regs ≡ with_taken place.old.parts.regs microword.now.b_address taken.register }
    ensures q { place.new.parts.q ≡ or_taken place.old.parts.q taken.q }
    ensures mar { place.new.parts.mar ≡ taken.mar }
    ensures ir { place.new.parts.ir ≡ (if microword.now.ir_load then y else place.old.parts.ir) }
    ensures flips { place.new.parts.flips ≡ taken.flips.items }
    ensures pc { place.new.parts.pc ≡ pc }
    ensures r { place.new.parts.r ≡ r }
    ensures stack { place.new.parts.stack ≡ with_pushed place.old.parts.stack moved.pushed place.old.parts.pc }
    ensures side { place.new.side ≡ place.old.side }
    ensures cycle { place.new.cycle ≡ place.old.cycle }
    ensures inputs { place.new.taken ≡ place.old.taken }
    ensures decided { place.new.decided ≡ place.old.decided }
{
    put(&mut place.parts, microword, taken, moved.pushed, y, pc, r);
    place.sp = moved.sp;
    place.at = at;
}

/// The edge: all parts take their new terms from those before it.
pub(crate) fn take_edge(
    alloc: Global,
    board: &Board,
    microword: &Microword,
    place: &mut Progress,
    reading: &mut Reading,
    leaving: Leaving,
    terms: &mut Written,
    words: &mut Words,
) -> Result<(), NoMemory>
    requires microword { IsMicroword board.now microword.now }
    requires parts { AreParts board.now terms.old place.old.parts }
    requires sp { place.old.sp ≤ depth_of board.now }
    requires sources { AreSources board.now terms.old reading.old.sources }
    requires bits { AreBits board.now terms.old place.old.parts place.old.sp reading.old.sources reading.old.bits }
    requires y { IsOfWidth terms.old board.now.width reading.old.y }
    requires r { IsOfWidth terms.old 12 leaving.r }
    requires known { bits_before microword.now + 12 ≤ length place.old.decided }
    ensures is { OnOk result (IsEdge board.now microword.now terms.new place.old place.new reading.old leaving) }
    ensures parts { OnOk result (AreParts board.now terms.new place.new.parts) }
    ensures at { OnOk result (place.new.at < 2 ^ 12) }
    ensures sp { OnOk result (place.new.sp ≤ depth_of board.now) }
    ensures side { place.new.side ≡ place.old.side }
    ensures cycle { place.new.cycle ≡ place.old.cycle }
    ensures inputs { place.new.taken ≡ place.old.taken }
    ensures source { reading.new.source ≡ reading.old.source }
    ensures y { reading.new.y ≡ reading.old.y }
    ensures decided { place.new.decided ≡ place.old.decided }
    ensures listed { OnOk result ((reads writes : List Held) (events : List SymEvent)
        → edge_words board.now microword.now (standing_of place.old writes events) (reading_of reading.old)
        (leaving_of leaving)
        (effect_by microword.now place.old.decided) place.new.at (list_of terms.old.ops words.old reads)
        ≡ record {
          list = list_of terms.new.ops words.new reads;
          standing = standing_after microword.now place.old place.new (reading_of reading.old) writes events;
        }) }
    ensures grew { OnOk result (Grew terms.old terms.new words.old words.new) }
{
    let y = reading.y;
    let taken = edge_made(alloc, board, microword, place, reading, terms, words)?;
    let next = decided_next(place, microword);
    let pc = constant(alloc, u32::from(next.pc), 12, terms)?;
    let moved = moved(board, microword, place);
    go_to_address(place, microword, taken, moved, next.at, y, pc, leaving.r);
    Ok(())
}
