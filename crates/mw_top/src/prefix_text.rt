// The text of a prefix of decided bits.
ghost use Rattle.std.specs.Prelude.{◌≡◌, ◌∷◌, ◌++◌, ◌≤◌, ◌<◌, OnOk, IfOk, IfSome, drop, filter, length, map, not};
ghost use Rattle.std.specs.Prelude.{position, take};
ghost use Rattle.mw_top.specs.PrefixText.{address_text, branches_text, cycle_by_cycle, cycle_text, cycles_text, digit};
ghost use Rattle.mw_top.specs.PrefixText.{digit_or_dash, first_of};
ghost use Rattle.mw_top.specs.PrefixText.{is_address, is_branch, is_counter_zero, is_last, is_pass, binary_number};
ghost use Rattle.mw_top.specs.PrefixText.{prefix_text, values_of};

mod computed_examples;

use mw_base::{NoMemory, append_padded};
use mw_term::{Decided, DecidedKind};
use std::alloc::Global;

/// How many bits a next address has.
const ADDRESS_BITS: usize = 12;

/// Whether a bit says that the test of a cycle passes.
fn is_pass(kind: DecidedKind) -> bool
    ensures { result ≡ is_pass kind }
{
    matches!(kind, DecidedKind::Pass)
}

/// Whether a bit says that the counter is 0 in a cycle.
fn is_counter_zero(kind: DecidedKind) -> bool
    ensures { result ≡ is_counter_zero kind }
{
    matches!(kind, DecidedKind::CounterZero)
}

/// Whether a bit is one of a next address.
fn is_address(kind: DecidedKind) -> bool
    ensures { result ≡ is_address kind }
{
    matches!(kind, DecidedKind::Next(_))
}

/// Whether a bit is the last one of a cycle.
fn is_last(kind: DecidedKind) -> bool
    ensures { result ≡ is_last kind }
{
    matches!(kind, DecidedKind::Next(0))
}

/// Whether a bit is one of the described step.
fn is_branch(kind: DecidedKind) -> bool
    ensures { result ≡ is_branch kind }
{
    matches!(kind, DecidedKind::Branch)
}

/// A bit as a digit.
fn digit(value: bool) -> u8
    ensures { result ≡ digit value }
{
    if value { b'1' } else { b'0' }
}

/// Appends bits as digits.
fn append_digits(report: &mut Vec<u8>, bits: &[bool]) -> Result<(), NoMemory>
    ensures { OnOk result (report.new.items ≡ report.old.items ++ map digit bits.now) }
{
    for bit in bits {
        report.push(digit(*bit))?;
    }
    Ok(())
}

/// The number that bits stand for, the highest first.
fn binary_number(bits: &[bool]) -> u32
    requires { length bits.now ≤ 12 }
    ensures { result ≡ binary_number bits.now }
{
    let mut number = 0;
    for bit in bits {
        number = number * 2 + u32::from(*bit);
    }
    number
}

/// Appends a next address: three digits where it is decided, and else `b` and its bits so far.
fn append_address(alloc: Global, report: &mut Vec<u8>, bits: &[bool]) -> Result<(), NoMemory>
    ensures { OnOk result (report.new.items ≡ report.old.items ++ address_text bits.now) }
{
    if bits.len() == ADDRESS_BITS {
        append_padded(alloc, report, 3, u128::from(binary_number(bits)))
    } else {
        report.push(b'b')?;
        append_digits(report, bits)
    }
}

/// A bit as a digit; `-` where it isn't decided.
fn digit_or_dash(bit: Option<Decided>) -> u8
    ensures { result ≡ digit_or_dash bit }
{
    match bit {
        Some(bit) => digit(bit.value),
        None => b'-',
    }
}

/// Whether the test of a cycle passes, where that is decided.
fn pass_of(cycle: &[Decided]) -> Option<Decided>
    ensures { result ≡ first_of is_pass cycle.now }
{
    cycle.iter().copied().find(|bit| is_pass(bit.kind))
}

/// Whether the counter is 0 in a cycle, where that is decided.
fn counter_zero_of(cycle: &[Decided]) -> Option<Decided>
    ensures { result ≡ first_of is_counter_zero cycle.now }
{
    cycle.iter().copied().find(|bit| is_counter_zero(bit.kind))
}

/// The bits of the next address of a cycle, so far as they are decided.
fn address_bits(alloc: Global, cycle: &[Decided]) -> Result<Vec<bool>, NoMemory>
    ensures { IfOk result (λ bits. bits.items ≡ values_of is_address cycle.now) }
{
    let bits = cycle.iter().filter(|bit| is_address(bit.kind));
    Ok(bits.map(|bit| bit.value).collect(alloc)?)
}

/// Appends the piece of a cycle.
#[tactic(auto, unfolding(crate::specs::PrefixText::cycle_text))]
fn append_cycle(alloc: Global, report: &mut Vec<u8>, cycle: &[Decided]) -> Result<(), NoMemory>
    ensures { OnOk result (report.new.items ≡ report.old.items ++ cycle_text cycle.now) }
{
    let pass = digit_or_dash(pass_of(cycle));
    let counter_zero = digit_or_dash(counter_zero_of(cycle));
    report.extend_from_slice(&[pass, counter_zero])?;
    append_address(alloc, report, &address_bits(alloc, cycle)?)
}

/// The place of the last bit of the first cycle, where that is decided.
fn place_of_last(bits: &[Decided]) -> Option<usize>
    ensures exact { result ≡ position (λ bit. is_last bit.kind) bits.now }
    ensures most { IfSome result (λ place. place < length bits.now) }
{
    bits.iter().position(|bit| is_last(bit.kind))
}

/// How many bits the first cycle has: those up to and with its last one, or all where that isn't decided.
fn cycle_length(bits: &[Decided]) -> usize
    requires { 0 < length bits.now }
    ensures cut { cycle_by_cycle bits.now ≡ take result bits.now ∷ cycle_by_cycle (drop result bits.now) }
    ensures some { 0 < result }
    ensures most { result ≤ length bits.now }
{
    match place_of_last(bits) {
        Some(place) => place + 1,
        None => bits.len(),
    }
}

/// Appends the pieces of the cycles, with a space between two.
fn append_cycles(alloc: Global, report: &mut Vec<u8>, bits: &[Decided]) -> Result<(), NoMemory>
    ensures { OnOk result (report.new.items ≡ report.old.items ++ cycles_text bits.now) }
{
    let mut rest = bits;
    let mut space: &[u8] = b"";
    while !rest.is_empty() {
        let (cycle, later) = rest.split_at(cycle_length(rest));
        report.extend_from_slice(space)?;
        append_cycle(alloc, report, cycle)?;
        rest = later;
        space = b" ";
    }
    Ok(())
}

/// The bits of the cycles: all but those of the described step.
fn cycle_bits(alloc: Global, prefix: &[Decided]) -> Result<Vec<Decided>, NoMemory>
    ensures { IfOk result (λ bits. bits.items ≡ filter (λ bit. not (is_branch bit.kind)) prefix.now) }
{
    let bits = prefix.iter().copied();
    Ok(bits.filter(|bit| !is_branch(bit.kind)).collect(alloc)?)
}

/// The bits of the described step.
fn branch_bits(alloc: Global, prefix: &[Decided]) -> Result<Vec<bool>, NoMemory>
    ensures { IfOk result (λ bits. bits.items ≡ values_of is_branch prefix.now) }
{
    let bits = prefix.iter().filter(|bit| is_branch(bit.kind));
    Ok(bits.map(|bit| bit.value).collect(alloc)?)
}

/// Appends the bits of the described step behind ` / `; nothing where none is decided.
fn append_branches(report: &mut Vec<u8>, bits: &[bool]) -> Result<(), NoMemory>
    ensures { OnOk result (report.new.items ≡ report.old.items ++ branches_text bits.now) }
{
    if !bits.is_empty() {
        report.extend_from_slice(b" / ")?;
        append_digits(report, bits)?;
    }
    Ok(())
}

/// Appends a prefix of decided bits: `-` where it is empty, and else its cycles and the bits of the described step.
#[tactic(auto, unfolding(crate::specs::PrefixText::prefix_text))]
pub(crate) fn append_prefix(
    alloc: Global,
    report: &mut Vec<u8>,
    prefix: &[Decided],
) -> Result<(), NoMemory>
    ensures { OnOk result (report.new.items ≡ report.old.items ++ prefix_text prefix.now) }
{
    if prefix.is_empty() {
        report.push(b'-')?;
        return Ok(());
    }
    append_cycles(alloc, report, &cycle_bits(alloc, prefix)?)?;
    append_branches(report, &branch_bits(alloc, prefix)?)
}
