// States and nets as texts. Their numbers are hexadecimal, but for N in `rN=`, a register; `memA=` is the memory word at
// A. Registers and memory words that are 0 aren't named.
use crate::report::Report;
use mw_base::Event;
use mw_cycle::{Nets, State};
use mw_seq::Seq;

/// Appends addresses with commas between.
fn push_addresses(report: &mut Report, addresses: &[u16]) {
    let mut before: &[u8] = b"";
    for &address in addresses {
        report.push_named(before, u64::from(address));
        before = b",";
    }
}

/// Appends a sequencer: `pc=`, `r=`, `sp=` and `stack=`, whose words have commas between, the oldest first.
pub fn push_sequencer(report: &mut Report, seq: Seq) {
    let Seq {
        pc,
        r,
        stack,
        sp,
        depth,
    } = seq;
    report.push_named(b"pc=", u64::from(pc));
    report.push_named(b" r=", u64::from(r));
    report.push_named(b" sp=", u64::from(sp));
    report.push(b" stack=");
    push_addresses(report, &stack[..usize::from(depth)]);
}

/// Appends the registers that aren't 0, each by its name and with a blank before it.
fn push_registers(report: &mut Report, registers: &[u32]) {
    for (number, &value) in registers.iter().enumerate() {
        if value != 0 {
            report.push(b" r");
            report.push_decimal(number as u64);
            report.push_named(b"=", u64::from(value));
        }
    }
}

/// Appends the word of a memory at an address, by its name and with a blank before it, unless it is 0.
pub fn push_memory_word(report: &mut Report, address: usize, word: u32) {
    if word != 0 {
        report.push_named(b" mem", address as u64);
        report.push_named(b"=", u64::from(word));
    }
}

/// Appends the words of a memory that aren't 0.
pub fn push_memory(report: &mut Report, words: &[u32]) {
    for (address, &word) in words.iter().enumerate() {
        push_memory_word(report, address, word);
    }
}

/// Appends a state: `at=`, the registers, `q=`, `mar=`, `ir=`, `flips=`, the sequencer and the memory.
pub fn push_state(report: &mut Report, state: &State) {
    report.push_named(b"at=", u64::from(state.at));
    push_registers(report, &state.regs);
    report.push_named(b" q=", u64::from(state.q));
    report.push_named(b" mar=", u64::from(state.mar));
    report.push_named(b" ir=", u64::from(state.ir));
    report.push_named(b" flips=", u64::from(state.flips));
    report.push(b" ");
    push_sequencer(report, state.seq);
    push_memory(report, &state.memory);
}

/// Appends an event: `none`, `out:` and the word that was put, or `taken:` and the word that was taken.
pub fn push_event(report: &mut Report, event: Option<Event>) {
    match event {
        None => report.push(b"none"),
        Some(Event::Out(value)) => report.push_named(b"out:", u64::from(value)),
        Some(Event::Taken(value)) => report.push_named(b"taken:", u64::from(value)),
    }
}

/// Appends a microword.
fn push_microword(report: &mut Report, word: u128) {
    let high = (word >> 64) as u64;
    let low = (word & 0xffff_ffff_ffff_ffff) as u64;
    if high == 0 {
        report.push_digits(low);
    } else {
        report.push_digits(high);
        report.push_all_digits(low);
    }
}

/// Appends a name and a bit.
fn push_bit(report: &mut Report, name: &[u8], bit: bool) {
    report.push_named(name, u64::from(bit));
}

/// Appends the nets of a cycle: its microword, the ALU's inputs and answers, the test, the next address and the event.
pub fn push_nets(report: &mut Report, nets: &Nets) {
    report.push(b"word=");
    push_microword(report, nets.word);
    report.push_named(b" a=", u64::from(nets.a));
    report.push_named(b" b=", u64::from(nets.b));
    report.push_named(b" d=", u64::from(nets.d));
    report.push_named(b" f=", u64::from(nets.f));
    report.push_named(b" y=", u64::from(nets.y));
    push_bit(report, b" cin=", nets.cin);
    push_bit(report, b" carry=", nets.carry);
    push_bit(report, b" overflow=", nets.overflow);
    push_bit(report, b" zero=", nets.zero);
    push_bit(report, b" sign=", nets.sign);
    push_bit(report, b" pass=", nets.pass);
    report.push_named(b" next=", u64::from(nets.next));
    report.push(b" event=");
    push_event(report, nets.event);
}
