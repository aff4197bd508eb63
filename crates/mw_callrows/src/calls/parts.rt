// The parts of a board, one by one.
ghost use Rattle.std.specs.Prelude.{◌<◌, IfOk};

use mw_alu::{AluOut, Pins, alu};
use mw_base::Width;
use mw_rowfile::named::{address_of, bit_of, hexadecimal_of, sequencer_of};
use mw_rowfile::texts::push_sequencer;
use mw_rowfile::{Fault, Report, wrong};
use mw_slice::{Slice, SliceOut};

/// The instruction whose R is D and whose S is A, that writes nothing, by the code of its function.
fn instruction(given: &[String]) -> Result<u16, Fault>
    ensures { IfOk result (λ ins. ins < 512) }
{
    let function = hexadecimal_of(given, "function")?;
    if function < 8 && given.len() == 1 {
        Ok(0o105 + function as u16 * 0o010)
    } else {
        Err(wrong("`function=` is a number below 8"))
    }
}

/// Carry, overflow, zero and sign as a digit, carry the highest bit.
fn flags(carry: bool, overflow: bool, zero: bool, sign: bool) -> u128 {
    u128::from(carry) << 3 | u128::from(overflow) << 2 | u128::from(zero) << 1 | u128::from(sign)
}

/// Appends F and the flags, a digit each.
fn push_alu(report: &mut Report, out: AluOut) {
    let flags = flags(out.carry, out.overflow, out.zero, out.sign);
    report.push_padded(2, u128::from(out.f) << 4 | flags);
}

/// Appends the same of one slice, and G and P as a third digit.
fn push_slice(report: &mut Report, out: SliceOut) {
    let flags = flags(out.carry, out.overflow, out.zero, out.sign);
    let carries = u128::from(out.g) << 1 | u128::from(out.p);
    report.push_padded(3, u128::from(out.f) << 8 | flags << 4 | carries);
}

/// Appends a line: these bytes and how many answers they are said of.
fn push_count(report: &mut Report, front: &[u8], count: u64) {
    report.push(front);
    report.push_decimal(count);
    report.push(b"\n");
}

/// `call alu function=N`: a line for each R of four bits has, for each S and carry in, F and the flags as two digits. A
/// last line says whether carry and overflow are defined, in the answer to zeros.
pub fn alu_table(report: &mut Report, given: &[String]) -> Result<(), Fault> {
    let ins = instruction(given)?;
    let Some(width) = Width::new(4) else {
        return Err(wrong("no width"));
    };
    let mut defined = 0u64;
    for r in 0..16u32 {
        for s in 0..16u32 {
            for carry_in in [false, true] {
                let out = alu(width, ins, s, 0, 0, r, carry_in);
                defined = defined.saturating_add(u64::from(out.defined));
                push_alu(report, out);
            }
        }
        report.push(b"\n");
    }
    push_count(report, b"carry and overflow are defined in ", defined);
    Ok(())
}

/// `call slice function=N`: the same of one slice, whose S is register 7, with G and P as a third digit. A last line
/// says in how many answers Y is F.
pub fn slice_table(report: &mut Report, given: &[String]) -> Result<(), Fault> {
    let ins = instruction(given)?;
    let pins = Pins {
        ram_high: false,
        ram_low: false,
        q_high: false,
        q_low: false,
    };
    let mut same = 0u64;
    for r in 0..16u8 {
        for s in 0..16u8 {
            for carry_in in [false, true] {
                let mut slice = Slice {
                    regs: [s; 16],
                    q: 0,
                };
                let out = slice.step(ins, 7, 0, r, carry_in, pins);
                same = same.saturating_add(u64::from(out.y == out.f));
                push_slice(report, out);
            }
        }
        report.push(b"\n");
    }
    push_count(report, b"Y is F in ", same);
    Ok(())
}

/// The code of an instruction of the sequencer.
fn code(given: &[String]) -> Result<u8, Fault>
    ensures { IfOk result (λ ins. ins < 16) }
{
    let number = hexadecimal_of(given, "ins")?;
    if number < 16 {
        Ok(number as u8)
    } else {
        Err(wrong("`ins=` is a number below 16"))
    }
}

/// `call step ins= pass= d= ci= rld= noise= pc= r= sp= stack=`: the next address, and the sequencer after it.
pub fn stepped(report: &mut Report, given: &[String]) -> Result<(), Fault> {
    if given.len() != 10 {
        return Err(wrong("`step` has ten numbers"));
    }
    let ins = code(given)?;
    let pass = bit_of(given, "pass")?;
    let d = address_of(given, "d")?;
    let ci = bit_of(given, "ci")?;
    let rld = bit_of(given, "rld")?;
    let noise = address_of(given, "noise")?;
    let mut seq = match sequencer_of(given) {
        Ok(seq) => seq,
        Err(fault) => return Err(fault),
    };
    let next = seq.step(ins, pass, d, ci, rld, noise);
    report.push_named(b"next=", u64::from(next));
    report.push(b" ");
    push_sequencer(report, seq);
    report.push(b"\n");
    Ok(())
}
