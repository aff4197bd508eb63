// The Am2901 as slices: worked sums and shifts.
use mw_alu::{AluOut, Pins};
use mw_base::Width;
use mw_slice::{sliced, sliced_shift};
use std::test::Fail;

/// Carry, overflow, zero and sign as four bits.
fn flags(out: AluOut) -> u32 {
    u32::from(out.carry) << 3
        | u32::from(out.overflow) << 2
        | u32::from(out.zero) << 1
        | u32::from(out.sign)
}

#[test]
fn subr_of_zeros(rt: HostRuntime) -> Result<(), Fail> {
    let width = Width::new(4).ok_or("a width")?;
    let out = sliced(width, 0o117, 0, 0, 0, 0, false);
    assert_eq!(rt; (out.f, flags(out)), (15, 0b0001));
    Ok(())
}

#[test]
fn add_overflows(rt: HostRuntime) -> Result<(), Fail> {
    let width = Width::new(4).ok_or("a width")?;
    let out = sliced(width, 0o105, 1, 0, 0, 7, false);
    assert_eq!(rt; (out.f, flags(out)), (8, 0b0101));
    Ok(())
}

#[test]
fn add_carries_out(rt: HostRuntime) -> Result<(), Fail> {
    let width = Width::new(16).ok_or("a width")?;
    let out = sliced(width, 0o107, 0, 0, 0, 0xFFFF, true);
    assert_eq!(rt; (out.f, flags(out)), (0, 0b1010));
    Ok(())
}

#[test]
fn ramqd_shifts(rt: HostRuntime) -> Result<(), Fail> {
    let width = Width::new(4).ok_or("a width")?;
    let pins = Pins {
        ram_high: false,
        ram_low: false,
        q_high: true,
        q_low: false,
    };
    let out = sliced_shift(width, 0o400, 3, 4, pins);
    assert!(rt; out.write_b && out.write_q);
    assert_eq!(rt; (out.b, out.q), (1, 10));
    Ok(())
}
