// Widths, printed numbers, names and lists.
use mw_base::{Items, Name, Width, append_decimal, append_hex, append_padded, bit, mask};
use std::test::Fail;

#[test]
fn widths(rt: HostRuntime) -> Result<(), Fail> {
    for (bits, greatest) in [
        (1, 1),
        (4, 15),
        (12, 4095),
        (31, 0x7FFF_FFFF),
        (32, 0xFFFF_FFFF),
    ] {
        let width = Width::new(bits).ok_or("a width")?;
        assert_eq!(rt; width.bits(), bits);
        assert_eq!(rt; mask(width), greatest, "the mask of {bits} bits");
    }
    assert_eq!(rt; Width::new(0), None);
    assert_eq!(rt; Width::new(33), None);
    assert!(rt; bit(0x8000_0000, 31) && !bit(0x8000_0000, 30));
    Ok(())
}

#[test]
fn printed_numbers(rt: HostRuntime) -> Result<(), Fail> {
    let mut text = Vec::new(rt.alloc());
    for value in [0, 9, 10, 0x1_0000, 0x3802C1, u128::MAX] {
        append_hex(rt.alloc(), &mut text, value)
            .ok()
            .ok_or("memory")?;
        text.push(b' ')?;
    }
    for value in [0, 7, 10, 65_535, u64::MAX] {
        append_decimal(rt.alloc(), &mut text, value)
            .ok()
            .ok_or("memory")?;
        text.push(b' ')?;
    }
    let wanted = b"0x0 0x9 0xA 0x10000 0x3802C1 0xFFFFFFFFFFFFFFFFFFFFFFFFFFFFFFFF \
        0 7 10 65535 18446744073709551615 ";
    assert_eq!(rt; text.as_slice(), wanted.as_slice());
    Ok(())
}

#[test]
fn padded_numbers(rt: HostRuntime) -> Result<(), Fail> {
    let mut text = Vec::new(rt.alloc());
    for (digits, value) in [(3, 0xF), (3, 0xFFF), (3, 0xABCD), (0, 5), (32, u128::MAX)] {
        append_padded(rt.alloc(), &mut text, digits, value)
            .ok()
            .ok_or("memory")?;
        text.push(b' ')?;
    }
    let wanted = b"00F FFF BCD  FFFFFFFFFFFFFFFFFFFFFFFFFFFFFFFF ";
    assert_eq!(rt; text.as_slice(), wanted.as_slice());
    Ok(())
}

#[test]
fn names(rt: HostRuntime) -> Result<(), Fail> {
    let name = Name::new(rt.alloc(), b"link").ok().ok_or("memory")?;
    assert_eq!(rt; name.as_slice(), b"link".as_slice());
    let bytes = Vec::from_slice(rt.alloc(), b"carry")?;
    assert_eq!(rt; Name::from_vec(bytes).as_slice(), b"carry".as_slice());
    Ok(())
}

#[test]
fn lists(rt: HostRuntime) -> Result<(), Fail> {
    let list = Items::from_vec(Vec::from_slice(rt.alloc(), &[3, 1, 2])?);
    assert_eq!(rt; list.as_slice(), [3, 1, 2].as_slice());
    assert_eq!(rt; list.into_vec().as_slice(), [3, 1, 2].as_slice());
    let copied = Items::from_slice(rt.alloc(), &[4, 5])?;
    assert_eq!(rt; copied.as_slice(), [4, 5].as_slice());
    Ok(())
}
