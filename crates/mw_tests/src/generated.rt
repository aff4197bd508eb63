// What is generated of two numbers, and which faults there are. The words are those that tools/generate.py prints.
use mw_cases::{Made, Texts, generate, pdp8, pdp8_fault};
use std::alloc::Global;
use std::test::Fail;

/// What is looked at of a generated job.
#[derive(Clone, Copy)]
struct Seen {
    operations: u32,
    /// The word at address 16.
    first: u128,
    /// The word at address 20.
    second: u128,
}

/// The word of a job at an address.
fn word_of(made: &Made, address: u16) -> u128 {
    made.job.store.word(&made.job.board, address)
}

/// What is looked at of the job of a number.
fn look_at(alloc: Global, number: u16) -> Result<Seen, Fail> {
    match generate(alloc, number) {
        Ok(made) => {
            let seen = Seen {
                operations: made.operations,
                first: word_of(&made, 16),
                second: word_of(&made, 20),
            };
            drop(made);
            Ok(seen)
        }
        Err(_) => Err(Fail::from("a job")),
    }
}

#[test]
fn generated_word(rt: HostRuntime) -> Result<(), Fail> {
    let first = look_at(rt.alloc(), 0)?;
    assert_eq!(rt; first.operations, 640);
    assert_eq!(rt; first.first, 0x4_000C_00C1);
    let seventh = look_at(rt.alloc(), 7)?;
    assert_eq!(rt; seventh.operations, 640);
    assert_eq!(rt; seventh.first, 0x38_24F1);
    assert_eq!(rt; seventh.second, 0x4_000E_02C9);
    Ok(())
}

/// The microprogram of texts.
fn micro_of(texts: Texts) -> &'static [u8] {
    let Texts {
        board: _board,
        micro,
        machine: _machine,
        relation: _relation,
    } = texts;
    micro
}

#[test]
fn twelve_faults(rt: HostRuntime) {
    let without = Some(micro_of(pdp8()));
    for number in 0..=255 {
        let micro = pdp8_fault(number).map(micro_of);
        assert_eq!(rt; micro.is_some(), (1..=12).contains(&number), "{number}");
        assert_ne!(rt; micro, without, "{number}");
    }
}
