// The PDP-8, whose texts are constants, and the same with faults.
ghost use Rattle.std.specs.Prelude.{◌≡◌, ◌≤◌, length, IsTrue};
ghost use Rattle.std.specs.Option.{IfSome};
ghost use Rattle.mw_cases.specs.declared.pdp8_micro.TheConstants.{MICRO};
ghost use Rattle.mw_cases.specs.declared.pdp8_texts.TheConstants.{BOARD, MACHINE, RELATION};
ghost use Rattle.mw_cases.specs.Faults.{with_changes, changes_of, each_stands_once};

use crate::{pdp8_micro, pdp8_texts};

/// The four texts of a job, as `certify` reads them.
pub struct Texts {
    /// The board file: parts, fields, flip-flops, selections and the map.
    pub board: &'static [u8],
    /// The microprogram, which makes the board the machine.
    pub micro: &'static [u8],
    /// The described machine: what one of its instructions does.
    pub machine: &'static [u8],
    /// The relation: where board and machine are compared, and what holds there.
    pub relation: &'static [u8],
}

/// A PDP-8, after the PDP-8/E: the files of `examples/pdp8`, byte for byte.
pub fn pdp8() -> Texts
    ensures board_is { result.board.now ≡ BOARD.now }
    ensures micro_is { result.micro.now ≡ MICRO.now }
    ensures machine_is { result.machine.now ≡ MACHINE.now }
    ensures relation_is { result.relation.now ≡ RELATION.now }
    // No text is longer than what a reader takes.
    ensures board { length result.board.now ≤ 1048576 }
    ensures micro { length result.micro.now ≤ 1048576 }
    ensures machine { length result.machine.now ≤ 1048576 }
    ensures relation { length result.relation.now ≤ 1048576 }
{
    Texts {
        board: pdp8_texts::BOARD,
        micro: pdp8_micro::MICRO.as_bytes(),
        machine: pdp8_texts::MACHINE,
        relation: pdp8_texts::RELATION,
    }
}

/// The microprogram of `pdp8()` with the fault of this number.
fn faulty_micro(number: u8) -> Option<&'static str>
    ensures none { result ≡ None → ¬ ((1 ≤ number) × (number ≤ 12)) }
    ensures some { IfSome result (λ micro. (1 ≤ number) × (number ≤ 12)) }
    ensures micro { IfSome result (λ micro. micro.now ≡ with_changes (changes_of number) MICRO.now) }
    ensures standing { IfSome result (λ micro. IsTrue (each_stands_once (changes_of number) MICRO.now)) }
{
    match number {
        1 => Some(pdp8_micro::FAULT_1),
        2 => Some(pdp8_micro::FAULT_2),
        3 => Some(pdp8_micro::FAULT_3),
        4 => Some(pdp8_micro::FAULT_4),
        5 => Some(pdp8_micro::FAULT_5),
        6 => Some(pdp8_micro::FAULT_6),
        7 => Some(pdp8_micro::FAULT_7),
        8 => Some(pdp8_micro::FAULT_8),
        9 => Some(pdp8_micro::FAULT_9),
        10 => Some(pdp8_micro::FAULT_10),
        11 => Some(pdp8_micro::FAULT_11),
        12 => Some(pdp8_micro::FAULT_12),
        _ => None,
    }
}

/// The PDP-8 of `pdp8()` with one of twelve mistakes in its microprogram, which `specs/Faults` has by
/// their numbers. Board, machine and relation are the same. None where the number isn't 1 to 12.
pub fn pdp8_fault(number: u8) -> Option<Texts>
    ensures none { result ≡ None → ¬ ((1 ≤ number) × (number ≤ 12)) }
    ensures some { IfSome result (λ texts. (1 ≤ number) × (number ≤ 12)) }
    // The microprogram differs in the lines of the fault alone, each of which stands there once.
    ensures micro { IfSome result (λ texts. texts.micro.now ≡ with_changes (changes_of number) MICRO.now) }
    ensures standing { IfSome result (λ texts. IsTrue (each_stands_once (changes_of number) MICRO.now)) }
    ensures board { IfSome result (λ texts. texts.board.now ≡ BOARD.now) }
    ensures machine { IfSome result (λ texts. texts.machine.now ≡ MACHINE.now) }
    ensures relation { IfSome result (λ texts. texts.relation.now ≡ RELATION.now) }
{
    let micro = faulty_micro(number)?;
    let mut texts = pdp8();
    texts.micro = micro.as_bytes();
    Some(texts)
}
