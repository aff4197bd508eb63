// Decided bits as rows have them.
use mw_rowfile::Report;
use mw_term::{Decided, DecidedKind};

/// What is decided of a cycle so far: the digits of pass and counter zero, and the bits of the next address.
#[derive(Clone, Copy)]
struct Piece {
    pass: u8,
    zero: u8,
    address: u16,
    /// Whether a bit of the next address is decided.
    is_at_address: bool,
}

impl Piece {
    /// Nothing is decided.
    fn new() -> Piece {
        Piece {
            pass: b'-',
            zero: b'-',
            address: 0,
            is_at_address: false,
        }
    }

    /// Whether something is decided.
    fn is_begun(self) -> bool {
        self.pass != b'-' || self.zero != b'-' || self.is_at_address
    }
}

/// A bit as a digit.
fn digit(value: bool) -> u8 {
    if value { b'1' } else { b'0' }
}

/// Appends the digits of pass and counter zero, with a blank before them.
fn push_tests(report: &mut Report, piece: Piece) {
    report.push(b" ");
    report.push(&[piece.pass, piece.zero]);
}

/// Takes a bit of a cycle, and appends the cycle behind its last one.
fn take_bit(report: &mut Report, piece: &mut Piece, kind: DecidedKind, value: bool) {
    match kind {
        DecidedKind::Pass => piece.pass = digit(value),
        DecidedKind::CounterZero => piece.zero = digit(value),
        DecidedKind::Next(place) => {
            piece.address = piece.address << 1 | u16::from(value);
            piece.is_at_address = true;
            if place == 0 {
                push_tests(report, *piece);
                report.push_address(piece.address);
                *piece = Piece::new();
            }
        }
        DecidedKind::Branch => {}
    }
}

/// Appends what is decided of a cycle that isn't whole, whose bits of the next address are among these.
fn push_begun(report: &mut Report, piece: Piece, bits: &[Decided]) {
    push_tests(report, piece);
    report.push(b"b");
    for bit in bits {
        if let DecidedKind::Next(_) = bit.kind {
            report.push_bit(bit.value);
        }
    }
}

/// Appends the cycles of some bits. The last one may not be whole.
fn push_cycles(report: &mut Report, bits: &[Decided]) {
    let mut piece = Piece::new();
    let mut rest = bits;
    for (place, bit) in bits.iter().enumerate() {
        take_bit(report, &mut piece, bit.kind, bit.value);
        if bit.kind == DecidedKind::Next(0) {
            rest = &bits[place + 1..];
        }
    }
    if piece.is_begun() {
        push_begun(report, piece, rest);
    }
}

/// Appends the branch bits, where there are any.
fn push_branches(report: &mut Report, bits: &[Decided]) {
    let mut before: &[u8] = b" / ";
    for bit in bits {
        if bit.kind == DecidedKind::Branch {
            report.push(before);
            report.push_bit(bit.value);
            before = b"";
        }
    }
}

/// Appends decided bits, with a blank before them: the cycles, each as pass, counter zero and next address, and the
/// branch bits behind `/`; `-` where there are none. Of a cycle that isn't whole, `b` and the bits so far stand in
/// place of the next address.
pub fn push_prefix(report: &mut Report, bits: &[Decided]) {
    if bits.is_empty() {
        report.push(b" -");
    }
    push_cycles(report, bits);
    push_branches(report, bits);
}
