ghost use Rattle.std.specs.Prelude.{◌<◌, ◌≤◌};

// The sequencers: instructions worked by hand, and full stacks of both.
use mw_seq::Seq;

const RFCT: u8 = 8;

const CRTN: u8 = 10;

const PUSH: u8 = 4;

const TWB: u8 = 15;

/// A sequencer of five words, with `sp` of them on the stack, the top one `word`.
fn sequencer(pc: u16, r: u16, word: u16, sp: u8) -> Seq
    requires pc { pc < 4096 }
    requires r { r < 4096 }
    requires word { word < 4096 }
    requires some { 1 ≤ sp }
    requires few { sp ≤ 5 }
{
    let mut seq = Seq::cleared(5);
    seq.set_word(sp - 1, word);
    seq.pc = pc;
    seq.r = r;
    seq.sp = sp;
    seq
}

#[test]
fn rfct(rt: HostRuntime) {
    let mut at_zero = sequencer(5, 0, 2, 1);
    assert_eq!(rt; at_zero.step(RFCT, false, 0, true, false, 0), 5);
    assert_eq!(rt; (at_zero.sp, at_zero.r, at_zero.pc), (0, 0, 6));
    assert_eq!(rt; at_zero.stack, [2, 0, 0, 0, 0, 0, 0, 0, 0]);

    let mut counting = sequencer(5, 3, 2, 1);
    assert_eq!(rt; counting.step(RFCT, false, 0, true, false, 0), 2);
    assert_eq!(rt; (counting.sp, counting.r, counting.pc), (1, 2, 3));
    assert_eq!(rt; counting.stack, [2, 0, 0, 0, 0, 0, 0, 0, 0]);
}

#[test]
fn six_pushes(rt: HostRuntime) {
    let mut seq = Seq::cleared(5);
    seq.pc = 1;
    for pushed in 1..=6 {
        assert_eq!(rt; seq.full(), pushed == 6);
        assert_eq!(rt; seq.step(PUSH, false, 0, true, false, 0), pushed);
    }
    for returned in [6, 4, 3, 2, 1] {
        assert_eq!(rt; seq.step(CRTN, true, 0, true, false, 0), returned);
    }
    assert_eq!(rt; seq.step(CRTN, true, 0, true, false, 0x0123), 0x123);
    assert_eq!(rt; (seq.sp, seq.pc), (0, 0x124));
}

#[test]
fn six_pushes_nine_words(rt: HostRuntime) {
    let mut seq = Seq::cleared(9);
    seq.pc = 1;
    for pushed in 1..=6 {
        assert_eq!(rt; seq.step(PUSH, false, 0, true, false, 0), pushed);
    }
    assert!(rt; !seq.full());
    for returned in [6, 5, 4, 3, 2, 1] {
        assert_eq!(rt; seq.step(CRTN, true, 0, true, false, 0), returned);
    }
}

#[test]
fn ten_pushes_nine_words(rt: HostRuntime) {
    let mut seq = Seq::cleared(9);
    seq.pc = 1;
    for pushed in 1..=10 {
        assert_eq!(rt; seq.full(), pushed == 10);
        assert_eq!(rt; seq.step(PUSH, false, 0, true, false, 0), pushed);
    }
    for returned in [10, 8] {
        assert_eq!(rt; seq.step(CRTN, true, 0, true, false, 0), returned);
    }
}

#[test]
fn twb_fails_at_zero(rt: HostRuntime) {
    let mut seq = sequencer(9, 0, 7, 2);
    assert_eq!(rt; seq.step(TWB, false, 0x040, true, false, 0), 0x040);
    assert_eq!(rt; (seq.sp, seq.r), (1, 0));
}

#[test]
fn loads_from_the_direct_input(rt: HostRuntime) {
    // RLD wins over the count of RFCT, whose test reads the old R
    let mut seq = sequencer(5, 3, 2, 1);
    assert_eq!(rt; seq.step(RFCT, false, 0x456, false, true, 0), 2);
    assert_eq!(rt; (seq.r, seq.pc, seq.sp), (0x456, 2, 1));
}
