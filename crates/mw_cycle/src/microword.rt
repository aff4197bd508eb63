// A microword, decoded.
ghost use Rattle.std.specs.Prelude.{◌≡◌, ◌<◌, ◌%◌, ◌^◌, length, slice_get};
ghost use Rattle.mw_board.specs.Valid.{IsFlipFlop, IsLoad, IsPoint};
ghost use Rattle.mw_cycle.specs.Control.{in_field, value_at};
ghost use Rattle.mw_cycle.specs.Cycle.{load_of, uses_memory};
ghost use Rattle.mw_cycle.specs.Microword.{instruction_of, points_of, IsMicroword};

use crate::control::{chosen, in_field, is_on, low_bits, point, value_at};
use mw_board::{Bit, Board, Control, DFrom, DSource, FlipFlop, Load};

/// A microword, and what it has at each control point of its board.
#[derive(Clone, Copy, Debug)]
pub struct Microword {
    /// The microword itself.
    pub word: u128,
    /// The Am2901's nine-bit instruction.
    pub instruction: u16,
    /// The register that A reads.
    pub a_address: u8,
    /// The register that B reads, and that the edge writes.
    pub b_address: u8,
    /// The bit at the carry in.
    pub carry_in: Bit,
    /// The source of D.
    pub d: DSource,
    /// The bit that the test reads.
    pub condition: Bit,
    /// The test reads the opposite of its bit.
    pub polarity: bool,
    /// The test passes whatever its bit is.
    pub test_disable: bool,
    /// The sequencer's instruction.
    pub sequencer: u8,
    /// The branch address.
    pub branch: u16,
    /// The carry into the microprogram counter.
    pub ci: bool,
    /// The register/counter is loaded from the direct address.
    pub rld: bool,
    /// The bit at both ends of the registers' shift.
    pub ram_link: Bit,
    /// The bit at both ends of Q's shift.
    pub q_link: Bit,
    /// `mar` takes the low bits of Y.
    pub mar_load: bool,
    /// `ir` takes Y.
    pub ir_load: bool,
    /// The memory word at `mar` takes Y.
    pub memory_write: bool,
    /// Y is put out.
    pub out: bool,
}

/// D is 0.
const NO_SOURCE: DSource = DSource {
    from: DFrom::Zero,
    mask: None,
};

/// The Am2901's instruction: its source, its function and its destination, of three bits each.
fn instruction(board: &Board, word: u128) -> u16
    ensures exact { result ≡ instruction_of board.now word }
    ensures below { result < 512 }
{
    let control = &board.parts().control;
    let source = point::<3>(board, word, control.alu_source);
    let function = point::<3>(board, word, control.alu_function);
    let destination = point::<3>(board, word, control.alu_destination);
    destination * 64 + function * 8 + source
}

/// The number of a register or of an instruction of the sequencer.
fn four_bits(board: &Board, word: u128, control: Control) -> u8
    requires { IsPoint 4 board.now.fields control }
    ensures exact { result ≡ value_at board.now.fields word control }
    ensures below { result < 16 }
{
    point::<4>(board, word, control) as u8
}

impl Microword {
    /// Whether it uses memory: its D source is the memory, whether D is read or not, or it writes there.
    pub fn uses_memory(&self) -> bool
        ensures { result ≡ uses_memory self.now }
    {
        matches!(self.d.from, DFrom::Memory) || self.memory_write
    }

    /// What the microword has at each control point of the board.
    #[tactic(auto, unfolding(crate::specs::Microword::points_of))]
    pub fn decoded(board: &Board, word: u128) -> Microword
        ensures exact { result ≡ points_of board.now word }
        ensures valid { IsMicroword board.now result }
    {
        let parts = board.parts();
        let control = &parts.control;
        let link = value_at(board, word, control.link);
        Microword {
            word,
            instruction: instruction(board, word),
            a_address: four_bits(board, word, control.a_address),
            b_address: four_bits(board, word, control.b_address),
            carry_in: chosen(
                Bit::Zero,
                parts.carry_in.as_slice(),
                value_at(board, word, control.carry_in),
            ),
            d: chosen(
                NO_SOURCE,
                parts.d.as_slice(),
                value_at(board, word, control.d),
            ),
            condition: chosen(
                Bit::Zero,
                parts.condition.as_slice(),
                value_at(board, word, control.condition),
            ),
            polarity: is_on(board, word, control.polarity),
            test_disable: is_on(board, word, control.test_disable),
            sequencer: four_bits(board, word, control.sequencer),
            branch: point::<12>(board, word, control.branch),
            ci: is_on(board, word, control.ci),
            rld: is_on(board, word, control.rld),
            ram_link: chosen(Bit::Zero, parts.ram_link.as_slice(), link),
            q_link: chosen(Bit::Zero, parts.q_link.as_slice(), link),
            mar_load: is_on(board, word, control.mar_load),
            ir_load: is_on(board, word, control.ir_load),
            memory_write: is_on(board, word, control.memory_write),
            out: is_on(board, word, control.out),
        }
    }

    /// The low bits, as many as the board's width, of what a field of the board has.
    pub fn field(&self, board: &Board, number: u8) -> u32
        ensures exact { result ≡ in_field (slice_get board.now.fields number) self.now.word % 2 ^ board.now.width }
        ensures below { result < 2 ^ board.now.width }
    {
        low_bits(
            u128::from(in_field(board, number, self.word)),
            board.width().bits(),
        )
    }

    /// Which of its loads a flip-flop of the board takes.
    pub fn load(&self, board: &Board, flipflop: &FlipFlop) -> Load
        requires { IsFlipFlop board.now flipflop.now }
        ensures exact { result ≡ load_of board.now self.now flipflop.now }
        ensures valid { IsLoad board.now.width (length board.now.flipflop) result }
    {
        let entry = value_at(board, self.word, flipflop.control);
        chosen(Load::Hold, flipflop.load.as_slice(), entry)
    }
}
