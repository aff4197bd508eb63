// The instructions that refer to memory.
ghost use Rattle.std.specs.Prelude.{◌≡◌, ◌<◌};
ghost use Rattle.mw_pal.specs.Opcodes.{spelling, number_of, opcode_named};

/// An instruction that refers to memory.
#[derive(Clone, Copy)]
pub(crate) enum Opcode {
    /// Ands a word with the accumulator.
    And,
    /// Adds a word to accumulator and link.
    Tad,
    /// Increments a word, and skips where it becomes 0.
    Isz,
    /// Deposits the accumulator, and clears it.
    Dca,
    /// Jumps to a subroutine.
    Jms,
    /// Jumps.
    Jmp,
}

/// All of them.
const OPCODES: [Opcode; 6] = [
    Opcode::And,
    Opcode::Tad,
    Opcode::Isz,
    Opcode::Dca,
    Opcode::Jms,
    Opcode::Jmp,
];

impl Opcode {
    /// How it is spelled.
    fn bytes(self) -> &'static [u8]
        ensures { result.now ≡ spelling self }
    {
        match self {
            Opcode::And => b"and",
            Opcode::Tad => b"tad",
            Opcode::Isz => b"isz",
            Opcode::Dca => b"dca",
            Opcode::Jms => b"jms",
            Opcode::Jmp => b"jmp",
        }
    }

    /// The three highest bits of its code.
    pub fn number(self) -> u16
        ensures exact { result ≡ number_of self }
        ensures low { result < 6 }
    {
        match self {
            Opcode::And => 0,
            Opcode::Tad => 1,
            Opcode::Isz => 2,
            Opcode::Dca => 3,
            Opcode::Jms => 4,
            Opcode::Jmp => 5,
        }
    }
}

/// The one that is spelled so.
#[tactic(auto, unfolding(crate::specs::Opcodes::opcode_named))]
pub(crate) fn opcode_named(bytes: &[u8]) -> Option<Opcode>
    ensures { result ≡ opcode_named bytes.now }
{
    OPCODES
        .iter()
        .copied()
        .find(|opcode| opcode.bytes() == bytes)
}
