// The parts of a board.
ghost use Rattle.std.specs.Prelude.{◌≡◌};
ghost use Rattle.mw_seq.specs.Sequencer.{IsDepth};
ghost use Rattle.mw_board.specs.Depth.{depth_of};

use crate::bit::{Bit, DSource};
use crate::control::Points;
use crate::field::NamedField;
use crate::flipflop::FlipFlop;
use mw_base::Items;

/// All that a board is made of. Parts may break the rules of boards; a `Board` keeps them.
#[derive(Debug, Drop)]
pub struct BoardParts {
    /// How many bits a register and a memory word have: a multiple of 4, from 4 to 32.
    pub width: u8,
    /// How many bits a microword has, 1 to 128.
    pub microword: u8,
    /// How many bits a memory address has: 1 to 16, and no more than the width.
    pub address: u8,
    /// The microword past the last assembled one.
    pub fill: u128,
    /// The microword whose bits stand where a line of a microprogram sets none.
    pub unset: u128,
    /// The address that the vector gives, of 12 bits.
    pub vector: u16,
    /// How many words the sequencer's stack has: 5, as that of an Am2910, or 9, as that of an Am2910A.
    pub stack: u8,
    /// The fields, at most 64, in byte order of their names.
    pub fields: Items<NamedField>,
    /// The flip-flops, at most 16.
    pub flipflop: Items<FlipFlop>,
    /// What drives the control points.
    pub control: Points,
    /// What the carry in can be, 1 to 64 bits.
    pub carry_in: Items<Bit>,
    /// What the test can read, 1 to 64 bits.
    pub condition: Items<Bit>,
    /// What can be at the ends of the registers' shift, 1 to 64 bits.
    pub ram_link: Items<Bit>,
    /// What can be at the ends of Q's shift, 1 to 64 bits.
    pub q_link: Items<Bit>,
    /// What D can be, 1 to 64 sources.
    pub d: Items<DSource>,
    /// The lowest bit of the instruction register that the map sees.
    pub map_low: u8,
    /// How many bits it sees, at most 8.
    pub map_bits: u8,
    /// The address, of 12 bits, that it gives for each of their values. Without bits there is none, and it gives 0.
    pub map_entries: Items<u16>,
}

impl BoardParts {
    /// How many words the sequencer's stack has: 9 as that of an Am2910A, else 5.
    #[tactic(auto, unfolding(crate::specs::Depth::depth_of))]
    pub fn depth(&self) -> u8
        ensures exact { result ≡ depth_of self.now }
        ensures known { IsDepth result }
    {
        if self.stack == 9 { 9 } else { 5 }
    }
}
