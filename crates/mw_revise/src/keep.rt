// What a KEEP text says.
ghost use Rattle.std.specs.Prelude.{◌≡◌};
ghost use Rattle.mw_revise.specs.Elements.{element_in};

use mw_base::Items;

/// What two states have in an element where they stand together.
#[derive(Clone, Copy, Debug)]
pub enum KeepLine {
    /// The element with this number has the same value in both.
    Equal(u32),
    /// The element with this number has the first of these values in the state of the old program, and the second one
    /// in that of the new program.
    Fixed(u32, u32, u32),
}

/// A boundary at which both programs arrive together.
#[derive(Debug, Drop)]
pub struct Block {
    /// Its control address in the old program, below 4,096.
    pub before: u16,
    /// Its control address in the new program, below 4,096.
    pub after: u16,
    /// The most cycles of a segment that begins there, 1 to 500.
    pub bound: u32,
    /// How many words are on both stacks.
    pub sp: u8,
    /// What both states have in elements, in file order.
    pub lines: Items<KeepLine>,
}

/// Where and how an old and a new program stand together.
#[derive(Debug, Drop)]
pub struct Keep {
    /// The boundaries, in file order.
    pub blocks: Items<Block>,
}

impl KeepLine {
    /// The number of its element.
    pub fn element(self) -> u32
        ensures { result ≡ element_in self }
    {
        match self {
            KeepLine::Equal(element) => element,
            KeepLine::Fixed(element, _, _) => element,
        }
    }
}
