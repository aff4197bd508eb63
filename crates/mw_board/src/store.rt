// The control store.
ghost use Rattle.std.specs.Prelude.{◌≡◌};
ghost use Rattle.mw_board.specs.Store.{word_at};

use crate::board::Board;
use mw_base::Items;

/// The assembled microwords, from address 0. Nothing here bounds their number or their bits: whoever
/// assembles them does.
#[derive(Debug, Drop)]
pub struct Store {
    /// The words.
    pub words: Items<u128>,
}

impl Store {
    /// The microword at a control address: the board's fill word past the last assembled one.
    pub fn word(&self, board: &Board, address: u16) -> u128
        ensures { result ≡ word_at board.now self.now.words address }
    {
        match self.words.as_slice().get(usize::from(address)) {
            Some(word) => *word,
            None => board.parts().fill,
        }
    }
}
