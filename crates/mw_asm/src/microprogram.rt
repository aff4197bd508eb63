// The microprogram of a text.
ghost use Rattle.std.specs.Prelude.{◌<◌, ◌^◌, IfOk, length};
ghost use Rattle.mw_base.specs.Reading.{Gives};
ghost use Rattle.mw_asm.specs.Microprogram.{store_of, IsAssembled};

use crate::assembled::Assembled;
use crate::first_pass::first_pass;
use crate::second_pass::{filled, second_pass};
use mw_base::{Items, Refusal, lines};
use mw_board::{Board, Store};
use std::alloc::Global;

/// The microprogram that a text spells in the fields of a board.
///
/// The text has fewer than 2^32 bytes.
///
/// # Errors
///
/// The first fault of the text: causes 1 to 4 of its bytes; then, line by line, cause 36 of the line and, by place, 31
/// and 33 of a name that it defines, 30, 33 and 32 of the items of a `def`, 33 of an `org`, 34 and 35 of a word; then,
/// word by word, 30, 33 and 32 of its items. Want of memory.
#[tactic(auto, unfolding(crate::specs::Microprogram::store_of))]
pub fn assemble(alloc: Global, board: &Board, text: &[u8]) -> Result<Assembled, Refusal>
    requires { length text.now < 2 ^ 32 }
    ensures gives { Gives (λ made. made) result (store_of board.now text.now) }
    ensures valid { IfOk result (λ made. IsAssembled board.now made) }
{
    let lines = lines(alloc, text)?;
    let known = first_pass(alloc, board, text, &lines)?;
    let store = filled(alloc, board.parts().fill, &known.used)?;
    let words = second_pass(board, text, &known.names, &known.words, store)?;
    Ok(Assembled {
        store: Store {
            words: Items::from_vec(words),
        },
        used: Items::from_vec(known.used),
        labels: Items::from_vec(known.labels),
    })
}
