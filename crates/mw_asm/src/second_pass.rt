// The second pass, over the words to be made.
ghost use Rattle.std.specs.Prelude.{◌≡◌, ◌<◌, IfOk, length, All};
ghost use Rattle.mw_base.specs.Named.{names_seen};
ghost use Rattle.mw_base.specs.Reading.{Gives};
ghost use Rattle.mw_asm.specs.Microprogram.{filled, second_pass};

use crate::first_pass::Word;
use crate::item_bits::bits_of;
use crate::names::{Meaning, Scope};
use mw_base::{Names, NoMemory, Refusal, Refused};
use mw_board::Board;
use std::alloc::Global;

/// A store of the fill word alone, as long as this list.
pub(crate) fn filled(alloc: Global, fill: u128, used: &[bool]) -> Result<Vec<u128>, NoMemory>
    ensures { IfOk result (λ store. store.items ≡ filled fill used.now) }
{
    Ok(used.iter().map(|_| fill).collect(alloc)?)
}

/// The second pass: puts each word into a store at its address.
pub(crate) fn second_pass(
    board: &Board,
    text: &[u8],
    names: &Names<Meaning>,
    words: &[Word],
    mut store: Vec<u128>,
) -> Result<Vec<u128>, Refusal>
    requires { All (λ word. word.address < length store.items) words.now }
    ensures { Gives (λ words. words.items) result
        (second_pass board.now text.now (names_seen names.now) store.items words.now) }
{
    let unset = board.parts().unset;
    for word in words {
        // A match, as the loop's proof needs the fault just as `bits_of` gives it.
        match bits_of(board, text, names, Scope::Word, word.items.as_slice()) {
            Ok(bits) => store[usize::from(word.address)] = bits.word(unset),
            Err(fault) => return Err(Refused::At(fault)),
        }
    }
    Ok(store)
}
