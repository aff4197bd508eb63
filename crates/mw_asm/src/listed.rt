// The listing of an assembled microprogram.
ghost use Rattle.std.specs.Prelude.{◌≡◌, ℕ, ◌<◌, List, [], ◌∷◌, ◌++◌, IfOk, OnOk, length, replicate, slice_index_or};
ghost use Rattle.mw_asm.specs.Listing.{labels_at, names_of, line_of, listing_of};

use crate::assembled::{Assembled, Label};
use mw_base::{NoMemory, append_padded};
use mw_board::Board;
use std::alloc::Global;
use std::marker::Model;

/// What a line shows of its labels: a space and the name, for each.
#[derive(Drop)]
struct LabelText {
    text: Vec<u8>,
}

impl Model for LabelText {
    ghost Value = { List ℕ };

    ghost view = { λ names. names.text.items };
}

impl LabelText {
    /// Without a label.
    fn new(alloc: Global) -> LabelText
        ensures { result ≡ [] }
    {
        LabelText {
            text: Vec::new(alloc),
        }
    }

    /// With one more label.
    fn add(&mut self, label: &Label) -> Result<(), NoMemory>
        ensures { OnOk result (self.new ≡ self.old ++ 32 ∷ label.now.name) }
    {
        self.text.push(b' ')?;
        self.text.extend_from_slice(label.name.as_slice())?;
        Ok(())
    }

    fn as_slice(&self) -> &[u8]
        ensures { result.now ≡ self.now }
    {
        &self.text
    }
}

/// No names, for each of so many addresses.
fn no_names(alloc: Global, count: usize) -> Result<Vec<LabelText>, NoMemory>
    ensures { IfOk result (λ names. names.items ≡ replicate count []) }
{
    let mut names = Vec::with_capacity(alloc, count)?;
    for _ in 0..count {
        names.push(LabelText::new(alloc))?;
    }
    Ok(names)
}

/// The names of the labels of each address below a count. One pass over the labels, which may have any addresses.
fn names_by_address(
    alloc: Global,
    count: usize,
    labels: &[Label],
) -> Result<Vec<LabelText>, NoMemory>
    ensures len { IfOk result (λ names. length names.items ≡ count) }
    ensures each { IfOk result
        (λ names. (at : ℕ) → at < count → slice_index_or names.items at [] ≡ names_of (labels_at at labels.now)) }
{
    let mut names = no_names(alloc, count)?;
    for label in labels {
        if let Some(here) = names.get_mut(usize::from(label.address)) {
            here.add(label)?;
        }
    }
    Ok(names)
}

/// Appends a line.
#[tactic(auto, unfolding(crate::specs::Listing::line_of))]
fn push_line(
    alloc: Global,
    text: &mut Vec<u8>,
    board: &Board,
    at: usize,
    word: u128,
    names: &[u8],
) -> Result<(), NoMemory>
    ensures { OnOk result (text.new.items ≡ text.old.items ++ line_of board.now at word names.now) }
{
    append_padded(alloc, text, 3, at as u128)?;
    text.push(b' ')?;
    append_padded(alloc, text, board.parts().microword.div_ceil(4), word)?;
    text.extend_from_slice(names)?;
    text.push(b'\n')?;
    Ok(())
}

/// The listing: for each word that a line of the microprogram put somewhere, in rising order of addresses, a line with
/// the address in three hexadecimal digits, the word in a digit for each four bits of it, rounded up, and the name of
/// each label of the address in file order. Letters are upper case. A label without a word isn't listed.
///
/// # Errors
///
/// Memory ran out.
#[tactic(auto, unfolding(crate::specs::Listing::listing_of, crate::specs::Listing::addresses_of))]
pub fn listing(alloc: Global, board: &Board, made: &Assembled) -> Result<Vec<u8>, NoMemory>
    ensures { IfOk result (λ text. text.items ≡ listing_of board.now made.now) }
{
    let used = made.used.as_slice();
    let words = made.store.words.as_slice();
    let names = names_by_address(alloc, used.len(), made.labels.as_slice())?;
    let mut text = Vec::new(alloc);
    for (at, is_used) in used.iter().enumerate() {
        if *is_used {
            let word = words.get(at).copied().unwrap_or(board.parts().fill);
            push_line(alloc, &mut text, board, at, word, names[at].as_slice())?;
        }
    }
    Ok(text)
}
