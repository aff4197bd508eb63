// What a question is answered with.
use mw_base::Items;

/// Whether the sides of a question agree for all values of its variables.
#[derive(Debug, Drop)]
pub enum Equality {
    /// They do.
    Yes,
    /// They differ under these values, one for each variable in the order of the question.
    No(Items<u32>),
    /// An operation at this bit of the word of this number, in the question's list of words, is over the budget.
    Unknown {
        /// The number of the word, from 1.
        word: u64,
        /// The bit, from 0, the lowest.
        bit: u8,
    },
}
