// What a microprogram is assembled to.
use mw_base::{Items, Name};
use mw_board::Store;

/// A label of a microprogram.
#[derive(Debug, Drop)]
pub struct Label {
    /// Its name.
    pub name: Name,
    /// The control address that a word on its line has, or would have: at most 4,096.
    pub address: u16,
}

/// An assembled microprogram.
#[derive(Debug, Drop)]
pub struct Assembled {
    /// Its microwords by address; gaps hold the fill word.
    pub store: Store,
    /// For each address of the store, whether a line of the microprogram put the word there.
    pub used: Items<bool>,
    /// Its labels, in file order.
    pub labels: Items<Label>,
}
