// What expressions are over.
use mw_base::Items;

/// The elements and the memory that expressions are over.
#[derive(Debug, Drop)]
pub struct Shape {
    /// The width of each element, 1 to 32 bits.
    pub widths: Items<u8>,
    /// How many bits an address of the memory has, 1 to 16; 0 where there is no memory.
    pub address: u8,
    /// How many bits a word of the memory has, 1 to 32; 0 where there is no memory.
    pub word: u8,
}
