//! The outside as the program sees it: named files that are fetched, and a sink that takes bytes.
#![tactic(auto)]

mod calls;
mod edge;
mod files;
mod memory;
mod read;
mod shelf;
mod sink;
mod steady;

pub use edge::{FolderShelf, ScreenSink};
pub use memory::{MemoryShelf, MemorySink};
pub use read::{MOST_BYTES, ReadRefusal, read_whole, write_all};
pub use shelf::{Failed, Shelf};
pub use sink::Sink;
pub use steady::{SteadyShelf, SteadySink};
