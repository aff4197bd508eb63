// Flip-flops.
use crate::bit::Load;
use crate::control::Control;
use mw_base::{Items, Name};

/// A flip-flop: each cycle it takes what its control chooses of its loads.
#[derive(Debug, Drop)]
pub struct FlipFlop {
    /// The name by which bits, sources and relations call it.
    pub name: Name,
    /// Chooses a load.
    pub control: Control,
    /// What it can take, 1 to 64.
    pub load: Items<Load>,
}
