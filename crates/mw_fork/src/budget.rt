// What the search for cases may cost.

/// What the search for the cases of a boundary may cost.
#[derive(Clone, Copy, Debug, PartialEq, Eq)]
pub struct Budget {
    /// How many joint cofactors an operation may have.
    pub nodes: u32,
    /// How many cases a boundary may have.
    pub paths: u32,
}
