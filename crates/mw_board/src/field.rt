// Fields of the microword.
ghost use Rattle.std.specs.Prelude.{◌≡◌, IfOk};

use mw_base::{Name, NoMemory};
use std::alloc::Global;

/// A field of the microword: so many bits from its lowest one.
#[derive(Clone, Copy, Debug, PartialEq, Eq)]
pub struct Field {
    /// The number of its lowest bit, from 0.
    pub low: u8,
    /// How many bits it has, 1 to 32.
    pub width: u8,
}

/// A field, and its name. Fields may overlap.
#[derive(Debug, Drop)]
pub struct NamedField {
    /// The name by which control points and microprograms call it.
    pub name: Name,
    /// Where it is.
    pub field: Field,
}

impl NamedField {
    /// The field of this name that has so many bits from its lowest one. Neither is checked.
    ///
    /// # Errors
    ///
    /// Memory ran out.
    pub fn new(alloc: Global, name: &[u8], low: u8, width: u8) -> Result<NamedField, NoMemory>
        ensures { IfOk result
            (λ named. named ≡ record { name = name.now; field = record { low = low; width = width } }) }
    {
        Ok(NamedField {
            name: Name::new(alloc, name)?,
            field: Field { low, width },
        })
    }
}
