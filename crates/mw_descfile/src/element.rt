// What names of a machine stand for.
ghost use Rattle.std.specs.Prelude.{◌≡◌};
ghost use Rattle.mw_descfile.specs.Stating.{number_in};

/// Which elements are declared.
#[derive(Clone, Copy)]
pub(crate) enum Kind {
    /// Registers.
    Register,
    /// Temporaries.
    Temporary,
}

/// A register or a temporary.
#[derive(Clone, Copy)]
pub(crate) struct Element {
    /// Which of both it is.
    pub kind: Kind,
    /// How many of its kind stand before it.
    pub place: u8,
}

impl Element {
    /// Its number among all elements, where there are so many registers.
    pub(crate) fn number_in(self, registers: u8) -> u32
        ensures { result ≡ number_in registers self.kind self.place }
    {
        match self.kind {
            Kind::Register => u32::from(self.place),
            Kind::Temporary => u32::from(registers) + u32::from(self.place),
        }
    }
}
