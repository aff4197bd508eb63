// Lengths of segments.
ghost use Rattle.std.specs.Prelude.{◌≡◌};
ghost use Rattle.mw_bounds.specs.Lengths.{is_less, length_in};

use mw_fork::Case;

/// How long a start's first segment is.
#[derive(Clone, Copy, Debug, PartialEq, Eq)]
pub enum Length {
    /// So many cycles, 1 to 500.
    Cycles(u32),
    /// Late: no boundary comes within the bound.
    Late,
}

impl Length {
    /// The length of each start of a case.
    pub(crate) fn in_case(case: &Case) -> Length
        ensures { result ≡ length_in case.now.cycles case.now.late }
    {
        if case.late {
            Length::Late
        } else {
            Length::Cycles(case.cycles)
        }
    }

    /// Whether it is less than another one: fewer cycles, or not late where the other one is.
    pub(crate) fn is_less(self, other: Length) -> bool
        ensures { result ≡ is_less self other }
    {
        match (self, other) {
            (Length::Cycles(cycles), Length::Cycles(others)) => cycles < others,
            (Length::Cycles(_), Length::Late) => true,
            (Length::Late, _) => false,
        }
    }
}
