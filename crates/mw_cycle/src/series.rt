// The lists of an environment: what texts call them, how wide their values are, and the variables that stand for these.
ghost use Rattle.std.specs.Prelude.{◌≡◌, ◌≤◌};
ghost use Rattle.mw_cycle.specs.Series.{all_series, keyword_of, series_named, series_of_kind, width_of};

use mw_term::{Side, WordKind};

/// A list of an environment: what isn't in it is 0.
#[derive(Clone, Copy, Debug, PartialEq, Eq)]
pub enum Series {
    /// The input words, by their number.
    Inputs,
    /// The interrupt line, by clock.
    Line,
    /// The undefined bits, by clock.
    Noise,
    /// The wait bits, by clock.
    Wait,
}

/// All lists, in the order of texts.
const ALL: [Series; 4] = [Series::Inputs, Series::Line, Series::Noise, Series::Wait];

impl Series {
    /// All lists, in the order of texts.
    pub fn all() -> &'static [Series]
        ensures { result.now ≡ all_series }
    {
        &ALL
    }

    /// What texts call it.
    pub fn keyword(self) -> &'static [u8]
        ensures { result.now ≡ keyword_of self }
    {
        match self {
            Series::Inputs => b"inputs",
            Series::Line => b"line",
            Series::Noise => b"noise",
            Series::Wait => b"wait",
        }
    }

    /// How many bits a value of it has, where an input word has so many.
    pub fn width(self, input: u8) -> u8
        requires { input ≤ 32 }
        ensures exact { result ≡ width_of input self }
        ensures most { result ≤ 32 }
    {
        match self {
            Series::Inputs => input,
            Series::Line | Series::Wait => 1,
            Series::Noise => 14,
        }
    }

    /// The list that texts call so.
    #[tactic(auto, unfolding(crate::specs::Series::series_named))]
    pub fn named(name: &[u8]) -> Option<Series>
        ensures { result ≡ series_named name.now }
    {
        ALL.iter().copied().find(|series| name == series.keyword())
    }

    /// The list and the number of the value that a variable stands for, where it is one of the environment of the board
    /// of this side. A wait bit has none.
    pub fn of_kind(side: Side, kind: WordKind) -> Option<(Series, u32)>
        ensures { result ≡ series_of_kind side kind }
    {
        match (side, kind) {
            (_, WordKind::Input(number)) => Some((Series::Inputs, number)),
            (Side::Board, WordKind::Line(number)) | (Side::Machine, WordKind::BesideLine(number)) =>
                { Some((Series::Line, number)) }
            (Side::Board, WordKind::Noise(number))
            | (Side::Machine, WordKind::BesideNoise(number)) => Some((Series::Noise, number)),
            _ => None,
        }
    }
}
