// The options of a command line.
ghost use Rattle.std.specs.Prelude.{◌≡◌, option_map};
ghost use Rattle.std.specs.Char.{is_ascii_digit};
ghost use Rattle.std.specs.List.{list_all};
ghost use Rattle.mw_top.specs.Options.{is_decimal, is_true, limit_of, option_number, number_within, parts_of};

use mw_base::number;

/// An option with a number.
#[derive(Clone, Copy, Debug, PartialEq, Eq)]
pub(crate) enum Number {
    /// The most joint cofactors of an operation.
    Nodes,
    /// The most cases of a boundary.
    Paths,
    /// How many steps are compared at most.
    Steps,
    /// How many cycles a run has.
    Cycles,
}

/// The numbers of an option, of which the least is 1.
#[derive(Clone, Copy)]
pub(crate) struct Limit {
    /// The option's name.
    pub(crate) name: &'static str,
    /// The greatest number.
    pub(crate) most: u32,
    /// The number where the line doesn't give it.
    pub(crate) otherwise: u32,
}

/// The options of a command.
#[derive(Clone, Copy)]
pub(crate) struct Options {
    /// The most joint cofactors of an operation.
    pub(crate) nodes: u32,
    /// The most cases of a boundary.
    pub(crate) paths: u32,
    /// How many steps are compared at most.
    pub(crate) steps: u32,
    /// How many cycles a run has.
    pub(crate) cycles: u32,
    /// Whether the board's arithmetic goes through its slices, joined by lookahead, and not over whole words.
    pub(crate) parts: bool,
}

impl Number {
    /// The numbers of the option.
    pub(crate) fn limit(self) -> Limit
        ensures name { result.name.now ≡ (limit_of self).name }
        ensures most { result.most ≡ (limit_of self).most }
        ensures otherwise { result.otherwise ≡ (limit_of self).otherwise }
    {
        match self {
            Number::Nodes => Limit {
                name: "nodes",
                most: 16_000_000,
                otherwise: 1_000_000,
            },
            Number::Paths => Limit {
                name: "paths",
                most: 65_536,
                otherwise: 4_096,
            },
            Number::Steps => Limit {
                name: "steps",
                most: 10_000,
                otherwise: 1,
            },
            Number::Cycles => Limit {
                name: "cycles",
                most: 1_000_000,
                otherwise: 1_000,
            },
        }
    }
}

/// Whether all are decimal digits.
fn are_digits(text: &[u8]) -> bool
    ensures { result ≡ list_all is_ascii_digit text.now }
{
    text.iter().all(|c| c.is_ascii_digit())
}

/// One to eight decimal digits.
fn is_decimal(text: &[u8]) -> bool
    ensures { result ≡ is_decimal text.now }
{
    1 <= text.len() && text.len() <= 8 && are_digits(text)
}

/// The number of a text, where it is one from the least to the greatest.
pub(crate) fn number_within(least: u32, most: u32, text: &[u8]) -> Option<u32>
    ensures { result ≡ number_within least most text.now }
{
    if !is_decimal(text) {
        return None;
    }
    match number(text) {
        Ok(value) if u128::from(least) <= value && value <= u128::from(most) => Some(value as u32),
        _ => None,
    }
}

/// The number of an option, by whether it is the command's own, and of the text that the line gives.
pub(crate) fn option_number(limit: Limit, is_own: bool, text: Option<&str>) -> Option<u32>
    ensures { result ≡ option_number limit.most limit.otherwise is_own (option_map (λ word. word.now) text.entry) }
{
    match text {
        None => Some(limit.otherwise),
        Some(text) if is_own => number_within(1, limit.most, text.as_bytes()),
        Some(_) => None,
    }
}

/// Whether the text is that of a flag on the line.
fn is_true(text: Option<&str>) -> bool
    ensures { result ≡ is_true (option_map (λ word. word.now) text.entry) }
{
    match text {
        Some(text) => text == "true",
        None => false,
    }
}

/// Whether the board works as its parts, by whether that is the command's own choice, and by the text of the flag.
pub(crate) fn parts_of(is_own: bool, text: Option<&str>) -> Option<bool>
    ensures { result ≡ parts_of is_own (is_true (option_map (λ word. word.now) text.entry)) }
{
    match is_true(text) {
        true if !is_own => None,
        parts => Some(parts),
    }
}
