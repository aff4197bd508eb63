//! Terms: the words of symbolic runs, what they stand for, the rows of the term table, and the table in which the terms
//! of several runs stand.
#![tactic(auto)]

mod assignment;
mod book;
mod constant;
mod decided;
mod earlier;
mod event;
mod hint;
mod kinds;
mod laws;
mod op;
mod places;
mod side;
mod terms;
mod word;
mod words;
mod written;

pub use assignment::Assignment;
pub use book::ShortcutBook;
pub use constant::{constant_number, constant_value, is_over_constants};
pub use decided::{Decided, DecidedKind, Prefix};
pub use event::SymEvent;
pub use hint::Hint;
pub use kinds::WordKind;
pub use laws::{
    counts_are_apart, fixed_are_before, later_has_two, maps_are_short, ops_are_words,
    rows_as_written, rows_make_values, rows_stand, stands_with_more, terminal_cases_have_none,
    terms_are_numbered, terms_have_ops, terms_have_widths, variable_has_one,
};
pub use op::{Op, Term};
pub use places::Places;
pub use side::Side;
pub use terms::Terms;
pub use word::Word;
pub use written::Written;
