//! What the bench decides: comparisons of steps, questions, and whether a job is certified.
#![tactic(auto)]

mod answer;
mod certification;
mod comparison;
mod equality;
mod laws;
mod question;
mod question_text;
mod side;
mod variables;
mod verdict;

pub use answer::equal;
pub use certification::certify;
pub use comparison::{Compared, compare};
pub use equality::Equality;
pub use laws::steps_show_one_thing;
pub use question::Question;
pub use question_text::{read_question, texts_ask_questions};
pub use verdict::{Summary, Verdict};
