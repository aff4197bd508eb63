// The question of a text.
ghost use Rattle.std.specs.Prelude.{◌≡◌, ◌<◌, ◌^◌, length, IfOk};
ghost use Rattle.mw_base.specs.Reading.{Gives};
ghost use Rattle.mw_base.specs.Steps.{steps};
ghost use Rattle.mw_check.specs.Question.{asked_of, IsQuestion};
ghost use Rattle.mw_check.specs.QuestionText.{declaring, no_variables, shape_over, variable_line, left_line};
ghost use Rattle.mw_check.specs.QuestionText.{first_line, right_line, last_line, with_tokens, with_line};
ghost use Rattle.mw_check.specs.QuestionText.{finished, question_of};
ghost use Rattle.mw_check.specs.QuestionKept.{AreVariables, IsHalf, IsKnownQuestion, TextsAskQuestions};
ghost use Rattle.mw_check.specs.QuestionViews.{variables_seen, half_seen, known_seen};

use crate::question::Question;
use crate::side::{Side, side_of};
use crate::variables::Variables;
use mw_base::{
    Cause, Cursor, Items, Line, Name, Refusal, Refused, TextFault, Token, lines, text_end,
};
use mw_expr::Shape;
use std::alloc::Global;

/// The variables and the left side.
#[derive(Drop)]
pub(crate) struct Half {
    /// The names of the variables.
    pub names: Items<Name>,
    /// Their widths.
    pub shape: Shape,
    /// The left side.
    pub left: Side,
}

/// What is known after some lines.
#[derive(Drop)]
pub(crate) enum Known {
    /// Variables, to which others may come.
    Declaring(Variables),
    /// The variables and the left side.
    Halved(Half),
    /// All that is asked.
    Whole(Question),
}

/// var NAME W: cause 60, then 14, 31 or 33 at the name, or 33 at the width.
#[tactic(auto, unfolding(crate::specs::QuestionText::variable_line))]
fn variable_line(alloc: Global, mut variables: Variables, line: &Cursor) -> Result<Known, Refusal>
    ensures { Gives known_seen result (variable_line (variables_seen variables) line.now) }
{
    let name = line.name(1).map_err(Refused::At)?;
    let width = line.number(2).map_err(Refused::At)?;
    line.end(3).map_err(Refused::At)?;
    variables.declare(alloc, line.text(), name, width)?;
    Ok(Known::Declaring(variables))
}

/// What expressions are over: variables of these widths, and no memory.
fn shape_over(widths: Vec<u8>) -> Shape
    ensures { result ≡ shape_over widths.items }
{
    Shape {
        widths: Items::from_vec(widths),
        address: 0,
        word: 0,
    }
}

/// left E: the side's own causes.
#[tactic(auto, unfolding(crate::specs::QuestionText::left_line), using(crate::proofs::Sides::proper))]
fn left_line(
    alloc: Global,
    variables: Variables,
    word: Token,
    line: &Cursor,
) -> Result<Known, Refusal>
    requires kept { AreVariables (variables_seen variables).names (shape_over (variables_seen variables).widths) }
    ensures { Gives known_seen result (left_line (variables_seen variables) word line.now) }
{
    let names = Items::from_vec(variables.names);
    let shape = shape_over(variables.widths);
    let left = side_of(alloc, names.as_slice(), &shape, None, word, &line.after(1))?;
    Ok(Known::Halved(Half { names, shape, left }))
}

/// A line before the sides.
#[tactic(auto, unfolding(crate::specs::QuestionText::first_line))]
fn first_line(alloc: Global, variables: Variables, line: &Cursor) -> Result<Known, Refusal>
    requires kept { AreVariables (variables_seen variables).names (shape_over (variables_seen variables).widths) }
    ensures { Gives known_seen result (first_line (variables_seen variables) line.now) }
{
    let word = line.name(0).map_err(Refused::At)?;
    let bytes = line.spelled(word);
    if bytes == b"var".as_slice() {
        variable_line(alloc, variables, line)
    } else if bytes == b"left".as_slice() {
        left_line(alloc, variables, word, line)
    } else {
        Err(Refused::At(line.misplaced(word)))
    }
}

/// right E: cause 60, then 41 at `right` and the side's own causes, by place.
#[tactic(auto, unfolding(crate::specs::QuestionText::right_line), using(crate::proofs::Sides::proper))]
fn right_line(alloc: Global, half: Half, line: &Cursor) -> Result<Known, Refusal>
    requires kept { IsHalf (half_seen half) }
    ensures { Gives known_seen result (right_line (half_seen half) line.now) }
{
    let Half { names, shape, left } = half;
    let word = line.first_word(b"right").map_err(Refused::At)?;
    let right = side_of(
        alloc,
        names.as_slice(),
        &shape,
        left.width,
        word,
        &line.after(1),
    )?;
    Ok(Known::Whole(Question {
        names,
        shape,
        left: left.expr,
        right: right.expr,
    }))
}

/// A line after the sides: cause 60 at its first token.
#[tactic(auto, unfolding(crate::specs::QuestionText::last_line))]
fn last_line(question: Question, line: &Cursor) -> Result<Known, Refusal>
    ensures { Gives known_seen result (last_line (asked_of question) line.now) }
{
    line.end(0).map_err(Refused::At)?;
    Ok(Known::Whole(question))
}

/// What is known after a line that isn't blank.
fn with_tokens(alloc: Global, known: Known, line: &Cursor) -> Result<Known, Refusal>
    requires kept { IsKnownQuestion (known_seen known) }
    ensures { Gives known_seen result (with_tokens (known_seen known) line.now) }
{
    match known {
        Known::Declaring(variables) => first_line(alloc, variables, line),
        Known::Halved(half) => right_line(alloc, half, line),
        Known::Whole(question) => last_line(question, line),
    }
}

/// What is known after a line; a blank one says nothing.
fn with_line(alloc: Global, text: &[u8], known: Known, line: &Line) -> Result<Known, Refusal>
    requires kept { IsKnownQuestion (known_seen known) }
    ensures { Gives known_seen result (with_line text.now (known_seen known) line.now) }
{
    match line.tokens.as_slice() {
        [] => Ok(known),
        [_, ..] => with_tokens(alloc, known, &Cursor::new(text, line, Cause::BadSyntax)),
    }
}

/// What is known after all lines of a text.
fn known_of(alloc: Global, text: &[u8], lines: &[Line]) -> Result<Known, Refusal>
    ensures { Gives known_seen result (steps (with_line text.now) (declaring no_variables) lines.now) }
{
    let mut known = Known::Declaring(Variables::new(alloc));
    for line in lines {
        known = with_line(alloc, text, known, line)?;
    }
    Ok(known)
}

/// All that is asked, where the end of the text has this fault if a side is missing.
fn finished(known: Known, fault: TextFault) -> Result<Question, Refusal>
    ensures { Gives asked_of result (finished (known_seen known) fault) }
{
    match known {
        Known::Declaring(_) | Known::Halved(_) => Err(Refused::At(fault)),
        Known::Whole(question) => Ok(question),
    }
}

/// The question of a text.
#[tactic(auto, unfolding(crate::specs::QuestionText::question_of))]
fn question_in(alloc: Global, text: &[u8]) -> Result<Question, Refusal>
    requires { length text.now < 2 ^ 32 }
    ensures { Gives asked_of result (question_of text.now) }
{
    let lines = lines(alloc, text)?;
    let known = known_of(alloc, text, &lines)?;
    finished(known, text_end(&lines, Cause::BadSyntax))
}

/// The question that a text asks, over its variables and no memory.
///
/// The text has fewer than 2^32 bytes. The time is linear in its length.
///
/// # Errors
///
/// The first fault of the text. Causes 1 to 4 of its bytes come first, by position, each at the byte, the number or
/// column 4,097. Then come the lines, one after another; of a line cause 60 comes first, at the first token that can't
/// follow those before it, or at the line's end. Then come its other causes, by place, at one place the least:
///
/// - 14 at the name of the 65th variable;
/// - 31 at a name that another variable has, or `mem` or `zext`;
/// - 33 at a name over 64 bytes, and at a width that isn't 1 to 32;
/// - 40 at an unknown name in an expression;
/// - 41 at the word `right` where the sides aren't equally wide, and in an expression at the operator;
/// - 42 at the first token of an expression at level 65;
/// - 3 at a value that doesn't fit the width after its `#`.
///
/// Last comes cause 60 just past the text's last line, where a side is missing. Want of memory.
pub fn read_question(alloc: Global, text: &[u8]) -> Result<Question, Refusal>
    requires { length text.now < 2 ^ 32 }
    ensures gives { Gives asked_of result (question_of text.now) }
    ensures question { IfOk result (λ question. IsQuestion (asked_of question)) }
    ensures variables { IfOk result (λ question. AreVariables question.names question.shape) }
{
    question_in(alloc, text)
}

/// The law of what is read: it is a question, over at most 64 variables of 1 to 32 bits and no memory.
pub fn texts_ask_questions()
    ensures { TextsAskQuestions }
{}
