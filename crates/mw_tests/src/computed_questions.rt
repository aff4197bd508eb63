// Small questions on which the definitions compute.
ghost use Rattle.std.specs.Prelude.{◌≡◌, Ok, Err};
ghost use Rattle.mw_base.specs.declared.cause.Cause.TheVariants.{WidthsDiffer, BadSyntax};
ghost use Rattle.mw_check.specs.QuestionExamples.{small_text, small_question, uneven_text, memory_text};
ghost use Rattle.mw_check.specs.QuestionText.{question_of};

/// The text of a small question asks it.
fn small_question()
    ensures { question_of small_text ≡ Ok small_question }
{}

/// Sides of two widths: cause 41 at the word `right`.
fn uneven_question()
    ensures { question_of uneven_text ≡ Err (record { line = 3; column = 1; cause = WidthsDiffer }) }
{}

/// A question reads no memory: cause 60 at the word `mem`.
fn question_with_memory()
    ensures { question_of memory_text ≡ Err (record { line = 2; column = 10; cause = BadSyntax }) }
{}
