// Laws of terms, of the term table, and of joint cofactors.
ghost use Rattle.std.specs.Prelude.{[]};
ghost use Rattle.mw_term.specs.Examples.{RowsAsWritten};
ghost use Rattle.mw_term.specs.Laws.{CountsAreApart, FixedAreBefore, LaterHasTwo, MapsAreShort, OpsAreWords};
ghost use Rattle.mw_term.specs.Laws.{RowsMakeValues, RowsStand, StandsInMore, StandsWithMore, TerminalCasesHaveNone};
ghost use Rattle.mw_term.specs.Laws.{TermsHaveOps};
ghost use Rattle.mw_term.specs.Laws.{TermsHaveWidths, VariableHasOne};
ghost use Rattle.mw_term.specs.Numbered.{IsNumbered, StaysWithConstants, StaysWithReads, StaysWithVariables};
ghost use Rattle.mw_term.specs.Numbered.{StaysWithWords};
ghost use Rattle.mw_term.specs.WordList.{list_of};

/// The law of terms: each term of a table has the width and, under every assignment, the value of its op, and no more
/// bits.
pub fn terms_have_ops()
    ensures { TermsHaveOps }
{}

/// The law of words: an op that fits a table has 1 to 32 bits, and its value has no more under any assignment.
pub fn ops_are_words()
    ensures { OpsAreWords }
{}

/// The law of widths: there are as many widths as ops.
pub fn terms_have_widths()
    ensures { TermsHaveWidths }
{}

/// The law of maps: a map of a table has no entry, or 2 to 256.
pub fn maps_are_short()
    ensures { MapsAreShort }
{}

/// The law of the term table: for every op that fits a table, the operations of its rows make the bits of its value.
pub fn rows_make_values()
    ensures { RowsMakeValues }
{}

/// The law of the small table: the rows of its ops are these, written out by hand.
pub fn rows_as_written()
    ensures { RowsAsWritten }
{}

/// The law of standing: the written terms that stand in a table go on to stand there when more is written, and when the
/// table has grown.
pub fn stands_with_more()
    ensures written { StandsWithMore }
    ensures table { StandsInMore }
{}

/// The law of standing rows: an op whose operands stand in a table has, over the terms at which they stand, the rows
/// that it has over the written terms.
pub fn rows_stand()
    ensures { RowsStand }
{}

/// The law of fixed variables: those before a place have the fixed values, and the others their own.
pub fn fixed_are_before()
    ensures { FixedAreBefore }
{}

/// The law of one variable: three functions of which one is a variable, one always holds and one never does have one
/// joint cofactor.
pub fn variable_has_one()
    ensures { VariableHasOne }
{}

/// The law of counts: no triple has both at most so many joint cofactors and more.
pub fn counts_are_apart()
    ensures { CountsAreApart }
{}

/// The law of terminal cases: where the first function is the same under every assignment, or the second agrees with
/// the third, there is no joint cofactor.
pub fn terminal_cases_have_none()
    ensures { TerminalCasesHaveNone }
{}

/// The law of two variables: a choice by the later one, with the earlier one and never as its branches in either order,
/// has two joint cofactors.
pub fn later_has_two()
    ensures { LaterHasTwo }
{}

/// The law of numbers: in a list without terms each term that is no constant is that of a word, each word's term is one
/// of the list's, and a constant has no word. A list in which this is so stays so with a constant more, a word that is
/// none, a variable, or the words of a memory read.
pub fn terms_are_numbered()
    ensures first { IsNumbered (list_of [] [] []) }
    ensures constants { StaysWithConstants }
    ensures words { StaysWithWords }
    ensures variables { StaysWithVariables }
    ensures reads { StaysWithReads }
{}
