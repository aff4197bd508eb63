// Laws of expressions.
ghost use Rattle.mw_expr.specs.Parts.{PartsHaveWidths, WidthsAreByRule};
ghost use Rattle.mw_expr.specs.Grammar.{tree_of};
ghost use Rattle.mw_expr.specs.Fronts.{FaultsEndFronts};
ghost use Rattle.mw_expr.specs.Syntax.{IsReadByRule, IsReadWhereRuled};

/// The law of parts: where an expression has a width, so has each of its parts.
pub fn parts_have_widths()
    ensures { PartsHaveWidths }
{}

/// The law of widths: the width of an expression is the one that the rules of widths give, so what these ask of its
/// parts holds.
pub fn widths_are_by_rule()
    ensures { WidthsAreByRule }
{}

/// The law of the grammar: tokens are read exactly where they are an expression by the rules of the format, and to the
/// tree that these give.
pub fn trees_are_by_rule()
    ensures by_rule { IsReadByRule }
    ensures complete { IsReadWhereRuled }
{}

/// The law of the grammar's faults: each stands at the first token with which the tokens up to it are no front of an
/// expression, or at the end of a front that is no expression.
pub fn faults_end_fronts()
    ensures { FaultsEndFronts }
{}
