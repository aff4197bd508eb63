// Laws of what is kept, and of which terms have numbers.
ghost use Rattle.mw_blast.specs.Kept.{StaysWithDiagrams, StaysWithTerms};
ghost use Rattle.mw_blast.specs.Numbers.{OperandsAreKnown, OverHaveNumbers};

/// The law of terms: the bits that were made for a table are right for one with more terms.
pub fn stays_with_terms()
    ensures { StaysWithTerms }
{}

/// The law of diagrams: the bits that were made are right for diagrams that have grown since.
pub fn stays_with_diagrams()
    ensures { StaysWithDiagrams }
{}

/// The law of numbers: in a list in which each term that is no constant has a word, one with an operation that is over
/// a budget has a word; and the operands of each term are constants or terms of words.
pub fn over_have_numbers()
    ensures over { OverHaveNumbers }
    ensures operands { OperandsAreKnown }
{}
