// The law of the lookahead.
ghost use Rattle.mw_slice.specs.Law.{CarriesAreWhole, AnswersAreWhole, EdgesAreWhole};

/// The law that the lookahead is addition: at every width of whole slices, the slices joined by Am2902s are the Am2901
/// of the whole word, for every instruction, operand and carry in.
pub fn lookahead_is_addition()
    ensures carries { CarriesAreWhole }
    ensures answers { AnswersAreWhole }
    ensures edges { EdgesAreWhole }
{}
