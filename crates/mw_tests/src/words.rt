// The words of starts and of comparisons, computed on the definitions.
ghost use Rattle.std.specs.Prelude.{◌≡◌, [], ◌∷◌, ◌++◌, None, Some, map, slice_get};
ghost use Rattle.mw_rel.specs.CaseExamples.{adding_job, spinning_job, to_one, to_zero};
ghost use Rattle.mw_rel.specs.CaseWords.{case_words};
ghost use Rattle.mw_rel.specs.ComparisonWords as subjects;
ghost use Rattle.mw_term.specs.declared.op.Op.TheVariants.{Sum};
ghost use Rattle.mw_term.specs.WordList.{word_number};
ghost use Rattle.mw_rel.specs.WordExamples.{small_start, small_start_listed, read_start, read_start_listed};
ghost use Rattle.mw_rel.specs.WordExamples.{all_alike, all_alike_listed, compared};
ghost use Rattle.mw_term.specs.declared.event.SymEvent.TheVariants.{Out, Taken};

/// The lists of two starts: one whose right sides are elements and a number, and one whose right sides have words of
/// their own.
fn worked_start_words()
    ensures small { small_start ≡ small_start_listed }
    ensures reading { read_start ≡ read_start_listed }
{}

/// A comparison's list; and nothing is compared where an event is of another kind, one side has an event more, or the
/// stack pointer isn't the boundary's.
fn worked_comparison_words()
    ensures alike { all_alike ≡ Some all_alike_listed }
    ensures kinds { compared (Taken 0 ∷ []) (Out 0 ∷ []) 0 ≡ None }
    ensures number { compared (Out 0 ∷ Out 1 ∷ []) (Out 0 ∷ []) 0 ≡ None }
    ensures pointer { compared [] [] 1 ≡ None }
{}

/// The list of a case of two cycles, in which the board adds and jumps back. It begins up to word 29, which the first
/// bit asks; word 28 is the sum of both registers; and all bits lead through the comparison of the lines and of the
/// memory. Of a late case nothing is listed behind its cycles.
fn worked_case_words()
    ensures asks { (case_words adding_job 0 []).asked ≡ Some 36 }
    ensures at { word_number (case_words adding_job 0 []).list.words 36 ≡ Some 29 }
    ensures sum { word_number (case_words adding_job 0 (to_one ++ to_zero)).list.words 33 ≡ Some 28 }
    ensures op { slice_get (case_words adding_job 0 (to_one ++ to_zero)).list.ops 33 ≡ Some (Sum 27 26 32) }
    ensures whole { (case_words adding_job 0 (to_one ++ to_zero)).asked ≡ None }
    ensures compares { map (λ c. c.subject) (case_words adding_job 0 (to_one ++ to_zero)).comparisons
        ≡ subjects.line 19 ∷ subjects.line 0 ∷ subjects.line 1 ∷ subjects.memory 75 ∷ [] }
    ensures late { (case_words spinning_job 0 (to_one ++ to_one)).comparisons ≡ [] }
{}

#[test]
fn words_are_worked() {
    worked_start_words();
    worked_comparison_words();
    worked_case_words();
}
