// Worked cases, computed on the definitions.
ghost use Rattle.std.specs.Prelude.{◌≡◌, [], ◌∷◌, ◌++◌, false, true};
ghost use Rattle.mw_cycle.specs.Decided.{decided};
ghost use Rattle.mw_rel.specs.CaseExamples.{adding_job, asking_job, counting_job, spinning_job, testing_job};
ghost use Rattle.mw_rel.specs.CaseExamples.{to_one, to_zero};
ghost use Rattle.mw_tests.specs.Starts.{case_with, cycles_with, is_late};
ghost use Rattle.mw_term.specs.declared.decided.DecidedKind.TheVariants.{Branch, CounterZero, Pass};

/// What starts decide: the next addresses of their cycles, pass where it is tested and the counter where it is asked
/// for, and the conditions that the step meets, unless the segment is late.
fn worked_cases()
    ensures added { case_with adding_job (7 ∷ 1 ∷ []) ≡ to_one ++ to_zero }
    ensures spun { case_with spinning_job (7 ∷ 1 ∷ []) ≡ to_one ++ to_one }
    ensures tested { case_with testing_job (7 ∷ 1 ∷ []) ≡ decided Pass false ∷ to_one ++ to_zero }
    ensures counted { case_with counting_job (7 ∷ 1 ∷ []) ≡ decided CounterZero true ∷ to_one ++ to_zero }
    ensures asked { case_with asking_job (6 ∷ 1 ∷ []) ≡ to_zero ++ (decided Branch false ∷ decided Branch true ∷ []) }
    ensures asked_again { case_with asking_job (7 ∷ 1 ∷ [])
        ≡ to_zero ++ (decided Branch true ∷ decided Branch false ∷ decided Branch true ∷ []) }
{}

/// How many cycles the segments of starts have, and whether they are late.
fn worked_ends()
    ensures added { cycles_with adding_job (7 ∷ 1 ∷ []) ≡ 2 }
    ensures in_time { is_late adding_job (7 ∷ 1 ∷ []) ≡ false }
    ensures spun { cycles_with spinning_job (7 ∷ 1 ∷ []) ≡ 2 }
    ensures late { is_late spinning_job (7 ∷ 1 ∷ []) ≡ true }
    ensures asked { cycles_with asking_job (7 ∷ 1 ∷ []) ≡ 1 }
{}

#[test]
fn cases_are_worked() {
    worked_cases();
    worked_ends();
}
