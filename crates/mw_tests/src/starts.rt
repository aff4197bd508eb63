// Six worked starts of jobs, computed on the definitions.
ghost use Rattle.std.specs.Prelude.{◌≡◌, [], ◌∷◌, Some, None};
ghost use Rattle.mw_rel.specs.Examples.{same_job, element_job, late_job, subtract_job, push_job};
ghost use Rattle.mw_tests.specs.Starts.{shown};
ghost use Rattle.mw_rel.specs.declared.difference.Difference.TheVariants.{Late, Element, StackPointer};

/// What each of them shows: nothing where both sides do the same; else the element or the stack pointer that differs,
/// or that the segment is late.
fn worked_starts()
    ensures same { shown same_job (7 ∷ 1 ∷ 15 ∷ []) ≡ None }
    ensures element { shown element_job (7 ∷ 1 ∷ 15 ∷ []) ≡ Some (Element 1) }
    ensures late { shown late_job (7 ∷ 1 ∷ 15 ∷ []) ≡ Some Late }
    ensures subtracted { shown subtract_job (1 ∷ 0 ∷ []) ≡ None }
    ensures added { shown subtract_job (1 ∷ 1 ∷ []) ≡ Some (Element 0) }
    ensures pushed { shown push_job (3 ∷ []) ≡ Some StackPointer }
{}

#[test]
fn starts_are_worked() {
    worked_starts();
}
