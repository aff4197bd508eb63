// Worked revisions, computed on the definitions.
ghost use Rattle.std.specs.Prelude.{◌≡◌, [], ◌∷◌, ◌++◌, Some, None, true, false};
ghost use Rattle.mw_board.specs.Examples.{small_board};
ghost use Rattle.mw_ready.specs.Examples.{memory_board, writing_board};
ghost use Rattle.mw_revise.specs.declared.difference.TwinDifference.TheVariants as differences;
ghost use Rattle.mw_revise.specs.declared.programs.Side.TheVariants.{Old, New};
ghost use Rattle.mw_revise.specs.Agreement.{Agreement};
ghost use Rattle.mw_rel.specs.CaseExamples.{to_one, to_zero};
ghost use Rattle.mw_revise.specs.Examples.{adds, block_with, decided_with, eights_with, leaves, nothing, ors};
ghost use Rattle.mw_revise.specs.Examples.{parted_revision, pushes, pushes_and_ors, reached, reached_as};
ghost use Rattle.mw_revise.specs.Examples.{register_block, revision_with, shown, small_revision, small_twins};
ghost use Rattle.mw_revise.specs.Examples.{speaking_board, staying, to_five, to_four, twins_with, waiting_for_line};
ghost use Rattle.mw_revise.specs.Examples.{with_inputs, with_lines, wrong_lines};
ghost use Rattle.mw_revise.specs.TwinCase.{twin_case};
ghost use Rattle.mw_revise.specs.TwinDiffers.{twin_difference};
ghost use Rattle.mw_revise.specs.TwinStart.{AreTwins, IsTwinStart, line_on};

/// A program that adds and jumps in two cycles, and others in its place. One that does it in one cycle shows no
/// difference, and both have come to the same registers after three segments. With an or in place of the sum the first
/// register differs where the sum has a carry, and no difference shows where it has none. A bound of one cycle makes
/// the old program late; a new program that never comes back is late; the second of two outputs is missing; a boundary
/// between the words is met by the old program alone; a push is on one stack alone; and where no line is compared the
/// memories differ. Waits before the old program's cycles change nothing, and its first line is that of the clock
/// behind them.
pub fn revisions_are_worked()
    ensures sums { shown adds (9 ∷ 8 ∷ []) ≡ None }
    ensures old_register { reached Old adds (9 ∷ 8 ∷ []) 6 ≡ reached_as 0 1 8 }
    ensures new_register { reached New adds (9 ∷ 8 ∷ []) 3 ≡ reached_as 4 1 8 }
    ensures carry { shown ors (8 ∷ 8 ∷ []) ≡ Some (differences.Element 0) }
    ensures no_carry { shown ors (8 ∷ 7 ∷ []) ≡ None }
    ensures late_old { twin_difference (revision_with small_board adds (register_block 1 ∷ []))
        (twins_with (register_block 1) (9 ∷ 8 ∷ []) nothing nothing) ≡ Some differences.LateOld }
    ensures late_new { shown leaves (9 ∷ 8 ∷ []) ≡ Some differences.LateNew }
    ensures event { twin_difference (revision_with speaking_board adds (register_block 2 ∷ []))
        (small_twins (9 ∷ 8 ∷ [])) ≡ Some (differences.Event 1) }
    ensures boundary { twin_difference (parted_revision small_board adds) (small_twins (9 ∷ 8 ∷ []))
        ≡ Some differences.Boundary }
    ensures stack_pointer { shown pushes (9 ∷ 8 ∷ []) ≡ Some differences.StackPointer }
    ensures memory { twin_difference (revision_with writing_board ors (block_with 2 [] ∷ []))
        (twins_with (block_with 2 []) (8 ∷ 8 ∷ []) nothing nothing) ≡ Some (differences.Memory 0) }
    ensures waits { twin_difference (revision_with memory_board adds (register_block 2 ∷ []))
        (twins_with (register_block 2) (9 ∷ 8 ∷ []) waiting_for_line (with_lines (true ∷ []))) ≡ None }
    ensures old_line { line_on Old (revision_with memory_board adds (register_block 2 ∷ []))
        (twins_with (register_block 2) (9 ∷ 8 ∷ []) waiting_for_line (with_lines (true ∷ []))) 0 ≡ true }
    ensures new_line { line_on New (revision_with memory_board adds (register_block 2 ∷ []))
        (twins_with (register_block 2) (9 ∷ 8 ∷ []) waiting_for_line (with_lines (true ∷ []))) 0 ≡ true }
{}

/// Which difference is told where there are several: a late old segment before a late new one, an event before a
/// boundary that isn't the same, such a boundary before a stack pointer, a stack pointer before a line, a line before
/// the memory, and of lines the first in the file.
pub fn differences_come_in_order()
    ensures both_late { twin_difference (revision_with small_board leaves (register_block 1 ∷ []))
        (twins_with (register_block 1) (9 ∷ 8 ∷ []) nothing nothing) ≡ Some differences.LateOld }
    ensures event_first { twin_difference (parted_revision speaking_board ors) (small_twins (8 ∷ 8 ∷ []))
        ≡ Some (differences.Event 0) }
    ensures boundary_first { twin_difference (parted_revision small_board pushes) (small_twins (9 ∷ 8 ∷ []))
        ≡ Some differences.Boundary }
    ensures pointer_first { shown pushes_and_ors (8 ∷ 8 ∷ []) ≡ Some differences.StackPointer }
    ensures line_first { twin_difference (revision_with writing_board ors (register_block 2 ∷ []))
        (small_twins (8 ∷ 8 ∷ [])) ≡ Some (differences.Element 0) }
    ensures first_line { twin_difference (revision_with small_board ors (block_with 2 wrong_lines ∷ []))
        (twins_with (block_with 2 wrong_lines) (8 ∷ 8 ∷ []) nothing nothing) ≡ Some (differences.Element 19) }
{}

/// What twin starts share: the line in the first cycle, but not those in later ones; and the inputs.
pub fn twin_starts_are_worked()
    ensures later_lines { IsTwinStart (small_revision ors)
        (eights_with (with_lines (true ∷ true ∷ [])) (with_lines (true ∷ false ∷ []))) }
    ensures first_lines { ¬ IsTwinStart (small_revision ors) (eights_with (with_lines (true ∷ [])) nothing) }
    ensures inputs { ¬ AreTwins (small_revision ors) (eights_with (with_inputs (1 ∷ [])) (with_inputs (2 ∷ []))) }
{}

/// What twin starts decide: the two cycles of the old program and then the one of the new program, also with waits;
/// where the old segment is late, the cycles of its bound alone; and where the new one is, those of its bound behind
/// the old ones.
pub fn twin_cases_are_worked()
    ensures both { decided_with adds (9 ∷ 8 ∷ []) ≡ to_one ++ (to_zero ++ to_four) }
    ensures late_old { twin_case (revision_with small_board adds (register_block 1 ∷ []))
        (twins_with (register_block 1) (9 ∷ 8 ∷ []) nothing nothing) ≡ to_one }
    ensures late_new { decided_with leaves (9 ∷ 8 ∷ []) ≡ to_one ++ (to_zero ++ (to_five ++ to_zero)) }
    ensures waits { twin_case (revision_with memory_board adds (register_block 2 ∷ []))
        (twins_with (register_block 2) (9 ∷ 8 ∷ []) waiting_for_line (with_lines (true ∷ [])))
        ≡ to_one ++ (to_zero ++ to_four) }
{}

/// The law of revisions, used in both directions: two programs that only jump to their boundary agree, over all runs,
/// since no twin start of theirs differs; and a program that takes an or in place of a sum doesn't agree with the one
/// that adds, since a twin start differs.
pub fn agreement_is_worked()
    ensures agree { Agreement staying }
    ensures differ { ¬ Agreement (small_revision ors) }
{}
