// Worked word lists of twin cases, computed on the definitions.
ghost use Rattle.std.specs.Prelude.{◌≡◌, [], ◌∷◌, ◌++◌, Some, map, take};
ghost use Rattle.mw_rel.specs.CaseExamples.{to_one, to_zero};
ghost use Rattle.mw_rel.specs.ComparisonWords as subjects;
ghost use Rattle.mw_ready.specs.Examples.{taking_board, writing_board};
ghost use Rattle.mw_revise.specs.Examples.{adds, block_with, leaves, ors, parted_revision, pushes, register_block};
ghost use Rattle.mw_revise.specs.Examples.{revision_with, speaking_board, to_five, to_four};
ghost use Rattle.mw_revise.specs.WordExamples.{asks_at, compares_at, first_register_lines, staying_on, told_along};
ghost use Rattle.mw_revise.specs.WordExamples.{kind_behind, op_behind, told_with, words_with};
ghost use Rattle.mw_board.specs.Examples.{small_board};
ghost use Rattle.mw_term.specs.declared.kinds.WordKind.TheVariants.{BesideLine, BesideNoise, Element};
ghost use Rattle.mw_term.specs.declared.op.Op.TheVariants.{Or};

/// The words of two programs that add registers, the old one in two cycles and the new one in one, where the registers
/// 0 and 1 are kept and PC is fixed. The start has 25 variables of the old program and 23 of the new one. Each cycle of
/// the old one has a line, noise, a sum and twelve bits, of which the first is asked for first; the new cycle has no
/// line. PC is compared on each side, then the registers, and then the memories. With an or in place of the sum the
/// words have the same numbers, and the or is that of the old program's variables. The first variable of the new
/// program is its register 2, numbered behind all old elements; its noise is its own, and so is its second line, where
/// it goes on.
pub fn twin_words_are_worked()
    ensures first_bit { told_with adds [] ≡ asks_at 52 }
    ensures second_cycle { told_with adds to_one ≡ asks_at 67 }
    ensures new_cycle { told_with adds (to_one ++ to_zero) ≡ asks_at 81 }
    ensures agrees { told_with adds (to_one ++ (to_zero ++ to_four))
        ≡ compares_at 102 (93 ∷ 94 ∷ 95 ∷ 96 ∷ 102 ∷ []) }
    ensures lines { take 4 (map (λ c. c.subject) (words_with adds (to_one ++ (to_zero ++ to_four))).comparisons)
        ≡ subjects.line 19 ∷ subjects.line 19 ∷ subjects.line 0 ∷ subjects.line 1 ∷ [] }
    ensures differs { told_with ors (to_one ++ (to_zero ++ to_four))
        ≡ compares_at 102 (93 ∷ 94 ∷ 95 ∷ 96 ∷ 102 ∷ []) }
    ensures new_element { kind_behind 25 (words_with adds []) ≡ Some (Element 28) }
    ensures new_noise { kind_behind 78 (words_with adds (to_one ++ to_zero)) ≡ Some (BesideNoise 0) }
    ensures later_line { kind_behind 92 (words_with leaves (to_one ++ (to_zero ++ to_five))) ≡ Some (BesideLine 1) }
    ensures shared { op_behind 79 (words_with ors (to_one ++ to_zero)) ≡ Some (Or 1 0) }
{}

/// What twin words are over: the new program writes and reads its own side of the memory; inputs are shared; and words
/// put out are compared first.
pub fn twin_sides_are_worked()
    ensures writes { told_along (revision_with writing_board adds (block_with 2 first_register_lines ∷ []))
        (block_with 2 first_register_lines) (to_one ++ (to_zero ++ to_four))
        ≡ compares_at 108 (94 ∷ 95 ∷ 96 ∷ 108 ∷ []) }
    ensures inputs { told_along (staying_on taking_board) (register_block 1) (to_zero ++ to_four)
        ≡ compares_at 88 (79 ∷ 80 ∷ 81 ∷ 82 ∷ 88 ∷ []) }
    ensures outputs { told_along (staying_on speaking_board) (register_block 1) (to_zero ++ to_four)
        ≡ compares_at 88 (78 ∷ 79 ∷ 80 ∷ 81 ∷ 82 ∷ 88 ∷ []) }
{}

/// Where every twin start of a case differs nothing is compared: a late old segment ends the list, and a late new one
/// stands behind it; the programs reach different boundaries; one puts out more words; or one has pushed.
pub fn differing_twins_are_worked()
    ensures late_old { told_along (revision_with small_board adds (register_block 1 ∷ [])) (register_block 1) to_one
        ≡ compares_at 63 [] }
    ensures late_new { told_with leaves (to_one ++ (to_zero ++ (to_five ++ to_zero))) ≡ compares_at 107 [] }
    ensures boundary { told_along (parted_revision small_board adds) (register_block 2) (to_one ++ to_four)
        ≡ compares_at 77 [] }
    ensures event { told_along (revision_with speaking_board adds (register_block 2 ∷ [])) (register_block 2)
        (to_one ++ (to_zero ++ to_four)) ≡ compares_at 92 [] }
    ensures stack_pointer { told_with pushes (to_one ++ (to_zero ++ to_four)) ≡ compares_at 92 [] }
{}
