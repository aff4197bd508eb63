// The rows of the term table, and the order of variables, computed on the definitions.
ghost use Rattle.std.specs.Prelude.{◌≡◌, ℕ, [], ◌∷◌, true, false};
ghost use Rattle.mw_term.specs.declared.op.Op.TheVariants.{Con, Sum, Ovf};
ghost use Rattle.mw_term.specs.Cofactors.{variable, is_before, with_fixed};
ghost use Rattle.mw_term.specs.Rows.{bit_made};
ghost use Rattle.mw_term.specs.Table.{table_of, width_over};
ghost use Rattle.mw_term.specs.Values.{value_over};

/// 3 + 1 + 1 of two bits, by the definitions: the value is 1, it overflows not, and the rows make its bits.
fn small_sum()
    ensures value { value_over (table_of (Con 3 2 ∷ Con 1 2 ∷ Con 1 1 ∷ []) []) (λ word. 0) (Sum 0 1 2) ≡ 1 }
    ensures width { width_over (table_of (Con 3 2 ∷ Con 1 2 ∷ Con 1 1 ∷ []) []) (Sum 0 1 2) ≡ 2 }
    ensures low { bit_made (table_of (Con 3 2 ∷ Con 1 2 ∷ Con 1 1 ∷ []) []) (Sum 0 1 2) 0 (λ word. 0) ≡ true }
    ensures high { bit_made (table_of (Con 3 2 ∷ Con 1 2 ∷ Con 1 1 ∷ []) []) (Sum 0 1 2) 1 (λ word. 0) ≡ false }
    ensures overflow { bit_made (table_of (Con 3 2 ∷ Con 1 2 ∷ Con 1 1 ∷ []) []) (Ovf 0 1 2) 0 (λ word. 0) ≡ false }
{}

/// Variables are ordered by bit first, and fixing those before bit 1 of word 0 leaves the bits from 1 on as they are.
fn small_order()
    ensures bits { is_before (variable 0 9) (variable 1 2) ≡ true }
    ensures words { is_before (variable 1 2) (variable 1 9) ≡ true }
    ensures itself { is_before (variable 1 2) (variable 1 2) ≡ false }
    ensures fixed { with_fixed (variable 1 0) (λ word. 1) (λ word. 6) 5 ≡ 7 }
{}
