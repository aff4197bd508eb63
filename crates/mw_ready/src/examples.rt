// A worked run with waits, computed on the definitions.
ghost use Rattle.std.specs.Prelude.{◌≡◌, [], ◌∷◌, false, true};
ghost use Rattle.mw_board.specs.Examples.{small_board};
ghost use Rattle.mw_ready.specs.Examples.{first_lines, left_of_waiting, lists_as, masked_board, memory_board};
ghost use Rattle.mw_ready.specs.Examples.{mixed_board, reached, reached_as, taking_board, waiting, writing_board};

/// Where each word uses memory, the clocks 0, 1 and 3 are waits: a run of one cycle has three clocks, and one of two
/// has five. The cycles have the lines of the clocks 2 and 4, which are left, with those from 5 on. A mask changes
/// nothing, and a word that writes uses memory too. Where the second word doesn't use memory, clock 3 makes its cycle
/// though its wait bit is 1. Where no word uses memory, no clock is a wait; and none is where D is the input.
pub fn waits_are_worked()
    ensures one_cycle { reached memory_board 1 ≡ reached_as 1 3 1 1 2 }
    ensures two_cycles { reached memory_board 2 ≡ reached_as 2 5 0 1 1 }
    ensures lines { first_lines memory_board ≡ true ∷ false ∷ [] }
    ensures left { left_of_waiting memory_board ≡ lists_as (true ∷ false ∷ true ∷ []) (3 ∷ 5 ∷ 6 ∷ []) }
    ensures masked { reached masked_board 1 ≡ reached_as 1 3 1 1 2 }
    ensures written { reached writing_board 1 ≡ reached_as 1 3 1 1 2 }
    ensures mixed { reached mixed_board 2 ≡ reached_as 2 4 0 1 1 }
    ensures mixed_left { left_of_waiting mixed_board
        ≡ lists_as (true ∷ false ∷ false ∷ true ∷ []) (3 ∷ 4 ∷ 5 ∷ 6 ∷ []) }
    ensures taking { reached taking_board 1 ≡ reached_as 1 1 1 1 2 }
    ensures without_memory { reached small_board 1 ≡ reached_as 1 1 1 1 2 }
    ensures all_left { left_of_waiting small_board ≡ lists_as waiting.line waiting.noise }
{}
