// A small microprogram on which the definitions compute.
ghost use Rattle.std.specs.Prelude.{◌≡◌, [], ◌∷◌, codes, true, Ok};
ghost use Rattle.mw_board.specs.declared.parts.BoardParts.{BoardParts};
ghost use Rattle.mw_asm.specs.Examples.{small_text, spelled_on};

/// A small microprogram has two words and a label.
fn small_microprogram()
    ensures { (board : BoardParts) → spelled_on board small_text ≡ Ok (record {
      store = record { words = 0x3802C1 ∷ 0x4000C0040 ∷ [] };
      used = true ∷ true ∷ [];
      labels = (record { name = codes "LOOP"; address = 0 }) ∷ [];
    }) }
{}
