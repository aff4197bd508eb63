// Kinds of words as keys of a map.
ghost use Rattle.std.specs.Prelude.{◌≡◌};
ghost use Rattle.std.specs.Hash as fed;
ghost use Rattle.std.specs.Cmp.{partial_equiv_from_equiv};
ghost use Rattle.std.proofs.Common.{ap};
ghost use Rattle.mw_term.specs.WordList.{same_kind};
ghost use Rattle.mw_symmem.specs.Kinds.{number_in, kind_is, kinds_law};

use mw_term::WordKind;
use std::hash::{Hash, Hasher};

/// A kind of words as the key of a map.
#[derive(Clone, Copy)]
pub(crate) struct Key(pub WordKind);

impl Key {
    /// The number within the kind, 0 where it has none. Kinds with one number share a bucket.
    fn number(&self) -> u32
        ensures { result ≡ number_in self.now.0 }
    {
        match self.0 {
            WordKind::Element(number)
            | WordKind::Line(number)
            | WordKind::Noise(number)
            | WordKind::BesideLine(number)
            | WordKind::BesideNoise(number)
            | WordKind::Base(number)
            | WordKind::Input(number) => number,
            WordKind::Probe => 0,
        }
    }
}

impl PartialEq for Key {
    ghost eq = { λ a b. same_kind a.0 b.0 };

    ghost laws = { partial_equiv_from_equiv kinds_law };

    fn eq(&self, other: &Key) -> bool {
        self.0 == other.0
    }
}

impl Eq for Key {
    ghost laws = { kinds_law };
}

impl Hash for Key {
    ghost hash_input = { λ key. fed.u32 (number_in key.0) };

    ghost respects_eq = { λ a b same. ap (λ kind. fed.u32 (number_in kind)) (kind_is a.0 b.0 same) };

    fn hash<H: Hasher>(&self, state: &mut H) {
        state.write_u32(self.number());
    }
}
