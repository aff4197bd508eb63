// The line that begins a block.
ghost use Rattle.std.specs.Prelude.{◌≡◌, ◌≤◌, IfOk};
ghost use Rattle.mw_descfile.specs.Boundaries.{place_token, bounded};
ghost use Rattle.mw_revise.specs.Beginnings.{beginning_of};

use mw_base::{Cause, Cursor, Numeral, Place, TextFault, Token, fault_on};

/// boundary PLACE BOUND.
#[derive(Clone, Copy)]
pub(crate) struct Beginning {
    /// The word `boundary`.
    pub word: Token,
    /// Where the block is.
    pub place: Place,
    /// The most cycles of a segment that begins there.
    pub bound: Numeral,
}

/// boundary PLACE BOUND: cause 60.
#[tactic(auto, unfolding(crate::specs::Beginnings::beginning_of))]
pub(crate) fn beginning_of(line: &Cursor) -> Result<Beginning, TextFault>
    ensures { result ≡ beginning_of line.now }
{
    let word = line.first_word(b"boundary")?;
    let place = line.place(1)?;
    let bound = line.number(2)?;
    line.end(3)?;
    Ok(Beginning { word, place, bound })
}

/// The token of a PLACE.
pub(crate) fn place_token(place: Place) -> Token
    ensures { result ≡ place_token place }
{
    match place {
        Place::Label(token) => token,
        Place::Address(numeral) => numeral.token,
    }
}

/// A bound: cause 54.
pub(crate) fn bounded(number: Numeral) -> Result<u32, TextFault>
    ensures exact { result ≡ bounded number }
    ensures some { IfOk result (λ bound. 1 ≤ bound) }
    ensures most { IfOk result (λ bound. bound ≤ 500) }
{
    if 1 <= number.value && number.value <= 500 {
        Ok(number.value as u32)
    } else {
        Err(fault_on(number.token, Cause::BadBound))
    }
}
