// Addresses of microwords, and of words of a PDP-8, in texts.
ghost use Rattle.std.specs.Prelude.{◌≡◌, ◌<◌, IfOk};
ghost use Rattle.mw_base.specs.Named.{names_seen};
ghost use Rattle.mw_base.specs.Places.{low_address, address_of};

use crate::cause::Cause;
use crate::cursor::Numeral;
use crate::line::fault_on;
use crate::named::Names;
use crate::refusal::TextFault;
use crate::symbol::spelled;
use crate::token::Token;

/// An address below 4,096 in a text: a PLACE.
#[derive(Clone, Copy)]
pub enum Place {
    /// That of the label of this name.
    Label(Token),
    /// This number.
    Address(Numeral),
}

/// An address, which is below 4,096.
///
/// # Errors
///
/// Cause 33 where it isn't, at its token.
pub fn low_address(token: Token, address: u128) -> Result<u16, TextFault>
    ensures exact { result ≡ low_address token address }
    ensures low { IfOk result (λ address. address < 4096) }
{
    if address < 4096 {
        Ok(address as u16)
    } else {
        Err(fault_on(token, Cause::ValueTooWide))
    }
}

impl Place {
    /// The address, given those of the labels: below 4,096.
    ///
    /// # Errors
    ///
    /// Cause 30 where there is no label of the name, cause 33 where the address isn't below 4,096, at the token.
    #[tactic(auto, unfolding(crate::specs::Places::address_of))]
    pub fn address(self, text: &[u8], labels: &Names<u16>) -> Result<u16, TextFault>
        ensures exact { result ≡ address_of text.now (names_seen labels.now) self }
        ensures low { IfOk result (λ address. address < 4096) }
    {
        match self {
            Place::Label(token) => {
                let unknown = fault_on(token, Cause::UnknownName);
                let address = labels.get(spelled(text, token)).ok_or(unknown)?;
                low_address(token, u128::from(address))
            }
            Place::Address(numeral) => low_address(numeral.token, numeral.value),
        }
    }
}
