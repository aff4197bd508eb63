// The words that statements spell.
ghost use Rattle.std.specs.Prelude.{◌≡◌, ◌<◌, IfOk};
ghost use Rattle.mw_base.specs.Named.{names_seen};
ghost use Rattle.mw_pal.specs.Codes.{token_of, page_part, reference_code, code_of};

use crate::joins::joined_code;
use crate::opcode::Opcode;
use crate::statement::Instruction;
use mw_base::{Cause, Names, Place, TextFault, Token, fault_on};

/// The words of a page.
const PAGE: u16 = 0o200;

/// The token of an address.
fn token_of(place: Place) -> Token
    ensures { result ≡ token_of place }
{
    match place {
        Place::Label(token) => token,
        Place::Address(numeral) => numeral.token,
    }
}

/// The page bit and the seven bits below it that reach an address from a statement's own.
///
/// # Errors
///
/// Cause 84 at the address where it is neither of page 0 nor of the statement's page.
#[tactic(auto, unfolding(crate::specs::Codes::page_part))]
fn page_part(token: Token, from: u16, address: u16) -> Result<u16, TextFault>
    ensures exact { result ≡ page_part token from address }
    ensures low { IfOk result (λ low. low < 0o400) }
{
    if address < PAGE {
        Ok(address)
    } else if address / PAGE == from / PAGE {
        Ok(PAGE + address % PAGE)
    } else {
        Err(fault_on(token, Cause::OffPage))
    }
}

/// The word of an instruction that refers to memory: cause 30 or 33, then 84, at its address.
#[tactic(auto, unfolding(crate::specs::Codes::reference_code))]
fn reference_code(
    text: &[u8],
    labels: &Names<u16>,
    from: u16,
    opcode: Opcode,
    is_indirect: bool,
    place: Place,
) -> Result<u16, TextFault>
    ensures exact { result ≡ reference_code text.now (names_seen labels.now) from opcode is_indirect place }
    ensures low { IfOk result (λ code. code < 4096) }
{
    let address = place.address(text, labels)?;
    let low = page_part(token_of(place), from, address)?;
    Ok(opcode.number() * 0o1000 + u16::from(is_indirect) * 0o400 + low)
}

/// The word of a statement at an address: cause 30, 33 or 84.
pub(crate) fn code_of(
    text: &[u8],
    labels: &Names<u16>,
    from: u16,
    says: &Instruction,
) -> Result<u16, TextFault>
    ensures exact { result ≡ code_of text.now (names_seen labels.now) from says.now }
    ensures low { IfOk result (λ code. code < 4096) }
{
    match says {
        Instruction::Data(value) => value.address(text, labels),
        Instruction::Reference(opcode, is_indirect, place) => {
            reference_code(text, labels, from, *opcode, *is_indirect, *place)
        }
        Instruction::Operate(words) => Ok(joined_code(words.as_slice())),
    }
}
