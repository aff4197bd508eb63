// Where a block stands in both programs.
ghost use Rattle.std.specs.Prelude.{◌≡◌, ◌<◌, ◌^◌, IfOk};
ghost use Rattle.mw_revise.specs.Kept.{IsSite};
ghost use Rattle.mw_revise.specs.Sites.{is_taken, free_address, least, site_of};

use crate::beginning::place_token;
use crate::keep::Block;
use crate::programs::{Programs, Side};
use mw_asm::address_of;
use mw_base::{Cause, Place, TextFault, fault_on};

/// A control address in each of both programs.
#[derive(Clone, Copy)]
pub(crate) struct Site {
    /// In the old one.
    pub before: u16,
    /// In the new one.
    pub after: u16,
}

/// Whether a block stands at this address of a program.
fn is_taken(side: Side, blocks: &[Block], address: u16) -> bool
    ensures { result ≡ is_taken side blocks.now address }
{
    blocks.iter().any(|block| block.address_on(side) == address)
}

/// The address of a PLACE in a program: cause 30 or 33, and 31 where a block stands there.
#[tactic(auto, unfolding(crate::specs::Sites::free_address))]
fn free_address(
    side: Side,
    programs: &Programs,
    text: &[u8],
    blocks: &[Block],
    place: Place,
) -> Result<u16, TextFault>
    ensures exact { result ≡ free_address side programs.now text.now blocks.now place }
    ensures low { IfOk result (λ address. address < 2 ^ 12) }
{
    let address = address_of(place, text, programs.labels(side))?;
    if is_taken(side, blocks, address) {
        return Err(fault_on(place_token(place), Cause::Twice));
    }
    Ok(address)
}

/// Of two faults at one place the one with the least number.
fn least(first: TextFault, second: TextFault) -> TextFault
    ensures { result ≡ least first second }
{
    if second.cause.number() < first.cause.number() {
        second
    } else {
        first
    }
}

impl Site {
    /// That of a PLACE, behind some blocks: of cause 30, 31 and 33, in either program, the least at the PLACE.
    #[tactic(auto, unfolding(crate::specs::Sites::site_of))]
    pub fn of(
        programs: &Programs,
        text: &[u8],
        blocks: &[Block],
        place: Place,
    ) -> Result<Site, TextFault>
        ensures exact { result ≡ site_of programs.now text.now blocks.now place }
        ensures kept { IfOk result (λ site. IsSite site) }
    {
        match (
            free_address(Side::Old, programs, text, blocks, place),
            free_address(Side::New, programs, text, blocks, place),
        ) {
            (Ok(before), Ok(after)) => Ok(Site { before, after }),
            (Ok(_), Err(fault)) | (Err(fault), Ok(_)) => Err(fault),
            (Err(first), Err(second)) => Err(least(first, second)),
        }
    }
}
