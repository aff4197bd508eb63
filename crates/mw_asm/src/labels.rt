// The control addresses that labels stand for.
ghost use Rattle.std.specs.Prelude.{◌≡◌, ◌<◌, IfOk};
ghost use Rattle.mw_asm.specs.Labels.{label_named};
ghost use Rattle.mw_base.specs.Places.{address_of};

use crate::assembled::Label;
use mw_base::{Cause, Place, TextFault, fault_on, low_address, spelled};

/// The address of the label with a name, if there is one.
fn label_named(labels: &[Label], name: &[u8]) -> Option<u16>
    ensures { result ≡ label_named labels.now name.now }
{
    match labels.iter().find(|label| name == label.name.as_slice()) {
        Some(label) => Some(label.address),
        None => None,
    }
}

/// The control address that a PLACE of a text stands for, below 4,096.
///
/// # Errors
///
/// At its token: cause 30 where it is a name and no label has it, and 33 where its address is 4,096 or more.
#[tactic(auto, unfolding(mw_base::specs::Places::address_of))]
pub fn address_of(place: Place, text: &[u8], labels: &[Label]) -> Result<u16, TextFault>
    ensures exact { result ≡ address_of text.now (label_named labels.now) place }
    ensures low { IfOk result (λ address. address < 4096) }
{
    match place {
        Place::Label(token) => {
            let unknown = fault_on(token, Cause::UnknownName);
            let address = label_named(labels, spelled(text, token)).ok_or(unknown)?;
            low_address(token, u128::from(address))
        }
        Place::Address(numeral) => low_address(numeral.token, numeral.value),
    }
}
