// version, width, microword, address, fill, unset, vector and stack.
ghost use Rattle.std.specs.Prelude.{◌≡◌, ◌<◌, ◌≤◌, IfOk};
ghost use Rattle.toml.specs.View.{view, table_view};
ghost use Rattle.mw_base.specs.Reading.{Gives};
ghost use Rattle.mw_boardfile.specs.Board.{sizes_of};
ghost use Rattle.mw_boardfile.specs.Sizes.{version_in, width_in, microword_in, address_in};
ghost use Rattle.mw_boardfile.specs.Sizes.{word_in, fill_in, unset_in, vector_in};
ghost use Rattle.mw_boardfile.specs.Sizes.{usual_stack, stack_in};
ghost use Rattle.mw_board.specs.Rules.{width_rule, microword_rule, address_rule, word_rule, vector_rule};
ghost use Rattle.mw_board.specs.Rules.{stack_rule};
ghost use Rattle.mw_boardfile.specs.Kept.{Kept, SizesKeep};
ghost use Rattle.mw_boardfile.specs.Views.{given};

use crate::fault::BoardRefusal;
use crate::paths::under_whole;
use crate::values::{member, natural, number_text, required};
use mw_base::Cause;
use mw_board::{address_rule, microword_rule, stack_rule, vector_rule, width_rule, word_rule};
use std::alloc::Global;
use toml::{Table, Value};

/// What stands before the fields.
#[derive(Clone, Copy)]
pub(crate) struct BoardSizes {
    /// How many bits a register and a memory word have.
    pub(crate) width: u8,
    /// How many bits a microword has.
    pub(crate) microword: u8,
    /// How many bits a memory address has.
    pub(crate) address: u8,
    /// The microword past the last assembled one.
    pub(crate) fill: u128,
    /// The bits that a line doesn't set.
    pub(crate) unset: u128,
    /// The address that the vector gives.
    pub(crate) vector: u16,
    /// How many words the stack has.
    pub(crate) stack: u8,
}

/// version to stack.
#[tactic(auto, unfolding(crate::specs::Board::sizes_of))]
pub(crate) fn sizes(alloc: Global, document: &Table) -> Result<BoardSizes, BoardRefusal>
    ensures gives { Gives (λ sizes. sizes) result (sizes_of (table_view document.now)) }
    ensures kept { IfOk result SizesKeep }
{
    let version = under_whole(alloc, b"version", version(member(document, "version")))?;
    let width = under_whole(alloc, b"width", width(member(document, "width")))?;
    let microword = under_whole(
        alloc,
        b"microword",
        microword(member(document, "microword")),
    )?;
    let address = under_whole(
        alloc,
        b"address",
        address(width, member(document, "address")),
    )?;
    let fill = under_whole(alloc, b"fill", fill(microword, member(document, "fill")))?;
    let unset = under_whole(alloc, b"unset", unset(microword, member(document, "unset")))?;
    let vector = under_whole(alloc, b"vector", vector(member(document, "vector")))?;
    let stack = under_whole(alloc, b"stack", stack(version, member(document, "stack")))?;
    Ok(BoardSizes {
        width,
        microword,
        address,
        fill,
        unset,
        vector,
        stack,
    })
}

/// version: 1 or 2.
#[tactic(auto, unfolding(crate::specs::Sizes::version_in))]
pub(crate) fn version(value: Option<&Value>) -> Result<u64, Cause>
    ensures { result ≡ version_in (given value.entry) }
{
    let version = natural(required(value)?)?;
    if version == 1 || version == 2 {
        Ok(version)
    } else {
        Err(Cause::BadValue)
    }
}

/// width: 4 to 32 bits, a multiple of 4.
#[tactic(auto, unfolding(crate::specs::Sizes::width_in))]
fn width(value: Option<&Value>) -> Result<u8, Cause>
    ensures exact { result ≡ width_in (given value.entry) }
    ensures kept { IfOk result (λ width. Kept (width_rule width)) }
{
    let width = natural(required(value)?)?;
    width_rule(width)?;
    Ok(width as u8)
}

/// microword: 1 to 128 bits.
#[tactic(auto, unfolding(crate::specs::Sizes::microword_in))]
fn microword(value: Option<&Value>) -> Result<u8, Cause>
    ensures exact { result ≡ microword_in (given value.entry) }
    ensures kept { IfOk result (λ microword. Kept (microword_rule microword)) }
{
    let microword = natural(required(value)?)?;
    microword_rule(microword)?;
    Ok(microword as u8)
}

/// address: 1 to 16 bits, and no more than the width.
#[tactic(auto, unfolding(crate::specs::Sizes::address_in))]
fn address(width: u8, value: Option<&Value>) -> Result<u8, Cause>
    ensures exact { result ≡ address_in width (given value.entry) }
    ensures kept { IfOk result (λ address. Kept (address_rule width address)) }
{
    let address = natural(required(value)?)?;
    address_rule(width, address)?;
    Ok(address as u8)
}

/// A microword, as a text.
#[tactic(auto, unfolding(crate::specs::Sizes::word_in))]
fn word(microword: u8, value: &Value) -> Result<u128, Cause>
    ensures exact { result ≡ word_in microword (view value.now) }
    ensures kept { IfOk result (λ word. Kept (word_rule microword word)) }
{
    let word = number_text(value)?;
    word_rule(microword, word)?;
    Ok(word)
}

/// fill: a microword.
#[tactic(auto, unfolding(crate::specs::Sizes::fill_in))]
fn fill(microword: u8, value: Option<&Value>) -> Result<u128, Cause>
    ensures exact { result ≡ fill_in microword (given value.entry) }
    ensures kept { IfOk result (λ fill. Kept (word_rule microword fill)) }
{
    word(microword, required(value)?)
}

/// unset: a microword; 0 where it isn't there.
#[tactic(auto, using(crate::proofs::Kept::zero_fits), unfolding(crate::specs::Sizes::unset_in))]
fn unset(microword: u8, value: Option<&Value>) -> Result<u128, Cause>
    ensures exact { result ≡ unset_in microword (given value.entry) }
    ensures kept { IfOk result (λ unset. Kept (word_rule microword unset)) }
{
    match value {
        Some(value) => word(microword, value),
        None => Ok(0),
    }
}

/// vector: a control address; 0 where it isn't there.
#[tactic(auto, unfolding(crate::specs::Sizes::vector_in, mw_board::specs::Rules::vector_rule))]
fn vector(value: Option<&Value>) -> Result<u16, Cause>
    ensures exact { result ≡ vector_in (given value.entry) }
    ensures kept { IfOk result (λ vector. Kept (vector_rule vector)) }
{
    match value {
        Some(value) => {
            let vector = natural(value)?;
            vector_rule(vector)?;
            Ok(vector as u16)
        }
        None => Ok(0),
    }
}

/// The words of the stack of a file that doesn't give them: 9 in version 2, as an Am2910A has, else 5, as an Am2910 has.
#[tactic(auto, unfolding(mw_board::specs::Rules::stack_rule))]
fn usual_stack(version: u64) -> u8
    ensures exact { result ≡ usual_stack version }
    ensures kept { Kept (stack_rule result) }
{
    if version == 2 { 9 } else { 5 }
}

/// stack: 5 or 9 words; those of the version where it isn't there.
#[tactic(auto, unfolding(crate::specs::Sizes::stack_in))]
fn stack(version: u64, value: Option<&Value>) -> Result<u8, Cause>
    ensures exact { result ≡ stack_in version (given value.entry) }
    ensures kept { IfOk result (λ stack. Kept (stack_rule stack)) }
{
    match value {
        Some(value) => {
            let stack = natural(value)?;
            stack_rule(stack)?;
            Ok(stack as u8)
        }
        None => Ok(usual_stack(version)),
    }
}
