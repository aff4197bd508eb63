// Lists of functions, and those of constants and variables.
ghost use Rattle.std.specs.Prelude.{◌≡◌, ◌+◌, ◌≤◌, ◌<◌, ◌^◌, [], ◌∷◌, ◌++◌, length, take, drop, map, IfOk, OnOk};
ghost use Rattle.mw_base.specs.Words as words;
ghost use Rattle.mw_term.specs.Cofactors.{variable, value_of};
ghost use Rattle.mw_dd.specs.Diagrams.{Keeps};
ghost use Rattle.mw_blast.specs.Bits.{AreThere, AreFor};
ghost use Rattle.mw_blast.specs.Entries.{bits_at, function_at};

use mw_base::{NoMemory, bit};
use mw_dd::{Dd, Diagrams};
use std::alloc::Global;

/// Puts a function behind others.
///
/// # Errors
///
/// Memory ran out.
pub(crate) fn append(functions: &mut Vec<Dd>, function: Dd) -> Result<(), NoMemory>
    ensures { OnOk result (functions.new.items ≡ functions.old.items ++ function ∷ []) }
{
    functions.push(function)?;
    Ok(())
}

/// A list of one function.
///
/// # Errors
///
/// Memory ran out.
pub(crate) fn single(alloc: Global, function: Dd) -> Result<Vec<Dd>, NoMemory>
    ensures { IfOk result (λ v. v.items ≡ function ∷ []) }
{
    let mut functions = Vec::new(alloc);
    append(&mut functions, function)?;
    Ok(functions)
}

/// A list of functions anew.
///
/// # Errors
///
/// Memory ran out.
pub(crate) fn copied(alloc: Global, functions: &[Dd]) -> Result<Vec<Dd>, NoMemory>
    ensures { IfOk result (λ v. v.items ≡ functions.now) }
{
    Ok(Vec::from_slice(alloc, functions)?)
}

/// So many of some functions anew, from a place on.
///
/// # Errors
///
/// Memory ran out.
pub(crate) fn part(alloc: Global, functions: &[Dd], low: u8, width: u8) -> Result<Vec<Dd>, NoMemory>
    requires { low + width ≤ length functions.now }
    ensures { IfOk result (λ v. v.items ≡ take width (drop low functions.now)) }
{
    let low = low as usize;
    copied(alloc, &functions[low..low + width as usize])
}

/// A list of functions behind another.
///
/// # Errors
///
/// Memory ran out.
pub(crate) fn joined(alloc: Global, low: &[Dd], high: &[Dd]) -> Result<Vec<Dd>, NoMemory>
    ensures { IfOk result (λ v. v.items ≡ low.now ++ high.now) }
{
    let mut functions = copied(alloc, low)?;
    functions.extend_from_slice(high)?;
    Ok(functions)
}

/// The bits of a number, of at most 32, from the lowest.
///
/// # Errors
///
/// Memory ran out.
pub(crate) fn constants(
    dds: &Diagrams,
    alloc: Global,
    number: u32,
    width: u8,
) -> Result<Vec<Dd>, NoMemory>
    requires { width ≤ 32 }
    ensures { IfOk result (λ v. AreFor dds.now width (λ j given. words.bit_of number j) v.items) }
{
    let mut bits = Vec::new(alloc);
    for place in 0..width {
        append(&mut bits, dds.constant(bit(number, place)))?;
    }
    Ok(bits)
}

/// The bits of a word, of at most 32, from the lowest.
///
/// # Errors
///
/// Memory ran out.
pub(crate) fn variables(
    dds: &mut Diagrams,
    alloc: Global,
    word: u64,
    width: u8,
) -> Result<Vec<Dd>, NoMemory>
    requires { width ≤ 32 }
    ensures made { IfOk result (λ v. AreFor dds.new width (λ j. value_of (variable j word)) v.items) }
    ensures keeps { Keeps dds.old dds.new }
{
    let mut bits = Vec::new(alloc);
    for place in 0..width {
        append(&mut bits, dds.variable(alloc, place, word)?)?;
    }
    Ok(bits)
}

/// One bit of each of some numbers.
///
/// # Errors
///
/// Memory ran out.
pub(crate) fn bits_of_each(
    dds: &Diagrams,
    alloc: Global,
    numbers: &[u16],
    place: u8,
) -> Result<Vec<Dd>, NoMemory>
    requires { place < 32 }
    ensures { IfOk result (λ v. AreFor dds.now (length numbers.now) (function_at (bits_at place numbers.now)) v.items) }
{
    let mut bits = Vec::new(alloc);
    for number in numbers {
        append(&mut bits, dds.constant(bit(u32::from(*number), place)))?;
    }
    Ok(bits)
}
