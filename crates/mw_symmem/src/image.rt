// The image of base reads.
ghost use Rattle.std.specs.Prelude.{◌≡◌, ℕ, ◌<◌, ◌≤◌, ◌^◌, Some, slice_get, slice_index, slice_set, length, IfOk};
ghost use Rattle.mw_term.specs.Assigned.{given_by};
ghost use Rattle.mw_term.specs.MemoryRead as kept;
ghost use Rattle.mw_symmem.specs.Memory.{IsOfWidth, AreHeld, base_word};

use crate::held::Held;
use mw_base::NoMemory;
use mw_term::{Assignment, Written};
use std::alloc::Global;

/// Writes a word at an address of an image.
fn put(image: &mut [u32], address: u32, word: u32)
    requires { address < length image.old }
    ensures { image.new ≡ slice_set image.old address word }
{
    image[address as usize] = word;
}

/// At each address of so many bits the word of the oldest read there, and 0 elsewhere.
pub(crate) fn image(
    alloc: Global,
    width: u8,
    reads: &[Held],
    terms: &Written,
    given: &Assignment,
) -> Result<Vec<u32>, NoMemory>
    requires most { width ≤ 16 }
    requires held { (word : ℕ) × AreHeld terms.now width word reads.now }
    ensures words { IfOk result (λ v. (address : ℕ) → slice_index v.items address
        ≡ base_word terms.now (given_by given.now) reads.now address) }
    ensures size { IfOk result (λ v. length v.items ≡ 2 ^ width) }
{
    let mut image = vec![in alloc; 0; 1 << width]?;
    let mut place = reads.len();
    while place > 0 {
        place -= 1;
        let read = reads[place];
        let address = terms.value(alloc, read.address(), given)?;
        let word = terms.value(alloc, read.word(), given)?;
        put(&mut image, address, word);
    }
    Ok(image)
}
