// Texts that readers take.
ghost use Rattle.std.specs.Prelude.{◌<◌, ◌^◌, IfOk, length};

use mw_rowfile::{Fault, File, contents, wrong};

/// The text of a file that a reader takes.
///
/// # Errors
///
/// There is no such file, or it has more than 1,048,576 bytes, which no file that is read has.
pub fn text_of<'a>(files: &'a [File], name: &str) -> Result<&'a [u8], Fault>
    ensures { IfOk result (λ text. length text.now < 2 ^ 32) }
{
    let text = contents(files, name)?;
    if text.len() > 1_048_576 {
        return Err(wrong("a text that is too long"));
    }
    Ok(text)
}
