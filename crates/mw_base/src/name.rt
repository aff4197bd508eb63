// Names, and other bytes that a value keeps.
ghost use Rattle.std.specs.Prelude.{◌≡◌, ℕ, List, IfOk};
ghost use Rattle.mw_base.specs.Names.{is_name_start, is_word_byte, are_word_bytes, is_spelled_as_name, is_name};

use crate::memory::NoMemory;
use std::alloc::Global;
use std::marker::Model;

/// The most bytes that a name may have.
pub(crate) const LONGEST_NAME: usize = 64;

/// Bytes that a value keeps, as a name or the dotted path of a key, seen as those bytes. Nothing is asked of them:
/// `is_name` says which may be a name.
#[derive(Debug, Drop)]
pub struct Name {
    bytes: Vec<u8>,
}

impl Model for Name {
    ghost Value = { List ℕ };

    ghost view = { λ name. name.bytes.items };
}

impl Name {
    /// These bytes, copied.
    ///
    /// # Errors
    ///
    /// Memory ran out.
    pub fn new(alloc: Global, bytes: &[u8]) -> Result<Name, NoMemory>
        ensures { IfOk result (λ name. name ≡ bytes.now) }
    {
        Ok(Name {
            bytes: Vec::from_slice(alloc, bytes)?,
        })
    }

    /// The bytes of a vector. It takes no memory.
    pub fn from_vec(bytes: Vec<u8>) -> Name
        ensures { result ≡ bytes.items }
    {
        Name { bytes }
    }

    /// Its bytes.
    pub fn as_slice(&self) -> &[u8]
        ensures { result.now ≡ self.now }
    {
        &self.bytes
    }
}

/// Whether a name can begin with the byte: a letter or `_`.
pub(crate) fn is_name_start(c: u8) -> bool
    ensures { result ≡ is_name_start c }
{
    c.is_ascii_alphabetic() | (c == b'_')
}

/// Whether names and numbers are made of the byte: a letter, `_` or a digit.
pub(crate) fn is_word_byte(c: u8) -> bool
    ensures { result ≡ is_word_byte c }
{
    is_name_start(c) | c.is_ascii_digit()
}

fn are_word_bytes(text: &[u8]) -> bool
    ensures { result ≡ are_word_bytes text.now }
{
    text.iter().all(|c| is_word_byte(*c))
}

fn is_spelled_as_name(text: &[u8]) -> bool
    ensures { result ≡ is_spelled_as_name text.now }
{
    match text {
        [] => false,
        [first, rest @ ..] => is_name_start(*first) && are_word_bytes(rest),
    }
}

/// Whether the text is a name: a letter or `_`, then letters, `_` and digits, of at most 64 bytes in all.
#[tactic(auto, unfolding(crate::specs::Names::is_name))]
pub fn is_name(text: &[u8]) -> bool
    ensures { result ≡ is_name text.now }
{
    is_spelled_as_name(text) && text.len() <= LONGEST_NAME
}
