// What stands at the front of the rest of a line.
ghost use Rattle.std.specs.Prelude.{◌≡◌, ◌≤◌, IfOk, Some, length, slice_index, take};
ghost use Rattle.mw_base.specs.Pieces.{word_length, piece_at, Spells};

use crate::cause::Cause;
use crate::literal::number;
use crate::name::{is_name_start, is_word_byte};
use crate::sign::sign_at;
use crate::token::Kind;

/// Some bytes of a line: a token of a kind, or a blank or a comment, which is none.
#[derive(Clone, Copy, Debug, PartialEq, Eq)]
pub(crate) struct Piece {
    pub kind: Option<Kind>,
    pub length: usize,
}

/// How many bytes of a word stand at the front.
fn word_length(line: &[u8]) -> usize
    ensures exact { result ≡ word_length line.now }
    ensures within { result ≤ length line.now }
{
    line.iter().take_while(|c| is_word_byte(**c)).count()
}

/// The piece at the front of a line, which is as long as it can be.
#[tactic(auto, unfolding(crate::specs::Pieces::piece_at))]
pub(crate) fn piece_at(line: &[u8]) -> Result<Piece, Cause>
    requires { 1 ≤ length line.now }
    ensures exact { result ≡ piece_at (slice_index line.now 0) line.now }
    ensures within { IfOk result (λ piece. (1 ≤ piece.length) × (piece.length ≤ length line.now)) }
    ensures spelled { IfOk result
        (λ piece. (kind : Kind) → piece.kind ≡ Some kind → Spells (take piece.length line.now) kind) }
{
    let c = line[0];
    let word = word_length(line);
    let (kind, length) = match c {
        b' ' | b'\t' => (None, 1),
        b';' => (None, line.len()),
        _ if is_name_start(c) => (Some(Kind::Name), word),
        _ if c.is_ascii_digit() => (Some(Kind::Number(number(&line[..word])?)), word),
        _ => match sign_at(line) {
            Some(sign) => (Some(Kind::Sign), sign.bytes().len()),
            None => return Err(Cause::BadByte),
        },
    };
    Ok(Piece { kind, length })
}
