// Signs of texts.
ghost use Rattle.std.specs.Prelude.{◌≡◌, ◌≤◌, length};
ghost use Rattle.mw_base.specs.Signs.{bytes_of, sign_of, sign_at};

/// A sign of a text.
#[derive(Clone, Copy, Debug, PartialEq, Eq)]
pub enum Sign {
    /// `=`
    Equals,
    /// `:`
    Colon,
    /// `,`
    Comma,
    /// `#`
    Hash,
    /// `+`
    Plus,
    /// `-`
    Minus,
    /// `&`
    And,
    /// `|`
    Or,
    /// `^`
    Xor,
    /// `~`
    Not,
    /// `(`
    OpenParenthesis,
    /// `)`
    CloseParenthesis,
    /// `[`
    OpenBracket,
    /// `]`
    CloseBracket,
    /// `{`
    OpenBrace,
    /// `}`
    CloseBrace,
    /// `?`
    Question,
    /// `<`
    Less,
    /// `.`
    Dot,
    /// `:=`
    Assign,
    /// `==`
    Same,
    /// `!=`
    Differ,
}

/// All signs.
const SIGNS: [Sign; 22] = [
    Sign::Equals,
    Sign::Colon,
    Sign::Comma,
    Sign::Hash,
    Sign::Plus,
    Sign::Minus,
    Sign::And,
    Sign::Or,
    Sign::Xor,
    Sign::Not,
    Sign::OpenParenthesis,
    Sign::CloseParenthesis,
    Sign::OpenBracket,
    Sign::CloseBracket,
    Sign::OpenBrace,
    Sign::CloseBrace,
    Sign::Question,
    Sign::Less,
    Sign::Dot,
    Sign::Assign,
    Sign::Same,
    Sign::Differ,
];

impl Sign {
    /// Its bytes.
    pub fn bytes(self) -> &'static [u8]
        ensures exact { result.now ≡ bytes_of self }
        ensures some { 1 ≤ length result.now }
    {
        match self {
            Sign::Equals => b"=",
            Sign::Colon => b":",
            Sign::Comma => b",",
            Sign::Hash => b"#",
            Sign::Plus => b"+",
            Sign::Minus => b"-",
            Sign::And => b"&",
            Sign::Or => b"|",
            Sign::Xor => b"^",
            Sign::Not => b"~",
            Sign::OpenParenthesis => b"(",
            Sign::CloseParenthesis => b")",
            Sign::OpenBracket => b"[",
            Sign::CloseBracket => b"]",
            Sign::OpenBrace => b"{",
            Sign::CloseBrace => b"}",
            Sign::Question => b"?",
            Sign::Less => b"<",
            Sign::Dot => b".",
            Sign::Assign => b":=",
            Sign::Same => b"==",
            Sign::Differ => b"!=",
        }
    }
}

/// The sign that is spelled so.
#[tactic(auto, unfolding(crate::specs::Signs::sign_of))]
pub(crate) fn sign_of(bytes: &[u8]) -> Option<Sign>
    ensures { result ≡ sign_of bytes.now }
{
    SIGNS.iter().copied().find(|sign| sign.bytes() == bytes)
}

/// The sign at the front of a line: that of its first two bytes, or else of its first.
#[tactic(auto, using(std::proofs::lemmas::List::take_min))]
pub(crate) fn sign_at(line: &[u8]) -> Option<Sign>
    ensures { result ≡ sign_at line.now }
{
    let first_two = &line[..2.min(line.len())];
    let first = &line[..1.min(line.len())];
    sign_of(first_two).or(sign_of(first))
}
