// What a grammar asks of the tokens of a line.
ghost use Rattle.std.specs.Prelude.{◌≡◌};
ghost use Rattle.mw_base.specs.Cursors.{Cursor as Seen, at_line, after, misplaced, token_at, symbol_at, has_name};
ghost use Rattle.mw_base.specs.Cursors.{has_sign, name_at, number_at, sign_at, place_at, first_word, element_of};
ghost use Rattle.mw_base.specs.Cursors.{end_at};
ghost use Rattle.mw_base.specs.Symbols.{spelled};

use crate::cause::Cause;
use crate::line::{Line, end_fault, fault_on};
use crate::place::Place;
use crate::refusal::TextFault;
use crate::sign::Sign;
use crate::symbol::{Symbol, spelled, symbol_of};
use crate::token::Token;
use std::marker::Model;

/// A number in a text.
#[derive(Clone, Copy)]
pub struct Numeral {
    /// Its token.
    pub token: Token,
    /// Its value.
    pub value: u128,
}

/// An element in a text: NAME . NAME. Its place is that of its owner.
#[derive(Clone, Copy)]
pub struct Dotted {
    /// The name before the dot: whose element it is.
    pub owner: Token,
    /// The name after it.
    pub name: Token,
}

/// The tokens of a line from one on, as a grammar reads them. What a method refuses has the grammar's cause, and stands
/// at the first token that can't follow those before it, or at the line's end. Tokens are numbered from 0; each method
/// takes constant time.
#[derive(Drop)]
pub struct Cursor<'a> {
    text: &'a [u8],
    tokens: &'a [Token],
    end: TextFault,
}

impl<'a> Model for Cursor<'a> {
    ghost use Rattle.mw_base.specs.Cursors.{Cursor as Seen};

    ghost Value = { Seen };

    ghost view = { λ c. record { text = c.text.now; tokens = c.tokens.now; end = c.end } };
}

impl<'a> Cursor<'a> {
    /// The tokens of a line of a text, for a grammar whose faults have this cause.
    pub fn new(text: &'a [u8], line: &'a Line, cause: Cause) -> Cursor<'a>
        ensures { result ≡ at_line text.now line.now cause }
    {
        Cursor {
            text,
            tokens: line.tokens.as_slice(),
            end: end_fault(line, cause),
        }
    }

    /// These tokens of a text, where a line that ends too early has this fault.
    pub fn from_tokens(text: &'a [u8], tokens: &'a [Token], end: TextFault) -> Cursor<'a>
        ensures { result ≡ record { text = text.now; tokens = tokens.now; end = end } }
    {
        Cursor { text, tokens, end }
    }

    /// What follows n tokens.
    pub fn after(&self, n: usize) -> Cursor<'a>
        ensures { result ≡ after n self.now }
    {
        Cursor {
            text: self.text,
            tokens: &self.tokens[n.min(self.tokens.len())..],
            end: self.end,
        }
    }

    /// The text.
    pub fn text(&self) -> &'a [u8]
        ensures { result.now ≡ self.now.text }
    {
        self.text
    }

    /// The tokens.
    pub fn tokens(&self) -> &'a [Token]
        ensures { result.now ≡ self.now.tokens }
    {
        self.tokens
    }

    /// The bytes of a token.
    pub fn spelled(&self, token: Token) -> &'a [u8]
        ensures { result.now ≡ spelled self.now.text token }
    {
        spelled(self.text, token)
    }

    /// The fault of a line that ends too early.
    pub fn end_fault(&self) -> TextFault
        ensures { result ≡ self.now.end }
    {
        self.end
    }

    /// The fault of a token that can't stand where it does.
    pub fn misplaced(&self, token: Token) -> TextFault
        ensures { result ≡ misplaced token self.now }
    {
        fault_on(token, self.end.cause)
    }

    /// Token n.
    ///
    /// # Errors
    ///
    /// The grammar's cause at the line's end, where that comes before token n.
    pub fn token(&self, n: usize) -> Result<Token, TextFault>
        ensures { result ≡ token_at n self.now }
    {
        self.tokens.get(n).copied().ok_or(self.end)
    }

    /// What token n is. None where the line ends before it.
    pub fn symbol(&self, n: usize) -> Option<Symbol>
        ensures { result ≡ symbol_at n self.now }
    {
        match self.tokens.get(n) {
            Some(token) => Some(symbol_of(self.text, *token)),
            None => None,
        }
    }

    /// Whether token n is a name.
    pub fn has_name(&self, n: usize) -> bool
        ensures { result ≡ has_name n self.now }
    {
        matches!(self.symbol(n), Some(Symbol::Name))
    }

    /// Whether token n is this sign.
    pub fn has_sign(&self, n: usize, sign: Sign) -> bool
        ensures { result ≡ has_sign sign n self.now }
    {
        match self.symbol(n) {
            Some(symbol) => symbol.is_sign(sign),
            None => false,
        }
    }

    /// Token n, which has to be a name.
    ///
    /// # Errors
    ///
    /// The grammar's cause: at the token where it is no name, at the line's end where there is none.
    #[tactic(auto, unfolding(crate::specs::Cursors::name_at))]
    pub fn name(&self, n: usize) -> Result<Token, TextFault>
        ensures { result ≡ name_at n self.now }
    {
        let token = self.token(n)?;
        match symbol_of(self.text, token) {
            Symbol::Name => Ok(token),
            _ => Err(self.misplaced(token)),
        }
    }

    /// Token n, which has to be a number.
    ///
    /// # Errors
    ///
    /// The grammar's cause: at the token where it is no number, at the line's end where there is none.
    #[tactic(auto, unfolding(crate::specs::Cursors::number_at))]
    pub fn number(&self, n: usize) -> Result<Numeral, TextFault>
        ensures { result ≡ number_at n self.now }
    {
        let token = self.token(n)?;
        match symbol_of(self.text, token) {
            Symbol::Number(value) => Ok(Numeral { token, value }),
            _ => Err(self.misplaced(token)),
        }
    }

    /// Token n, which has to be this sign.
    ///
    /// # Errors
    ///
    /// The grammar's cause: at the token where it isn't that sign, at the line's end where there is none.
    #[tactic(auto, unfolding(crate::specs::Cursors::sign_at))]
    pub fn sign(&self, n: usize, sign: Sign) -> Result<Token, TextFault>
        ensures { result ≡ sign_at sign n self.now }
    {
        let token = self.token(n)?;
        if symbol_of(self.text, token).is_sign(sign) {
            Ok(token)
        } else {
            Err(self.misplaced(token))
        }
    }

    /// Token n, which has to be a PLACE: the name of a label, or an address, which may be any number.
    ///
    /// # Errors
    ///
    /// The grammar's cause: at the token where it is a sign, at the line's end where there is none.
    #[tactic(auto, unfolding(crate::specs::Cursors::place_at))]
    pub fn place(&self, n: usize) -> Result<Place, TextFault>
        ensures { result ≡ place_at n self.now }
    {
        let token = self.token(n)?;
        match symbol_of(self.text, token) {
            Symbol::Name => Ok(Place::Label(token)),
            Symbol::Number(value) => Ok(Place::Address(Numeral { token, value })),
            _ => Err(self.misplaced(token)),
        }
    }

    /// The first token, which has to be this word.
    ///
    /// # Errors
    ///
    /// The grammar's cause: at the token where it is another word or a sign, at the line's end where there is none.
    #[tactic(auto, unfolding(crate::specs::Cursors::first_word))]
    pub fn first_word(&self, word: &[u8]) -> Result<Token, TextFault>
        ensures { result ≡ first_word word.now self.now }
    {
        let first = self.token(0)?;
        if self.spelled(first) == word {
            Ok(first)
        } else {
            Err(self.misplaced(first))
        }
    }

    /// The first tokens, which have to be NAME . NAME.
    ///
    /// # Errors
    ///
    /// The grammar's cause: at the first of them that isn't as it has to be, at the line's end where that comes before.
    #[tactic(auto, unfolding(crate::specs::Cursors::element_of))]
    pub fn element(&self) -> Result<Dotted, TextFault>
        ensures { result ≡ element_of self.now }
    {
        let owner = self.name(0)?;
        self.sign(1, Sign::Dot)?;
        let name = self.name(2)?;
        Ok(Dotted { owner, name })
    }

    /// The line has to end before token n.
    ///
    /// # Errors
    ///
    /// The grammar's cause at token n, where there is one.
    #[tactic(auto, unfolding(crate::specs::Cursors::end_at))]
    pub fn end(&self, n: usize) -> Result<(), TextFault>
        ensures { result ≡ end_at n self.now }
    {
        match self.tokens.get(n) {
            Some(token) => Err(self.misplaced(*token)),
            None => Ok(()),
        }
    }
}
