// What names stand for.
ghost use Rattle.std.specs.Prelude.{◌≡◌, OnOk, OnErr};
ghost use Rattle.mw_base.specs.Named.{names_seen, no_names, with_name, new_name};

use crate::cause::Cause;
use crate::line::fault_on;
use crate::memory::NoMemory;
use crate::name::LONGEST_NAME;
use crate::refusal::TextFault;
use crate::symbol::spelled;
use crate::token::Token;
use std::alloc::Global;
use std::collections::HashMap;

/// Names, and what each stands for. The names are those of a text that outlives them.
#[derive(Drop)]
pub struct Names<'a, M> {
    meanings: HashMap<&'a [u8], M>,
}

impl<'a, M: Copy> Names<'a, M> {
    /// No name.
    pub fn new(alloc: Global) -> Names<'a, M>
        ensures { names_seen result ≡ no_names }
    {
        Names {
            meanings: HashMap::new(alloc),
        }
    }

    /// What a name stands for, if for anything.
    pub fn get(&self, name: &[u8]) -> Option<M>
        ensures { result ≡ names_seen self.now name.now }
    {
        self.meanings.get(name).copied()
    }

    /// Gives a name a meaning.
    ///
    /// # Errors
    ///
    /// Memory ran out: names stand for what they stood for.
    pub fn insert(&mut self, name: &'a [u8], meaning: M) -> Result<(), NoMemory>
        ensures ok { OnOk result (names_seen self.new ≡ with_name (names_seen self.old) name.now meaning) }
        ensures err { OnErr result (names_seen self.new ≡ names_seen self.old) }
    {
        self.meanings.insert(name, meaning)?;
        Ok(())
    }

    /// Whether a token's name can be defined.
    ///
    /// # Errors
    ///
    /// Cause 31 where it stands for something already or is reserved, cause 33 where it has over 64 bytes,
    /// at the token.
    #[tactic(auto, unfolding(crate::specs::Named::new_name))]
    pub fn check_new(&self, text: &[u8], token: Token, is_reserved: bool) -> Result<(), TextFault>
        ensures { result ≡ new_name text.now (names_seen self.now) is_reserved token }
    {
        let name = spelled(text, token);
        if self.get(name).is_some() || is_reserved {
            Err(fault_on(token, Cause::Twice))
        } else if name.len() <= LONGEST_NAME {
            Ok(())
        } else {
            Err(fault_on(token, Cause::ValueTooWide))
        }
    }
}
