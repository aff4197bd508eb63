// The variables of a question's text.
ghost use Rattle.std.specs.Prelude.{◌≡◌, ◌++◌, ◌∷◌, [], OnOk};
ghost use Rattle.mw_base.specs.Named.{new_name};
ghost use Rattle.mw_base.specs.Reading.{Gives};
ghost use Rattle.mw_base.specs.Symbols.{spelled};
ghost use Rattle.mw_expr.specs.Grammar.{number_by_name};
ghost use Rattle.mw_check.specs.QuestionText.{no_variables, few, is_reserved, width_in, with_variable};
ghost use Rattle.mw_check.specs.QuestionViews.{variables_seen};

use mw_base::{
    Cause, Name, NoMemory, Numeral, Refusal, Refused, TextFault, Token, fault_on, spelled,
};
use std::alloc::Global;

/// The most variables.
const MOST_VARIABLES: usize = 64;

/// The longest name, in bytes.
const LONGEST_NAME: usize = 64;

/// The variables of some lines, in file order.
#[derive(Drop)]
pub(crate) struct Variables {
    /// Their names.
    pub names: Vec<Name>,
    /// Their widths.
    pub widths: Vec<u8>,
}

/// Whether no variable has this name.
fn is_reserved(name: &[u8]) -> bool
    ensures { result ≡ is_reserved name.now }
{
    name == b"mem".as_slice() || name == b"zext".as_slice()
}

/// The number of the variable of this name, if there is one.
fn number_by_name(names: &[Name], name: &[u8]) -> Option<usize>
    ensures { result ≡ number_by_name names.now name.now }
{
    names.iter().position(|other| other.as_slice() == name)
}

/// The width of a variable: cause 33.
fn width_in(number: Numeral) -> Result<u8, TextFault>
    ensures exact { result ≡ width_in number }
{
    if 1 <= number.value && number.value <= 32 {
        Ok(number.value as u8)
    } else {
        Err(fault_on(number.token, Cause::ValueTooWide))
    }
}

impl Variables {
    /// No variable.
    pub(crate) fn new(alloc: Global) -> Variables
        ensures { variables_seen result ≡ no_variables }
    {
        Variables {
            names: Vec::new(alloc),
            widths: Vec::new(alloc),
        }
    }

    /// Whether one more can be declared: cause 14 at its name.
    fn check_room(&self, name: Token) -> Result<(), TextFault>
        ensures { result ≡ few (variables_seen self.now).names name }
    {
        if self.names.len() < MOST_VARIABLES {
            Ok(())
        } else {
            Err(fault_on(name, Cause::TooMany))
        }
    }

    /// Whether a name is a new one: cause 31 or 33 at it.
    #[tactic(auto, unfolding(mw_base::specs::Named::new_name))]
    fn check_new(&self, text: &[u8], name: Token) -> Result<(), TextFault>
        ensures { result ≡ new_name text.now (number_by_name (variables_seen self.now).names)
            (is_reserved (spelled text.now name)) name }
    {
        let bytes = spelled(text, name);
        if number_by_name(&self.names, bytes).is_some() || is_reserved(bytes) {
            Err(fault_on(name, Cause::Twice))
        } else if bytes.len() <= LONGEST_NAME {
            Ok(())
        } else {
            Err(fault_on(name, Cause::ValueTooWide))
        }
    }

    /// One more. After a refusal this may only be dropped.
    fn push(&mut self, alloc: Global, name: &[u8], width: u8) -> Result<(), NoMemory>
        ensures names { OnOk result ((variables_seen self.new).names
            ≡ (variables_seen self.old).names ++ name.now ∷ []) }
        ensures widths { OnOk result ((variables_seen self.new).widths
            ≡ (variables_seen self.old).widths ++ width ∷ []) }
    {
        self.names.push(Name::new(alloc, name)?)?;
        self.widths.push(width)?;
        Ok(())
    }

    /// The variable that a line declares: cause 14, 31 or 33 at its name, or 33 at its width. After a refusal this may
    /// only be dropped.
    #[tactic(auto, unfolding(crate::specs::QuestionText::with_variable))]
    pub(crate) fn declare(
        &mut self,
        alloc: Global,
        text: &[u8],
        name: Token,
        width: Numeral,
    ) -> Result<(), Refusal>
        ensures { Gives (λ done. variables_seen self.new) result
            (with_variable text.now name width (variables_seen self.old)) }
    {
        self.check_room(name).map_err(Refused::At)?;
        self.check_new(text, name).map_err(Refused::At)?;
        let bits = width_in(width).map_err(Refused::At)?;
        self.push(alloc, spelled(text, name), bits)?;
        Ok(())
    }
}
