// The words of a case.
ghost use Rattle.std.specs.Prelude.{◌≡◌, ℕ, ◌+◌, [], ◌∷◌, ◌++◌, length, None, Some, slice_get, nat_eq, if◌then◌else◌};
ghost use Rattle.std.specs.Prelude.{IfOk, OnOk, OnErr};
ghost use Rattle.std.specs.HashMap.{get, get_by};
ghost use Rattle.mw_term.specs.declared.op.Op.TheVariants.{Var};
ghost use Rattle.mw_term.specs.Table.{Extends, Fits, IsWidth, IsTable};
ghost use Rattle.mw_term.specs.Values.{IsTermOf, Keeps};
ghost use Rattle.mw_term.specs.declared.kinds.WordKind.{WordKind};
ghost use Rattle.mw_symmem.specs.Kept.{with_number};
ghost use Rattle.mw_term.specs.WordList.{same_kind, plain, variable, with_variable, with_word, word_number, term_of};
ghost use Rattle.mw_symmem.specs.Listed.{Lists};
ghost use Rattle.mw_symmem.specs.Words.{HaveOwnKinds, AreOf, IsNoVariable};

use crate::key::Key;
use mw_base::NoMemory;
use mw_term::{Op, Term, Word, WordKind, Written};
use std::alloc::Global;
use std::collections::HashMap;
use std::marker::Model;

/// The words of a case in their order, seen as the list of them. They are numbered from 1. No two variables are of one
/// kind.
#[derive(Drop)]
pub struct Words {
    words: Vec<Word>,
    numbers: HashMap<usize, u64>,
    terms: HashMap<Key, Term>,
}

impl Model for Words {
    ghost use Rattle.std.specs.Prelude.{List};
    ghost use Rattle.mw_term.specs.declared.word.Word.{Word};
    ghost use Rattle.mw_symmem.specs.Kept.{AreMapsOf};

    ghost Value = { List Word };

    ghost view = { λ w. w.words.items };

    ghost invariant = { λ w. AreMapsOf w.words.items w.numbers w.terms };
}

/// Gives a term a number, where it has none.
fn number(numbers: &mut HashMap<usize, u64>, term: Term, number: u64) -> Result<(), NoMemory>
    ensures ok { OnOk result ((other : ℕ) → get nat_eq numbers.new other
        ≡ with_number (get nat_eq numbers.old) term number other) }
    ensures err { OnErr result ((other : ℕ) → get nat_eq numbers.new other ≡ get nat_eq numbers.old other) }
{
    if !numbers.contains_key(&term.position()) {
        numbers.insert(term.position(), number)?;
    }
    Ok(())
}

/// One word more. A term keeps the first number that it has.
fn push_word(
    words: &mut Vec<Word>,
    numbers: &mut HashMap<usize, u64>,
    word: Word,
) -> Result<(), NoMemory>
    ensures words { OnOk result (words.new.items ≡ words.old.items ++ word ∷ []) }
    ensures numbers { OnOk result ((term : ℕ) → get nat_eq numbers.new term
        ≡ with_number (get nat_eq numbers.old) word.term (length words.old.items + 1) term) }
    ensures err_words { OnErr result (words.new.items ≡ words.old.items) }
    ensures err_numbers { OnErr result ((term : ℕ) → get nat_eq numbers.new term ≡ get nat_eq numbers.old term) }
{
    let term = word.term;
    words.push(word)?;
    let count = words.len() as u64;
    match number(numbers, term, count) {
        Ok(()) => Ok(()),
        Err(fault) => {
            words.pop();
            Err(fault)
        }
    }
}

/// One variable more, of a kind that isn't there yet.
fn push_variable(
    words: &mut Vec<Word>,
    numbers: &mut HashMap<usize, u64>,
    terms: &mut HashMap<Key, Term>,
    term: Term,
    kind: WordKind,
) -> Result<(), NoMemory>
    requires { get_by (λ key. same_kind kind key.0) terms.old ≡ None }
    ensures words { OnOk result (words.new.items ≡ words.old.items ++ variable term kind ∷ []) }
    ensures numbers { OnOk result ((other : ℕ) → get nat_eq numbers.new other
        ≡ with_number (get nat_eq numbers.old) term (length words.old.items + 1) other) }
    ensures terms { OnOk result ((other : WordKind) → get_by (λ key. same_kind other key.0) terms.new
        ≡ (if same_kind kind other then Some term else get_by (λ key. same_kind other key.0) terms.old)) }
    ensures err_words { OnErr result (words.new.items ≡ words.old.items) }
    ensures err_numbers { OnErr result ((other : ℕ) → get nat_eq numbers.new other ≡ get nat_eq numbers.old other) }
    ensures err_terms { OnErr result ((other : WordKind) → get_by (λ key. same_kind other key.0) terms.new
        ≡ get_by (λ key. same_kind other key.0) terms.old) }
{
    terms.insert(Key(kind), term)?;
    match push_word(words, numbers, Word::variable(term, kind)) {
        Ok(()) => Ok(()),
        Err(fault) => {
            terms.remove(&Key(kind));
            Err(fault)
        }
    }
}

impl Words {
    /// No word.
    pub fn new(alloc: Global) -> Words
        ensures { result ≡ [] }
    {
        Words {
            words: Vec::new(alloc),
            numbers: HashMap::new(alloc),
            terms: HashMap::new(alloc),
        }
    }

    /// The same words once more. What is added to one of the two isn't in the other.
    ///
    /// # Errors
    ///
    /// Memory ran out.
    pub fn copy(&self, alloc: Global) -> Result<Words, NoMemory>
        ensures { IfOk result (λ copy. copy ≡ self.now) }
    {
        Ok(Words {
            words: Vec::from_slice(alloc, &self.words)?,
            numbers: self.numbers.clone()?,
            terms: self.terms.clone()?,
        })
    }

    /// How many words there are.
    pub fn count(&self) -> u64
        ensures exact { result ≡ length self.now }
        ensures own { HaveOwnKinds self.now }
    {
        self.words.len() as u64
    }

    /// The words, in the order of their numbers.
    pub fn as_slice(&self) -> &[Word]
        ensures exact { result.now ≡ self.now }
        ensures own { HaveOwnKinds self.now }
    {
        &self.words
    }

    /// The number of the next word.
    fn next_number(&self) -> u64
        ensures { result ≡ length self.now + 1 }
    {
        self.words.len() as u64 + 1
    }

    /// The op of a variable of the next number.
    fn next_variable(&self, width: u8) -> Op
        ensures { result ≡ Var (length self.now + 1) width }
    {
        Op::Var(self.next_number(), width)
    }

    /// The least number of a word with a term, if there is one.
    pub fn word_of(&self, term: Term) -> Option<u64>
        ensures { result ≡ word_number self.now term }
    {
        self.numbers.get(&term.position()).copied()
    }

    /// The variable of a kind, if there is one.
    pub fn find(&self, kind: WordKind) -> Option<Term>
        ensures exact { result ≡ term_of self.now kind }
        ensures own { HaveOwnKinds self.now }
    {
        self.terms.get(&Key(kind)).copied()
    }

    /// One word more that is no variable.
    fn push_plain(&mut self, term: Term) -> Result<(), NoMemory>
        ensures { OnOk result (self.new ≡ self.old ++ plain term ∷ []) }
    {
        push_word(&mut self.words, &mut self.numbers, Word::plain(term))
    }

    /// One variable more, of a kind that isn't there yet.
    fn push_variable(&mut self, term: Term, kind: WordKind) -> Result<(), NoMemory>
        requires { term_of self.old kind ≡ None }
        ensures { OnOk result (self.new ≡ self.old ++ variable term kind ∷ []) }
    {
        push_variable(
            &mut self.words,
            &mut self.numbers,
            &mut self.terms,
            term,
            kind,
        )
    }

    /// A variable of the next number, of a kind that isn't there yet, and of 1 to 32 bits. Its value is the one that is
    /// given to its number.
    ///
    /// # Errors
    ///
    /// Memory ran out: the words may only be dropped.
    pub fn fresh(
        &mut self,
        alloc: Global,
        terms: &mut Written,
        kind: WordKind,
        width: u8,
    ) -> Result<Term, NoMemory>
        requires width { IsWidth width }
        requires own { term_of self.old kind ≡ None }
        ensures words { IfOk result (λ term. self.new ≡ self.old ++ variable term kind ∷ []) }
        ensures op { IfOk result (λ term. slice_get terms.new.ops term ≡ Some (Var (length self.old + 1) width)) }
        ensures made { IfOk result (λ term. IsTermOf terms.old terms.new (Var (length self.old + 1) width) term) }
        ensures listed { IfOk result (Lists (with_variable kind width) terms.old terms.new self.old self.new) }
        ensures of { OnOk result (AreOf terms.old self.old → AreOf terms.new self.new) }
        ensures extends { Extends terms.old terms.new }
        ensures keeps { Keeps terms.old terms.new }
        ensures table { IsTable terms.new }
    {
        let term = terms.write(alloc, self.next_variable(width))?;
        self.push_variable(term, kind)?;
        Ok(term)
    }

    /// The next word, with the value of an op, which fits the table.
    ///
    /// # Errors
    ///
    /// Memory ran out: the words may only be dropped.
    pub fn add(&mut self, alloc: Global, terms: &mut Written, op: Op) -> Result<Term, NoMemory>
        requires { Fits terms.old op }
        ensures words { IfOk result (λ term. self.new ≡ self.old ++ plain term ∷ []) }
        ensures op { IfOk result (λ term. slice_get terms.new.ops term ≡ Some op) }
        ensures made { IfOk result (λ term. IsTermOf terms.old terms.new op term) }
        ensures listed { IfOk result (Lists (with_word op) terms.old terms.new self.old self.new) }
        ensures of { OnOk result (IsNoVariable op → AreOf terms.old self.old → AreOf terms.new self.new) }
        ensures extends { Extends terms.old terms.new }
        ensures keeps { Keeps terms.old terms.new }
        ensures table { IsTable terms.new }
    {
        let term = terms.write(alloc, op)?;
        self.push_plain(term)?;
        Ok(term)
    }
}
