// A book of shortcuts, each beside its law.
ghost use Rattle.std.specs.Prelude.{◌≡◌, ◌++◌, ◌∷◌, [], OnOk, OnErr};
ghost use Rattle.mw_term.specs.Table.{Fits};
ghost use Rattle.mw_term.specs.Hints.{IsFirstHint, IsRight};

use crate::hint::Hint;
use crate::op::Op;
use crate::terms::Terms;
use mw_base::NoMemory;
use std::alloc::Global;

/// What a shortcut is: a function of a table and of an op that fits it.
pub(crate) type Shortcut = Box<dyn Fn(&Terms, Op) -> Hint>;

/// A rule, beside the fact that it may be asked of every op that fits a table, and that what it hints is right.
#[derive(Drop)]
struct Rule {
    hint: Shortcut,
    ghost callable: { (terms : _) (op : _) → Fits terms.now op → Shortcut.pre hint terms op },
    ghost right: { (terms : _) (op : _) (h : _) → Fits terms.now op → Shortcut.post hint terms op h
        → IsRight terms.now op h },
}

impl Rule {
    /// What it hints of an op, which fits the table.
    fn hint(&self, terms: &Terms, op: &Op) -> Hint
        requires { Fits terms.now op.now }
        ensures right { IsRight terms.now op.now result }
        ensures says { Shortcut.post self.now.hint terms.entry op.now result }
    {
        (self.hint)(terms, *op)
    }
}

/// Shortcuts in the order in which they were added.
#[derive(Drop)]
pub struct ShortcutBook {
    rules: Vec<Rule>,
}

/// The first hint of some rules that isn't `Nothing`, in their order.
fn first_hint(rules: &[Rule], terms: &Terms, op: &Op) -> Hint
    requires { Fits terms.now op.now }
    ensures right { IsRight terms.now op.now result }
    ensures first { IsFirstHint (λ rule hint. Shortcut.post rule.hint terms.entry op.now hint) rules.now result }
{
    let Some((rule, rest)) = rules.split_first() else {
        return Hint::Nothing;
    };
    match rule.hint(terms, op) {
        Hint::Nothing => first_hint(rest, terms, op),
        hint => hint,
    }
}

impl ShortcutBook {
    /// No shortcut.
    pub fn new(alloc: Global) -> ShortcutBook
        ensures { result.rules.items ≡ [] }
    {
        ShortcutBook {
            rules: Vec::new(alloc),
        }
    }

    /// One shortcut more, behind the others. It may be asked of every op that fits a table, and what it hints of that
    /// has the op's width and, under every assignment, its value.
    ///
    /// # Errors
    ///
    /// Memory ran out: the book is as it was.
    pub fn add(
        &mut self,
        _alloc: Global,
        rule: Box<dyn Fn(&Terms, Op) -> Hint>,
    ) -> Result<(), NoMemory>
        requires callable { (terms : _) (op : _) → Fits terms.now op → Shortcut.pre rule terms op }
        requires right { (terms : _) (op : _) (h : _) → Fits terms.now op → Shortcut.post rule terms op h
            → IsRight terms.now op h }
        ensures ok { OnOk result ((added : _) × (added.hint ≡ rule)
            × (self.new.rules.items ≡ self.old.rules.items ++ added ∷ [])) }
        ensures err { OnErr result (self.new.rules.items ≡ self.old.rules.items) }
    {
        self.rules.push(Rule { hint: rule })?;
        Ok(())
    }

    /// The first hint that isn't `Nothing`, in the order of the shortcuts. The op fits the table.
    pub(crate) fn ask(&self, terms: &Terms, op: &Op) -> Hint
        requires { Fits terms.now op.now }
        ensures right { IsRight terms.now op.now result }
        ensures first { IsFirstHint (λ rule hint. Shortcut.post rule.hint terms.entry op.now hint)
            self.now.rules.items result }
    {
        first_hint(&self.rules, terms, op)
    }
}
