// What the lines of a log say.
ghost use Rattle.std.specs.Prelude.{◌≡◌};
ghost use Rattle.mw_term.specs.Cofactors as cofactors;
ghost use Rattle.mw_recheck.specs.Facts.{fact_line};
ghost use Rattle.mw_recheck.specs.Nodes.{variable_of, is_variable, line_of, seen};

/// A node of a boundary. Nodes are numbered from 2 in the order of their lines; node 0 is false and node 1 is true.
#[derive(Clone, Copy, Debug, PartialEq, Eq, Hash)]
pub struct Node {
    /// The word of its variable.
    pub word: u64,
    /// The bit of that word, below 32.
    pub bit: u8,
    /// The node whose value it has where its variable is 1.
    pub high: u64,
    /// The node whose value it has where its variable is 0.
    pub low: u64,
}

/// Three nodes: what to choose by, what to choose where that holds, and what where it doesn't.
#[derive(Clone, Copy, Debug, PartialEq, Eq, Hash)]
pub struct Triple {
    /// What to choose by.
    pub f: u64,
    /// What to choose where that holds.
    pub g: u64,
    /// What to choose where it doesn't.
    pub h: u64,
}

/// A line of a boundary's part of a log.
#[derive(Clone, Copy, Debug, PartialEq, Eq)]
pub enum LogLine {
    /// One node more.
    Node {
        /// The word of its variable.
        word: u64,
        /// The bit of that word, below 32.
        bit: u8,
        /// The node whose value it has where its variable is 1.
        high: u64,
        /// The node whose value it has where its variable is 0.
        low: u64,
    },
    /// A fact: a node is another one where a third holds, and else a fourth.
    Fact {
        /// What is chosen by.
        f: u64,
        /// What is chosen where that holds.
        g: u64,
        /// What is chosen where it doesn't.
        h: u64,
        /// The result.
        r: u64,
    },
}

/// A variable, as texts may spell it: a bit of a word.
#[derive(Clone, Copy)]
pub(crate) struct Variable {
    pub bit: u128,
    pub word: u128,
}

impl Variable {
    /// Whether it comes before another one: by bit, then by word.
    pub fn is_before(self, other: Variable) -> bool
        ensures { result ≡ cofactors.is_before (seen self) (seen other) }
    {
        self.bit < other.bit || (self.bit == other.bit && self.word < other.word)
    }

    /// Whether both are one variable.
    pub fn is_same(self, other: Variable) -> bool
        ensures { result ≡ is_variable (seen self) (seen other) }
    {
        self.bit == other.bit && self.word == other.word
    }
}

impl Node {
    /// Its variable.
    pub(crate) fn variable(&self) -> Variable
        ensures { seen result ≡ variable_of self.now }
    {
        Variable {
            bit: u128::from(self.bit),
            word: u128::from(self.word),
        }
    }

    /// The line that adds it.
    pub(crate) fn line(&self) -> LogLine
        ensures { result ≡ line_of self.now }
    {
        LogLine::Node {
            word: self.word,
            bit: self.bit,
            high: self.high,
            low: self.low,
        }
    }
}

impl Triple {
    /// The line that states its result.
    pub(crate) fn line(&self, r: u64) -> LogLine
        ensures { result ≡ fact_line self.now r }
    {
        LogLine::Fact {
            f: self.f,
            g: self.g,
            h: self.h,
            r,
        }
    }
}
