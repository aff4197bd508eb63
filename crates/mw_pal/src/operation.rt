// The words that are instructions by themselves, or parts of one.
ghost use Rattle.std.specs.Prelude.{◌≡◌};
ghost use Rattle.mw_pal.specs.Operations.{spelling, code_of, kind_of, added, is_clear, operation_named};

/// Which words stand in one statement with a word.
#[derive(Clone, Copy)]
pub(crate) enum Kind {
    /// `cla`, which stands with words of every group.
    Clear,
    /// A word of group 1 but a rotate.
    First,
    /// A rotate of group 1, of which a statement has one at most.
    Rotate,
    /// A word of group 2 but a test.
    Second,
    /// A test of group 2 that skips where any such test of its statement holds.
    AnyTest,
    /// A test of group 2 that skips where all such tests of its statement hold.
    AllTest,
    /// A word of group 3.
    Third,
    /// A word that is a statement by itself.
    Alone,
}

/// A word of the operate groups, or of the interrupts, the keyboard and the printer.
#[derive(Clone, Copy)]
pub(crate) enum Operation {
    /// Clears the accumulator.
    Cla,
    /// Does nothing.
    Nop,
    /// Clears the link.
    Cll,
    /// Complements the accumulator.
    Cma,
    /// Complements the link.
    Cml,
    /// Adds 1 to the accumulator.
    Iac,
    /// Rotates accumulator and link one place to the right.
    Rar,
    /// Rotates accumulator and link one place to the left.
    Ral,
    /// Rotates accumulator and link two places to the right.
    Rtr,
    /// Rotates accumulator and link two places to the left.
    Rtl,
    /// Swaps the accumulator's halves.
    Bsw,
    /// Ors the switches into the accumulator.
    Osr,
    /// Halts.
    Hlt,
    /// Skips where the accumulator is negative.
    Sma,
    /// Skips where the accumulator is 0.
    Sza,
    /// Skips where the link is 1.
    Snl,
    /// Skips where the accumulator isn't negative.
    Spa,
    /// Skips where the accumulator isn't 0.
    Sna,
    /// Skips where the link is 0.
    Szl,
    /// Skips.
    Skp,
    /// Ors the multiplier quotient into the accumulator.
    Mqa,
    /// Moves the accumulator into the multiplier quotient.
    Mql,
    /// Lets interrupts in.
    Ion,
    /// Keeps interrupts out.
    Iof,
    /// Skips where the keyboard has a key.
    Ksf,
    /// Drops the keyboard's key and clears the accumulator.
    Kcc,
    /// Reads the keyboard.
    Krs,
    /// Reads the keyboard and drops its key.
    Krb,
    /// Skips where the printer is ready.
    Tsf,
    /// Clears the printer's flag.
    Tcf,
    /// Prints.
    Tpc,
    /// Clears the printer's flag and prints.
    Tls,
}

/// All of them.
const OPERATIONS: [Operation; 32] = [
    Operation::Cla,
    Operation::Nop,
    Operation::Cll,
    Operation::Cma,
    Operation::Cml,
    Operation::Iac,
    Operation::Rar,
    Operation::Ral,
    Operation::Rtr,
    Operation::Rtl,
    Operation::Bsw,
    Operation::Osr,
    Operation::Hlt,
    Operation::Sma,
    Operation::Sza,
    Operation::Snl,
    Operation::Spa,
    Operation::Sna,
    Operation::Szl,
    Operation::Skp,
    Operation::Mqa,
    Operation::Mql,
    Operation::Ion,
    Operation::Iof,
    Operation::Ksf,
    Operation::Kcc,
    Operation::Krs,
    Operation::Krb,
    Operation::Tsf,
    Operation::Tcf,
    Operation::Tpc,
    Operation::Tls,
];

impl Operation {
    /// How it is spelled.
    fn bytes(self) -> &'static [u8]
        ensures { result.now ≡ spelling self }
    {
        match self {
            Operation::Cla => b"cla",
            Operation::Nop => b"nop",
            Operation::Cll => b"cll",
            Operation::Cma => b"cma",
            Operation::Cml => b"cml",
            Operation::Iac => b"iac",
            Operation::Rar => b"rar",
            Operation::Ral => b"ral",
            Operation::Rtr => b"rtr",
            Operation::Rtl => b"rtl",
            Operation::Bsw => b"bsw",
            Operation::Osr => b"osr",
            Operation::Hlt => b"hlt",
            Operation::Sma => b"sma",
            Operation::Sza => b"sza",
            Operation::Snl => b"snl",
            Operation::Spa => b"spa",
            Operation::Sna => b"sna",
            Operation::Szl => b"szl",
            Operation::Skp => b"skp",
            Operation::Mqa => b"mqa",
            Operation::Mql => b"mql",
            Operation::Ion => b"ion",
            Operation::Iof => b"iof",
            Operation::Ksf => b"ksf",
            Operation::Kcc => b"kcc",
            Operation::Krs => b"krs",
            Operation::Krb => b"krb",
            Operation::Tsf => b"tsf",
            Operation::Tcf => b"tcf",
            Operation::Tpc => b"tpc",
            Operation::Tls => b"tls",
        }
    }

    /// The code of a statement of it alone.
    fn code(self) -> u16
        ensures { result ≡ code_of self }
    {
        match self {
            Operation::Cla => 0o7200,
            Operation::Nop => 0o7000,
            Operation::Cll => 0o7100,
            Operation::Cma => 0o7040,
            Operation::Cml => 0o7020,
            Operation::Iac => 0o7001,
            Operation::Rar => 0o7010,
            Operation::Ral => 0o7004,
            Operation::Rtr => 0o7012,
            Operation::Rtl => 0o7006,
            Operation::Bsw => 0o7002,
            Operation::Osr => 0o7404,
            Operation::Hlt => 0o7402,
            Operation::Sma => 0o7500,
            Operation::Sza => 0o7440,
            Operation::Snl => 0o7420,
            Operation::Spa => 0o7510,
            Operation::Sna => 0o7450,
            Operation::Szl => 0o7430,
            Operation::Skp => 0o7410,
            Operation::Mqa => 0o7501,
            Operation::Mql => 0o7421,
            Operation::Ion => 0o6001,
            Operation::Iof => 0o6002,
            Operation::Ksf => 0o6031,
            Operation::Kcc => 0o6032,
            Operation::Krs => 0o6034,
            Operation::Krb => 0o6036,
            Operation::Tsf => 0o6041,
            Operation::Tcf => 0o6042,
            Operation::Tpc => 0o6044,
            Operation::Tls => 0o6046,
        }
    }

    /// Which words stand with it.
    pub fn kind(self) -> Kind
        ensures { result ≡ kind_of self }
    {
        match self {
            Operation::Cla => Kind::Clear,
            Operation::Nop | Operation::Cll | Operation::Cma | Operation::Cml | Operation::Iac =>
                Kind::First,
            Operation::Rar | Operation::Ral | Operation::Rtr | Operation::Rtl | Operation::Bsw =>
                Kind::Rotate,
            Operation::Osr | Operation::Hlt => Kind::Second,
            Operation::Sma | Operation::Sza | Operation::Snl => Kind::AnyTest,
            Operation::Spa | Operation::Sna | Operation::Szl | Operation::Skp => Kind::AllTest,
            Operation::Mqa | Operation::Mql => Kind::Third,
            Operation::Ion
            | Operation::Iof
            | Operation::Ksf
            | Operation::Kcc
            | Operation::Krs
            | Operation::Krb
            | Operation::Tsf
            | Operation::Tcf
            | Operation::Tpc
            | Operation::Tls => Kind::Alone,
        }
    }

    /// Whether it is `cla`.
    pub fn is_clear(self) -> bool
        ensures { result ≡ is_clear self }
    {
        matches!(self, Operation::Cla)
    }

    /// What it adds to the code of a statement in which other words stand.
    pub fn added(self) -> u16
        ensures { result ≡ added self }
    {
        match self {
            Operation::Cla => 0o200,
            other => other.code(),
        }
    }
}

/// The word that is spelled so.
#[tactic(auto, unfolding(crate::specs::Operations::operation_named))]
pub(crate) fn operation_named(bytes: &[u8]) -> Option<Operation>
    ensures { result ≡ operation_named bytes.now }
{
    OPERATIONS
        .iter()
        .copied()
        .find(|operation| operation.bytes() == bytes)
}
