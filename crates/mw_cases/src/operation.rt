// Operations, and the value that chooses them.
ghost use Rattle.std.specs.Prelude.{◌≡◌, ◌+◌, ◌%◌, ◌^◌, ◌<◌};
ghost use Rattle.mw_cases.specs.Operations.{next_value, kind_of, operation_of, operation_count};

/// What an operation makes of its registers A and B, as the Am2901's function of this name does.
#[derive(Clone, Copy, Debug, PartialEq, Eq)]
pub enum Kind {
    /// A + B.
    Add,
    /// B - A.
    Subr,
    /// A or B.
    Or,
    /// A and B.
    And,
    /// A exclusive-or B.
    Exor,
}

/// An operation of an instruction: register B takes what is made of A and B, which are two of four
/// registers.
#[derive(Clone, Copy, Debug, PartialEq, Eq)]
pub struct Operation {
    /// What is made.
    pub kind: Kind,
    /// The number of A, below 4.
    pub a: u8,
    /// The number of B, below 4.
    pub b: u8,
}

/// What a value is multiplied by to be the next one.
const MULTIPLIER: u64 = 1_103_515_245;

/// What is added then.
const INCREMENT: u64 = 12_345;

/// A value is below this number, of which the sum's multiples are left out.
const MODULUS: u64 = 0x8000_0000;

/// The value after this one.
#[tactic(auto, unfolding(crate::specs::Operations::next_value))]
pub(crate) fn next_value(value: u32) -> u32
    requires { value < 2 ^ 31 }
    ensures exact { result ≡ next_value value }
    ensures below { result < 2 ^ 31 }
{
    ((u64::from(value) * MULTIPLIER + INCREMENT) % MODULUS) as u32
}

/// How many operations an instruction has.
pub(crate) fn operation_count(number: u16, instruction: u16) -> u32
    ensures { result ≡ operation_count number instruction }
{
    1 + (u32::from(number) + u32::from(instruction)) % 4
}

impl Kind {
    /// What a value chooses to be done.
    fn chosen_by(value: u32) -> Kind
        ensures { result ≡ kind_of value }
    {
        match value / 0x1_0000 % 5 {
            0 => Kind::Add,
            1 => Kind::Subr,
            2 => Kind::Or,
            3 => Kind::And,
            _ => Kind::Exor,
        }
    }
}

impl Operation {
    /// The operation that a value chooses.
    #[tactic(auto, unfolding(crate::specs::Operations::operation_of))]
    pub(crate) fn chosen_by(value: u32) -> Operation
        ensures exact { result ≡ operation_of value }
    {
        Operation {
            kind: Kind::chosen_by(value),
            a: (value / 0x10_0000 % 4) as u8,
            b: (value / 0x40_0000 % 4) as u8,
        }
    }
}
