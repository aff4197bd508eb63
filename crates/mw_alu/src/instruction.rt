// The nine-bit instruction: sources in bits 2 to 0, function in bits 5 to 3, destination in bits 8 to 6.
ghost use Rattle.std.specs.Prelude.{◌≡◌, ◌<◌, ℕ};
ghost use Rattle.mw_alu.specs.Instruction.{source_of, function_of, destination_of};
ghost use Rattle.mw_alu.specs.WholeWord.{r_of, s_of, is_sum, y_of, writes_b, writes_q};

/// The operands R and S, by code from 0 (Data Book, ALU source operands). Z stands for zero.
#[derive(Clone, Copy, Debug, PartialEq, Eq)]
pub enum Source {
    /// R is A, S is Q.
    Aq,
    /// R is A, S is B.
    Ab,
    /// R is 0, S is Q.
    Zq,
    /// R is 0, S is B.
    Zb,
    /// R is 0, S is A.
    Za,
    /// R is D, S is A.
    Da,
    /// R is D, S is Q.
    Dq,
    /// R is D, S is 0.
    Dz,
}

/// What is made of R, S and the carry in, by code from 0 (Data Book, ALU functions).
#[derive(Clone, Copy, Debug, PartialEq, Eq)]
pub enum Function {
    /// R + S + Cn.
    Add,
    /// S + not R + Cn.
    Subr,
    /// R + not S + Cn.
    Subs,
    /// R or S.
    Or,
    /// R and S.
    And,
    /// (not R) and S.
    Notrs,
    /// R exclusive-or S.
    Exor,
    /// R exclusive-nor S.
    Exnor,
}

/// Where F goes, by code from 0 (Data Book, ALU destinations). Y is F but in RAMA.
#[derive(Clone, Copy, Debug, PartialEq, Eq)]
pub enum Destination {
    /// Q takes F.
    Qreg,
    /// Nothing is written.
    Nop,
    /// B takes F, and Y is A.
    Rama,
    /// B takes F.
    Ramf,
    /// B takes F / 2, and Q takes Q / 2.
    Ramqd,
    /// B takes F / 2.
    Ramd,
    /// B takes 2F, and Q takes 2Q.
    Ramqu,
    /// B takes 2F.
    Ramu,
}

impl Source {
    /// The sources that an instruction chooses.
    #[tactic(auto, unfolding(crate::specs::Instruction::source_of))]
    pub fn of(ins: u16) -> Source
        requires { ins < 512 }
        ensures { result ≡ source_of ins }
    {
        match ins % 8 {
            0 => Source::Aq,
            1 => Source::Ab,
            2 => Source::Zq,
            3 => Source::Zb,
            4 => Source::Za,
            5 => Source::Da,
            6 => Source::Dq,
            _ => Source::Dz,
        }
    }

    /// The operand R, from A and D. It is less than each number that A and D are less than.
    pub fn r(self, a: u32, d: u32) -> u32
        ensures exact { result ≡ r_of self a d }
        ensures below { (n : ℕ) → a < n → d < n → result < n }
    {
        match self {
            Source::Aq | Source::Ab => a,
            Source::Zq | Source::Zb | Source::Za => 0,
            Source::Da | Source::Dq | Source::Dz => d,
        }
    }

    /// The operand S, from A, B and Q. It is less than each number that A, B and Q are less than.
    pub fn s(self, a: u32, b: u32, q: u32) -> u32
        ensures exact { result ≡ s_of self a b q }
        ensures below { (n : ℕ) → a < n → b < n → q < n → result < n }
    {
        match self {
            Source::Aq | Source::Zq | Source::Dq => q,
            Source::Ab | Source::Zb => b,
            Source::Za | Source::Da => a,
            Source::Dz => 0,
        }
    }
}

impl Function {
    /// The function that an instruction chooses.
    #[tactic(auto, unfolding(crate::specs::Instruction::function_of))]
    pub fn of(ins: u16) -> Function
        requires { ins < 512 }
        ensures { result ≡ function_of ins }
    {
        match ins / 8 % 8 {
            0 => Function::Add,
            1 => Function::Subr,
            2 => Function::Subs,
            3 => Function::Or,
            4 => Function::And,
            5 => Function::Notrs,
            6 => Function::Exor,
            _ => Function::Exnor,
        }
    }

    /// Whether the function is a sum.
    pub fn is_sum(self) -> bool
        ensures { result ≡ is_sum self }
    {
        matches!(self, Function::Add | Function::Subr | Function::Subs)
    }
}

impl Destination {
    /// The destination that an instruction chooses.
    #[tactic(auto, unfolding(crate::specs::Instruction::destination_of))]
    pub fn of(ins: u16) -> Destination
        requires { ins < 512 }
        ensures { result ≡ destination_of ins }
    {
        match ins / 64 % 8 {
            0 => Destination::Qreg,
            1 => Destination::Nop,
            2 => Destination::Rama,
            3 => Destination::Ramf,
            4 => Destination::Ramqd,
            5 => Destination::Ramd,
            6 => Destination::Ramqu,
            _ => Destination::Ramu,
        }
    }

    /// Whether B is written.
    pub fn writes_b(self) -> bool
        ensures { result ≡ writes_b self }
    {
        !matches!(self, Destination::Qreg | Destination::Nop)
    }

    /// Whether Q is written.
    pub fn writes_q(self) -> bool
        ensures { result ≡ writes_q self }
    {
        matches!(
            self,
            Destination::Qreg | Destination::Ramqd | Destination::Ramqu
        )
    }

    /// The outputs Y, from A and F. It is less than each number that A and F are less than.
    pub fn y(self, a: u32, f: u32) -> u32
        ensures exact { result ≡ y_of self a f }
        ensures below { (n : ℕ) → a < n → f < n → result < n }
    {
        match self {
            Destination::Rama => a,
            _ => f,
        }
    }
}
