// How a call of the bench ends.
ghost use Rattle.std.specs.Prelude.{◌≡◌};
ghost use Rattle.mw_top.specs.Status.{status_number};

/// How a call of the bench ends; the numbers are the program's exit statuses.
#[derive(Clone, Copy, Debug, PartialEq, Eq)]
pub enum Status {
    /// 0: the work ended with yes, same or its output.
    Done,
    /// 1: the work found a difference.
    Differs,
    /// 2: something is over its budget.
    Unknown,
    /// 3: the words are no request.
    Usage,
    /// 4: a file is refused.
    Refused,
    /// 5: a file can't be read.
    ReadFault,
    /// 6: the report can't be written.
    WriteFault,
    /// 7: memory ran out.
    NoMemory,
}

impl Status {
    /// The exit status.
    pub fn number(self) -> u8
        ensures { result ≡ status_number self }
    {
        match self {
            Status::Done => 0,
            Status::Differs => 1,
            Status::Unknown => 2,
            Status::Usage => 3,
            Status::Refused => 4,
            Status::ReadFault => 5,
            Status::WriteFault => 6,
            Status::NoMemory => 7,
        }
    }
}
