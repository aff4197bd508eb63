// Why not all rows were run.
use mw_base::NoMemory;
use std::alloc::{AllocError, AllocFailed};
use std::{fmt, io};

/// Why not all rows were run.
#[derive(Debug, Drop)]
pub enum Fault {
    /// A line isn't what it has to be: its number, from 1, or 0 where it isn't known yet, and what is wrong with it.
    Line(u64, &'static str),
    /// Memory ran out.
    NoMemory,
    /// A file can't be read, or a line can't be printed.
    Outside(io::Error),
}

impl Fault {
    /// The fault at a line, unless it has a line already.
    pub fn at(self, line: u64) -> Fault {
        match self {
            Fault::Line(0, wrong) => Fault::Line(line, wrong),
            other => other,
        }
    }
}

/// A fault of the line at hand.
pub fn wrong(what: &'static str) -> Fault {
    Fault::Line(0, what)
}

impl fmt::Display for Fault {
    fn fmt<W: fmt::Write>(&self, f: &mut fmt::Formatter<W>) -> fmt::Result {
        match self {
            Fault::Line(line, wrong) => write!(f, "line {line}: {wrong}"),
            Fault::NoMemory => write!(f, "memory ran out"),
            Fault::Outside(error) => write!(f, "{error}"),
        }
    }
}

impl From<AllocError> for Fault {
    fn from(_: AllocError) -> Fault {
        Fault::NoMemory
    }
}

impl<T: Drop> From<AllocFailed<T>> for Fault {
    fn from(_: AllocFailed<T>) -> Fault {
        Fault::NoMemory
    }
}

impl From<NoMemory> for Fault {
    fn from(_: NoMemory) -> Fault {
        Fault::NoMemory
    }
}

impl From<io::Error> for Fault {
    fn from(error: io::Error) -> Fault {
        Fault::Outside(error)
    }
}
