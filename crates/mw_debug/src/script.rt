// Scripts.

use mw_base::Items;

/// What a command does. A count is 1 to 10,000; all cycles that a script asks for are 100,000 at most, and the waits
/// before a cycle aren't counted. The elements are those of a board by number, and behind them the stack pointer.
#[derive(Clone, Copy, Debug, PartialEq, Eq)]
pub enum Act {
    /// So many cycles are made.
    Step(u32),
    /// Cycles are made up to the first cycle start at this control address (below 4,096) after the present one: one at
    /// least, and so many at most.
    Until(u16, u32),
    /// The element of this number gets this value, which has no more bits than the element, or is at most the stack's
    /// depth for the stack pointer.
    Set(u32, u32),
    /// The element of this number is printed.
    Show(u32),
    /// The memory's word at this address, which is one of the board, is printed.
    ShowMemory(u32),
    /// From now on the element of this number is printed with each control address. It keeps its first place.
    Watch(u32),
    /// The last so many entries of the history are undone: each cycle that was made is one, with the waits before it,
    /// and each element that was set.
    Back(u32),
}

/// A command of a script.
#[derive(Clone, Copy, Debug, PartialEq, Eq)]
pub struct Entry {
    /// The line of its first token, from 1.
    pub line: u32,
    /// The column of its first token, from 1, in bytes.
    pub column: u32,
    /// What it does.
    pub act: Act,
}

/// A script. Its elements are numbered as the board's are, and the stack pointer has the number behind them.
#[derive(Debug, Drop)]
pub struct Script {
    /// Its commands, in order.
    pub entries: Items<Entry>,
}
