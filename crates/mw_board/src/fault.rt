// Where parts break a rule.
use mw_base::Cause;

/// The first rule of boards that parts break.
#[derive(Clone, Copy, Debug, PartialEq, Eq)]
pub struct PartFault {
    /// Why they are no board: 10 to 14, 24 or 31.
    pub cause: Cause,
    /// The key of a board file at which it stands, by its number in the module `key`: a control point's is
    /// `FIRST_POINT` and its place in `Point::ALL`.
    pub row: u8,
    /// The number of the field, of the flip-flop, or of the list's entry; 0 also for a whole list, and where there is
    /// none. 65,535 stands for each greater number.
    pub index: u16,
    /// The number of a flip-flop's load, likewise.
    pub entry: u16,
}
