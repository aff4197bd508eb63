// Why a file is refused.
ghost use Rattle.std.specs.Prelude.{◌≡◌};
ghost use Rattle.mw_base.specs.Causes.{cause_number};

/// The cause of a refusal. Users see its number, which never changes.
#[derive(Clone, Copy, Debug, PartialEq, Eq)]
pub enum Cause {
    /// 1: a byte outside the alphabet of texts stands outside a comment.
    BadByte,
    /// 2: a word that begins with a digit isn't a number.
    BadNumber,
    /// 3: a number is 2^128 or more, or doesn't fit the width that is written with it.
    TooWide,
    /// 4: a line has more than 4,096 bytes.
    LineTooLong,
    /// 5: a file has more than 1,048,576 bytes.
    FileTooLong,
    /// 10: a field passes the end of the microword.
    FieldOutside,
    /// 11: a list has more entries than the field that selects among them has values, or a field is wider than what
    /// it controls.
    SelectTooWide,
    /// 12: a width is outside its range.
    BadWidth,
    /// 13: the map doesn't fit the instruction register, or has another number of entries than it has values.
    MapSize,
    /// 14: a count passes its limit, and no other cause names it.
    TooMany,
    /// 20: a file that should be TOML isn't.
    NotToml,
    /// 21: a required key isn't there.
    MissingKey,
    /// 22: a key isn't one of the format.
    UnknownKey,
    /// 23: a value is of another TOML kind.
    WrongKind,
    /// 24: an integer is negative, or a value is outside its range or spellings.
    BadValue,
    /// 30: a name isn't defined where it is used.
    UnknownName,
    /// 31: a name, address or element is defined a second time, or is reserved.
    Twice,
    /// 32: an item sets a microword bit that an earlier item of its line set otherwise.
    FieldConflict,
    /// 33: a value doesn't fit its field, element or range.
    ValueTooWide,
    /// 34: a word would stand past the end of the control store, or of the memory.
    StoreFull,
    /// 35: a word stands there already.
    Overlap,
    /// 36: a microprogram line isn't in its grammar.
    BadLine,
    /// 40: an element's name isn't one of those that there are.
    UnknownElement,
    /// 41: an operation's operand widths break its rule, or a result passes 32 bits.
    WidthsDiffer,
    /// 42: an expression or `if` is nested too deep.
    TooDeep,
    /// 50: an element is left of two lines of one boundary.
    LeftTwice,
    /// 51: a left element stands in a right side of its boundary.
    LeftUsedOnRight,
    /// 52: a boundary has no line for the stack pointer.
    NoStackPointer,
    /// 53: a relation has no boundary.
    NoBoundary,
    /// 54: a bound is outside its range.
    BadBound,
    /// 55: the machine's memory has other widths than the board's.
    ShapesDiffer,
    /// 56: a start sets an element that the relation determines.
    NotFree,
    /// 60: a line of a text isn't in its grammar.
    BadSyntax,
    /// 70: a debugger line isn't a command, or the script makes too many cycles.
    BadCommand,
    /// 71: a debugger element isn't one of the board.
    NoSuchElement,
    /// 72: more is taken back than was done.
    NothingToUndo,
    /// 80: a line of a certificate log gives no node, or one that is there already.
    BadNode,
    /// 81: a fact of a certificate log doesn't follow from the lines before it.
    BadFact,
    /// 82: a certificate log has another number of boundaries than the relation.
    BadCount,
    /// 83: a machine isn't one that a PDP-8 program runs on.
    NotPdp8,
    /// 84: an address of a PDP-8 source is on another page than its statement.
    OffPage,
    /// 85: words of a PDP-8 source can't stand in one statement.
    MixedWords,
}

impl Cause {
    /// The number that reports print.
    pub fn number(self) -> u8
        ensures { result ≡ cause_number self }
    {
        match self {
            Cause::BadByte => 1,
            Cause::BadNumber => 2,
            Cause::TooWide => 3,
            Cause::LineTooLong => 4,
            Cause::FileTooLong => 5,
            Cause::FieldOutside => 10,
            Cause::SelectTooWide => 11,
            Cause::BadWidth => 12,
            Cause::MapSize => 13,
            Cause::TooMany => 14,
            Cause::NotToml => 20,
            Cause::MissingKey => 21,
            Cause::UnknownKey => 22,
            Cause::WrongKind => 23,
            Cause::BadValue => 24,
            Cause::UnknownName => 30,
            Cause::Twice => 31,
            Cause::FieldConflict => 32,
            Cause::ValueTooWide => 33,
            Cause::StoreFull => 34,
            Cause::Overlap => 35,
            Cause::BadLine => 36,
            Cause::UnknownElement => 40,
            Cause::WidthsDiffer => 41,
            Cause::TooDeep => 42,
            Cause::LeftTwice => 50,
            Cause::LeftUsedOnRight => 51,
            Cause::NoStackPointer => 52,
            Cause::NoBoundary => 53,
            Cause::BadBound => 54,
            Cause::ShapesDiffer => 55,
            Cause::NotFree => 56,
            Cause::BadSyntax => 60,
            Cause::BadCommand => 70,
            Cause::NoSuchElement => 71,
            Cause::NothingToUndo => 72,
            Cause::BadNode => 80,
            Cause::BadFact => 81,
            Cause::BadCount => 82,
            Cause::NotPdp8 => 83,
            Cause::OffPage => 84,
            Cause::MixedWords => 85,
        }
    }
}
