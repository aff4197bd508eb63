// Which words can stand in one statement, and the code that they make.
ghost use Rattle.std.specs.Prelude.{◌≡◌, ◌&&◌, ◌<◌, true, length};
ghost use Rattle.mw_pal.specs.declared.operation.Kind.{Kind as KindSeen};
ghost use Rattle.mw_pal.specs.Joins.{joins, all_join, are_clear, ored, joined_code};
ghost use Rattle.mw_pal.specs.Views.{room_seen};

use crate::operation::{Kind, Operation};
use mw_base::{Cause, TextFault, Token, fault_on};

/// A word where it stands.
#[derive(Clone, Copy)]
pub(crate) struct Spelled {
    /// Its token.
    pub token: Token,
    /// Which it is.
    pub operation: Operation,
}

impl Kind {
    /// Whether words of the two kinds can stand in one statement.
    fn joins(self, other: Kind) -> bool
        ensures { result ≡ joins self other }
    {
        match (self, other) {
            (Kind::Alone, _) | (_, Kind::Alone) => false,
            (Kind::Clear, _) | (_, Kind::Clear) => true,
            (Kind::First, Kind::First | Kind::Rotate) => true,
            (Kind::Rotate, Kind::First) => true,
            (Kind::Second, Kind::Second | Kind::AnyTest | Kind::AllTest) => true,
            (Kind::AnyTest, Kind::Second | Kind::AnyTest) => true,
            (Kind::AllTest, Kind::Second | Kind::AllTest) => true,
            (Kind::Third, Kind::Third) => true,
            _ => false,
        }
    }
}

/// With which kinds of words a statement can go on: those that each of its words so far joins.
#[derive(Clone, Copy)]
struct Room {
    clear: bool,
    first: bool,
    rotate: bool,
    second: bool,
    any_test: bool,
    all_test: bool,
    third: bool,
    alone: bool,
}

impl Room {
    /// Before the first word: with every kind.
    fn every() -> Room
        ensures { (kind : KindSeen) → room_seen result kind ≡ true }
    {
        Room {
            clear: true,
            first: true,
            rotate: true,
            second: true,
            any_test: true,
            all_test: true,
            third: true,
            alone: true,
        }
    }

    /// Whether the statement can go on with a word of this kind.
    fn admits(self, kind: Kind) -> bool
        ensures { result ≡ room_seen self kind }
    {
        match kind {
            Kind::Clear => self.clear,
            Kind::First => self.first,
            Kind::Rotate => self.rotate,
            Kind::Second => self.second,
            Kind::AnyTest => self.any_test,
            Kind::AllTest => self.all_test,
            Kind::Third => self.third,
            Kind::Alone => self.alone,
        }
    }

    /// After one more word, of this kind.
    fn beside(self, kind: Kind) -> Room
        ensures { (other : KindSeen) → room_seen result other ≡ (room_seen self other && joins kind other) }
    {
        Room {
            clear: self.clear & kind.joins(Kind::Clear),
            first: self.first & kind.joins(Kind::First),
            rotate: self.rotate & kind.joins(Kind::Rotate),
            second: self.second & kind.joins(Kind::Second),
            any_test: self.any_test & kind.joins(Kind::AnyTest),
            all_test: self.all_test & kind.joins(Kind::AllTest),
            third: self.third & kind.joins(Kind::Third),
            alone: self.alone & kind.joins(Kind::Alone),
        }
    }
}

/// Asks of each word whether it joins all those before it.
///
/// # Errors
///
/// Cause 85 at the first that can't.
pub(crate) fn check_joins(words: &[Spelled]) -> Result<(), TextFault>
    ensures { result ≡ all_join words.now }
{
    let mut room = Room::every();
    for word in words {
        let kind = word.operation.kind();
        if !room.admits(kind) {
            return Err(fault_on(word.token, Cause::MixedWords));
        }
        room = room.beside(kind);
    }
    Ok(())
}

/// Whether the words are `cla` alone.
fn are_clear(words: &[Spelled]) -> bool
    ensures { result ≡ are_clear words.now }
{
    words.iter().all(|word| word.operation.is_clear())
}

/// What the words add to a code together.
fn ored(words: &[Spelled]) -> u16
    ensures { result ≡ ored words.now }
{
    words
        .iter()
        .fold(0, |code, word| code | word.operation.added())
}

/// The code of a statement of these words.
pub(crate) fn joined_code(words: &[Spelled]) -> u16
    ensures exact { result ≡ joined_code words.now }
    ensures low { result < 4096 }
{
    if are_clear(words) {
        0o7200
    } else {
        ored(words)
    }
}
