// What has cases, and how a course goes through one.
ghost use Rattle.std.specs.Prelude.{◌≡◌, ◌++◌, ◌∷◌, ℕ, List, [], true, IfOk, IfErr, IfSome, OnOk, Option};
ghost use Rattle.std.specs.Option.{is_some};
ghost use Rattle.mw_term.specs.declared.decided.Decided.{Decided};
ghost use Rattle.mw_term.specs.declared.decided.DecidedKind.{DecidedKind as Kind};
ghost use Rattle.mw_cycle.specs.Decided.{decided};
ghost use Rattle.mw_symmem.specs.declared.turn.Turn.TheVariants as turns;
ghost use Rattle.mw_explore.specs.declared.fault.Fault.TheVariants as faults;
ghost use Rattle.mw_explore.specs.Cases.{AreInOrder, Leads};
ghost use Rattle.mw_explore.specs.KeptBits.{IsChosen};

use crate::fault::Fault;
use mw_base::NoMemory;
use mw_symmem::Turn;
use mw_term::{DecidedKind, ShortcutBook, Term};
use std::alloc::Global;

/// What a bit was decided to be.
#[derive(Drop)]
pub struct Choice<W> {
    /// Its value on the course that goes on: the first with which a case begins.
    pub value: bool,
    /// Where that is 0 and a case begins with 1 too, the course that waits with 1.
    pub other: Option<W>,
}

/// What has cases that are told apart by their decided bits, as the starts at a boundary have, and how a course goes
/// through one. What courses have made, as a table of terms and diagrams, goes from each to the next; a course that
/// waits is kept without it. A tree whose courses make no terms has no use for the book of shortcuts.
pub trait CaseTree: Drop {
    /// What goes through a case.
    type Course: Drop;

    /// A course that waits, without what all share.
    type Waiting: Drop;

    /// What is said of a case that was gone through.
    type End: Drop;

    /// Where a course can't go on.
    type Place: Drop;

    /// The bits are those of a case.
    ghost is_case: { Self → (bits : List Decided) → Type 0 };

    /// A course has come along these bits, and waits for none.
    ghost has_come: { Self → Self.Course → (bits : List Decided) → Type 0 };

    /// A course waits for a bit of this kind behind them, whose value this term has.
    ghost asks: { Self → Self.Course → (bits : List Decided) → Kind → (term : ℕ) → Type 0 };

    /// A course has met all bits of a case, which these are.
    ghost has_gone: { Self → Self.Course → (bits : List Decided) → Type 0 };

    /// One that waits has come along these bits, over what a course shares.
    ghost is_waiting: { Self → (made : Self.Course) → Self.Waiting → (bits : List Decided) → Type 0 };

    /// This is so of the case.
    ghost ends: { Self → (bits : List Decided) → Self.End → Type 0 };

    /// A course can't go on behind these bits: something is over its budget there, or isn't known.
    ghost is_over: { Self → (bits : List Decided) → Self.Place → Type 0 };

    /// A law for the proof: there is a case, and of two cases one comes before the other.
    fn are_in_order(&self)
        ensures some { Leads (is_case self.now) [] }
        ensures order { AreInOrder (is_case self.now) };

    /// A course on which no bit was decided.
    ///
    /// # Errors
    ///
    /// Memory ran out.
    fn begin(&self, alloc: Global) -> Result<Self::Course, NoMemory>
        ensures { IfOk result (λ course. has_come self.now course []) };

    /// Goes on to the next bit, or to the end of the case.
    ///
    /// # Errors
    ///
    /// Memory ran out.
    fn turn(&self, alloc: Global, course: &mut Self::Course) -> Result<Turn, NoMemory>
        requires { (bits : List Decided) × has_come self.now course.old bits }
        ensures asks { IfOk result (λ turn. (kind : Kind) (term : ℕ) → turn ≡ turns.Ask kind term
            → (bits : List Decided) → has_come self.now course.old bits → asks self.now course.new bits kind term) }
        ensures gone { IfOk result (λ turn. turn ≡ turns.Finished
            → (bits : List Decided) → has_come self.now course.old bits → has_gone self.now course.new bits) }
        ensures case { IfOk result (λ turn. turn ≡ turns.Finished
            → (bits : List Decided) → has_come self.now course.old bits → is_case self.now bits) }
        ensures waiting { OnOk result ((w : Self.Waiting) (bits : List Decided)
            → is_waiting self.now course.old w bits → is_waiting self.now course.new w bits) };

    /// Decides the bit that is waited for. Where it may be 0 and 1, another one waits with 1.
    ///
    /// # Errors
    ///
    /// The course can't go on there, or memory ran out.
    fn decide(
        &self,
        alloc: Global,
        course: &mut Self::Course,
        kind: DecidedKind,
        term: Term,
        book: &ShortcutBook,
    ) -> Result<Choice<Self::Waiting>, Fault<Self::Place>>
        requires { (bits : List Decided) × asks self.now course.old bits kind term }
        ensures chosen { IfOk result (λ choice. (bits : List Decided) → asks self.now course.old bits kind term
            → Leads (is_case self.now) bits
            → IsChosen (is_case self.now) bits kind choice.value (is_some choice.other)) }
        ensures come { IfOk result (λ choice. (bits : List Decided) → asks self.now course.old bits kind term
            → has_come self.now course.new (bits ++ decided kind choice.value ∷ [])) }
        ensures other { IfOk result (λ choice. IfSome choice.other (λ w.
            (bits : List Decided) → asks self.now course.old bits kind term
            → is_waiting self.now course.new w (bits ++ decided kind true ∷ []))) }
        ensures waiting { OnOk result ((w : Self.Waiting) (bits : List Decided)
            → is_waiting self.now course.old w bits → is_waiting self.now course.new w bits) }
        ensures over { IfErr result (λ fault. (place : Self.Place) → fault ≡ faults.Over place
            → (bits : List Decided) → asks self.now course.old bits kind term → Leads (is_case self.now) bits
            → is_over self.now bits place) };

    /// What is said of the case that was gone through.
    fn end(&self, course: &Self::Course) -> Self::End
        requires { (bits : List Decided) × has_gone self.now course.now bits }
        ensures { (bits : List Decided) → has_gone self.now course.now bits → ends self.now bits result };

    /// One that waits goes on, over what the other shares.
    fn go_on(&self, waiting: Self::Waiting, made: Self::Course) -> Self::Course
        ensures come { (bits : List Decided) → is_waiting self.now made waiting bits → has_come self.now result bits }
        ensures waiting { (w : Self.Waiting) (bits : List Decided)
            → is_waiting self.now made w bits → is_waiting self.now result w bits };
}

/// A tree whose cases are compared, each at its end. Where a case can't be compared is a place as where a course can't go
/// on is.
pub trait ComparedTree: CaseTree {
    /// What is found where a case is compared.
    type Found: Drop;

    /// This is found, or nothing is, where the case is compared.
    ghost is_found: { Self → (bits : List Decided) → Option Self.Found → Type 0 };

    /// The case can't be compared: something is over its budget there, or isn't known.
    ghost is_comparison_over: { Self → (bits : List Decided) → Self.Place → Type 0 };

    /// Compares the case that was gone through. The course has gone through it still, and those that wait still do;
    /// what all share may have grown.
    ///
    /// # Errors
    ///
    /// The comparison can't be made, or memory ran out.
    fn compare(
        &self,
        alloc: Global,
        course: &mut Self::Course,
        book: &ShortcutBook,
    ) -> Result<Option<Self::Found>, Fault<Self::Place>>
        requires { (bits : List Decided) × Self.has_gone self.now course.old bits }
        ensures gone { OnOk result ((bits : List Decided)
            → Self.has_gone self.now course.old bits → Self.has_gone self.now course.new bits) }
        ensures waiting { OnOk result ((w : Self.Waiting) (bits : List Decided)
            → Self.is_waiting self.now course.old w bits → Self.is_waiting self.now course.new w bits) }
        ensures found { IfOk result (λ found. (bits : List Decided)
            → Self.has_gone self.now course.old bits → is_found self.now bits found) }
        ensures over { IfErr result (λ fault. (place : Self.Place) → fault ≡ faults.Over place
            → (bits : List Decided) → Self.has_gone self.now course.old bits → is_comparison_over self.now bits place) };
}
