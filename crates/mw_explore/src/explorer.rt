// The cases of a tree, one after another.
ghost use Rattle.std.specs.Prelude.{◌≡◌, ◌≢◌, ◌+◌, ◌<◌, ◌≤◌, List, [], None, true, false};
ghost use Rattle.std.specs.Prelude.{IfOk, IfErr, IfSome, OnErr, OnOk};
ghost use Rattle.mw_term.specs.declared.decided.Decided.{Decided};
ghost use Rattle.mw_explore.specs.declared.explorer.Halt.TheVariants as halts;
ghost use Rattle.mw_explore.specs.declared.fault.Fault.TheVariants as faults;
ghost use Rattle.mw_explore.specs.Cases.{At, Before, Behind, IsNext, Leads, NoneComesBefore, NoneIsToCome, OneIsToCome};
ghost use Rattle.mw_explore.specs.Explorers.{IsToBegin, Keeps, LeadsToNext, Stands, StandsAt, standing_of};
ghost use Rattle.mw_explore.specs.KeptBits.{AreKeptBits, IsWayFrom};
ghost use Rattle.mw_explore.specs.Ways.{bits_of};
ghost use Rattle.mw_explore.specs.declared.way.Kept as ways;

use crate::fault::Fault;
use crate::stage::{Stage, leave, stand_at};
use crate::trail::Trail;
use crate::tree::{CaseTree, ComparedTree};
use crate::way::Way;
use mw_base::NoMemory;
use mw_symmem::Turn;
use mw_term::{Prefix, ShortcutBook};
use std::alloc::Global;
use std::marker::Model;
use std::mem::replace;

/// A case that is given.
#[derive(Drop)]
pub struct Case<E> {
    /// Its decided bits.
    pub prefix: Prefix,
    /// What is said of it.
    pub end: E,
}

/// Why no further case is given.
#[derive(Drop)]
pub enum Halt<P> {
    /// As many cases were given as may be, and another is to come.
    Full,
    /// Behind these bits a course can't go on, or the case with these can't be compared, there.
    At(Prefix, P),
}

/// The cases of a tree, which are given one after another.
#[derive(Drop)]
pub struct Explorer<T: CaseTree> {
    tree: T,
    /// How many cases may be given.
    limit: u32,
    /// How many were.
    given: u32,
    stage: Stage<T::Course>,
    trail: Trail<T::Waiting>,
}

impl<T: CaseTree> Model for Explorer<T> {
    ghost use Rattle.std.specs.Prelude.{◌≤◌};
    ghost use Rattle.mw_explore.specs.Explorers.{Explorer as Explored};

    ghost Value = { Explored T };

    ghost use Rattle.mw_explore.specs.Explorers.{Keeps, standing_of};

    ghost view = { λ e. record {
      tree = e.tree;
      limit = e.limit;
      given = e.given;
      at = standing_of e.stage e.trail.way;
    } };

    ghost invariant = { λ e. (e.given ≤ e.limit) × Keeps (T.is_case e.tree) (T.has_gone e.tree) (T.is_waiting e.tree)
        e.stage e.trail.way e.trail.waiting.items };
}

/// Goes on to the end of a case, by the first values that lead to one.
fn follow<T: CaseTree>(
    alloc: Global,
    tree: &T,
    course: &mut T::Course,
    trail: &mut Trail<T::Waiting>,
    book: &ShortcutBook,
) -> Result<(), Fault<T::Place>>
    requires { Stands (T.is_case tree.now) (T.has_come tree.now) (T.is_waiting tree.now) course.old
        trail.old.way trail.old.waiting.items }
    ensures gone { OnOk result (Stands (T.is_case tree.now) (T.has_gone tree.now) (T.is_waiting tree.now) course.new
        trail.new.way trail.new.waiting.items) }
    ensures way { OnOk result (IsWayFrom (T.is_case tree.now) trail.old.way trail.new.way) }
    ensures case { OnOk result (T.is_case tree.now (bits_of trail.new.way)) }
    ensures over { IfErr result (λ fault. (place : T.Place) → fault ≡ faults.Over place
        → IsWayFrom (T.is_case tree.now) trail.old.way trail.new.way
        × T.is_over tree.now (bits_of trail.new.way) place × Leads (T.is_case tree.now) (bits_of trail.new.way)) }
{
    tree.are_in_order();
    while let Turn::Ask { kind, term } = tree.turn(alloc, course)? {
        let choice = tree.decide(alloc, course, kind, term, book)?;
        trail.take(kind, choice)?;
    }
    Ok(())
}

/// Goes to the course of the next case: the first of all, or the last that waits.
fn next_course<T: CaseTree>(
    alloc: Global,
    tree: &T,
    stage: &mut Stage<T::Course>,
    trail: &mut Trail<T::Waiting>,
) -> Result<(), NoMemory>
    requires begin { IsToBegin (T.is_waiting tree.now) stage.old trail.old.way trail.old.waiting.items }
    requires kept { AreKeptBits (T.is_case tree.now) [] trail.old.way }
    ensures stands { OnOk result (StandsAt (T.is_case tree.now) (T.has_come tree.now) (T.is_waiting tree.now) stage.new
        trail.new.way trail.new.waiting.items) }
    ensures way { trail.new.way ≡ trail.old.way }
{
    match replace(stage, Stage::Behind) {
        Stage::At(course) => {
            let Some(next) = trail.waiting.pop() else {
                // One waits for each bit that can be turned, and one was turned.
                unreachable!()
            };
            stand_at(stage, tree.go_on(next, course));
            Ok(())
        }
        Stage::Before => {
            let course = tree.begin(alloc)?;
            stand_at(stage, course);
            Ok(())
        }
        // No case is to come there.
        Stage::Behind => unreachable!(),
    }
}

/// Goes on to the next case, whose bits were turned, and through it to its end.
fn advance<T: CaseTree>(
    alloc: Global,
    tree: &T,
    stage: &mut Stage<T::Course>,
    trail: &mut Trail<T::Waiting>,
    book: &ShortcutBook,
) -> Result<T::End, Fault<T::Place>>
    requires begin { IsToBegin (T.is_waiting tree.now) stage.old trail.old.way trail.old.waiting.items }
    requires kept { AreKeptBits (T.is_case tree.now) [] trail.old.way }
    ensures stands { OnOk result (StandsAt (T.is_case tree.now) (T.has_gone tree.now) (T.is_waiting tree.now) stage.new
        trail.new.way trail.new.waiting.items) }
    ensures way { OnOk result (IsWayFrom (T.is_case tree.now) trail.old.way trail.new.way) }
    ensures case { OnOk result (T.is_case tree.now (bits_of trail.new.way)) }
    ensures ends { IfOk result (T.ends tree.now (bits_of trail.new.way)) }
    ensures over { IfErr result (λ fault. (place : T.Place) → fault ≡ faults.Over place
        → IsWayFrom (T.is_case tree.now) trail.old.way trail.new.way
        × T.is_over tree.now (bits_of trail.new.way) place × Leads (T.is_case tree.now) (bits_of trail.new.way)) }
{
    next_course(alloc, tree, stage, trail)?;
    let Stage::At(course) = stage else {
        unreachable!()
    };
    follow(alloc, tree, course, trail, book)?;
    Ok(tree.end(course))
}

/// Turns the bits that are kept to the next case, where one is to come, and says whether there is one.
fn lead_on<T: CaseTree>(tree: &T, stage: &Stage<T::Course>, trail: &mut Trail<T::Waiting>) -> bool
    requires { Keeps (T.is_case tree.now) (T.has_gone tree.now) (T.is_waiting tree.now) stage.now
        trail.old.way trail.old.waiting.items }
    ensures leads { result ≡ true
        → LeadsToNext (T.is_case tree.now) (standing_of stage.now trail.old.way) trail.new.way }
    ensures begin { result ≡ true
        → IsToBegin (T.is_waiting tree.now) stage.now trail.new.way trail.new.waiting.items }
    ensures none { result ≡ false → NoneIsToCome (T.is_case tree.now) (standing_of stage.now trail.old.way) }
{
    tree.are_in_order();
    match stage {
        Stage::Before => true,
        Stage::At(_) => trail.way.turn(),
        Stage::Behind => false,
    }
}

/// The fault, with the bits of this way where a course can't go on there or a case can't be compared.
fn halt_at<P: Drop>(alloc: Global, way: &Way, fault: Fault<P>) -> Fault<Halt<P>>
    ensures at { (prefix : List Decided) (place : P) → result ≡ faults.Over (halts.At prefix place)
        → (prefix ≡ bits_of way.now) × (fault ≡ faults.Over place) }
    ensures full { result ≢ faults.Over halts.Full }
{
    match fault {
        Fault::Over(place) => match way.prefix(alloc) {
            Ok(prefix) => Fault::Over(Halt::At(prefix, place)),
            Err(_) => Fault::NoMemory,
        },
        Fault::NoMemory => Fault::NoMemory,
    }
}

/// Compares the case at which one stands.
fn compare_at<T: ComparedTree>(
    alloc: Global,
    tree: &T,
    stage: &mut Stage<T::Course>,
    book: &ShortcutBook,
) -> Result<Option<T::Found>, Fault<T::Place>>
    requires { (way : List ways.Kept) × (waiting : List T.Waiting) × StandsAt (T.is_case tree.now) (T.has_gone tree.now)
        (T.is_waiting tree.now) stage.old way waiting }
    ensures same { OnOk result ((way : List ways.Kept) → standing_of stage.new way ≡ standing_of stage.old way) }
    ensures stays { OnOk result ((way : List ways.Kept) (waiting : List T.Waiting)
        → Keeps (T.is_case tree.now) (T.has_gone tree.now) (T.is_waiting tree.now) stage.old way waiting
        → Keeps (T.is_case tree.now) (T.has_gone tree.now) (T.is_waiting tree.now) stage.new way waiting) }
    ensures found { IfOk result (λ found. (way : List ways.Kept) (waiting : List T.Waiting)
        → Keeps (T.is_case tree.now) (T.has_gone tree.now) (T.is_waiting tree.now) stage.old way waiting
        → T.is_found tree.now (bits_of way) found) }
    ensures over { IfErr result (λ fault. (place : T.Place) → fault ≡ faults.Over place
        → (way : List ways.Kept) (waiting : List T.Waiting)
        → Keeps (T.is_case tree.now) (T.has_gone tree.now) (T.is_waiting tree.now) stage.old way waiting
        → T.is_comparison_over tree.now (bits_of way) place) }
{
    let Stage::At(course) = stage else {
        unreachable!()
    };
    tree.compare(alloc, course, book)
}

impl<T: CaseTree> Explorer<T> {
    /// The cases of a tree, of which so many may be given. None was given yet.
    pub fn start(alloc: Global, tree: T, limit: u32) -> Explorer<T>
        ensures tree { result.tree ≡ tree }
        ensures limit { result.limit ≡ limit }
        ensures given { result.given ≡ 0 }
        ensures before { result.at ≡ Before }
    {
        Explorer {
            tree,
            limit,
            given: 0,
            stage: Stage::Before,
            trail: Trail::new(alloc),
        }
    }

    /// The tree.
    pub fn tree(&self) -> &T
        ensures { result.now ≡ self.now.tree }
    {
        &self.tree
    }

    /// How many cases may be given.
    pub fn limit(&self) -> u32
        ensures { result ≡ self.now.limit }
    {
        self.limit
    }

    /// The next case, in the order of their bits, 0 before 1; nothing exactly after the last.
    ///
    /// # Errors
    ///
    /// - `Over`, with `Full`, exactly where as many cases were given as may be, and another is to come; with `At`, only
    ///   where a course can't go on behind the prefix, with which a case begins. No case that is still to come stands
    ///   before the prefix.
    /// - `NoMemory`: memory ran out.
    ///
    /// After an error no case is given any more.
    pub fn next_case(
        &mut self,
        alloc: Global,
        book: &ShortcutBook,
    ) -> Result<Option<Case<T::End>>, Fault<Halt<T::Place>>>
        ensures tree { self.new.tree ≡ self.old.tree }
        ensures limit { self.new.limit ≡ self.old.limit }
        ensures case { IfOk result (λ o. IfSome o (λ case. IsNext (T.is_case self.old.tree) self.old.at case.prefix)) }
        ensures ends { IfOk result (λ o. IfSome o (λ case. T.ends self.old.tree case.prefix case.end)) }
        ensures at { IfOk result (λ o. IfSome o (λ case. self.new.at ≡ At case.prefix)) }
        ensures given { IfOk result (λ o. IfSome o (λ case. self.new.given ≡ self.old.given + 1)) }
        ensures within { IfOk result (λ o. IfSome o (λ case. self.old.given < self.old.limit)) }
        ensures none { IfOk result (λ o. o ≡ None → NoneIsToCome (T.is_case self.old.tree) self.old.at) }
        ensures behind { IfOk result (λ o. o ≡ None → self.new.at ≡ Behind) }
        ensures last { IfOk result (λ o. o ≡ None → self.new.given ≡ self.old.given) }
        ensures full { IfErr result (λ e. e ≡ faults.Over halts.Full
            → (self.old.given ≡ self.old.limit) × OneIsToCome (T.is_case self.old.tree) self.old.at) }
        ensures over { IfErr result (λ e. (prefix : List Decided) (place : T.Place)
            → e ≡ faults.Over (halts.At prefix place)
            → (self.old.given < self.old.limit) × OneIsToCome (T.is_case self.old.tree) self.old.at) }
        ensures cause { IfErr result (λ e. (prefix : List Decided) (place : T.Place)
            → e ≡ faults.Over (halts.At prefix place) → T.is_over self.old.tree prefix place) }
        ensures feasible { IfErr result (λ e. (prefix : List Decided) (place : T.Place)
            → e ≡ faults.Over (halts.At prefix place) → Leads (T.is_case self.old.tree) prefix) }
        ensures before { IfErr result (λ e. (prefix : List Decided) (place : T.Place)
            → e ≡ faults.Over (halts.At prefix place)
            → NoneComesBefore (T.is_case self.old.tree) self.old.at prefix) }
        ensures err { OnErr result (self.new.at ≡ Behind) }
    {
        if !lead_on(&self.tree, &self.stage, &mut self.trail) {
            leave(&mut self.stage);
            return Ok(None);
        }
        if self.given == self.limit {
            leave(&mut self.stage);
            return Err(Fault::Over(Halt::Full));
        }
        let end = match advance(alloc, &self.tree, &mut self.stage, &mut self.trail, book) {
            Ok(end) => end,
            Err(fault) => {
                leave(&mut self.stage);
                return Err(halt_at(alloc, &self.trail.way, fault));
            }
        };
        let prefix = match self.trail.way.prefix(alloc) {
            Ok(prefix) => prefix,
            Err(_) => {
                leave(&mut self.stage);
                return Err(Fault::NoMemory);
            }
        };
        self.given += 1;
        Ok(Some(Case { prefix, end }))
    }

    /// The course that has gone through the case given last. A case was given last.
    pub fn course(&self) -> &T::Course
        requires { (last : List Decided) × (self.now.at ≡ At last) }
        ensures { (last : List Decided) → self.now.at ≡ At last → T.has_gone self.now.tree result.now last }
    {
        match &self.stage {
            Stage::At(course) => course,
            _ => unreachable!(),
        }
    }
}

impl<T: ComparedTree> Explorer<T> {
    /// What is found where the case given last is compared. A case was given last.
    ///
    /// # Errors
    ///
    /// - `Over`, with `At`, only where the case, which is the prefix, can't be compared.
    /// - `NoMemory`: memory ran out.
    ///
    /// After an error no case is given any more.
    pub fn compare(
        &mut self,
        alloc: Global,
        book: &ShortcutBook,
    ) -> Result<Option<T::Found>, Fault<Halt<T::Place>>>
        requires { (last : List Decided) × (self.old.at ≡ At last) }
        ensures same { OnOk result (self.new ≡ self.old) }
        ensures found { IfOk result (λ found. (last : List Decided) → self.old.at ≡ At last
            → T.is_found self.old.tree last found) }
        ensures cause { IfErr result (λ e. (prefix : List Decided) (place : T.Place)
            → e ≡ faults.Over (halts.At prefix place)
            → (self.old.at ≡ At prefix) × T.is_comparison_over self.old.tree prefix place) }
        ensures full { IfErr result (λ e. e ≢ faults.Over halts.Full) }
        ensures err { OnErr result (self.new.at ≡ Behind) }
    {
        match compare_at(alloc, &self.tree, &mut self.stage, book) {
            Ok(found) => Ok(found),
            Err(fault) => {
                leave(&mut self.stage);
                Err(halt_at(alloc, &self.trail.way, fault))
            }
        }
    }
}
