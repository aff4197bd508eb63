// The comparison of both sides of a case, on terms.
ghost use Rattle.std.specs.Prelude.{◌≡◌, ◌<◌, ◌≤◌, ◌+◌, ◌^◌, Bool, ℕ, List, All, IfErr, IfOk, IfSome};
ghost use Rattle.std.specs.Prelude.{None, OnOk, Some, length, slice_get, take, true};
ghost use Rattle.mw_macro.specs.Counts.{reads};
ghost use Rattle.mw_term.specs.declared.decided.Decided.{Decided};
ghost use Rattle.mw_rel.specs.ComparisonWords.{Sides, are_alike, with_line, with_lines};
ghost use Rattle.mw_rel.specs.Lines as rel_line;
ghost use Rattle.mw_rel.specs.Lines.{reads_of};
ghost use Rattle.mw_rel.specs.Rules.{IsLineOf};
ghost use Rattle.mw_rel.specs.Seen.{line_of, lines_of};
ghost use Rattle.mw_rel.specs.Views.{job_of};
ghost use Rattle.mw_rel.specs.CaseWords.{terms_with};
ghost use Rattle.mw_term.specs.Assigned.{Given, given_by};
ghost use Rattle.mw_term.specs.Cofactors.{Agree};
ghost use Rattle.mw_term.specs.declared.kinds.WordKind.TheVariants.{Probe};
ghost use Rattle.mw_term.specs.Table.{Table};
ghost use Rattle.mw_term.specs.WordList.{term_of};
ghost use Rattle.mw_symmem.specs.Words.{HaveOwnKinds};
ghost use Rattle.mw_symboard.specs.Parts.{AreParts};
ghost use Rattle.mw_course.specs.Boundaries.{AreWide, IsSpace};
ghost use Rattle.mw_course.specs.OnWay.{HasMetCase};
ghost use Rattle.mw_fork.specs.Comparing.{AreApart, AreEventsOf, AreOne, AreSidesOn, Compares, FailsAt, GoesComparing};
ghost use Rattle.mw_fork.specs.Comparing.{HoldsAt, compared_all};
ghost use Rattle.mw_fork.specs.Failing.{ComparisonStops, ComparisonsAreWithin, IsFound, NoneDiffersOf};
ghost use Rattle.mw_fork.specs.Traces.{HasGone, HavePaths, StaysAs};
ghost use Rattle.mw_path.specs.Paths.{AreMade, StayOnPath, path_in};

use mw_base::NoMemory;
use mw_blast::over_have_numbers;
use mw_compare::{alike, apart, compare_events, compare_memory};
use mw_course::{Course, Run, boundary_at};
use mw_decide::{RunStop, Traced};
use mw_macro::words_are_numbered;
use mw_path::Paths;
use mw_rel::{Job, Line, words_of_cases_are_numbered};
use mw_space::Space;
use mw_symboard::{SymBoard, words_of_cycles_are_numbered};
use mw_symmach::{SymMach, expr_term};
use mw_symmem::{Side, SymEvent};
use mw_term::{Assignment, ShortcutBook, Term};
use std::alloc::Global;

/// Compares the left element of a line with its right side.
fn compare_line(
    alloc: Global,
    job: &Job,
    space: &mut Space,
    paths: &mut Paths,
    elements: &[Term],
    line: &Line,
    nodes: u32,
    book: &ShortcutBook,
) -> Result<Option<Assignment>, RunStop>
    requires line_of { IsLineOf (job_of job.now).relation.shape (line_of line.now) }
    requires few { length space.old.memory.reads + reads (line_of line.now).right < 2 ^ 32 }
    requires space { IsSpace (job_of job.now) space.old.terms space.old.words space.old.memory }
    requires wide { AreWide space.old.terms (job_of job.now).relation.shape.widths elements.now }
    requires paths { HavePaths space.old paths.old }
    ensures goes { OnOk result (GoesComparing space.old space.new) }
    ensures paths { OnOk result (HavePaths space.new paths.new) }
    ensures path { Agree (path_in paths.new) (path_in paths.old) }
    ensures stays { OnOk result (StayOnPath paths.old paths.new) }
    ensures probe { OnOk result (term_of space.new.words Probe ≡ term_of space.old.words Probe) }
    ensures compared { (sides : Sides) → AreSidesOn elements.now space.old sides → Compares nodes space.old space.new
        (path_in paths.old) (with_line (job_of job.now).relation.shape sides (line_of line.now)) result }
    ensures more { OnOk result (length space.new.memory.reads
        ≡ length space.old.memory.reads + reads (line_of line.now).right) }
    ensures same { IfOk result (λ o. o ≡ None → (given : Given) → path_in paths.old given ≡ true
        → HoldsAt (job_of job.now).relation.shape space.new elements.now given (line_of line.now)) }
    ensures apart { IfOk result (λ o. IfSome o (λ numbers.
        FailsAt (job_of job.now).relation.shape space.new elements.now (given_by numbers) (line_of line.now))) }
{
    let right = expr_term(
        alloc,
        &line.right,
        elements,
        Side::Machine,
        &mut space.terms,
        &mut space.words,
        &mut space.memory,
    )?;
    apart(
        alloc,
        space,
        paths,
        elements[line.left as usize],
        right,
        nodes,
        book,
    )
}

/// Compares each line's left element with its right side, line after line.
fn compare_lines(
    alloc: Global,
    job: &Job,
    space: &mut Space,
    paths: &mut Paths,
    elements: &[Term],
    lines: &[Line],
    nodes: u32,
    book: &ShortcutBook,
) -> Result<Option<Assignment>, RunStop>
    requires lines_of { All (IsLineOf (job_of job.now).relation.shape) (lines_of lines.now) }
    requires few { length space.old.memory.reads + reads_of (lines_of lines.now) < 2 ^ 32 }
    requires space { IsSpace (job_of job.now) space.old.terms space.old.words space.old.memory }
    requires wide { AreWide space.old.terms (job_of job.now).relation.shape.widths elements.now }
    requires paths { HavePaths space.old paths.old }
    ensures goes { OnOk result (GoesComparing space.old space.new) }
    ensures paths { OnOk result (HavePaths space.new paths.new) }
    ensures path { Agree (path_in paths.new) (path_in paths.old) }
    ensures stays { OnOk result (StayOnPath paths.old paths.new) }
    ensures probe { OnOk result (term_of space.new.words Probe ≡ term_of space.old.words Probe) }
    ensures compared { (sides : Sides) → AreSidesOn elements.now space.old sides → Compares nodes space.old space.new
        (path_in paths.old) (with_lines (job_of job.now).relation.shape sides (lines_of lines.now)) result }
    ensures more { OnOk result (length space.new.memory.reads
        ≤ length space.old.memory.reads + reads_of (lines_of lines.now)) }
    ensures same { IfOk result
        (λ o. o ≡ None → (i : ℕ) (line : rel_line.Line) → slice_get (lines_of lines.now) i ≡ Some line
        → (given : Given) → path_in paths.old given ≡ true
        → HoldsAt (job_of job.now).relation.shape space.new elements.now given line) }
    ensures apart { IfOk result (λ o. IfSome o (λ numbers. (i : ℕ) × (line : rel_line.Line)
        × (slice_get (lines_of lines.now) i ≡ Some line)
        × FailsAt (job_of job.now).relation.shape space.new elements.now (given_by numbers) line)) }
{
    for line in lines {
        if let Some(found) = compare_line(alloc, job, space, paths, elements, line, nodes, book)? {
            return Ok(Some(found));
        }
    }
    Ok(None)
}

/// The terms of all elements at the end, by number.
fn elements_at_end(
    alloc: Global,
    job: &Job,
    board: &SymBoard,
    step: &SymMach,
) -> Result<Vec<Term>, NoMemory>
    requires parts { (t : Table) × AreParts (job_of job.now).board t board.now.place.parts }
    requires registers { (job_of job.now).machine.registers ≤ length step.now.parts.values }
    ensures { IfOk result (λ v. v.items ≡ terms_with (job_of job.now).board board.now.place.parts
        (take (job_of job.now).machine.registers step.now.parts.values)) }
{
    let mut elements = Vec::new(alloc);
    let all = job.element_count();
    let count = job.board.element_count();
    for number in 0..count {
        elements.push(board.element(&job.board, number as u32))?;
    }
    for number in count..all {
        elements.push(step.register((number - count) as u32))?;
    }
    Ok(elements)
}

/// Compares the events, the lines of the boundary reached, and the memory.
fn compare_all(
    alloc: Global,
    job: &Job,
    space: &mut Space,
    paths: &mut Paths,
    elements: &[Term],
    lines: &[Line],
    board: &[SymEvent],
    machine: &[SymEvent],
    nodes: u32,
    book: &ShortcutBook,
) -> Result<Option<Assignment>, RunStop>
    requires alike { are_alike board.now machine.now ≡ true }
    requires events { (word : ℕ) × AreEventsOf space.old.terms word board.now
        × AreEventsOf space.old.terms word machine.now }
    requires lines_of { All (IsLineOf (job_of job.now).relation.shape) (lines_of lines.now) }
    requires few { length space.old.memory.reads + reads_of (lines_of lines.now) + 2 < 2 ^ 32 }
    requires space { IsSpace (job_of job.now) space.old.terms space.old.words space.old.memory }
    requires fresh { term_of space.old.words Probe ≡ None }
    requires wide { AreWide space.old.terms (job_of job.now).relation.shape.widths elements.now }
    requires paths { HavePaths space.old paths.old }
    ensures goes { OnOk result (GoesComparing space.old space.new) }
    ensures own { OnOk result (HaveOwnKinds space.new.words) }
    ensures made { OnOk result (AreMade paths.new) }
    ensures stays { OnOk result (StayOnPath paths.old paths.new) }
    ensures compared { (sides : Sides) → AreSidesOn elements.now space.old sides → Compares nodes space.old space.new
        (path_in paths.old)
        (compared_all (job_of job.now).relation.shape sides (lines_of lines.now) board.now machine.now) result }
    ensures same { IfOk result (λ o. o ≡ None → AreOne (job_of job.now).relation.shape space.new (path_in paths.old)
        elements.now (lines_of lines.now) board.now machine.now) }
    ensures apart { IfOk result (λ o. IfSome o (λ numbers. AreApart (job_of job.now).relation.shape space.new
        (given_by numbers) elements.now (lines_of lines.now) board.now machine.now)) }
{
    if let Some(found) = compare_events(alloc, space, paths, board, machine, nodes, book)? {
        // A call for the proof: no two variables have one kind.
        let _ = space.words.count();
        return Ok(Some(found));
    }
    if let Some(found) = compare_lines(alloc, job, space, paths, elements, lines, nodes, book)? {
        // A call for the proof: no two variables have one kind.
        let _ = space.words.count();
        return Ok(Some(found));
    }
    let address = job.board.parts().address;
    let compared = compare_memory(alloc, space, paths, address, nodes, book);
    // A call for the proof: no two variables have one kind.
    let _ = space.words.count();
    compared
}

/// Compares both sides: the events, the lines of the boundary reached, the memory. Where the events aren't alike or the
/// stack pointer is another number than the boundary's, each assignment on the path shows a difference.
fn compare_sides(
    alloc: Global,
    job: &Job,
    run: &mut Run,
    paths: &mut Paths,
    step: &SymMach,
    nodes: u32,
    book: &ShortcutBook,
) -> Result<Option<Assignment>, RunStop>
    requires met { (number cycles : ℕ) × (elements : List ℕ) × (late : Bool) × (bits : List Decided)
        × HasMetCase (job_of job.now) number elements cycles late bits (path_in paths.old) run.old
        (Some step.now) }
    requires few { length run.old.space.memory.reads ≤ 1024 }
    requires fresh { term_of run.old.space.words Probe ≡ None }
    requires paths { HavePaths run.old.space paths.old }
    ensures made { OnOk result (AreMade paths.new) }
    ensures stays { OnOk result (StayOnPath paths.old paths.new) }
    ensures board { run.new.board ≡ run.old.board }
    ensures registers { run.new.registers ≡ run.old.registers }
    ensures none { IfOk result (λ o. o ≡ None
        → (number cycles : ℕ) (elements : List ℕ) (late : Bool) (bits : List Decided)
        → HasMetCase (job_of job.now) number elements cycles late bits (path_in paths.old) run.old
        (Some step.now)
        → NoneDiffersOf (job_of job.now) number bits) }
    ensures within { IfOk result (λ o. o ≡ None
        → (number cycles : ℕ) (elements : List ℕ) (late : Bool) (bits : List Decided)
        → HasMetCase (job_of job.now) number elements cycles late bits (path_in paths.old) run.old
        (Some step.now)
        → ComparisonsAreWithin (job_of job.now) number nodes bits) }
    ensures found { IfOk result (λ o. IfSome o (λ numbers.
        (number cycles : ℕ) (elements : List ℕ) (late : Bool) (bits : List Decided)
        → HasMetCase (job_of job.now) number elements cycles late bits (path_in paths.old) run.old
        (Some step.now)
        → IsFound (job_of job.now) number elements bits run.new.space numbers)) }
    ensures over { IfErr result
        (λ stop. (number cycles : ℕ) (elements : List ℕ) (late : Bool) (bits : List Decided)
        → HasMetCase (job_of job.now) number elements cycles late bits (path_in paths.old) run.old
        (Some step.now)
        → ComparisonStops (job_of job.now) number nodes bits stop) }
{
    // Laws for the proof: each term of the word list that is no constant has a word, and so has one that is over a
    // budget.
    words_of_cases_are_numbered();
    words_of_cycles_are_numbered();
    words_are_numbered();
    over_have_numbers();
    let Some(reached) = boundary_at(job, run.board.at()) else {
        unreachable!()
    };
    if !alike(run.board.events(), step.events()) | (run.board.sp() != reached.sp) {
        return Ok(paths.first_assignment(alloc)?);
    }
    let elements = elements_at_end(alloc, job, &run.board, step)?;
    let found = compare_all(
        alloc,
        job,
        &mut run.space,
        paths,
        &elements,
        reached.lines.as_slice(),
        run.board.events(),
        step.events(),
        nodes,
        book,
    )?;
    Ok(found)
}

/// The first assignment of those that are sought in a case that a course has gone through, if there is one.
pub(crate) fn first_failing(
    alloc: Global,
    job: &Job,
    boundary: usize,
    traced: &mut Traced<Course>,
    nodes: u32,
    book: &ShortcutBook,
) -> Result<Option<Assignment>, RunStop>
    requires gone { (bits : List Decided) × HasGone (job_of job.now) boundary bits traced.old }
    ensures stays { OnOk result (StaysAs traced.old traced.new) }
    ensures none { IfOk result (λ o. o ≡ None → (bits : List Decided)
        → HasGone (job_of job.now) boundary bits traced.old
        → NoneDiffersOf (job_of job.now) boundary bits) }
    ensures within { IfOk result (λ o. o ≡ None → (bits : List Decided)
        → HasGone (job_of job.now) boundary bits traced.old
        → ComparisonsAreWithin (job_of job.now) boundary nodes bits) }
    ensures found { IfOk result (λ o. IfSome o (λ numbers. (bits : List Decided)
        → (gone : HasGone (job_of job.now) boundary bits traced.old)
        → IsFound (job_of job.now) boundary gone.course.elements bits traced.new.course.run.space
        numbers)) }
    ensures over { IfErr result (λ stop. (bits : List Decided)
        → HasGone (job_of job.now) boundary bits traced.old
        → ComparisonStops (job_of job.now) boundary nodes bits stop) }
{
    match &traced.course.step {
        None => Ok(traced.paths.first_assignment(alloc)?),
        Some(step) => compare_sides(
            alloc,
            job,
            &mut traced.course.run,
            &mut traced.paths,
            step,
            nodes,
            book,
        ),
    }
}
