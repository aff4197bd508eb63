// The terms of all elements at a boundary.
ghost use Rattle.std.specs.Prelude.{◌≡◌, ◌+◌, ◌<◌, ◌≤◌, [], All, IfOk, OnOk, drop, length, slice_index};
ghost use Rattle.mw_macro.specs.Counts.{reads};
ghost use Rattle.mw_term.specs.Table.{IsWidth};
ghost use Rattle.mw_term.specs.WordList.{ended};
ghost use Rattle.mw_symmem.specs.Memory.{IsOfWidth};
ghost use Rattle.mw_symmem.specs.Words.{AreOf};
ghost use Rattle.mw_symmem.specs.Workspace.{HaveKinds, IsLater};
ghost use Rattle.mw_rel.specs.Free.{numbered};
ghost use Rattle.mw_rel.specs.Lines.{reads_of};
ghost use Rattle.mw_rel.specs.Rules.{IsLineOf};
ghost use Rattle.mw_rel.specs.Seen.{line_of, lines_of};
ghost use Rattle.mw_rel.specs.StartWords.{all_own_words, line_words, lines_words, start_words};
ghost use Rattle.mw_rel.specs.Views.{job_of};
ghost use Rattle.mw_course.specs.Boundaries.{AreElements, AreWide, AreWideSoFar, IsElementBelow, IsSpace};
ghost use Rattle.mw_course.specs.Listed.{all_ended, list_of_space};
ghost use Rattle.mw_course.specs.OnWay.{ground_in};
ghost use Rattle.mw_course.specs.OwnTerms.{AreOwn, AreRelated, IsOwn, IsRelated, own_word, with_own};
ghost use Rattle.mw_course.specs.Starts.{IsGround};

use mw_base::NoMemory;
use mw_rel::{Job, Line, free};
use mw_space::Space;
use mw_symmach::expr_term;
use mw_symmem::Side;
use mw_term::{Op, Term, WordKind};
use std::alloc::Global;

/// The term of an element of its own: a variable where it is free. Else it is 0, which no right side reads.
fn own_term(
    alloc: Global,
    is_free: bool,
    number: u32,
    width: u8,
    space: &mut Space,
) -> Result<Term, NoMemory>
    requires width { IsWidth width }
    requires of { AreOf space.old.terms space.old.words }
    requires below { HaveKinds (IsElementBelow number) space.old.words }
    ensures wide { IfOk result (IsOfWidth space.new.terms width) }
    ensures later { OnOk result (IsLater space.old.terms space.new.terms) }
    ensures of { OnOk result (AreOf space.new.terms space.new.words) }
    ensures below { OnOk result (HaveKinds (IsElementBelow (number + 1)) space.new.words) }
    ensures own { IfOk result (IsOwn is_free number space.old.words space.new.words) }
    ensures memory { space.new.memory ≡ space.old.memory }
    ensures listed { IfOk result (λ term. ended term (list_of_space space.new)
        ≡ own_word is_free number width (list_of_space space.old)) }
{
    if is_free {
        let variable = space
            .words
            .fresh(alloc, &mut space.terms, WordKind::Element(number), width)?;
        return Ok(variable);
    }
    let zero = space.terms.write(alloc, Op::Con(0, width))?;
    Ok(zero)
}

/// How many bits an element has, by its number.
fn width_of(job: &Job, number: usize) -> u8
    requires { number < length (job_of job.now).relation.shape.widths }
    ensures exact { result ≡ slice_index (job_of job.now).relation.shape.widths number }
    ensures range { IsWidth result }
{
    let shape = job.shape();
    shape.widths.as_slice()[number]
}

/// One more of the elements' own terms, of the element of this number.
fn push_own(
    alloc: Global,
    job: &Job,
    boundary: usize,
    number: usize,
    space: &mut Space,
    own: &mut Vec<Term>,
) -> Result<(), NoMemory>
    requires boundary { boundary < length (job_of job.now).relation.boundaries }
    requires there { number < length (job_of job.now).relation.shape.widths }
    requires few { number < 174 }
    requires count { length own.old.items ≡ number }
    requires so_far { AreWideSoFar space.old.terms (job_of job.now).relation.shape.widths number own.old.items }
    requires own { AreOwn (numbered (job_of job.now) boundary) number space.old.words own.old.items }
    requires of { AreOf space.old.terms space.old.words }
    requires below { HaveKinds (IsElementBelow number) space.old.words }
    ensures count { OnOk result (length own.new.items ≡ number + 1) }
    ensures so_far { OnOk result (AreWideSoFar space.new.terms (job_of job.now).relation.shape.widths (number + 1)
        own.new.items) }
    ensures later { OnOk result (IsLater space.old.terms space.new.terms) }
    ensures of { OnOk result (AreOf space.new.terms space.new.words) }
    ensures below { OnOk result (HaveKinds (IsElementBelow (number + 1)) space.new.words) }
    ensures own { OnOk result (AreOwn (numbered (job_of job.now) boundary) (number + 1) space.new.words own.new.items) }
    ensures memory { space.new.memory ≡ space.old.memory }
    ensures listed { OnOk result (with_own (numbered (job_of job.now) boundary) number
        (drop number (job_of job.now).relation.shape.widths) (all_ended own.old.items (list_of_space space.old))
        ≡ with_own (numbered (job_of job.now) boundary) (number + 1)
        (drop (number + 1) (job_of job.now).relation.shape.widths)
        (all_ended own.new.items (list_of_space space.new))) }
{
    let width = width_of(job, number);
    let number = number as u32;
    let term = own_term(alloc, free(job, boundary, number), number, width, space)?;
    own.push(term)?;
    Ok(())
}

/// The terms of the elements of their own, by their numbers.
fn own_terms(
    alloc: Global,
    job: &Job,
    boundary: usize,
    space: &mut Space,
) -> Result<Vec<Term>, NoMemory>
    requires boundary { boundary < length (job_of job.now).relation.boundaries }
    requires space { IsSpace (job_of job.now) space.old.terms space.old.words space.old.memory }
    requires words { space.old.words ≡ [] }
    requires reads { space.old.memory.reads ≡ [] }
    ensures elements { IfOk result (λ own. AreElements (job_of job.now)
        space.new.terms space.new.words space.new.memory own.items) }
    ensures own { IfOk result (λ own. AreOwn (numbered (job_of job.now) boundary)
        (length (job_of job.now).relation.shape.widths) space.new.words own.items) }
    ensures reads { OnOk result (space.new.memory.reads ≡ []) }
    ensures memory { OnOk result (space.new.memory ≡ space.old.memory) }
    ensures listed { IfOk result (λ own. all_own_words (numbered (job_of job.now) boundary) 0
        (job_of job.now).relation.shape.widths (list_of_space space.old)
        ≡ all_ended own.items (list_of_space space.new)) }
{
    let mut own = Vec::new(alloc);
    for number in 0..job.element_count() {
        push_own(alloc, job, boundary, number, space, &mut own)?;
    }
    Ok(own)
}

/// The term of the right side of a line, over the elements' own terms, takes the place of the left side.
fn relate_line(
    alloc: Global,
    job: &Job,
    line: &Line,
    own: &[Term],
    space: &mut Space,
    terms: &mut Vec<Term>,
) -> Result<(), NoMemory>
    requires line_of { IsLineOf (job_of job.now).relation.shape (line_of line.now) }
    requires few { length space.old.memory.reads + reads (line_of line.now).right ≤ 64 }
    requires own { AreElements (job_of job.now) space.old.terms space.old.words space.old.memory own.now }
    requires wide { AreWide space.old.terms (job_of job.now).relation.shape.widths terms.old.items }
    requires unwritten { space.old.memory.machine ≡ [] }
    ensures more { OnOk result (length space.new.memory.reads
        ≡ length space.old.memory.reads + reads (line_of line.now).right) }
    ensures own { OnOk result (AreElements (job_of job.now) space.new.terms space.new.words space.new.memory own.now) }
    ensures wide { OnOk result (AreWide space.new.terms (job_of job.now).relation.shape.widths terms.new.items) }
    ensures related { OnOk result
        (IsRelated (line_of line.now) space.old.terms space.new.terms space.old.words space.new.words
        space.old.memory space.new.memory own.now terms.old.items terms.new.items) }
    ensures unwritten { OnOk result (space.new.memory.machine ≡ []) }
    ensures listed { OnOk result (line_words (job_of job.now).relation.shape own.now (line_of line.now)
        (all_ended terms.old.items (list_of_space space.old)) ≡ all_ended terms.new.items (list_of_space space.new)) }
{
    let term = expr_term(
        alloc,
        &line.right,
        own,
        Side::Machine,
        &mut space.terms,
        &mut space.words,
        &mut space.memory,
    )?;
    terms[line.left as usize] = term;
    Ok(())
}

/// Gives each left side the term of its right side, line after line.
fn relate(
    alloc: Global,
    job: &Job,
    lines: &[Line],
    own: &[Term],
    space: &mut Space,
    terms: &mut Vec<Term>,
) -> Result<(), NoMemory>
    requires lines_of { All (IsLineOf (job_of job.now).relation.shape) (lines_of lines.now) }
    requires few { length space.old.memory.reads + reads_of (lines_of lines.now) ≤ 64 }
    requires at_first { terms.old.items ≡ own.now }
    requires own { AreElements (job_of job.now) space.old.terms space.old.words space.old.memory own.now }
    requires wide { AreWide space.old.terms (job_of job.now).relation.shape.widths terms.old.items }
    requires unwritten { space.old.memory.machine ≡ [] }
    ensures own { OnOk result (AreElements (job_of job.now) space.new.terms space.new.words space.new.memory own.now) }
    ensures wide { OnOk result (AreWide space.new.terms (job_of job.now).relation.shape.widths terms.new.items) }
    ensures related { OnOk result (AreRelated (lines_of lines.now) (length lines.now)
        space.old.terms space.new.terms space.old.words space.new.words space.old.memory space.new.memory
        own.now terms.new.items) }
    ensures listed { OnOk result (lines_words (job_of job.now).relation.shape own.now (lines_of lines.now)
        (all_ended own.now (list_of_space space.old)) ≡ all_ended terms.new.items (list_of_space space.new)) }
{
    for line in lines {
        relate_line(alloc, job, line, own, space, terms)?;
    }
    Ok(())
}

/// The elements of both sides at a boundary, as terms, and what these are terms of.
#[derive(Drop)]
pub struct Elements {
    /// What a run from there works on.
    pub space: Space,
    /// The term of each element, by its number.
    pub terms: Vec<Term>,
}

/// The elements at the boundary of this number: first a variable for each that is free, by their numbers, and then the
/// terms of the right sides, in the order of the lines.
///
/// # Errors
///
/// Memory ran out.
pub fn elements_at(alloc: Global, job: &Job, boundary: usize) -> Result<Elements, NoMemory>
    requires boundary { boundary < length (job_of job.now).relation.boundaries }
    ensures elements { IfOk result (λ e. AreElements (job_of job.now)
        e.space.terms e.space.words e.space.memory e.terms.items) }
    ensures stands { IfOk result (λ e. IsGround (job_of job.now) boundary (ground_in e.space e.terms.items)) }
    ensures unwritten { IfOk result (λ e. (e.space.memory.board ≡ []) × (e.space.memory.machine ≡ [])) }
    ensures listed { IfOk result (λ e. start_words (job_of job.now).relation.shape (numbered (job_of job.now) boundary)
        ≡ all_ended e.terms.items (list_of_space e.space)) }
{
    let mut space = Space::new(alloc, &job.board)?;
    let own = own_terms(alloc, job, boundary, &mut space)?;
    let mut terms = Vec::from_slice(alloc, &own)?;
    let lines = job.boundary(boundary).lines.as_slice();
    relate(alloc, job, lines, &own, &mut space, &mut terms)?;
    // A call for the proof: no two variables have one kind.
    let _ = space.words.count();
    Ok(Elements { space, terms })
}
