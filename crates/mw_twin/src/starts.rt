// The twin start that an assignment gives.
ghost use Rattle.std.specs.Prelude.{◌≡◌, ℕ, ◌<◌, ◌≤◌, ◌^◌, [], length, slice_index, None, IfOk, OnOk};
ghost use Rattle.mw_board.specs.declared.parts.BoardParts.{BoardParts};
ghost use Rattle.mw_board.specs.Depth.{depth_of};
ghost use Rattle.mw_board.specs.Elements.{element_count};
ghost use Rattle.mw_cycle.specs.Elements.{element};
ghost use Rattle.mw_cycle.specs.State.{Fits};
ghost use Rattle.mw_cycle.specs.Trimmed.{IsTrimmed};
ghost use Rattle.mw_rel.specs.Completed.{standing};
ghost use Rattle.mw_revise.specs.Kept.{IsBlock};
ghost use Rattle.mw_revise.specs.Revision.{IsBlockOf, IsRevision, Revision};
ghost use Rattle.mw_space.specs.Entries.{HasEntries, value_or_zero};
ghost use Rattle.mw_space.specs.Spaces.{list_of_space};
ghost use Rattle.mw_symboard.specs.Parts.{AreElements};
ghost use Rattle.mw_symboard.specs.Variables.{HaveVariables};
ghost use Rattle.mw_symmem.specs.Workspace.{IsWorkspace};
ghost use Rattle.mw_term.specs.Assigned.{given_by};
ghost use Rattle.mw_term.specs.declared.kinds.WordKind.TheVariants.{BesideLine};
ghost use Rattle.mw_term.specs.declared.side.Side.TheVariants.{Board as OldBoard, Machine as NewBoard};
ghost use Rattle.mw_term.specs.Table.{IsTable};
ghost use Rattle.mw_term.specs.WordList.{term_of};
ghost use Rattle.mw_twin.specs.Assigned.{HasLists, IsTwinAssigned, beside_kind, twins_of, values_under};
ghost use Rattle.mw_twin.specs.Grounds.{StandsForTwins};
ghost use Rattle.mw_twin.specs.Origins.{IsGround, ground_in};

use mw_base::NoMemory;
use mw_board::Board;
use mw_cycle::{Env, Series, State};
use mw_revise::Block;
use mw_sim::Start;
use mw_space::{Space, environment_of, take};
use mw_term::{Assignment, Side, Term, WordKind};
use std::alloc::Global;

/// Where both programs begin.
#[derive(Drop)]
pub struct TwinStarts {
    /// Where the old program begins.
    pub before: Start,
    /// Where the new program begins.
    pub after: Start,
}

/// Gives each element of a board the value of its term.
fn set_elements(
    alloc: Global,
    board: &Board,
    terms: &[Term],
    space: &Space,
    given: &Assignment,
    state: &mut State,
) -> Result<(), NoMemory>
    requires table { IsTable space.now.terms }
    requires count { length terms.now ≡ element_count board.now }
    requires wide { AreElements board.now space.now.terms terms.now }
    requires fits { Fits board.now state.old }
    ensures fits { OnOk result (Fits board.now state.new) }
    ensures set { OnOk result ((n : ℕ) → n < element_count board.now → element board.now state.new n
        ≡ values_under space.now.terms (given_by given.now) terms.now n) }
{
    for number in 0..board.element_count() {
        let value = space.terms.value(alloc, terms[number], given)?;
        state.set_element(board, number, value);
    }
    Ok(())
}

/// A state of a board whose elements have the values of their terms.
fn state_of(
    alloc: Global,
    board: &Board,
    terms: &[Term],
    space: &Space,
    given: &Assignment,
) -> Result<State, NoMemory>
    requires table { IsTable space.now.terms }
    requires count { length terms.now ≡ element_count board.now }
    requires wide { AreElements board.now space.now.terms terms.now }
    ensures fits { IfOk result (Fits board.now) }
    ensures set { IfOk result (λ state. (n : ℕ) → n < element_count board.now → element board.now state n
        ≡ values_under space.now.terms (given_by given.now) terms.now n) }
{
    let mut state = State::new(alloc, board)?;
    set_elements(alloc, board, terms, space, given, &mut state)?;
    Ok(state)
}

/// Puts a board at a control address, with a stack pointer and a memory. All else stays as it was.
fn stand_at(state: &mut State, at: u16, sp: u8, memory: &[u32])
    requires pointer { sp ≤ length state.old.seq.stack }
    requires size { length memory.now ≡ length state.old.memory }
    ensures exact { state.new ≡ standing state.old at sp memory.now }
{
    state.at = at;
    state.seq.sp = sp;
    state.memory.copy_from_slice(memory);
}

/// The environment of the new program's board beside that of the old one's, whose first line it has.
fn environment_beside(
    alloc: Global,
    before: &Env,
    space: &Space,
    given: &Assignment,
) -> Result<Env, NoMemory>
    requires workspace { IsWorkspace space.now.terms space.now.words space.now.memory }
    requires variables { (board : BoardParts) × (cycles : ℕ) × (board.width ≤ 32)
        × HaveVariables NewBoard board space.now.terms space.now.words cycles }
    requires unlined { term_of space.now.words (BesideLine 0) ≡ None }
    requires before { HasEntries OldBoard space.now.terms space.now.words (given_by given.now) before.now }
    ensures lists { IfOk result (HasLists
        (λ kind. value_or_zero space.now.terms (given_by given.now) (term_of space.now.words kind)) beside_kind) }
    ensures wait { IfOk result (λ env. env.wait ≡ []) }
    ensures trimmed { IfOk result (λ env. IsTrimmed env) }
{
    let mut env = environment_of(alloc, Side::Machine, space, given)?;
    let line = before.value(Series::Line, 0);
    take(Side::Machine, &mut env, WordKind::BesideLine(0), line)?;
    Ok(env)
}

/// The twin start that an assignment gives at a block: each element has the value of its term, the memory is an image
/// that the base reads fit, and each environment has the values of its variables. The new program's first line is the
/// old one's, and it takes the old one's inputs. No clock waits.
///
/// # Errors
///
/// Memory ran out.
pub fn starts_of(
    alloc: Global,
    board: &Board,
    block: &Block,
    space: &Space,
    before: &[Term],
    after: &[Term],
    given: &Assignment,
) -> Result<TwinStarts, NoMemory>
    requires block { IsBlock board.now block.now }
    requires ground { IsGround board.now block.now (ground_in space.now before.now after.now) }
    requires before { length before.now ≡ element_count board.now }
    requires after { length after.now ≡ element_count board.now }
    ensures stands { IfOk result (λ starts. (revision : Revision) → revision.board ≡ board.now → IsRevision revision
        → IsBlockOf revision block.now
        → StandsForTwins revision block.now (ground_in space.now before.now after.now) (given_by given.now)
        (twins_of block.now starts)) }
    ensures assigned { IfOk result (IsTwinAssigned board.now block.now (list_of_space space.now) (given_by given.now)) }
{
    let memory = space.memory.image_of(alloc, &space.terms, given)?;
    let old_env = environment_of(alloc, Side::Board, space, given)?;
    let new_env = environment_beside(alloc, &old_env, space, given)?;
    let mut old_state = state_of(alloc, board, before, space, given)?;
    stand_at(&mut old_state, block.before, block.sp, &memory);
    let mut new_state = state_of(alloc, board, after, space, given)?;
    stand_at(&mut new_state, block.after, block.sp, &memory);
    Ok(TwinStarts {
        before: Start {
            state: old_state,
            env: old_env,
        },
        after: Start {
            state: new_state,
            env: new_env,
        },
    })
}
