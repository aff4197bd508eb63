// The generator.
ghost use Rattle.std.specs.Prelude.{◌≡◌, ℕ, ◌+◌, ◌*◌, ◌<◌, ◌≤◌, ◌^◌, length, IfOk};
ghost use Rattle.mw_board.specs.Store.{word_at};
ghost use Rattle.mw_rel.specs.Views.{job_of};
ghost use Rattle.mw_cases.specs.Board.{generated_board};
ghost use Rattle.mw_cases.specs.Described.{generated_machine};
ghost use Rattle.mw_cases.specs.Generated.{IsGenerated};
ghost use Rattle.mw_cases.specs.Operations.{all_operations, operation_count};
ghost use Rattle.mw_cases.specs.Related.{generated_relation};
ghost use Rattle.mw_cases.specs.Words.{choices_at, addressing, loading, mapping, operating_at};

use crate::board::board;
use crate::described::machine;
use crate::instructions::Instructions;
use crate::related::relation;
use crate::store::store;
use mw_base::NoMemory;
use mw_rel::Job;
use std::alloc::Global;

/// A job that the generator made.
#[derive(Drop)]
pub struct Made {
    /// The job.
    pub job: Job,
    /// How many operations its instructions have together.
    pub operations: u32,
}

/// The job of instructions.
fn job(alloc: Global, instructions: &Instructions) -> Result<Job, NoMemory>
    ensures { IfOk result (λ job. IsGenerated instructions.now.number (job_of job)) }
{
    let board = board(alloc)?;
    let store = store(alloc, instructions)?;
    let machine = machine(alloc, instructions)?;
    let relation = relation(alloc, &board, &machine)?;
    match Job::new(board, store, machine, relation) {
        Ok(job) => Ok(job),
        Err(_) => unreachable!(),
    }
}

/// The job of a number: a board whose microprogram has 256 instructions, a described machine that
/// does the same, and the relation between them.
///
/// # Errors
///
/// Memory ran out.
pub fn generate(alloc: Global, number: u16) -> Result<Made, NoMemory>
    ensures operations { IfOk result (λ made. made.operations ≡ all_operations) }
    ensures generated { IfOk result (λ made. IsGenerated number (job_of made.job)) }
    ensures board { IfOk result (λ made. (job_of made.job).board ≡ generated_board) }
    // The words at addresses 0, 1 and 2.
    ensures addressing { IfOk result (λ made. choices_at (job_of made.job) 0 ≡ addressing) }
    ensures loading { IfOk result (λ made. choices_at (job_of made.job) 1 ≡ loading) }
    ensures mapping { IfOk result (λ made. choices_at (job_of made.job) 2 ≡ mapping) }
    // The words of the operations of each instruction.
    ensures chooses { IfOk result (λ made. (i j : ℕ) → i < 256 → j < operation_count number i
        → choices_at (job_of made.job) (16 + 4 * i + j) ≡ operating_at number i j) }
    // How many words there are, and that they are microwords.
    ensures count { IfOk result (λ made. length (job_of made.job).store ≡ 1040) }
    ensures words { IfOk result (λ made. (address : ℕ)
        → word_at (job_of made.job).board (job_of made.job).store address < 2 ^ 38) }
    ensures statements { IfOk result (λ made.
        (job_of made.job).machine ≡ generated_machine number) }
    ensures relation { IfOk result (λ made. (job_of made.job).relation ≡ generated_relation) }
{
    let instructions = Instructions::new(alloc, number)?;
    Ok(Made {
        job: job(alloc, &instructions)?,
        operations: instructions.operation_total(),
    })
}
