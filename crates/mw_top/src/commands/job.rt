// The first four files of a command on a job: a board file, a microprogram for its board, a described machine, and a
// relation between both.
ghost use Rattle.std.specs.Prelude.{◌≡◌, ◌+◌, ◌<◌, ◌≤◌, ◌^◌, List, IfOk, OnOk, length, true};
ghost use Rattle.mw_base.specs.Reading.{Gives};
ghost use Rattle.mw_descfile.specs.Machine.{machine_of};
ghost use Rattle.mw_descfile.specs.Relation.{relation_of};
ghost use Rattle.mw_asm.specs.declared.assembled.Label.{Label};
ghost use Rattle.mw_outside.specs.Views.{IsLater, ShelfView, shelf_shown};
ghost use Rattle.mw_plan.specs.Files.{IsLeft};
ghost use Rattle.mw_plan.specs.Plan.{Plan};
ghost use Rattle.mw_plan.specs.Steps.{Follows};
ghost use Rattle.mw_rel.specs.Job.{AreForEachOther, Job as JobOf, job_with, memories_agree};
ghost use Rattle.mw_rel.specs.Views.{job_of};
ghost use Rattle.mw_top.specs.Commands.Job.{job_plan};
ghost use Rattle.mw_top.specs.declared.commands.Work.{Work};
ghost use Rattle.mw_top.specs.declared.fault.Fault.{Fault};

use super::Work;
use super::microprogram::read_microprogram;
use crate::fault::Fault;
use mw_asm::{Assembled, Label, Program};
use mw_base::{Items, Refusal};
use mw_descfile::{read_machine, read_relation};
use mw_macro::Machine;
use mw_outside::Shelf;
use mw_plan::{Files, Stop};
use mw_rel::{Job, Relation};
use std::alloc::Global;
use std::marker::Model;

/// A machine, seen as its description.
#[derive(Drop)]
struct Described {
    machine: Machine,
}

impl Model for Described {
    ghost use Rattle.mw_macro.specs.Described.{description_of};
    ghost use Rattle.mw_macro.specs.Machine.{Description};
    ghost use Rattle.mw_fork.specs.Codes.{coded_acts};
    ghost use Rattle.std.specs.Coded.{codes};

    ghost Value = { Description };

    ghost coded = { Prim.hlevel (codes, coded_acts) };

    ghost view = { λ d. description_of d.machine };
}

/// A relation, seen as its parts.
#[derive(Drop)]
struct Related {
    relation: Relation,
}

impl Model for Related {
    ghost use Rattle.mw_rel.specs.Relation.{Relation};
    ghost use Rattle.mw_rel.specs.Views.{relation_of};
    ghost use Rattle.mw_fork.specs.Codes.{coded_tree};
    ghost use Rattle.std.specs.Coded.{codes};

    ghost Value = { Relation };

    ghost coded = { Prim.hlevel (codes, coded_tree) };

    ghost view = { λ r. relation_of r.relation };
}

/// The job of four files, seen as `job_of` shows it.
#[derive(Drop)]
pub(crate) struct FileJob {
    /// The job.
    pub(super) job: Job,
}

impl Model for FileJob {
    ghost use Rattle.mw_rel.specs.Job.{Job as JobOf};
    ghost use Rattle.mw_rel.specs.Views.{job_of};
    ghost use Rattle.mw_fork.specs.Codes.{coded_acts, coded_tree};
    ghost use Rattle.std.specs.Coded.{codes};

    ghost Value = { JobOf };

    ghost coded = { Prim.hlevel (codes, coded_acts, coded_tree) };

    ghost view = { λ g. job_of g.job };
}

/// A job, and the labels of its microprogram.
#[derive(Drop)]
pub(super) struct Labelled {
    /// The job.
    pub(super) job: Job,
    /// The labels.
    pub(super) labels: Items<Label>,
}

/// The machine that a text describes.
fn read_described(alloc: Global, text: &[u8]) -> Result<Described, Refusal>
    requires { length text.now < 2 ^ 32 }
    ensures { Gives (λ machine. machine) result (machine_of text.now) }
{
    let machine = read_machine(alloc, text)?;
    Ok(Described { machine })
}

/// The relation that a text describes between a board with its microprogram and a machine.
fn read_related(
    alloc: Global,
    program: &Program,
    described: &Described,
    text: &[u8],
) -> Result<Related, Refusal>
    requires { length text.now < 2 ^ 32 }
    ensures gives { Gives (λ relation. relation) result
        (relation_of program.now.board program.now.made.labels described.now text.now) }
    ensures made { IfOk result (λ relation. AreForEachOther program.now.board described.now relation) }
    ensures agree { OnOk result (memories_agree program.now.board described.now ≡ true) }
{
    let relation = read_relation(
        alloc,
        &program.board,
        &program.made,
        &described.machine,
        text,
    )?;
    Ok(Related { relation })
}

/// The job of a board with its microprogram, a machine and a relation that was made for both.
fn job_with(program: Program, described: Described, related: Related) -> Labelled
    requires made { AreForEachOther program.board described related }
    requires agree { memories_agree program.board described ≡ true }
    ensures job { job_of result.job ≡ job_with program.board program.made.store.words described related }
    ensures labels { result.labels ≡ program.made.labels }
{
    let Program { board, made } = program;
    let Assembled { store, labels, .. } = made;
    match Job::new(board, store, described.machine, related.relation) {
        Ok(job) => Labelled { job, labels },
        Err(_) => unreachable!(),
    }
}

/// Reads the board, assembles the microprogram for it, and reads the machine and the relation between them. The job,
/// and the labels of the microprogram.
pub(super) fn read_job<S: Shelf>(
    alloc: Global,
    shelf: &mut S,
    files: &mut Files<'_, Work, Fault>,
) -> Result<Labelled, Stop<Fault>>
    requires four { length files.old.contents + 4 ≤ length files.old.names }
    ensures follows { (plan : Plan Fault Work) (rest : JobOf → List Label → Plan Fault Work) (first : ShelfView)
        → IsLater first (shelf_shown S.Shelf shelf.old) → IsLeft plan first files.old (job_plan rest)
        → Follows (λ read. rest (job_of read.job) read.labels) plan first
        (shelf_shown S.Shelf shelf.new) files.new result }
    ensures names { files.new.names ≡ files.old.names }
    ensures four_more { OnOk result (length files.new.contents ≡ length files.old.contents + 4) }
    ensures later { IsLater (shelf_shown S.Shelf shelf.old) (shelf_shown S.Shelf shelf.new) }
{
    let program = read_microprogram(alloc, shelf, files)?;
    let machine = match files.next(alloc, shelf, |bytes| read_described(alloc, bytes)) {
        Ok(machine) => machine,
        Err(stop) => {
            drop(program);
            return Err(stop);
        }
    };
    let relation = files.next(
        alloc,
        shelf,
        |bytes| read_related(alloc, &program, &machine, bytes),
    );
    match relation {
        Ok(relation) => Ok(job_with(program, machine, relation)),
        Err(stop) => {
            drop(machine);
            drop(program);
            Err(stop)
        }
    }
}
