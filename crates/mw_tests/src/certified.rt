// A job that is certified by a book with a shortcut of a user's own.
ghost use Rattle.std.specs.Prelude.{IfOk};
ghost use Rattle.mw_macro.specs.Described.{description_of};
ghost use Rattle.mw_rel.specs.Job.{AreForEachOther};
ghost use Rattle.mw_rel.specs.Views.{relation_of};
ghost use Rattle.mw_term.specs.Hints.{IsRight};
ghost use Rattle.mw_term.specs.Table.{Fits};

use mw_asm::{Program, assemble};
use mw_board::Board;
use mw_boardfile::read_board;
use mw_check::{Verdict, certify};
use mw_descfile::{read_machine, read_relation};
use mw_fork::Budget;
use mw_macro::Machine;
use mw_rel::{Job, Relation};
use mw_term::{Hint, Op, ShortcutBook, Terms, terms_have_widths};
use std::alloc::Global;
use std::test::Fail;

/// A board of four bits.
const BOARD: &[u8] = br#"version = 1
width = 4
microword = 36
fill = "0"
address = 4
[fields]
src = [0, 3]
fun = [3, 3]
dst = [6, 3]
a = [9, 4]
b = [13, 4]
cin = [17, 1]
seq = [18, 4]
br = [22, 12]
off = [34, 1]
[control]
alu_source = "src"
alu_function = "fun"
alu_destination = "dst"
a_address = "a"
b_address = "b"
carry_in = "cin"
sequencer = "seq"
branch = "br"
test_disable = "off"
[select]
carry_in = ["zero", "one"]
"#;

/// It adds a register to another, and goes back.
const MICRO: &[u8] = b"def CONT = seq=14
def JUMP = seq=3, off=1
LOOP: src=1, fun=0, dst=3, a=1, b=0, CONT
dst=1, JUMP, br=LOOP
";

/// A machine that does the same in one step.
const MACHINE: &[u8] = b"memory 4 4
register X 4
register Y 4
step
X := X + Y
";

/// Which registers of the board those of the machine are.
const RELATION: &[u8] = b"boundary LOOP 2
sp 0
b.upc = 1#12
b.r0 = m.X
b.r1 = m.Y
end
";

/// The board with its microprogram.
fn assembled(alloc: Global, board: Board) -> Result<Program, Fail> {
    match assemble(alloc, &board, MICRO) {
        Ok(made) => Ok(Program { board, made }),
        Err(_) => {
            drop(board);
            Err(Fail::from("a microprogram"))
        }
    }
}

/// The relation of the machine to the board.
fn related(alloc: Global, program: &Program, machine: &Machine) -> Result<Relation, Fail>
    ensures { IfOk result
        (λ relation. AreForEachOther program.now.board (description_of machine.now) (relation_of relation)) }
{
    match read_relation(alloc, &program.board, &program.made, machine, RELATION) {
        Ok(relation) => Ok(relation),
        Err(_) => Err(Fail::from("a relation")),
    }
}

/// The job of these parts.
fn joined(program: Program, machine: Machine, relation: Relation) -> Result<Job, Fail>
    requires { AreForEachOther program.board (description_of machine) (relation_of relation) }
{
    let Program { board, made } = program;
    match Job::new(board, made.store, machine, relation) {
        Ok(job) => Ok(job),
        Err(_) => Err(Fail::from("a job")),
    }
}

/// The job of the board with its microprogram and the machine.
fn job_of(alloc: Global, program: Program, machine: Machine) -> Result<Job, Fail> {
    match related(alloc, &program, &machine) {
        Ok(relation) => joined(program, machine, relation),
        Err(fail) => {
            drop(program);
            drop(machine);
            Err(fail)
        }
    }
}

/// The small job.
fn small_job(alloc: Global) -> Result<Job, Fail> {
    let board = read_board(alloc, BOARD).ok().ok_or("a board")?;
    let program = assembled(alloc, board)?;
    match read_machine(alloc, MACHINE) {
        Ok(machine) => job_of(alloc, program, machine),
        Err(_) => {
            drop(program);
            Err(Fail::from("a machine"))
        }
    }
}

/// Of the lowest bits of a join, as many as its second term has, that term.
#[tactic(auto, unfolding(mw_term::specs::Hints::hinted))]
fn lower_part(terms: &Terms, op: Op) -> Hint
    requires { Fits terms.now op }
    ensures { IsRight terms.now op result }
{
    terms_have_widths();
    match op {
        Op::Part(a, first, width) => match terms.op(a) {
            Op::Join(_, low) if first == 0 && terms.width(low) == width => Hint::Inner(0, 1),
            _ => Hint::Nothing,
        },
        _ => Hint::Nothing,
    }
}

/// What a job ends with by a book that has this shortcut alone.
fn certified(alloc: Global, job: &Job) -> Result<Verdict, Fail> {
    let budget = Budget {
        nodes: 1_000_000,
        paths: 4096,
    };
    let mut book = ShortcutBook::new(alloc);
    book.add(alloc, Box::new(alloc, lower_part)?)?;
    Ok(certify(alloc, job, budget, &book)?)
}

/// Whether a job is certified, with one boundary of one case, whose segment has two cycles.
fn is_certified(verdict: &Verdict) -> bool {
    match verdict {
        Verdict::Yes(summaries) => match summaries.as_slice() {
            [only] => only.cases == 1 && only.cycles == 2,
            _ => false,
        },
        Verdict::No(_) | Verdict::Unknown(_) => false,
    }
}

#[test]
fn own_rule_certifies(rt: HostRuntime) -> Result<(), Fail> {
    let job = small_job(rt.alloc())?;
    let verdict = certified(rt.alloc(), &job);
    drop(job);
    let verdict = verdict?;
    let yes = is_certified(&verdict);
    drop(verdict);
    assert!(rt; yes);
    Ok(())
}
