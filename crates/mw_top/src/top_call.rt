// The top call: all that the program does.
ghost use Rattle.std.specs.Prelude.{◌≡◌, ◌≢◌, ◌≤◌, List, ℕ, [], ◌∷◌, None, Some, true, Contains, IfOk, map};
ghost use Rattle.std.specs.Prelude.{string_bytes};
ghost use Rattle.mw_outside.specs.Views.{ShelfView, SinkView, IsLater, shelf_shown, sink_shown};
ghost use Rattle.mw_fork.specs.declared.budget.Budget.{Budget};
ghost use Rattle.mw_plan.specs.Shelf.{AreTold};
ghost use Rattle.mw_rel.specs.Job.{Job};
ghost use Rattle.mw_top.specs.declared.commands.Task.{Task};
ghost use Rattle.mw_top.specs.Answer.{AreAccepted, AreRefused, IsEnd, IsReport, is_worked};
ghost use Rattle.mw_top.specs.Answer.{IsMemoryEnd, IsReadFaultEnd, IsRefusalEnd, IsUsageEnd, IsWorkEnd};
ghost use Rattle.mw_top.specs.Answer.{IsWriteFaultEnd};
ghost use Rattle.mw_top.specs.Asked.{AsksFor};
ghost use Rattle.mw_top.specs.Bounded.{IsBoundsEnd};
ghost use Rattle.mw_top.specs.Call.{Call, NothingFailed, call_of};
ghost use Rattle.mw_top.specs.Headline.{AreToCertify, AsksToCertify, IsNoEnd, IsSettled, IsUnknownEnd, IsYesEnd};
ghost use Rattle.mw_top.specs.Headline.{NothingIsOver};
ghost use Rattle.mw_top.specs.Played.{IsPalEnd};
ghost use Rattle.mw_top.specs.Upgraded.{IsUpgradeEnd};
ghost use Rattle.mw_top.specs.Request.{HasItsFiles, RequestData, data_of, request_of, task_of};

use crate::commands::{answer_with, read_files};
use crate::outcome::{Outcome, read_fault_outcome, refusal_outcome, usage_outcome};
use crate::request::{Request, read_words};
use crate::status::Status;
use mw_base::NoMemory;
use mw_outside::{Shelf, Sink, write_all};
use mw_plan::{Files, Stop};
use mw_term::ShortcutBook;
use std::alloc::Global;

/// Does the work of a request.
fn answer<S: Shelf>(
    alloc: Global,
    request: &Request,
    shelf: &mut S,
    book: &ShortcutBook,
) -> Result<Outcome, NoMemory>
    requires { HasItsFiles request.now }
    ensures report { (call : Call) → request_of call.words ≡ Some (data_of request.now)
        → call.shelf_before ≡ shelf_shown S.Shelf shelf.old → call.shelf_now ≡ shelf_shown S.Shelf shelf.new
        → IfOk result (λ outcome. IsReport call outcome.status outcome.report.items) }
    ensures later { IsLater (shelf_shown S.Shelf shelf.old) (shelf_shown S.Shelf shelf.new) }
{
    let mut files = Files::new(alloc, &request.files);
    match read_files(alloc, request.command.task(), shelf, &mut files) {
        Ok(work) => answer_with(alloc, request, work, book),
        Err(Stop::ReadFault) => read_fault_outcome(alloc, files.next_name()),
        Err(Stop::Refused(fault)) => refusal_outcome(alloc, files.next_name(), &fault),
        Err(Stop::NoMemory) => Err(NoMemory),
    }
}

/// Does the work that the words ask for.
fn work<S: Shelf>(
    alloc: Global,
    words: &[String],
    shelf: &mut S,
    book: &ShortcutBook,
) -> Result<Outcome, NoMemory>
    ensures report { (call : Call) → call.words ≡ map string_bytes words.now
        → call.shelf_before ≡ shelf_shown S.Shelf shelf.old → call.shelf_now ≡ shelf_shown S.Shelf shelf.new
        → IfOk result (λ outcome. IsReport call outcome.status outcome.report.items) }
    ensures later { IsLater (shelf_shown S.Shelf shelf.old) (shelf_shown S.Shelf shelf.new) }
{
    match read_words(alloc, words)? {
        Some(request) => answer(alloc, &request, shelf, book),
        None => usage_outcome(alloc),
    }
}

/// Writes the report, and answers with its status or that it could not be written.
fn write_report<K: Sink>(out: &mut K, outcome: &Outcome) -> Status
    ensures end { (call : Call) → IsReport call outcome.now.status outcome.now.report.items
        → call.sink_before ≡ sink_shown K.Sink out.old → call.sink_now ≡ sink_shown K.Sink out.new
        → IsEnd call result }
    ensures later { K.faults out.old ≤ K.faults out.new }
{
    match write_all(out, &outcome.report) {
        Ok(()) => outcome.status,
        Err(_) => Status::WriteFault,
    }
}

/// Ends a call: writes what its work ended with, unless memory ran out.
fn end<K: Sink>(out: &mut K, worked: Result<Outcome, NoMemory>) -> Status
    ensures end { (call : Call) → IfOk worked (λ outcome. IsReport call outcome.status outcome.report.items)
        → call.sink_before ≡ sink_shown K.Sink out.old → call.sink_now ≡ sink_shown K.Sink out.new
        → IsEnd call result }
    ensures later { K.faults out.old ≤ K.faults out.new }
{
    match worked {
        Ok(outcome) => write_report(out, &outcome),
        Err(NoMemory) => Status::NoMemory,
    }
}

/// Does the work that the words ask for, and ends the call.
fn run<S: Shelf, K: Sink>(
    alloc: Global,
    words: &[String],
    shelf: &mut S,
    out: &mut K,
    book: &ShortcutBook,
) -> Status
    ensures end { IsEnd (call_of S.Shelf K.Sink words.now shelf.old shelf.new out.old out.new) result }
    ensures shelf_later { IsLater (shelf_shown S.Shelf shelf.old) (shelf_shown S.Shelf shelf.new) }
    ensures sink_later { K.faults out.old ≤ K.faults out.new }
{
    let worked = work(alloc, words, shelf, book);
    end(out, worked)
}

/// Does all that the program does: reads the words, then the files that they name, does the work, and writes its
/// report. `words` has no program name.
///
/// The status says how the call ended. Where more than one could stand, it is the one of the step that came first:
/// the words, the files in their order, the work; a report that can't be written takes the place of its status.
pub fn bench<S: Shelf, K: Sink>(
    alloc: Global,
    words: &[String],
    shelf: &mut S,
    out: &mut K,
    book: &ShortcutBook,
) -> Status
    // `Usage`: the words are no request, and the usage line was taken.
    ensures usage { result ≡ Status.Usage
        → IsUsageEnd (call_of S.Shelf K.Sink words.now shelf.old shelf.new out.old out.new) }

    // Words that are no request have no other end, but for a write fault and want of memory.
    ensures usage_due { request_of (map string_bytes words.now) ≡ None
        → Contains (Status.Usage ∷ Status.WriteFault ∷ Status.NoMemory ∷ []) result }

    // `Done`, `Differs`, `Unknown`: the work was done, and its report was taken.
    ensures answer { is_worked result ≡ true
        → IsWorkEnd (call_of S.Shelf K.Sink words.now shelf.old shelf.new out.old out.new) result }

    // The headline. `Done`, where the words ask to certify: the job of the four files, or of the number, is certified.
    ensures yes { AsksToCertify (call_of S.Shelf K.Sink words.now shelf.old shelf.new out.old out.new)
        → result ≡ Status.Done
        → IsYesEnd (call_of S.Shelf K.Sink words.now shelf.old shelf.new out.old out.new) }

    // `Differs`: the start that the report gives differs.
    ensures no { AsksToCertify (call_of S.Shelf K.Sink words.now shelf.old shelf.new out.old out.new)
        → result ≡ Status.Differs
        → IsNoEnd (call_of S.Shelf K.Sink words.now shelf.old shelf.new out.old out.new) }

    // `Unknown`: what the report names is over the budget.
    ensures unknown { AsksToCertify (call_of S.Shelf K.Sink words.now shelf.old shelf.new out.old out.new)
        → result ≡ Status.Unknown
        → IsUnknownEnd (call_of S.Shelf K.Sink words.now shelf.old shelf.new out.old out.new) }

    // Where nothing is over the budget, and nothing fails, the answer is yes or no, as the job is certified or isn't.
    ensures settled { (job : Job) (budget : Budget)
        → AreToCertify (call_of S.Shelf K.Sink words.now shelf.old shelf.new out.old out.new) job budget
        → NothingIsOver job budget
        → NothingFailed (call_of S.Shelf K.Sink words.now shelf.old shelf.new out.old out.new)
        → IsSettled job result }

    // Where the words ask how long the segments of a job last: every start's length lies in the range of its boundary, and
    // the two starts of the report have the least and the greatest; or what the report names is over the budget.
    ensures bounds { AsksFor Task.Bounds (call_of S.Shelf K.Sink words.now shelf.old shelf.new out.old out.new)
        → is_worked result ≡ true
        → IsBoundsEnd (call_of S.Shelf K.Sink words.now shelf.old shelf.new out.old out.new) result }

    // Where the words ask for a board file of version 2: the text that was taken spells the board that was read.
    ensures upgrade { AsksFor Task.Upgrade (call_of S.Shelf K.Sink words.now shelf.old shelf.new out.old out.new)
        → is_worked result ≡ true
        → IsUpgradeEnd (call_of S.Shelf K.Sink words.now shelf.old shelf.new out.old out.new) result }

    // Where the words ask for a PDP-8 program at its console: the text and the inputs that are printed are those of its
    // console run. `Done` comes where no step up to the number that the words say differs over these inputs, and
    // `Differs` where one does, of which the report names the first; where the job is certified none does.
    ensures pal { AsksFor Task.Console (call_of S.Shelf K.Sink words.now shelf.old shelf.new out.old out.new)
        → is_worked result ≡ true
        → IsPalEnd (call_of S.Shelf K.Sink words.now shelf.old shelf.new out.old out.new) result }

    // A job of a number has no file, so none is refused, and none can't be read.
    ensures without_files { (request : RequestData) → request_of (map string_bytes words.now) ≡ Some request
        → task_of request ≡ Task.Generation
        → Contains (Status.Done ∷ Status.Differs ∷ Status.Unknown ∷ Status.WriteFault ∷ Status.NoMemory ∷ []) result }

    // Good words and good files are not refused.
    ensures answer_due { (request : RequestData) (contents : List (List ℕ))
        → request_of (map string_bytes words.now) ≡ Some request
        → AreTold (shelf_shown S.Shelf shelf.old) request.files contents → AreAccepted request contents
        → (result ≢ Status.Usage) × (result ≢ Status.Refused) }

    // `Refused`: a file is refused, and the line that says so was taken.
    ensures refused { result ≡ Status.Refused
        → IsRefusalEnd (call_of S.Shelf K.Sink words.now shelf.old shelf.new out.old out.new) }

    // Files that are refused have no other end, but for the faults and want of memory.
    ensures refused_due { (request : RequestData) (contents : List (List ℕ))
        → request_of (map string_bytes words.now) ≡ Some request
        → AreTold (shelf_shown S.Shelf shelf.old) request.files contents → AreRefused request contents
        → Contains (Status.Refused ∷ Status.ReadFault ∷ Status.WriteFault ∷ Status.NoMemory ∷ []) result }

    // `ReadFault`: the files before one were read and accepted, the shelf failed at it, and the line that says so was
    // taken.
    ensures read_in_order { result ≡ Status.ReadFault
        → IsReadFaultEnd (call_of S.Shelf K.Sink words.now shelf.old shelf.new out.old out.new) }

    // `WriteFault`: the sink failed, and a front part of a report was taken.
    ensures write_fault { result ≡ Status.WriteFault
        → IsWriteFaultEnd (call_of S.Shelf K.Sink words.now shelf.old shelf.new out.old out.new) }

    // `NoMemory`: nothing was taken, or a front part of a report.
    ensures no_memory { result ≡ Status.NoMemory
        → IsMemoryEnd (call_of S.Shelf K.Sink words.now shelf.old shelf.new out.old out.new) }

    // Where neither the shelf nor the sink fails, only memory can keep the work from its end.
    ensures complete { NothingFailed (call_of S.Shelf K.Sink words.now shelf.old shelf.new out.old out.new)
        → Contains
        (Status.Done ∷ Status.Differs ∷ Status.Unknown ∷ Status.Usage ∷ Status.Refused ∷ Status.NoMemory ∷ []) result }

    // The files are as before, and no count of faults fell.
    ensures kept { (name : List ℕ) → S.told shelf.new name ≡ S.told shelf.old name }
    ensures shelf_later { (name : List ℕ) → S.faults shelf.old name ≤ S.faults shelf.new name }
    ensures sink_later { K.faults out.old ≤ K.faults out.new }
{
    run(alloc, words, shelf, out, book)
}
