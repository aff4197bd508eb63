// Why a run goes no further.
ghost use Rattle.std.specs.Prelude.{◌≡◌, ℕ, length};
ghost use Rattle.std.specs.Option.{unwrap_or};
ghost use Rattle.mw_blast.specs.declared.fault.BlastFault.TheVariants as faults;
ghost use Rattle.mw_explore.specs.declared.fault.Fault.TheVariants as stops;
ghost use Rattle.mw_term.specs.WordList.{word_number};

use mw_blast::BlastFault;
use mw_explore::Fault;
use mw_symmem::Words;
use mw_term::Term;

/// Where an operation of a run is over the budget.
#[derive(Clone, Copy, Debug, PartialEq, Eq, Drop)]
pub struct Place {
    /// The number of its word.
    pub word: u64,
    /// The bit of that word.
    pub bit: u8,
}

/// Why a run doesn't come to its end.
pub type RunStop = Fault<Place>;

/// The number of an operation's word. That of a constant, which is no word, is the last one before it.
fn operation_number(words: &Words, term: Term) -> u64
    ensures { result ≡ unwrap_or (word_number words.now term) (length words.now) }
{
    match words.word_of(term) {
        Some(number) => number,
        None => words.count(),
    }
}

/// Why a run stops, by the fault of a term.
pub fn stop_of(words: &Words, fault: BlastFault) -> RunStop
    ensures over { (term j : ℕ) → fault ≡ faults.Over term j
        → result ≡ stops.Over (record { word = unwrap_or (word_number words.now term) (length words.now); bit = j }) }
    ensures none { fault ≡ faults.NoMemory → result ≡ stops.NoMemory }
{
    match fault {
        BlastFault::Over(term, bit) => RunStop::Over(Place {
            word: operation_number(words, term),
            bit,
        }),
        BlastFault::NoMemory => RunStop::NoMemory,
    }
}
