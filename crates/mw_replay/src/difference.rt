// What differs at a boundary.
ghost use Rattle.std.specs.Prelude.{◌≡◌, ◌<◌, ◌≤◌, ◌^◌, IfSome, length};
ghost use Rattle.mw_rel.specs.Differs.{first_unlike, event_difference, pointer_difference, memory_difference};
ghost use Rattle.mw_rel.specs.Seen.{boundary_of};

use mw_base::Event;
use mw_cycle::State;
use mw_rel::{Boundary, Difference};

/// The least number at which two lists disagree, or the length of the shorter where the other goes on.
fn first_unlike<T: PartialEq>(first: &[T], second: &[T]) -> Option<usize>
    ensures exact { result ≡ first_unlike T.eq first.now second.now }
    ensures within { IfSome result (λ n. n ≤ length first.now) }
{
    let shared = first.len().min(second.len());
    for n in 0..shared {
        if first[n] != second[n] {
            return Some(n);
        }
    }
    if first.len() == second.len() {
        None
    } else {
        Some(shared)
    }
}

/// The first event that differs.
pub(crate) fn event_difference(board: &[Event], machine: &[Event]) -> Option<Difference>
    requires { length board.now < 2 ^ 32 }
    ensures { result ≡ event_difference board.now machine.now }
{
    match first_unlike(board, machine) {
        Some(n) => Some(Difference::Event(n as u32)),
        None => None,
    }
}

/// The stack pointer, where it isn't that of the boundary.
pub(crate) fn pointer_difference(at: &Boundary, board: &State) -> Option<Difference>
    ensures { result ≡ pointer_difference (boundary_of at.now) board.now }
{
    if board.seq.sp == at.sp {
        None
    } else {
        Some(Difference::StackPointer)
    }
}

/// The least address at which two memories differ.
pub(crate) fn memory_difference(board: &[u32], machine: &[u32]) -> Option<Difference>
    requires { length board.now < 2 ^ 32 }
    ensures { result ≡ memory_difference board.now machine.now }
{
    match first_unlike(board, machine) {
        Some(a) => Some(Difference::Memory(a as u32)),
        None => None,
    }
}
