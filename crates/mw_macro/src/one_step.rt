// One step of a described machine.
ghost use Rattle.std.specs.Prelude.{◌≡◌, ℕ, ◌+◌, ◌-◌, ◌<◌, ◌≤◌, ◌^◌, List, [], ◌∷◌, ◌++◌, true, length, map, replicate};
ghost use Rattle.std.specs.Prelude.{slice_index, slice_set, vec_len, vec_capacity};
ghost use Rattle.mw_base.specs.Words as words;
ghost use Rattle.mw_base.specs.declared.event.Event.TheVariants.{Out, Taken};
ghost use Rattle.mw_expr.specs.Tree.{view};
ghost use Rattle.mw_expr.specs.Values.{AreWords, IsImage, value};
ghost use Rattle.mw_macro.specs.declared.counts.Counted.TheVariants.{Events};
ghost use Rattle.mw_macro.specs.Counts.{count, total, most_events};
ghost use Rattle.mw_macro.specs.Described.{description_of};
ghost use Rattle.mw_macro.specs.DescribedStep.{now, after, after_all, step_of, kept, Leaves, AreInputs};
ghost use Rattle.mw_macro.specs.Right.{is_right, are_right};
ghost use Rattle.mw_macro.specs.State.{Fits};
ghost use Rattle.mw_macro.specs.Statements.{assign, write, put, take_in, act_of, acts};

use crate::machine::Machine;
use crate::state::MacState;
use crate::statement::Statement;
use mw_base::Event;
use mw_expr::{Expr, Shape, value};

/// The most elements that an accepted machine has: 128 registers, 128 temporaries and the request.
const MOST_ELEMENTS: usize = 257;

/// What all statements of a step are given.
#[derive(Clone, Copy)]
struct StepContext<'a> {
    /// The widths of the elements and the memory.
    shape: &'a Shape,
    /// The inputs, words of the memory's width.
    inputs: &'a [u32],
    /// The number of the first input that the step takes.
    first: u64,
}

/// The input with a number, 0 past their end.
fn input_at(inputs: &[u32], number: u64) -> u32
    ensures { result ≡ slice_index inputs.now number }
{
    match usize::try_from(number) {
        Ok(number) => inputs.get(number).copied().unwrap_or(0),
        Err(_) => 0,
    }
}

/// An event more, for which there is room.
fn note(events: &mut Vec<Event>, event: Event)
    requires room { vec_len events.old < vec_capacity events.old }
    ensures items { events.new.items ≡ events.old.items ++ event ∷ [] }
    ensures len { vec_len events.new ≡ vec_len events.old + 1 }
    ensures capacity { vec_capacity events.old ≤ vec_capacity events.new }
{
    let noted = events.push(event).is_ok();
    prove!(noted);
}

/// An element gets the value of an expression.
fn assign_value(given: &StepContext, target: u32, expr: &Expr, values: &mut [u32], memory: &[u32])
    requires right { is_right given.now.shape.now (assign target (view expr.now)) ≡ true }
    requires values_fit { AreWords given.now.shape.now.widths values.old }
    requires memory_fits { IsImage given.now.shape.now memory.now }
    ensures exact { values.new
        ≡ slice_set values.old target (value given.now.shape.now values.old memory.now (view expr.now)) }
    ensures fits { AreWords given.now.shape.now.widths values.new }
{
    let assigned = value(expr, given.shape, values, memory);
    values[target as usize] = assigned;
}

/// The memory gets the value of an expression at an address.
fn write_word(given: &StepContext, address: &Expr, expr: &Expr, values: &[u32], memory: &mut [u32])
    requires right { is_right given.now.shape.now (write (view address.now) (view expr.now)) ≡ true }
    requires values_fit { AreWords given.now.shape.now.widths values.now }
    requires memory_fits { IsImage given.now.shape.now memory.old }
    ensures exact { memory.new
        ≡ slice_set memory.old (value given.now.shape.now values.now memory.old (view address.now))
        (value given.now.shape.now values.now memory.old (view expr.now)) }
    ensures fits { IsImage given.now.shape.now memory.new }
{
    let place = value(address, given.shape, values, memory);
    let written = value(expr, given.shape, values, memory);
    memory[place as usize] = written;
}

/// The value of an expression is put out.
fn put_word(
    given: &StepContext,
    expr: &Expr,
    values: &[u32],
    memory: &[u32],
    events: &mut Vec<Event>,
)
    requires right { is_right given.now.shape.now (put (view expr.now)) ≡ true }
    requires values_fit { AreWords given.now.shape.now.widths values.now }
    requires memory_fits { IsImage given.now.shape.now memory.now }
    requires room { vec_len events.old < vec_capacity events.old }
    ensures items { events.new.items
        ≡ events.old.items ++ Out (value given.now.shape.now values.now memory.now (view expr.now)) ∷ [] }
    ensures len { vec_len events.new ≡ vec_len events.old + 1 }
    ensures capacity { vec_capacity events.old ≤ vec_capacity events.new }
{
    note(events, Event::Out(value(expr, given.shape, values, memory)));
}

/// An element gets the next input, where so many were taken before it.
fn take_word(
    given: &StepContext,
    target: u32,
    taken: u32,
    values: &mut [u32],
    events: &mut Vec<Event>,
)
    requires right { is_right given.now.shape.now (take_in target) ≡ true }
    requires values_fit { AreWords given.now.shape.now.widths values.old }
    requires inputs_fit { (i : ℕ) → slice_index given.now.inputs.now i < 2 ^ given.now.shape.now.word }
    requires within { given.now.first + taken < 2 ^ 64 }
    requires room { vec_len events.old < vec_capacity events.old }
    ensures exact { values.new
        ≡ slice_set values.old target (slice_index given.now.inputs.now (given.now.first + taken)) }
    ensures fits { AreWords given.now.shape.now.widths values.new }
    ensures items { events.new.items
        ≡ events.old.items ++ Taken (slice_index given.now.inputs.now (given.now.first + taken)) ∷ [] }
    ensures len { vec_len events.new ≡ vec_len events.old + 1 }
    ensures capacity { vec_capacity events.old ≤ vec_capacity events.new }
{
    let input = input_at(given.inputs, given.first + u64::from(taken));
    values[target as usize] = input;
    note(events, Event::Taken(input));
}

/// Runs a statement, where so many inputs were taken before it, and answers how many were taken after it.
#[cycle(runs)]
fn run(
    statement: &Statement,
    given: &StepContext,
    taken: u32,
    values: &mut [u32],
    memory: &mut [u32],
    events: &mut Vec<Event>,
) -> u32
    requires right { is_right given.now.shape.now (act_of statement.now) ≡ true }
    requires values_fit { AreWords given.now.shape.now.widths values.old }
    requires memory_fits { IsImage given.now.shape.now memory.old }
    requires inputs_fit { (i : ℕ) → slice_index given.now.inputs.now i < 2 ^ given.now.shape.now.word }
    requires room { vec_len events.old + count Events (act_of statement.now) ≤ vec_capacity events.old }
    requires few { taken + count Events (act_of statement.now) ≤ 4096 }
    requires within { given.now.first + taken + count Events (act_of statement.now) < 2 ^ 64 }
    ensures exact { now values.new memory.new events.new.items result
        ≡ after given.now.shape.now given.now.inputs.now given.now.first (act_of statement.now)
        (now values.old memory.old events.old.items taken) }
    ensures values_fit { AreWords given.now.shape.now.widths values.new }
    ensures memory_fits { IsImage given.now.shape.now memory.new }
    ensures len { vec_len events.new ≤ vec_len events.old + count Events (act_of statement.now) }
    ensures capacity { vec_capacity events.old ≤ vec_capacity events.new }
    ensures few { result ≤ taken + count Events (act_of statement.now) }
{
    match statement {
        Statement::Assign {
            target,
            value: expr,
        } => {
            assign_value(given, *target, expr, values, memory);
            taken
        }
        Statement::Write {
            address,
            value: expr,
        } => {
            write_word(given, address, expr, values, memory);
            taken
        }
        Statement::Put(expr) => {
            put_word(given, expr, values, memory, events);
            taken
        }
        Statement::Take(target) => {
            take_word(given, *target, taken, values, events);
            taken + 1
        }
        Statement::If {
            condition,
            first,
            second,
        } => {
            if value(condition, given.shape, values, memory) == 1 {
                run_all(first, given, taken, values, memory, events)
            } else {
                run_all(second, given, taken, values, memory, events)
            }
        }
    }
}

/// Runs statements, each in its turn.
#[cycle(runs)]
fn run_all(
    statements: &[Statement],
    given: &StepContext,
    taken: u32,
    values: &mut [u32],
    memory: &mut [u32],
    events: &mut Vec<Event>,
) -> u32
    requires right { are_right given.now.shape.now (acts statements.now) ≡ true }
    requires values_fit { AreWords given.now.shape.now.widths values.old }
    requires memory_fits { IsImage given.now.shape.now memory.old }
    requires inputs_fit { (i : ℕ) → slice_index given.now.inputs.now i < 2 ^ given.now.shape.now.word }
    requires room { vec_len events.old + total Events (acts statements.now) ≤ vec_capacity events.old }
    requires few { taken + total Events (acts statements.now) ≤ 4096 }
    requires within { given.now.first + taken + total Events (acts statements.now) < 2 ^ 64 }
    ensures exact { now values.new memory.new events.new.items result
        ≡ after_all given.now.shape.now given.now.inputs.now given.now.first (acts statements.now)
        (now values.old memory.old events.old.items taken) }
    ensures values_fit { AreWords given.now.shape.now.widths values.new }
    ensures memory_fits { IsImage given.now.shape.now memory.new }
    ensures len { vec_len events.new ≤ vec_len events.old + total Events (acts statements.now) }
    ensures capacity { vec_capacity events.old ≤ vec_capacity events.new }
    ensures few { result ≤ taken + total Events (acts statements.now) }
{
    let mut so_far = taken;
    for statement in statements {
        so_far = run(statement, given, so_far, values, memory, events);
    }
    so_far
}

/// Zeros, and then a bit.
fn end_with(values: &mut [u32], bit: bool)
    requires { 1 ≤ length values.old }
    ensures { (n : ℕ) → n + 1 ≡ length values.old → values.new ≡ replicate n 0 ++ words.num bit ∷ [] }
{
    let last = values.len() - 1;
    values.fill(0);
    values[last] = u32::from(bit);
}

/// The values of the elements before the first statement: those of the registers, 0 for each temporary, and
/// the request.
fn begin(values: &mut [u32], registers: &[u32], request: bool)
    requires { length registers.now + 1 ≤ length values.old }
    ensures { (n : ℕ) → length registers.now + n + 1 ≡ length values.old
        → values.new ≡ registers.now ++ replicate n 0 ++ words.num request ∷ [] }
{
    let (front, rest) = values.split_at_mut(registers.len());
    front.copy_from_slice(registers);
    end_with(rest, request);
}

/// One step over the registers and the memory of a machine, with a place for the value of each element.
fn step_over(
    machine: &Machine,
    given: &StepContext,
    request: bool,
    values: &mut [u32],
    registers: &mut [u32],
    memory: &mut [u32],
    events: &mut Vec<Event>,
) -> u32
    requires shape { given.now.shape.now ≡ (description_of machine.now).shape }
    requires count { length values.old ≡ length given.now.shape.now.widths }
    requires fits { Fits (description_of machine.now) (kept registers.old memory.old) }
    requires inputs_fit { AreInputs (description_of machine.now) given.now.inputs.now }
    requires room { vec_len events.old + most_events (description_of machine.now) ≤ vec_capacity events.old }
    requires within { given.now.first + most_events (description_of machine.now) < 2 ^ 64 }
    ensures leaves { Leaves (description_of machine.now) (kept registers.old memory.old) request given.now.inputs.now
        given.now.first events.old.items registers.new memory.new events.new.items result }
    ensures fits { Fits (description_of machine.now) (kept registers.new memory.new) }
    ensures capacity { vec_capacity events.old ≤ vec_capacity events.new }
{
    begin(values, registers, request);
    let taken = run_all(machine.statements(), given, 0, values, memory, events);
    registers.copy_from_slice(&values[..registers.len()]);
    taken
}

/// One step of a machine from a state, with a request bit, that takes the inputs from the number `first` on. It changes
/// the state, appends the step's events, and answers how many inputs it took. It takes no memory. `temps` is empty,
/// isn't touched and stays empty: the signature leaves room for a step that keeps its temporaries there, while this one
/// has all elements in one list on the stack, from which an expression reads them.
///
/// The state fits the machine and does so afterwards. An input is a word of the memory's width. There is room for
/// `most_events` more events, and the numbers of the inputs that the step may take fit 64 bits.
pub fn step(
    machine: &Machine,
    state: &mut MacState,
    request: bool,
    inputs: &[u32],
    first: u64,
    temps: &mut Vec<u32>,
    events: &mut Vec<Event>,
) -> u32
    requires fits { Fits (description_of machine.now) state.old }
    requires inputs_fit { AreInputs (description_of machine.now) inputs.now }
    requires empty { temps.old.items ≡ [] }
    requires room { vec_len events.old + most_events (description_of machine.now) ≤ vec_capacity events.old }
    requires within { first + most_events (description_of machine.now) < 2 ^ 64 }
    ensures state { state.new ≡ (step_of (description_of machine.now) state.old request inputs.now first).state }
    ensures fits { Fits (description_of machine.now) state.new }
    ensures events { events.new.items
        ≡ events.old.items ++ (step_of (description_of machine.now) state.old request inputs.now first).events }
    ensures capacity { vec_capacity events.old ≤ vec_capacity events.new }
    ensures taken { result ≡ (step_of (description_of machine.now) state.old request inputs.now first).taken }
    ensures empty { temps.new.items ≡ [] }
{
    let shape = machine.shape();
    let mut elements = [0; MOST_ELEMENTS];
    let values = &mut elements[..shape.widths.as_slice().len()];
    let given = StepContext {
        shape,
        inputs,
        first,
    };
    step_over(
        machine,
        &given,
        request,
        values,
        &mut state.registers,
        &mut state.memory,
        events,
    )
}
