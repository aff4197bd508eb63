// Lists of values.
ghost use Rattle.std.specs.Prelude.{◌≡◌, ◌<◌, Bool, IfOk, IfSome, OnOk, All, Ok, Result, length};
ghost use Rattle.toml.specs.Data.{Data};
ghost use Rattle.mw_base.specs.declared.cause.Cause.{Cause};
ghost use Rattle.mw_base.specs.Reading.{Gives};
ghost use Rattle.mw_boardfile.specs.Lists.{first_place, is_refused, none_refused, each_of};
ghost use Rattle.mw_boardfile.specs.Lists.{list_faults, chosen_list};
ghost use Rattle.mw_board.specs.Rules.{Verdict};
ghost use Rattle.mw_boardfile.specs.Kept.{Kept, Keeps, AreChosen, ListKeeps};
ghost use Rattle.mw_boardfile.specs.Values.{whole};
ghost use Rattle.mw_boardfile.specs.Views.{data_of, Reads, Tests};

use crate::fault::Fault;
use mw_base::{Cause, Items, Refused};
use mw_board::{Control, NamedField, chosen_rule, list_rule};
use std::alloc::Global;
use toml::Value;

/// The number of the first item that passes.
pub(crate) fn first_place<T, F: Fn(&T) -> bool>(items: &[T], test: F) -> Option<usize>
    requires { F.IsAlwaysCallable test }
    // What is so of every test that the closure follows.
    ensures exact { (p : T → Bool) → Tests (F.post test) p → result ≡ first_place p 0 items.now }
    ensures within { IfSome result (λ n. n < length items.now) }
{
    for (n, item) in items.iter().enumerate() {
        if test(item) {
            return Some(n);
        }
    }
    None
}

/// Whether reading gave this cause.
fn is_refused<T>(cause: Cause, read: &Result<T, Cause>) -> bool
    ensures { result ≡ is_refused cause read.now }
{
    match read {
        Ok(_) => false,
        Err(other) => other.number() == cause.number(),
    }
}

/// The first value that is refused for this cause, if there is one.
pub(crate) fn none_refused<T: Drop, F: Fn(&Value) -> Result<T, Cause>>(
    values: &[Value],
    cause: Cause,
    read: &F,
) -> Result<(), Fault>
    requires { F.IsAlwaysCallable read.now }
    // What is so of every reader that the closure follows.
    ensures { (reader : Data → Result T Cause) → Reads (F.post read.now) reader
        → result ≡ none_refused reader cause 0 (data_of values.now) }
{
    for (n, value) in values.iter().enumerate() {
        if is_refused(cause, &read(value)) {
            return Err(Fault::at(n, cause));
        }
    }
    Ok(())
}

/// Each value, read in order.
pub(crate) fn each<T: Drop, F: Fn(&Value) -> Result<T, Cause>>(
    alloc: Global,
    values: &[Value],
    read: &F,
) -> Result<Items<T>, Refused<Fault>>
    requires { F.IsAlwaysCallable read.now }
    // What is so of every reader that the closure follows.
    ensures exact { (reader : Data → Result T Cause) → Reads (F.post read.now) reader
        → Gives (λ items. items) result (each_of reader 0 (data_of values.now)) }
    ensures count { IfOk result (λ items. length items ≡ length values.now) }
    // What is so of every rule that the closure keeps.
    ensures kept { (rule : T → Verdict) → Keeps (F.post read.now) rule
        → IfOk result (λ items. All (λ item. Kept (rule item)) items) }
{
    let mut done = Vec::new(alloc);
    for (n, value) in values.iter().enumerate() {
        match read(value) {
            Ok(x) => done.push(x)?,
            Err(cause) => return Err(Refused::At(Fault::at(n, cause))),
        }
    }
    Ok(Items::from_vec(done))
}

/// A list from which a control chooses: no fault of the list, nor of an entry.
fn check<T: Drop, F: Fn(&Value) -> Result<T, Cause>>(
    values: &[Value],
    fields: &[NamedField],
    control: Control,
    read: &F,
) -> Result<(), Fault>
    requires { F.IsAlwaysCallable read.now }
    // What is so of every reader that the closure follows.
    ensures exact { (reader : Data → Result T Cause) → Reads (F.post read.now) reader
        → result ≡ list_faults reader fields.now control (data_of values.now) }
    ensures kept { OnOk result (AreChosen fields.now control (length values.now)) }
{
    none_refused(values, Cause::WrongKind, read)?;
    none_refused(values, Cause::BadNumber, read)?;
    none_refused(values, Cause::TooWide, read)?;
    whole(chosen_rule(control, values.len()))?;
    none_refused(values, Cause::BadValue, read)?;
    whole(list_rule(fields, control, values.len()))
}

/// The answer of a rule on a value as a whole.
pub(crate) fn whole<T>(read: Result<T, Cause>) -> Result<T, Fault>
    ensures exact { result ≡ whole read }
    ensures came { IfOk result (λ x. read ≡ Ok x) }
{
    match read {
        Ok(x) => Ok(x),
        Err(cause) => Err(Fault::whole(cause)),
    }
}

/// A list from which a control chooses.
pub(crate) fn chosen_list<T: Drop, F: Fn(&Value) -> Result<T, Cause>>(
    alloc: Global,
    values: &[Value],
    fields: &[NamedField],
    control: Control,
    read: &F,
) -> Result<Items<T>, Refused<Fault>>
    requires { F.IsAlwaysCallable read.now }
    // What is so of every reader that the closure follows.
    ensures exact { (reader : Data → Result T Cause) → Reads (F.post read.now) reader
        → Gives (λ items. items) result (chosen_list reader fields.now control (data_of values.now)) }
    // What is so of every rule that the closure keeps.
    ensures kept { (rule : T → Verdict) → Keeps (F.post read.now) rule
        → IfOk result (λ items. ListKeeps rule fields.now control items) }
{
    match check(values, fields, control, read) {
        Ok(()) => each(alloc, values, read),
        Err(fault) => Err(Refused::At(fault)),
    }
}
