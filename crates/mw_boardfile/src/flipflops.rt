// flipflop.
ghost use Rattle.std.specs.Prelude.{◌≡◌, [], ◌++◌, ◌∷◌, codes, length, option_map, IfOk};
ghost use Rattle.toml.specs.Data.{as_str, as_table};
ghost use Rattle.toml.specs.View.{view, table_view};
ghost use Rattle.mw_base.specs.Reading.{Gives};
ghost use Rattle.mw_boardfile.specs.FlipFlops.{table_kind, tables_in, name_in, flip_control_in};
ghost use Rattle.mw_boardfile.specs.FlipFlops.{load_values_in, loads_in, name_of, control_of, loads_of};
ghost use Rattle.mw_boardfile.specs.FlipFlops.{flipflop_of, flipflop_at, each_flipflop};
ghost use Rattle.mw_boardfile.specs.Lists.{none_refused};
ghost use Rattle.mw_boardfile.specs.Values.{Answers, whole};
ghost use Rattle.mw_board.specs.Rules.{flipflops_rule, flipflop_name_rule, control_rule, load_rule};
ghost use Rattle.mw_boardfile.specs.Kept.{Kept, ListKeeps, FlipFlopKeeps, FlipFlopsKeep};
ghost use Rattle.mw_boardfile.specs.Views.{given, data_of};
ghost use Rattle.mw_base.specs.declared.cause.Cause.TheVariants.{WrongKind};

use crate::entries::load;
use crate::fault::{BoardRefusal, Fault};
use crate::lists::{chosen_list, none_refused, whole};
use crate::paths::{below, located, numbered, under_list, under_whole};
use crate::points::control;
use crate::sizes::BoardSizes;
use crate::values::{list, list_or_none, member, required, text};
use mw_base::{Cause, Items, Name, Refused};
use mw_board::{Control, FlipFlop, Load, NamedField, flipflop_name_rule, flipflops_rule};
use std::alloc::Global;
use toml::{Table, Value};

/// A value that is a table: cause 23.
#[tactic(auto, unfolding(crate::specs::FlipFlops::table_kind))]
fn table_kind(value: &Value) -> Result<(), Cause>
    ensures { result ≡ table_kind (view value.now) }
{
    match value.as_table() {
        Some(_) => Ok(()),
        None => Err(Cause::WrongKind),
    }
}

/// Each value is a table: cause 23.
fn tables_only(values: &[Value]) -> Result<(), Fault>
    ensures { result ≡ none_refused table_kind WrongKind 0 (data_of values.now) }
{
    none_refused(values, Cause::WrongKind, &|value| table_kind(value))
}

/// The tables of the flip-flops: cause 23 or 14.
#[tactic(auto, unfolding(crate::specs::FlipFlops::tables_in))]
pub(crate) fn tables<'a>(value: Option<&'a Value>) -> Result<&'a [Value], Fault>
    ensures exact { Answers (λ vs. data_of vs.now) result (tables_in (given value.entry)) }
    ensures kept { IfOk result (λ vs. Kept (flipflops_rule (length vs.now))) }
{
    let values = match list_or_none(value) {
        Ok(values) => values,
        Err(cause) => return Err(Fault::whole(cause)),
    };
    tables_only(values)?;
    whole(flipflops_rule(values.len()))?;
    Ok(values)
}

/// name: cause 21, 23, 24 or 31.
#[tactic(auto, unfolding(crate::specs::FlipFlops::name_in))]
fn name<'a>(stack: u8, earlier: &[FlipFlop], value: Option<&'a Value>) -> Result<&'a str, Cause>
    ensures exact { Answers (λ name. name.now) result (name_in stack earlier.now (given value.entry)) }
    ensures kept { IfOk result (λ name. Kept (flipflop_name_rule stack earlier.now name.now)) }
{
    let name = text(required(value)?)?;
    flipflop_name_rule(stack, earlier, name.as_bytes())?;
    Ok(name)
}

/// control: cause 21, 23 or 24.
#[tactic(auto, unfolding(crate::specs::FlipFlops::flip_control_in))]
fn flip_control(fields: &[NamedField], value: Option<&Value>) -> Result<Control, Cause>
    ensures exact { result ≡ flip_control_in fields.now (given value.entry) }
    ensures kept { IfOk result (λ control. Kept (control_rule fields.now control)) }
{
    control(fields, required(value)?)
}

/// The list under the key load: cause 21 or 23.
#[tactic(auto, unfolding(crate::specs::FlipFlops::load_values_in))]
fn load_values<'a>(value: Option<&'a Value>) -> Result<&'a [Value], Cause>
    ensures { Answers (λ vs. data_of vs.now) result (load_values_in (given value.entry)) }
{
    list(required(value)?)
}

/// load.
#[tactic(auto, unfolding(crate::specs::FlipFlops::loads_in))]
fn loads(
    alloc: Global,
    width: u8,
    fields: &[NamedField],
    flipflops: &[Value],
    control: Control,
    value: Option<&Value>,
) -> Result<Items<Load>, Refused<Fault>>
    ensures gives { Gives (λ loads. loads) result
        (loads_in width fields.now (data_of flipflops.now) control (given value.entry)) }
    ensures kept { IfOk result (ListKeeps (load_rule width (length flipflops.now)) fields.now control) }
{
    match load_values(value) {
        Ok(values) => chosen_list(
            alloc,
            values,
            fields,
            control,
            &|value| { load(width, flipflops, value) },
        ),
        Err(cause) => Err(Refused::At(Fault::whole(cause))),
    }
}

/// The name under a flip-flop's key.
fn name_of(
    alloc: Global,
    key: &[u8],
    stack: u8,
    earlier: &[FlipFlop],
    table: &Table,
) -> Result<Name, BoardRefusal>
    ensures gives { Gives (λ name. name) result (name_of key.now stack earlier.now (table_view table.now)) }
    ensures kept { IfOk result (λ name. Kept (flipflop_name_rule stack earlier.now name)) }
{
    let key = below(alloc, key, b"name")?;
    match name(stack, earlier, member(table, "name")) {
        Ok(name) => Ok(Name::new(alloc, name.as_bytes())?),
        Err(cause) => Err(located(alloc, &key, Fault::whole(cause))),
    }
}

fn control_of(
    alloc: Global,
    key: &[u8],
    fields: &[NamedField],
    table: &Table,
) -> Result<Control, BoardRefusal>
    ensures gives { Gives (λ control. control) result (control_of key.now fields.now (table_view table.now)) }
    ensures kept { IfOk result (λ control. Kept (control_rule fields.now control)) }
{
    let key = below(alloc, key, b"control")?;
    under_whole(alloc, &key, flip_control(fields, member(table, "control")))
}

fn loads_of(
    alloc: Global,
    key: &[u8],
    width: u8,
    fields: &[NamedField],
    flipflops: &[Value],
    control: Control,
    table: &Table,
) -> Result<Items<Load>, BoardRefusal>
    ensures gives { Gives (λ loads. loads) result
        (loads_of key.now width fields.now (data_of flipflops.now) control (table_view table.now)) }
    ensures kept { IfOk result (ListKeeps (load_rule width (length flipflops.now)) fields.now control) }
{
    let key = below(alloc, key, b"load")?;
    let value = member(table, "load");
    under_list(
        alloc,
        &key,
        loads(alloc, width, fields, flipflops, control, value),
    )
}

/// A flip-flop, after the earlier ones.
#[tactic(auto, unfolding(crate::specs::FlipFlops::flipflop_of))]
fn flipflop(
    alloc: Global,
    sizes: BoardSizes,
    fields: &[NamedField],
    flipflops: &[Value],
    earlier: &[FlipFlop],
    key: &[u8],
    table: &Table,
) -> Result<FlipFlop, BoardRefusal>
    ensures gives { Gives (λ f. f) result
        (flipflop_of sizes fields.now (data_of flipflops.now) earlier.now key.now (table_view table.now)) }
    ensures kept { IfOk result (FlipFlopKeeps sizes fields.now (length flipflops.now) earlier.now) }
{
    let name = name_of(alloc, key, sizes.stack, earlier, table)?;
    let control = control_of(alloc, key, fields, table)?;
    let load = loads_of(alloc, key, sizes.width, fields, flipflops, control, table)?;
    Ok(FlipFlop {
        name,
        control,
        load,
    })
}

/// The flip-flop of a value, which has this number.
#[tactic(auto, unfolding(crate::specs::FlipFlops::flipflop_at))]
fn flipflop_at(
    alloc: Global,
    sizes: BoardSizes,
    fields: &[NamedField],
    flipflops: &[Value],
    earlier: &[FlipFlop],
    n: usize,
    value: &Value,
) -> Result<FlipFlop, BoardRefusal>
    ensures gives { Gives (λ f. f) result
        (flipflop_at sizes fields.now (data_of flipflops.now) earlier.now n (view value.now)) }
    ensures kept { IfOk result (FlipFlopKeeps sizes fields.now (length flipflops.now) earlier.now) }
{
    let key = numbered(alloc, b"flipflop", n)?;
    match value.as_table() {
        Some(table) => flipflop(alloc, sizes, fields, flipflops, earlier, &key, table),
        None => Err(located(alloc, &key, Fault::whole(Cause::WrongKind))),
    }
}

/// The flip-flops of these values.
pub(crate) fn flipflops(
    alloc: Global,
    sizes: BoardSizes,
    fields: &[NamedField],
    flipflops: &[Value],
) -> Result<Items<FlipFlop>, BoardRefusal>
    ensures gives { Gives (λ fs. fs) result
        (each_flipflop sizes fields.now (data_of flipflops.now) [] 0 (data_of flipflops.now)) }
    ensures count { IfOk result (λ fs. length fs ≡ length flipflops.now) }
    ensures kept { IfOk result (FlipFlopsKeep sizes fields.now (length flipflops.now)) }
{
    let mut done = Vec::new(alloc);
    for (n, value) in flipflops.iter().enumerate() {
        let flipflop = flipflop_at(alloc, sizes, fields, flipflops, &done, n, value)?;
        done.push(flipflop)?;
    }
    Ok(Items::from_vec(done))
}
