// select.LIST.
ghost use Rattle.std.specs.Prelude.{◌≡◌, ◌∷◌, [], codes, length, None, IfOk, OnOk, Result};
ghost use Rattle.toml.specs.Data.{Data};
ghost use Rattle.toml.specs.View.{view, table_view};
ghost use Rattle.mw_base.specs.declared.cause.Cause.{Cause};
ghost use Rattle.mw_base.specs.Reading.{Gives};
ghost use Rattle.mw_boardfile.specs.Board.{zero_alone, zero_list, given_list, list_or_zero, bits_of, sources_of};
ghost use Rattle.mw_boardfile.specs.Board.{lists_of};
ghost use Rattle.mw_boardfile.specs.Entries.{bit_in, carry_in_in, d_source_in};
ghost use Rattle.mw_board.specs.Rules.{Verdict, bit_rule, carry_in_rule, d_source_rule};
ghost use Rattle.mw_boardfile.specs.Kept.{Kept, Keeps, AreChosen, ListKeeps, ListsKeep};
ghost use Rattle.mw_boardfile.specs.Views.{given, members, data_of, Reads};

use crate::entries::{bit, carry_in, d_source};
use crate::fault::{BoardRefusal, Fault};
use crate::lists::{chosen_list, whole};
use crate::paths::{below, under_list, under_whole};
use crate::values::{list, member, member_of, table_or_none};
use mw_base::{Cause, Items, NoMemory, Refused};
use mw_board::{Bit, Control, DFrom, DSource, NamedField, Points, chosen_rule, list_rule};
use std::alloc::Global;
use toml::{Table, Value};

/// The rules of a list that isn't there, and so has one entry.
#[tactic(auto, unfolding(crate::specs::Board::zero_alone))]
fn zero_alone(fields: &[NamedField], control: Control) -> Result<(), Fault>
    ensures exact { result ≡ zero_alone fields.now control }
    ensures kept { OnOk result (AreChosen fields.now control 1) }
{
    whole(chosen_rule(control, 1))?;
    whole(list_rule(fields, control, 1))?;
    Ok(())
}

/// A list of one entry.
fn alone<T: Drop>(alloc: Global, entry: T) -> Result<Items<T>, NoMemory>
    ensures { IfOk result (λ items. items ≡ entry ∷ []) }
{
    let mut entries = Vec::new(alloc);
    entries.push(entry)?;
    Ok(Items::from_vec(entries))
}

/// A list that isn't there, and so has one entry.
#[tactic(auto, unfolding(crate::specs::Board::zero_list))]
fn zero_list<T: Drop>(
    alloc: Global,
    fields: &[NamedField],
    control: Control,
    zero: T,
) -> Result<Items<T>, Refused<Fault>>
    ensures exact { Gives (λ items. items) result (zero_list zero fields.now control) }
    ensures kept { (rule : T → Verdict) → Kept (rule zero)
        → IfOk result (λ items. ListKeeps rule fields.now control items) }
{
    match zero_alone(fields, control) {
        Ok(()) => Ok(alone(alloc, zero)?),
        Err(fault) => Err(Refused::At(fault)),
    }
}

/// A list that is there.
fn given_list<T: Drop, F: Fn(&Value) -> Result<T, Cause>>(
    alloc: Global,
    fields: &[NamedField],
    control: Control,
    value: &Value,
    read: &F,
) -> Result<Items<T>, Refused<Fault>>
    requires { F.IsAlwaysCallable read.now }
    // What is so of every reader that the closure follows.
    ensures exact { (reader : Data → Result T Cause) → Reads (F.post read.now) reader
        → Gives (λ items. items) result (given_list reader fields.now control (view value.now)) }
    // What is so of every rule that the closure keeps.
    ensures kept { (rule : T → Verdict) → Keeps (F.post read.now) rule
        → IfOk result (λ items. ListKeeps rule fields.now control items) }
{
    match list(value) {
        Ok(values) => chosen_list(alloc, values, fields, control, read),
        Err(cause) => Err(Refused::At(Fault::whole(cause))),
    }
}

/// A list of the board, which has the one entry zero where it isn't there.
fn list_or_zero<T: Drop, F: Fn(&Value) -> Result<T, Cause>>(
    alloc: Global,
    fields: &[NamedField],
    control: Control,
    value: Option<&Value>,
    zero: T,
    read: &F,
) -> Result<Items<T>, Refused<Fault>>
    requires { F.IsAlwaysCallable read.now }
    // What is so of every reader that the closure follows.
    ensures exact { (reader : Data → Result T Cause) → Reads (F.post read.now) reader
        → Gives (λ items. items) result (list_or_zero reader zero fields.now control (given value.entry)) }
    // What is so of every rule that the closure keeps.
    ensures kept { (rule : T → Verdict) → Keeps (F.post read.now) rule → Kept (rule zero)
        → IfOk result (λ items. ListKeeps rule fields.now control items) }
{
    match value {
        Some(value) => given_list(alloc, fields, control, value, read),
        None => zero_list(alloc, fields, control, zero),
    }
}

/// select.carry_in.
fn carry_ins(
    alloc: Global,
    width: u8,
    fields: &[NamedField],
    flipflops: &[Value],
    control: Control,
    select: Option<&Table>,
) -> Result<Items<Bit>, BoardRefusal>
    ensures gives { Gives (λ bits. bits) result
        (bits_of (carry_in_in width (data_of flipflops.now)) fields.now control (members select.entry)
        (codes "carry_in")) }
    ensures kept { IfOk result (ListKeeps (carry_in_rule width (length flipflops.now)) fields.now control) }
{
    let value = member_of(select, "carry_in");
    let bits = list_or_zero(
        alloc,
        fields,
        control,
        value,
        Bit::Zero,
        &|value| { carry_in(width, flipflops, value) },
    );
    under_list(alloc, b"select.carry_in", bits)
}

/// select.LIST, of a condition or a link.
fn bits(
    alloc: Global,
    width: u8,
    fields: &[NamedField],
    flipflops: &[Value],
    control: Control,
    select: Option<&Table>,
    name: &str,
) -> Result<Items<Bit>, BoardRefusal>
    ensures gives { Gives (λ bits. bits) result
        (bits_of (bit_in width (data_of flipflops.now)) fields.now control (members select.entry) name.now) }
    ensures kept { IfOk result (ListKeeps (bit_rule width (length flipflops.now)) fields.now control) }
{
    let value = member_of(select, name);
    let key = below(alloc, b"select", name.as_bytes())?;
    let bits = list_or_zero(
        alloc,
        fields,
        control,
        value,
        Bit::Zero,
        &|value| { bit(width, flipflops, value) },
    );
    under_list(alloc, &key, bits)
}

/// select.d.
fn sources(
    alloc: Global,
    width: u8,
    fields: &[NamedField],
    flipflops: &[Value],
    control: Control,
    select: Option<&Table>,
) -> Result<Items<DSource>, BoardRefusal>
    ensures gives { Gives (λ sources. sources) result
        (sources_of (d_source_in width fields.now (data_of flipflops.now)) fields.now control (members select.entry)) }
    ensures kept { IfOk result
        (ListKeeps (d_source_rule width (length fields.now) (length flipflops.now)) fields.now control) }
{
    let value = member_of(select, "d");
    let sources = list_or_zero(
        alloc,
        fields,
        control,
        value,
        DSource::ZERO,
        &|value| { d_source(width, fields, flipflops, value) },
    );
    under_list(alloc, b"select.d", sources)
}

/// The lists from which control points choose.
#[derive(Drop)]
pub(crate) struct BoardLists {
    /// What the carry in can be.
    pub(crate) carry_in: Items<Bit>,
    /// What the test can read.
    pub(crate) condition: Items<Bit>,
    /// What can be at the ends of the registers' shift.
    pub(crate) ram_link: Items<Bit>,
    /// What can be at the ends of Q's shift.
    pub(crate) q_link: Items<Bit>,
    /// What D can be.
    pub(crate) d: Items<DSource>,
}

/// select: each list.
#[tactic(auto, unfolding(crate::specs::Board::lists_of))]
pub(crate) fn lists(
    alloc: Global,
    width: u8,
    fields: &[NamedField],
    flipflops: &[Value],
    control: Points,
    document: &Table,
) -> Result<BoardLists, BoardRefusal>
    ensures gives { Gives (λ lists. lists) result
        (lists_of width fields.now (data_of flipflops.now) control (table_view document.now)) }
    ensures kept { IfOk result (ListsKeep width fields.now (length flipflops.now) control) }
{
    let select = under_whole(alloc, b"select", table_or_none(member(document, "select")))?;
    let carry_in = carry_ins(alloc, width, fields, flipflops, control.carry_in, select)?;
    let condition = bits(
        alloc,
        width,
        fields,
        flipflops,
        control.condition,
        select,
        "condition",
    )?;
    let ram_link = bits(
        alloc,
        width,
        fields,
        flipflops,
        control.link,
        select,
        "ram_link",
    )?;
    let q_link = bits(
        alloc,
        width,
        fields,
        flipflops,
        control.link,
        select,
        "q_link",
    )?;
    let d = sources(alloc, width, fields, flipflops, control.d, select)?;
    Ok(BoardLists {
        carry_in,
        condition,
        ram_link,
        q_link,
        d,
    })
}
