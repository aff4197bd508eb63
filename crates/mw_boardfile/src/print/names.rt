// The names of fields and of flip-flops as texts.
ghost use Rattle.std.specs.Prelude.{◌≡◌, slice_get, true};
ghost use Rattle.mw_base.specs.Names.{is_name};
ghost use Rattle.mw_boardfile.specs.Printed.{field_name, flipflop_name};
ghost use Rattle.mw_boardfile.specs.Views.{FieldsAreNamed, FlipFlopsAreNamed};

use mw_board::{FlipFlop, NamedField};

/// A name as a text.
#[tactic(auto, using(crate::proofs::Spelled::name_text))]
pub(crate) fn name_text(name: &[u8]) -> &str
    requires { is_name name.now ≡ true }
    ensures { result.now ≡ name.now }
{
    match str::from_utf8(name) {
        Ok(text) => text,
        Err(_) => unreachable!(),
    }
}

/// The name of the field with this number; none where there is no such field.
pub(crate) fn field_name(fields: &[NamedField], n: u8) -> &str
    requires { FieldsAreNamed fields.now }
    ensures { result.now ≡ field_name (slice_get fields.now n) }
{
    match fields.get(usize::from(n)) {
        Some(field) => name_text(field.name.as_slice()),
        None => "",
    }
}

/// The name of the flip-flop with this number; none where there is no such flip-flop.
pub(crate) fn flipflop_name(flipflops: &[FlipFlop], n: u8) -> &str
    requires { FlipFlopsAreNamed flipflops.now }
    ensures { result.now ≡ flipflop_name (slice_get flipflops.now n) }
{
    match flipflops.get(usize::from(n)) {
        Some(flipflop) => name_text(flipflop.name.as_slice()),
        None => "",
    }
}
