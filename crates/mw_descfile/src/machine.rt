// The machine of a text.
ghost use Rattle.std.specs.Prelude.{◌≡◌, ◌<◌, ◌^◌, length, All, IfOk};
ghost use Rattle.mw_base.specs.Reading.{Gives};
ghost use Rattle.mw_base.specs.Steps.{steps};
ghost use Rattle.mw_macro.specs.Described.{description_of};
ghost use Rattle.mw_macro.specs.Machine.{described};
ghost use Rattle.mw_descfile.specs.Machine.{nothing, with_declaration, with_tokens, with_any, with_line, description};
ghost use Rattle.mw_descfile.specs.Machine.{finished, machine_of};
ghost use Rattle.mw_descfile.specs.Views.{declared_seen, stated_seen, known_seen};
ghost use Rattle.mw_descfile.specs.Kept.{IsDeclared, IsKnownMachine, AreSpelled};

use crate::declaration::{Declaration, declaration_of, sizes_of};
use crate::declared::Declared;
use crate::stated::Stated;
use mw_base::{Cause, Cursor, Line, Refusal, Refused, TextFault, lines, text_end};
use mw_macro::Machine;
use std::alloc::Global;

/// What is known after some lines.
#[derive(Drop)]
pub(crate) enum Known<'a> {
    /// Nothing: all were blank.
    Nothing,
    /// What was declared.
    Declaring(Declared<'a>),
    /// What was stated, after `step`.
    Stating(Stated<'a>),
}

/// What is known after a line that declares something: cause 14, 31 or 33 at its name, or 33 at its width.
fn with_declaration<'a>(
    alloc: Global,
    text: &'a [u8],
    mut declared: Declared<'a>,
    declaration: Declaration,
) -> Result<Known<'a>, Refusal>
    requires kept { IsDeclared (declared_seen declared) }
    ensures { Gives known_seen result (with_declaration text.now (declared_seen declared.entry) declaration) }
{
    match declaration {
        Declaration::Element(kind, name, width) => {
            declared.declare(alloc, text, kind, name, width)?;
            Ok(Known::Declaring(declared))
        }
        Declaration::Step => Ok(Known::Stating(Stated::begin(alloc, declared)?)),
    }
}

/// What is known after a line that isn't blank: cause 60, then its other causes by place.
#[tactic(auto, unfolding(crate::specs::Machine::with_tokens))]
fn with_tokens<'a>(
    alloc: Global,
    text: &'a [u8],
    known: Known<'a>,
    line: &Line,
) -> Result<Known<'a>, Refusal>
    requires kept { IsKnownMachine (known_seen known) }
    ensures { Gives known_seen result (with_tokens text.now (known_seen known.entry) line.now) }
{
    let cursor = Cursor::new(text, line, Cause::BadSyntax);
    match known {
        Known::Nothing => {
            let sizes = sizes_of(&cursor).map_err(Refused::At)?;
            Ok(Known::Declaring(Declared::new(alloc, sizes)?))
        }
        Known::Declaring(declared) => {
            let declaration = declaration_of(&cursor).map_err(Refused::At)?;
            with_declaration(alloc, text, declared, declaration)
        }
        Known::Stating(mut stated) => {
            stated.add_line(alloc, text, line)?;
            Ok(Known::Stating(stated))
        }
    }
}

/// What is known after a line; a blank one says nothing.
fn with_line<'a>(
    alloc: Global,
    text: &'a [u8],
    known: Known<'a>,
    line: &Line,
) -> Result<Known<'a>, Refusal>
    requires kept { IsKnownMachine (known_seen known) }
    ensures { Gives known_seen result (with_line text.now (known_seen known.entry) line.now) }
{
    match line.tokens.as_slice() {
        [] => Ok(known),
        [_, ..] => with_tokens(alloc, text, known, line),
    }
}

/// What is known after all lines of a text.
fn known_of<'a>(alloc: Global, text: &'a [u8], lines: &[Line]) -> Result<Known<'a>, Refusal>
    requires spelled { All (λ line. AreSpelled text.now line.tokens) lines.now }
    ensures exact { Gives known_seen result (steps (with_line text.now) nothing lines.now) }
    ensures kept { IfOk result (λ known. IsKnownMachine (known_seen known)) }
{
    let mut known = Known::Nothing;
    for line in lines {
        known = with_line(alloc, text, known, line)?;
    }
    Ok(known)
}

/// The machine of what is known at the end of a text, where that is this fault if something is missing.
fn finished(known: Known, fault: TextFault) -> Result<Machine, Refusal>
    requires kept { IsKnownMachine (known_seen known) }
    ensures { Gives description_of result (finished (known_seen known.entry) fault) }
{
    match known {
        Known::Nothing | Known::Declaring(_) => Err(Refused::At(fault)),
        Known::Stating(stated) => stated.machine(fault),
    }
}

/// The machine that a text describes.
///
/// The text has fewer than 2^32 bytes. The time is linear in its length.
///
/// # Errors
///
/// The first fault of the text. Causes 1 to 4 of its bytes come first, by position, each at the byte, the number or
/// column 4,097. Then come the lines, one after another; of a line cause 60 comes first, at the first token that can't
/// follow those before it, or at the line's end. Then come its other causes, by place, at one place the least:
///
/// - 14 at the name of the 129th register or temporary, at the first token of the statement after 4,096, and at the
///   `mem` of the read after 256;
/// - 31 at a name that is declared a second time or reserved;
/// - 33 at a declared name over 64 bytes, and at a number out of its range: address 1 to 16, word 4 to 32, width 1 to
///   32;
/// - 40 at a target that isn't declared, and at an unknown name in an expression;
/// - 41 at `mem` for the address of a write, at the `:=` for an assigned or written value, at `put`, `take` or `if` for
///   theirs, and in an expression at the operator;
/// - 42 at an `if` in 64 others, and at the first token of an expression at level 65;
/// - 3 at a value that doesn't fit the width after its `#`.
///
/// Last comes cause 60 just past the text's last line, where `step` or an `end` is missing. Want of memory.
#[tactic(auto, unfolding(crate::specs::Machine::machine_of))]
pub fn read_machine(alloc: Global, text: &[u8]) -> Result<Machine, Refusal>
    requires { length text.now < 2 ^ 32 }
    ensures { Gives description_of result (machine_of text.now) }
{
    let lines = lines(alloc, text)?;
    let known = known_of(alloc, text, &lines)?;
    finished(known, text_end(&lines, Cause::BadSyntax))
}
