// The control addresses of labels, by name.
ghost use Rattle.std.specs.Prelude.{◌≡◌, IfOk, OnOk};
ghost use Rattle.mw_asm.specs.Labels.{label_named};
ghost use Rattle.mw_base.specs.Named.{names_seen};
ghost use Rattle.mw_debug.specs.Labels.{with_label};

use mw_asm::Label;
use mw_base::{Names, NoMemory};
use std::alloc::Global;

/// Adds a label, unless there is one of its name.
fn add_label<'a>(names: &mut Names<'a, u16>, label: &'a Label) -> Result<(), NoMemory>
    ensures { OnOk result (names_seen names.new ≡ with_label (names_seen names.old) label.now) }
{
    let name = label.name.as_slice();
    match names.get(name) {
        Some(_) => Ok(()),
        None => names.insert(name, label.address),
    }
}

/// The addresses of labels by name: of those of one name, the first one's.
pub(crate) fn names_of<'a>(alloc: Global, labels: &'a [Label]) -> Result<Names<'a, u16>, NoMemory>
    ensures { IfOk result (λ names. names_seen names ≡ label_named labels.now) }
{
    let mut names = Names::new(alloc);
    for label in labels {
        add_label(&mut names, label)?;
    }
    Ok(names)
}
