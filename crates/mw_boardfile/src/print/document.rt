// The document of a board.
ghost use Rattle.std.specs.Prelude.{◌≡◌, IfOk, OnOk};
ghost use Rattle.toml.specs.View.{table_view};
ghost use Rattle.mw_boardfile.specs.Printed.{tables_printed, document_printed};
ghost use Rattle.mw_boardfile.specs.Tables.{put_all, table_of};
ghost use Rattle.mw_boardfile.specs.Views.{FieldsAreNamed, FlipFlopsAreNamed};

use crate::print::fields::fields;
use crate::print::flipflops::flipflops;
use crate::print::map::map;
use crate::print::points::points;
use crate::print::select::lists;
use crate::print::sizes::put_sizes;
use crate::print::values::{list_unless_empty, put_given, table_unless_empty};
use mw_base::NoMemory;
use mw_board::{BoardParts, Point};
use std::alloc::Global;
use toml::Table;

/// A document takes the tables from fields to map.
fn put_tables(alloc: Global, document: &mut Table, parts: &BoardParts) -> Result<(), NoMemory>
    requires fields { FieldsAreNamed parts.now.fields }
    requires flipflops { FlipFlopsAreNamed parts.now.flipflop }
    ensures { OnOk result (table_view document.new ≡ put_all (tables_printed parts.now) (table_view document.old)) }
{
    let named = parts.fields.as_slice();
    let map = map(alloc, parts)?;
    put_given(alloc, document, "map", table_unless_empty(map))?;
    let select = lists(alloc, parts)?;
    put_given(alloc, document, "select", table_unless_empty(select))?;
    let control = points(alloc, named, &parts.control, &Point::ALL)?;
    put_given(alloc, document, "control", table_unless_empty(control))?;
    let flipflop = flipflops(alloc, named, parts.flipflop.as_slice())?;
    put_given(alloc, document, "flipflop", list_unless_empty(flipflop))?;
    let fields = fields(alloc, named)?;
    put_given(alloc, document, "fields", table_unless_empty(fields))
}

/// The keys of a file, from the last one on.
#[tactic(auto, unfolding(crate::specs::Printed::document_printed))]
fn put_keys(alloc: Global, document: &mut Table, parts: &BoardParts) -> Result<(), NoMemory>
    requires fields { FieldsAreNamed parts.now.fields }
    requires flipflops { FlipFlopsAreNamed parts.now.flipflop }
    ensures { OnOk result (table_view document.new ≡ put_all (document_printed parts.now) (table_view document.old)) }
{
    put_tables(alloc, document, parts)?;
    put_sizes(alloc, document, parts)
}

/// The document of a board file of version 2.
#[tactic(auto, unfolding(crate::specs::Printed::document_printed, crate::specs::Tables::table_of))]
pub(crate) fn document(alloc: Global, parts: &BoardParts) -> Result<Table, NoMemory>
    requires fields { FieldsAreNamed parts.now.fields }
    requires flipflops { FlipFlopsAreNamed parts.now.flipflop }
    ensures { IfOk result (λ document. table_view document ≡ table_of (document_printed parts.now)) }
{
    let mut document = Table::new(alloc);
    match put_keys(alloc, &mut document, parts) {
        Ok(()) => Ok(document),
        Err(NoMemory) => {
            drop(document);
            Err(NoMemory)
        }
    }
}
