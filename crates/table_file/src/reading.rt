//! The reading of a table.
ghost use Rattle.table_file.specs.Accepted.{table_of};
ghost use Rattle.table_file.specs.Faults.{Gives};
ghost use Rattle.table_file.specs.Shown.{setting_of};

use crate::accepting::accept;
use crate::faults::TableFault;
use crate::tables::Table;
use std::alloc::Global;
use table_keys::read_document;

/// Reads a table, as `table_of` of `specs/Accepted.antt` says, want of memory aside: the fault is that of the first check
/// that fails, at its least place.
///
/// The text `m = 7`, `p = 2`, `factor = [1, 1, 0, 1]`, `dual = [[1, 0, 0], [0, 0, 1], [0, 1, 0]]`,
/// `generators = [[6, 2]]` is a plain table of two slots; with `m = 8` it is refused by `NotOrder`.
#[tactic(auto, unfolding(crate::specs::Accepted::table_of))]
pub fn read_table(alloc: Global, bytes: &[u8]) -> Result<Table, TableFault>
    ensures { Gives setting_of result (table_of bytes.now) }
{
    let document = read_document(alloc, bytes)?;
    accept(alloc, &document)
}
