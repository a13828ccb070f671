// Rounds of all nodes together, over lent slices of plain numbers: the links as lower ends, higher ends and costs, the group as 64-bit
// words, and a table as distances, parents and marks, node 1 at index 0. The old table is only read and the new one only written, so that
// every node acts on the values from before the round. Nothing lent is refused: a link without one of its parts is none, and a number
// that is no node holds nothing.
#![tactic(auto)]

mod hear;
pub mod keep;
mod node;
pub mod parent;
pub mod rounds;
mod tables;

ghost use Rattle.std.specs.Prelude.{◌≡◌, ◌+◌, ◌<◌, length, set};
ghost use Rattle.rule.specs.Round.{Cell};
ghost use Rattle.table.specs.Fit.{Together, Holds};
ghost use Rattle.round.specs.Table.{cell_after, round_of};

use node::new_cell;
use table::{Net, Table};

// Writes what the node at place `at` of the old table holds after the round. Only old values are read.
fn write_cell(
    at: usize,
    net: &Net<'_>,
    table: &Table<'_>,
    new_dists: &mut [u32],
    new_parents: &mut [u16],
    new_marks: &mut [u8],
)
    requires at_in_bounds { at < length table.now.dists.now }
    requires together { Together table.now.dists.now table.now.parents.now table.now.marks.now
        new_dists.old new_parents.old new_marks.old }
    ensures written { let cell : Cell = cell_after net.now
        table.now.dists.now table.now.parents.now table.now.marks.now (at + 1) in
        (new_dists.new ≡ set new_dists.old at cell.dist)
        × (new_parents.new ≡ set new_parents.old at cell.parent)
        × (new_marks.new ≡ set new_marks.old at cell.mark) }
{
    let cell = new_cell(at + 1, net, table);
    new_dists[at] = cell.dist.0;
    new_parents[at] = cell.parent;
    new_marks[at] = cell.mark;
}

// One round of all nodes together, from the stored table into the three new slices. Distances and costs are in cost units, parents are
// node numbers; the park has as many nodes as there are distances. Inlined for the reason told at `is_quiet`.
#[inline(always)]
pub(crate) fn one_round(
    net: &Net<'_>,
    table: &Table<'_>,
    new_dists: &mut [u32],
    new_parents: &mut [u16],
    new_marks: &mut [u8],
)
    requires { Together table.now.dists.now table.now.parents.now table.now.marks.now
        new_dists.old new_parents.old new_marks.old }
    ensures holds { Holds
        (round_of net.now table.now.dists.now table.now.parents.now table.now.marks.now)
        new_dists.new new_parents.new new_marks.new }
{
    for at in 0..table.dists.len() {
        write_cell(at, net, table, new_dists, new_parents, new_marks);
    }
}
