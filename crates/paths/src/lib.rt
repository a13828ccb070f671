// The exact table of a park, over lent slices of plain numbers, and not by rounds: distances nearest first, then each node's
// parent, then marks along the ways of the members. No state is kept and nothing is allocated.
#![tactic(auto)]

mod marks;
mod nearest;
pub mod offers;

ghost use Rattle.std.specs.Prelude.{◌≡◌, length};
ghost use Rattle.table.specs.Lent.{links_in};
ghost use Rattle.paths.specs.Found.{parents_by, FoundOver};

use crate::marks::find_marks;
use crate::offers::exact_dists;
use round::parent::parent_by;
use table::{Links, Net};

// Finds the parent of every node, by the distances in cost units.
fn find_parents(root: u16, links: &Links<'_>, dists: &[u32], parents: &mut [u16])
    ensures { parents.new ≡ parents_by root (links_in links.now) dists.now (length parents.old) }
{
    for (at, parent) in parents.iter_mut().enumerate() {
        *parent = parent_by(at + 1, root, links, dists);
    }
}

// Writes the table that is found without rounds for the park that the slices hold: distances in cost units, parents, marks. For
// a park of document 01, and slices as long as it has nodes, it is the exact table. Parents are node numbers.
pub fn exact_table(net: &Net<'_>, dists: &mut [u32], parents: &mut [u16], marks: &mut [u8])
    ensures { FoundOver net.now dists.old parents.old marks.old dists.new parents.new marks.new }
{
    exact_dists(net.root, &net.links, dists);
    find_parents(net.root, &net.links, dists, parents);
    find_marks(net.words, parents, marks);
}
