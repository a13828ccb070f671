// What a node makes of one arc: what its neighbour offers and asks, against the best that it has heard so far. Distances and
// costs are in cost units.
ghost use Rattle.std.specs.Prelude.{◌≡◌};
ghost use Rattle.measure.specs.Measure.{ceiling};
ghost use Rattle.table.specs.Nodes.{node_at};
ghost use Rattle.round.specs.Keep.{arc_of};
ghost use Rattle.round.specs.Hear.{asks, with_asked, hear};

use crate::keep::{Arc, Best, keep};
use table::{Table, dist_at, mark_at, parent_at};

// Whether the neighbour `from` asks `node` to forward: its parent is this node and its mark is set.
fn asks_for(table: &Table<'_>, from: usize, node: usize) -> bool
    ensures { result ≡ asks (node_at 0 table.now.parents.now) (node_at 0 table.now.marks.now) from node }
{
    usize::from(parent_at(table.parents, from)) == node && mark_at(table.marks, from) != 0
}

// The same knowledge, asked from now on where `asked` says so.
fn with_asked(best: Best, asked: bool) -> Best
    ensures { result ≡ with_asked best asked }
{
    Best {
        asked: best.asked || asked,
        ..best
    }
}

// What `node` knows after one arc more.
pub(crate) fn hear_arc(best: Best, node: usize, arc: Arc, table: &Table<'_>) -> Best
    ensures { result ≡ hear (node_at ceiling table.now.dists.now) (node_at 0 table.now.parents.now)
        (node_at 0 table.now.marks.now) node best (arc_of arc) }
{
    let from = usize::from(arc.from);
    let offer = dist_at(table.dists, from).plus(arc.cost);
    let told = with_asked(best, asks_for(table, from, node));
    keep(told, offer, arc)
}
