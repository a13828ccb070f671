// One node's turn: one search of the links for what its neighbours offer and ask, and from that the node's new cell.
// The search reads a link's ends first, and goes on only where the node is one of them.
ghost use Rattle.std.specs.Prelude.{◌≡◌, ◌||◌, cond, length};
ghost use Rattle.measure.specs.Measure.{ceiling};
ghost use Rattle.group.specs.Group.{member_in};
ghost use Rattle.table.specs.Lent.{links_in};
ghost use Rattle.table.specs.Nodes.{node_at};
ghost use Rattle.round.specs.Keep.{unheard};
ghost use Rattle.round.specs.Scan.{passed_all, cell_of};
ghost use Rattle.round.specs.Table.{cell_after};

use crate::hear::hear_arc;
use crate::keep::{Arc, Best};
use group::is_member;
use links::other_end;
use measure::Cost;
use table::{Links, Net, Table, shortest};

// What is stored for a node.
#[derive(Clone, Copy)]
pub struct Stored {
    // The distance from the root, in cost units.
    pub dist: Cost,
    // The parent's node number; 0 for none.
    pub parent: u16,
    // The mark; zero is clear, all else set.
    pub mark: u8,
}

// What `node` knows after all links. An arc from 0, which is no node, says nothing.
pub(crate) fn pass_links(node: usize, links: &Links<'_>, table: &Table<'_>) -> Best
    ensures { result ≡ passed_all (node_at ceiling table.now.dists.now) (node_at 0 table.now.parents.now)
        (node_at 0 table.now.marks.now) node unheard (links_in links.now) }
{
    let mut best = Best {
        dist: Cost::CEILING,
        arc: Arc {
            from: 0,
            cost: Cost(0),
        },
        asked: false,
    };
    for at in 0..shortest(links.lows.len(), links.highs.len(), links.costs.len()) {
        if let Some(from) = other_end(links.lows[at], links.highs[at], node) {
            let cost = Cost(u32::from(links.costs[at]));
            best = hear_arc(best, node, Arc { from, cost }, table);
        }
    }
    best
}

// The new mark of `node`, by the group's words and by whether a neighbour asks.
fn new_mark(words: &[u64], node: usize, asked: bool) -> u8
    ensures { result ≡ cond (member_in 64 words.now node || asked) 1 0 }
{
    u8::from(is_member(words, node) || asked)
}

// What `node` holds after the round.
pub(crate) fn new_cell(node: usize, net: &Net<'_>, table: &Table<'_>) -> Stored
    requires { (length table.now.parents.now ≡ length table.now.dists.now)
        × (length table.now.marks.now ≡ length table.now.dists.now) }
    ensures { cell_of result ≡ cell_after net.now table.now.dists.now table.now.parents.now
        table.now.marks.now node }
{
    let best = pass_links(node, &net.links, table);
    let mark = new_mark(net.words, node, best.asked);
    if usize::from(net.root) == node {
        return Stored {
            dist: Cost(0),
            parent: 0,
            mark,
        };
    }
    Stored {
        dist: best.dist,
        parent: best.arc.from,
        mark,
    }
}
