// The parent that the rule gives a node by given distances.
ghost use Rattle.std.specs.Prelude.{◌≡◌};
ghost use Rattle.measure.specs.Measure.{ceiling};
ghost use Rattle.table.specs.Lent.{links_in};
ghost use Rattle.table.specs.Nodes.{node_at};
ghost use Rattle.round.specs.Parent.{parent_by};

use crate::node::pass_links;
use table::{Links, Table};

// The parent of `node` in a park with this root and these links, by distances in cost units, node 1's first; 0 for none.
pub fn parent_by(node: usize, root: u16, links: &Links<'_>, dists: &[u32]) -> u16
    ensures { result ≡ parent_by root (links_in links.now) (node_at ceiling dists.now) node }
{
    if usize::from(root) == node {
        return 0;
    }
    // The parent does not depend on parents and marks, so none need be known.
    let table = Table {
        dists,
        parents: &[],
        marks: &[],
    };
    pass_links(node, links, &table).arc.from
}
