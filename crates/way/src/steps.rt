// The way of a node: where following stored parents leads, over lent slices of plain numbers. Links are two slices, the lower
// ends and the higher ends, and parents one, node 1's first. Nothing is refused: every number has a way, also one that is no node.
ghost use Rattle.std.specs.Prelude.{◌≡◌, ℕ, ◌+◌, ◌≤◌, List};
ghost use Rattle.table.specs.Nodes.{node_at};
ghost use Rattle.rule.specs.Round.{Link};
ghost use Rattle.links.specs.Neighbours.{ends_of};
ghost use Rattle.way.specs.Way.{nodes_over, followed, way_of};

use answers::{Outcome, WayOfNode};
use links::is_neighbour;
use measure::Hops;
use table::parent_at;

// A park whose parents are followed: the root, the ends of the links and the stored parents, all by node numbers.
#[derive(Clone, Copy)]
pub(crate) struct Tree<'a> {
    pub(crate) root: u16,
    pub(crate) lows: &'a [u16],
    pub(crate) highs: &'a [u16],
    pub(crate) parents: &'a [u16],
}

impl Tree<'_> {
    // The stored parent of `node`, both by number; 0 for a number that is no node.
    fn parent(&self, node: u16) -> u16
        ensures { result ≡ node_at 0 self.now.parents.now node }
    {
        parent_at(self.parents, usize::from(node))
    }

    // As many hops as there are nodes, or as have a number.
    fn most(&self) -> Hops
        ensures { result.0 ≡ nodes_over self.now.parents.now }
    {
        let nodes = u16::try_from(self.parents.len()).unwrap_or(u16::MAX);
        Hops(u32::from(nodes))
    }

    // Where the way goes on from `node`, with the hops still allowed and the hops done, which together never pass 65,535.
    fn follow(&self, left: Hops, done: Hops, node: u16) -> Outcome
        requires { left.0 + done.0 ≤ 65535 }
        ensures { let ends : List Link = ends_of self.now.lows.now self.now.highs.now in
            result ≡ followed self.now.root ends (node_at 0 self.now.parents.now) left.0 done.0 node }
    {
        if node == self.root {
            return Outcome::Reached(done);
        }
        if left.0 == 0 {
            return Outcome::Looping;
        }
        let next = self.parent(node);
        if is_neighbour(self.lows, self.highs, node, next) {
            return self.follow(Hops(left.0 - 1), Hops(done.0 + 1), next);
        }
        Outcome::Broken(node)
    }

    // The way of `node`: the hops to the root, the node where the way breaks, or that it loops.
    pub(crate) fn way_of(&self, node: u16) -> WayOfNode
        ensures led { let ends : List Link = ends_of self.now.lows.now self.now.highs.now in
            let ps : List ℕ = self.now.parents.now in
            result ≡ way_of self.now.root ends (node_at 0 ps) (nodes_over ps) node }
    {
        let outcome = self.follow(self.most(), Hops(0), node);
        WayOfNode { node, outcome }
    }
}
