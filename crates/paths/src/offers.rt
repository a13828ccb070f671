// Exact distances: the nearest node that is not settled is settled, and offers its distance over its links, once for each node.
// Distances and costs are in cost units.
ghost use Rattle.std.specs.Prelude.{◌≡◌, List, ℕ, ◌≤◌, min, length, replicate};
ghost use Rattle.std.proofs.lemmas.List.Edits.{sets};
ghost use Rattle.measure.specs.Measure.{ceiling, most_nodes, plus};
ghost use Rattle.table.specs.Nodes.{node_at};
ghost use Rattle.table.specs.Lent.{links_in};
ghost use Rattle.paths.specs.Nearest.{Work};
ghost use Rattle.paths.specs.Offers.{lowered, offered_all, settle_nearest, settle_nodes, dists_from};

use crate::nearest::nearest_node;
use links::other_end;
use measure::{Cost, NODES};
use table::{Links, dist_at, shorter, shortest};

// Offers the distance `dist` over a link of `cost` to node number `node`, which takes it where it is less. A number that is no
// node takes none.
fn offer_to(dists: &mut [u32], node: u16, dist: Cost, cost: u16)
    ensures { dists.new ≡ lowered dists.old node (plus dist.0 cost) }
{
    if node == 0 {
        return;
    }
    let at = usize::from(node) - 1;
    if at < dists.len() {
        let offer = dist.plus(Cost(u32::from(cost)));
        dists[at] = dists[at].min(offer.0);
    }
}

// Offers the distance of `node` over all of its links.
fn offer_all(node: usize, links: &Links<'_>, dists: &mut [u32])
    ensures offered { let old : List ℕ = dists.old in
        dists.new ≡ offered_all node (node_at ceiling old node) old (links_in links.now) }
{
    let dist = dist_at(dists, node);
    for at in 0..shortest(links.lows.len(), links.highs.len(), links.costs.len()) {
        if let Some(end) = other_end(links.lows[at], links.highs[at], node) {
            offer_to(dists, end, dist, links.costs[at]);
        }
    }
}

// Settles the nearest node that is not settled, if there is one.
fn settle_nearest(links: &Links<'_>, dists: &mut [u32], done: &mut [bool])
    requires { length done.old ≡ length dists.old }
    ensures nearer { let old : Work = record { dists = dists.old; done = done.old } in
        settle_nearest (links_in links.now) old ≡ record { dists = dists.new; done = done.new } }
{
    if let Some(node) = nearest_node(dists, done) {
        offer_all(node, links, dists);
        done[node - 1] = true;
    }
}

// Settles the nodes, one a turn, nearest first.
fn settle_nodes(links: &Links<'_>, dists: &mut [u32], done: &mut [bool])
    requires { length done.old ≡ length dists.old }
    ensures nearer { let old : Work = record { dists = dists.old; done = done.old } in
        settle_nodes (links_in links.now) (length dists.old) old ≡ record { dists = dists.new; done = done.new } }
{
    for _turn in 0..dists.len() {
        settle_nearest(links, dists, done);
    }
}

// Puts the root at 0 and every other node at the ceiling.
fn start(root: u16, dists: &mut [u32])
    ensures { dists.new ≡ lowered (replicate (length dists.old) ceiling) root 0 }
{
    dists.fill(Cost::CEILING.0);
    offer_to(dists, root, Cost(0), 0);
}

// The distances of no more nodes than a park has.
fn find_dists(root: u16, links: &Links<'_>, dists: &mut [u32])
    requires { length dists.old ≤ most_nodes }
    ensures { dists.new ≡ dists_from (length dists.old) root (links_in links.now) }
{
    let n = dists.len();
    let mut done = [false; NODES];
    start(root, dists);
    settle_nodes(links, dists, &mut done[..n]);
}

// Writes the distance of every node from node number `root`, in cost units, for as many nodes as there are distances, at most
// as many as a park may have.
pub fn exact_dists(root: u16, links: &Links<'_>, dists: &mut [u32])
    ensures found { let old : List ℕ = dists.old in
        dists.new ≡ sets old 0 (dists_from (min most_nodes (length old)) root (links_in links.now)) }
{
    let n = shorter(NODES, dists.len());
    find_dists(root, links, &mut dists[..n]);
}
