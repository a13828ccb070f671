// What the lent slices hold for a node, and the slices that belong together. Each reader answers for every number: one that is no node has no
// distance, no parent and no mark.
#![tactic(auto)]

pub mod flags;

ghost use Rattle.std.specs.Prelude.{◌≡◌, min};
ghost use Rattle.measure.specs.Measure.{ceiling};
ghost use Rattle.table.specs.Nodes.{node_at};

use measure::Cost;

// The links of a park, a slice for each part: lower ends and higher ends, node numbers both, and costs in cost units. There are as many
// links as the shortest slice has.
#[derive(Clone, Copy)]
pub struct Links<'a> {
    pub lows: &'a [u16],
    pub highs: &'a [u16],
    pub costs: &'a [u16],
}

// What the nodes of a park hear: the root, by its number, the links, and the members, as the group's 64-bit words.
#[derive(Clone, Copy)]
pub struct Net<'a> {
    pub root: u16,
    pub links: Links<'a>,
    pub words: &'a [u64],
}

// A stored table that is only read, node 1 first: distances in cost units, parents and marks.
#[derive(Clone, Copy, PartialEq, Eq)]
pub struct Table<'a> {
    pub dists: &'a [u32],
    pub parents: &'a [u16],
    pub marks: &'a [u8],
}

// The lesser of two lengths, in elements.
pub fn shorter(a: usize, b: usize) -> usize
    ensures { result ≡ min a b }
{
    a.min(b)
}

// The least of three lengths, in elements.
pub fn shortest(a: usize, b: usize, c: usize) -> usize
    ensures { result ≡ min a (min b c) }
{
    shorter(a, shorter(b, c))
}

// What a slice holds for `node`, by its number; `none` for a number that is no node.
pub fn at_node<T: Copy>(slice: &[T], node: usize, none: T) -> T
    ensures { result ≡ node_at none slice.now node }
{
    node.checked_sub(1)
        .and_then(|at| slice.get(at))
        .copied()
        .unwrap_or(none)
}

// The stored distance of `node`, in cost units; the ceiling for a number that is no node.
pub fn dist_at(dists: &[u32], node: usize) -> Cost
    ensures { result.0 ≡ node_at ceiling dists.now node }
{
    Cost(at_node(dists, node, Cost::CEILING.0))
}

// The stored parent of `node`; 0 for a number that is no node.
pub fn parent_at(parents: &[u16], node: usize) -> u16
    ensures { result ≡ node_at 0 parents.now node }
{
    at_node(parents, node, 0)
}

// The stored mark of `node`; 0 for a number that is no node.
pub fn mark_at(marks: &[u8], node: usize) -> u8
    ensures { result ≡ node_at 0 marks.now node }
{
    at_node(marks, node, 0)
}
