// Which node is settled next: the nearest of those that are not settled.
ghost use Rattle.std.specs.Prelude.{◌≡◌};
ghost use Rattle.paths.specs.Nearest.{nearest, some_node};

use measure::Cost;

// The number of the nearest node that is not settled, by the distances in cost units, node 1's first; none where all are. Of
// nodes that are as near the first is taken. There are as many nodes as distances, and `done` says which are settled.
pub(crate) fn nearest_node(dists: &[u32], done: &[bool]) -> Option<usize>
    ensures { result ≡ some_node (nearest (record { dists = dists.now; done = done.now })) }
{
    let mut best = None;
    // The distance of `best`; none is as far as the ceiling.
    let mut least = Cost::CEILING.0;
    for (at, &dist) in dists.iter().enumerate() {
        let settled = done.get(at).copied().unwrap_or(false);
        if !settled && (best.is_none() || dist < least) {
            best = Some(at + 1);
            least = dist;
        }
    }
    best
}
