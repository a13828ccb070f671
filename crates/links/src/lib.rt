// A node's neighbours over lent slices: the lower ends of the links and the higher ends, node numbers both. Nothing is
// refused: 0 is nobody's neighbour, and a number that is no node has none.
#![tactic(auto)]

ghost use Rattle.std.specs.Prelude.{◌≡◌, ◌||◌, eqb};
ghost use Rattle.rule.specs.Round.{arcs_of};
ghost use Rattle.links.specs.Neighbours.{ends_of, far_end, hears, neighbour};

// Whether `node` is an end of a link. It takes less than finding the other end, and most links are passed over by it.
pub fn touches(low: u16, high: u16, node: usize) -> bool
    ensures { result ≡ (eqb low node || eqb high node) }
{
    usize::from(low) == node || usize::from(high) == node
}

// The end of a link that is not `node`, by number; none where `node` is none of the two. Where this is not inlined early, a search finds
// the end for every link, and a round takes up to three times as long.
#[inline(always)]
pub fn other_end(low: u16, high: u16, node: usize) -> Option<u16>
    ensures { result ≡ far_end low high node }
{
    if !touches(low, high, node) {
        return None;
    }
    Some(if usize::from(low) == node { high } else { low })
}

// Whether `node` hears of `other` over one of the links. Ends without a counterpart are no link. They are cut off first, since a
// search of two slices of one length tests at each link once, and not twice, whether it was the last.
fn hears(lows: &[u16], highs: &[u16], node: usize, other: u16) -> bool
    ensures { result ≡ hears (arcs_of (ends_of lows.now highs.now) node) other }
{
    let l = lows.len().min(highs.len());
    lows[..l]
        .iter()
        .zip(&highs[..l])
        .any(|(&low, &high)| other_end(low, high, node) == Some(other))
}

// Whether `other` is one of the neighbours of `node`, both by number. 0 is no neighbour.
#[tactic(auto, using(crate::proofs::NeighbourLaws::zero_neighbour, crate::proofs::NeighbourLaws::some_neighbour))]
pub fn is_neighbour(lows: &[u16], highs: &[u16], node: u16, other: u16) -> bool
    ensures { result ≡ neighbour (ends_of lows.now highs.now) node other }
{
    other != 0 && hears(lows, highs, usize::from(node), other)
}
