// Which arc a node keeps: the best that it has heard so far, or the one that it hears now. The tie rule stands here.
// Distances and costs are in cost units.
ghost use Rattle.std.specs.Prelude.{◌≡◌};
ghost use Rattle.rule.specs.Round.{before};
ghost use Rattle.round.specs.Keep.{arc_of, kept_arc, takes, kept};

use measure::Cost;

// An arc: what a node hears over a link.
#[derive(Clone, Copy)]
pub struct Arc {
    // The neighbour at the other end, by its number; 0 for none, as a file has it.
    pub from: u16,
    // The cost of the link, in cost units.
    pub cost: Cost,
}

// What a node knows of the links that it has gone through.
#[derive(Clone, Copy)]
pub struct Best {
    // The least distance that a neighbour offers, in cost units; the ceiling where none offers less.
    pub dist: Cost,
    // The arc that offers it.
    pub arc: Arc,
    // Whether a neighbour with its mark set has this node for its parent.
    pub asked: bool,
}

// The tie rule: whether the first of two arcs goes before the other.
#[tactic(auto, unfolding(rule::specs::Round::before))]
fn goes_before(first: Arc, other: Arc) -> bool
    ensures { result ≡ before (arc_of first) (arc_of other) }
{
    first.from <= other.from
}

// Whether an arc takes the place of the one kept. An offer of the ceiling never does: it is no path.
fn takes_over(best: Best, offer: Cost, arc: Arc) -> bool
    ensures { result ≡ takes best.dist.0 (kept_arc best) offer.0 (arc_of arc) }
{
    offer < best.dist
        || offer == best.dist && best.dist < Cost::CEILING && !goes_before(best.arc, arc)
}

// The better of what is kept and of an arc's offer.
pub fn keep(best: Best, offer: Cost, arc: Arc) -> Best
    ensures { result ≡ kept best offer.0 (arc_of arc) }
{
    if takes_over(best, offer, arc) {
        return Best {
            dist: offer,
            arc,
            ..best
        };
    }
    best
}
