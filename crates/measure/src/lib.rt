// Three measures, each a type of its own, so that none passes for another: a cost in cost units, a hop count in hops
// and a round count in rounds. The ceiling, the largest cost and the capped addition stand with the cost. How large a park may
// be stands here too.
#![tactic(auto)]

ghost use Rattle.std.specs.Prelude.{◌≡◌};
ghost use Rattle.measure.specs.Measure.{cap, plus};

// The most nodes of a park, in nodes.
pub const NODES: usize = 256;

// The most links of a park, in links.
pub const LINKS: usize = 1024;

// A link's cost or a node's distance from the root, in cost units. Any 32-bit number may be stored as a distance.
#[derive(Clone, Copy, Debug, PartialEq, Eq, PartialOrd, Ord)]
pub struct Cost(pub u32);

// A hop count: links passed on the way to the root, in hops.
#[derive(Clone, Copy, Debug, PartialEq, Eq, PartialOrd, Ord)]
pub struct Hops(pub u32);

// A round count, in rounds.
#[derive(Clone, Copy, Debug, PartialEq, Eq, PartialOrd, Ord)]
pub struct Rounds(pub u32);

impl Cost {
    // "No path", in cost units: above every real distance.
    pub const CEILING: Cost = Cost(16_777_215);

    // The largest cost of a link, in cost units.
    pub const LARGEST: Cost = Cost(65_535);

    // This distance as it is read, in cost units: the ceiling where it is above the ceiling.
    pub fn capped(self) -> Cost
        ensures { result.0 ≡ cap self.0 }
    {
        self.min(Cost::CEILING)
    }

    // The distance over one link more, whose cost is `link`, in cost units: never above the ceiling, and it never wraps. A sum that
    // would is above the ceiling as well.
    pub fn plus(self, link: Cost) -> Cost
        ensures { result.0 ≡ plus self.0 link.0 }
    {
        Cost(self.0.saturating_add(link.0)).capped()
    }
}

impl Rounds {
    // The largest count that a run may be asked for, in rounds.
    pub const MOST: Rounds = Rounds(16_777_217);
}
