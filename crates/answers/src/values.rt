// The answers of the seven calls as eight numbers: the refusal's number (0 for none), its place in bytes, then the call's
// own values; a value that is not used is 0. What each gives is said in specs/Values.antt.
ghost use Rattle.std.specs.Prelude.{◌≡◌, List, ℕ};
ghost use Rattle.answers.specs.Values.{values, answer_values, refusal_values};
ghost use Rattle.answers.specs.Values.{sizes_values, ran_values, done_values, written_values, yes_values, way_of_values, counts_values};

use crate::refusal::Refusal;
use crate::{Counts, Outcome, Ran, Sizes, WayOfNode, Written};

// What an answer is for C.
pub trait Answer {
    ghost numbers: { Self → List ℕ };

    fn values(self) -> [u64; 8]
        ensures { result ≡ numbers self };
}

// A call's own answer where it did not refuse, and else the refusal.
impl<T: Answer> Answer for Result<T, Refusal> {
    ghost numbers = { answer_values T.numbers };

    fn values(self) -> [u64; 8] {
        match self {
            Ok(own) => own.values(),
            Err(refusal) => refusal.values(),
        }
    }
}

// A refusal: its number, and its place in bytes.
impl Answer for Refusal {
    ghost numbers = { refusal_values };

    fn values(self) -> [u64; 8] {
        let number = u64::from(self.number());
        let place = self.place() as u64;
        [number, place, 0, 0, 0, 0, 0, 0]
    }
}

// Check: nodes, links.
impl Answer for Sizes {
    ghost numbers = { sizes_values };

    fn values(self) -> [u64; 8] {
        own_values(u32::from(self.nodes), u32::from(self.links), 0)
    }
}

// Run: rounds done, and 1 if it is quiet.
impl Answer for Ran {
    ghost numbers = { ran_values };

    fn values(self) -> [u64; 8] {
        own_values(self.rounds.0, u32::from(self.quiet), 0)
    }
}

// Exact: no values of its own.
impl Answer for () {
    ghost numbers = { done_values };

    fn values(self) -> [u64; 8] {
        own_values(0, 0, 0)
    }
}

// Write: no values of its own.
impl Answer for Written {
    ghost numbers = { written_values };

    fn values(self) -> [u64; 8] {
        own_values(0, 0, 0)
    }
}

// Right: 1 for yes.
impl Answer for bool {
    ghost numbers = { yes_values };

    fn values(self) -> [u64; 8] {
        own_values(u32::from(self), 0, 0)
    }
}

// Way: the node asked about, by its number, and where its way led: 0 reached with the hops, 1 broken with the node, 2 looping.
impl Answer for WayOfNode {
    ghost numbers = { way_of_values };

    fn values(self) -> [u64; 8] {
        let node = u32::from(self.node);
        match self.outcome {
            Outcome::Reached(hops) => own_values(node, 0, hops.0),
            Outcome::Broken(at) => own_values(node, 1, u32::from(at)),
            Outcome::Looping => own_values(node, 2, 0),
        }
    }
}

// Summary: members, marked nodes and served members, in nodes.
impl Answer for Counts {
    ghost numbers = { counts_values };

    fn values(self) -> [u64; 8] {
        own_values(self.members, self.marked, self.served)
    }
}

// The values of a call that did not refuse, behind no number and no place.
fn own_values(a: u32, b: u32, c: u32) -> [u64; 8]
    ensures { result ≡ values a b c }
{
    [0, 0, u64::from(a), u64::from(b), u64::from(c), 0, 0, 0]
}
