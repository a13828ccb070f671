// What the calls answer: each a value of its own, or a refusal. The definition of document 01's number and values for each
// answer is specs/Values.antt.
#![tactic(auto)]

pub mod refusal;
pub mod values;

use measure::{Hops, Rounds};

// The numbers at the head of a park file.
#[derive(Clone, Copy, Debug, PartialEq, Eq)]
pub struct Head {
    // The nodes, in nodes.
    pub nodes: u16,
    // The root, by its number.
    pub root: u16,
    // The links, in links.
    pub links: u16,
}

// What Check answers of a park file.
#[derive(Clone, Copy, Debug, PartialEq, Eq)]
pub struct Sizes {
    // The nodes, in nodes.
    pub nodes: u16,
    // The links, in links.
    pub links: u16,
}

// What Run answers, once the new file is in the area.
#[derive(Clone, Copy, Debug, PartialEq, Eq)]
pub struct Ran {
    // The rounds done, in rounds.
    pub rounds: Rounds,
    // Whether one more round would change nothing.
    pub quiet: bool,
}

// What Write answers, once the file is in the area: its length, in bytes.
#[derive(Clone, Copy, Debug, PartialEq, Eq)]
pub struct Written(pub usize);

// Where following parents led.
#[derive(Clone, Copy, Debug, PartialEq, Eq)]
pub enum Outcome {
    // The root was met, after so many hops.
    Reached(Hops),
    // The node, by its number, whose parent is not one of its neighbours.
    Broken(u16),
    // As many hops as there are nodes have met neither.
    Looping,
}

// What Way answers: the node asked about, by its number, and where its way led.
#[derive(Clone, Copy, Debug, PartialEq, Eq)]
pub struct WayOfNode {
    pub node: u16,
    pub outcome: Outcome,
}

// What Summary answers.
#[derive(Clone, Copy, Debug, PartialEq, Eq)]
pub struct Counts {
    // The members of the group, in nodes.
    pub members: u32,
    // The nodes whose stored mark is set, in nodes.
    pub marked: u32,
    // The members whose stored mark is set, in nodes.
    pub served: u32,
}
