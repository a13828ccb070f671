// The seven calls on park files, their answers and their refusals: Check, Run, Exact, Write, Right, Way, Summary. Each call
// states its complete outcome for every input in the room that it comes from; this room gathers them, and proves that any
// two outcomes that a contract allows coincide (proofs/Coincide.antt) and document 01's cases (proofs/Cases.antt).
#![tactic(auto)]

pub use answers::refusal::Refusal;
pub use answers::{Counts, Outcome, Ran, Sizes, WayOfNode, Written};
pub use exact::exact;
pub use measure::{Cost, Hops, Rounds};
pub use reader::check;
pub use right::right;
pub use run::run;
pub use summary::summary;
pub use way::way;
pub use writer::write;
