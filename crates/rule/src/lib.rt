// The rule: what a round and the exact table are, and that rounds settle. Definitions stand in specs/, the theory over
// them in proofs/. There is no code here: the rooms above cite both.
#![tactic(auto)]
