// The park file: what it holds, and where. Definitions stand in specs/: places and sizes in Layout, the file's bytes in ParkFile,
// reading in Reading. The round trip is in proofs/RoundTrip.antt. Reading itself is the room reader.
#![tactic(auto)]

pub mod layout;
