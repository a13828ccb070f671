// Exact: the file of a park with the exact table as its state, in a lent area. The table is found nearest node first and not by
// rounds. Nothing is written before every refusal is ruled out. Places are in bytes.
#![tactic(auto)]

ghost use Rattle.std.specs.Prelude.{◌≡◌, ℕ, List, length};
ghost use Rattle.rule.specs.Round.{Cell};
ghost use Rattle.rule.specs.Exact.{Exact};
ghost use Rattle.park.specs.ParkFile.{ParkFile, park_in, encode, with_state};
ghost use Rattle.park.specs.Reading.{file_in};
ghost use Rattle.area.specs.Area.{room_for, area_with};
ghost use Rattle.exact.specs.Exact.{FoundIn, Exacted};

use answers::Head;
use answers::refusal::Refusal;
use area::state::put_with_state;
use group::WORDS;
use measure::{LINKS, NODES};
use reader::ReadFile;
use reader::apart::take_park;
use table::{Links, Net, Table};

// Writes the table that is found without rounds for the park of a file whose head says so many nodes, that root and so many links:
// distances (in cost units), parents and marks, node 1 first, each for as many nodes as its slice has. Where the file is a park
// file, the head is its own and the slices have its nodes, that is the exact table. At most 1,024 links are read.
pub fn exact_table(
    file: &[u8],
    head: Head,
    dists: &mut [u32],
    parents: &mut [u16],
    marks: &mut [u8],
)
    ensures { FoundIn file.now head
        dists.old parents.old marks.old
        dists.new parents.new marks.new }
{
    let count = head.links.min(LINKS as u16);
    let l = usize::from(count);
    let mut lows = [0u16; LINKS];
    let mut highs = [0u16; LINKS];
    let mut costs = [0u16; LINKS];
    let mut words = [0u64; WORDS];
    take_park(file, count, &mut lows, &mut highs, &mut costs, &mut words);
    let links = Links {
        lows: &lows[..l],
        highs: &highs[..l],
        costs: &costs[..l],
    };
    let net = Net {
        root: head.root,
        links,
        words: &words,
    };
    paths::exact_table(&net, dists, parents, marks);
}

// Puts a file that was read, with its exact table, into the area from a place on, or answers that there is no room for it.
#[tactic(auto, using(park::proofs::ParkLaws::lent))]
fn put_exact(read: &ReadFile<'_>, area: &mut [u8], place: usize) -> Result<(), Refusal>
    ensures put { let s : List ℕ = read.now.file.now in
        let f : ParkFile = file_in s in
        let old : List ℕ = area.old in
        (result ≡ room_for (length s) (length old) place)
        × ((e : List Cell) → Exact (park_in f) e → area.new ≡ area_with result (encode (with_state f e)) place old) }
{
    let ReadFile { file, head } = *read;
    let n = usize::from(head.nodes);
    let mut dists = [0u32; NODES];
    let mut parents = [0u16; NODES];
    let mut marks = [0u8; NODES];
    exact_table(
        file,
        head,
        &mut dists[..n],
        &mut parents[..n],
        &mut marks[..n],
    );
    let table = Table {
        dists: &dists[..n],
        parents: &parents[..n],
        marks: &marks[..n],
    };
    put_with_state(file, head.links, &table, area, place)
}

// Writes the file with the exact table as its state into the lent area from a place on, or answers the refusal.
pub fn exact(file: &[u8], area: &mut [u8], place: usize) -> Result<(), Refusal>
    ensures { Exacted file.now area.old place result area.new }
{
    let read = ReadFile::new(file)?;
    put_exact(&read, area, place)
}
