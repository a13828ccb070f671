// Run: rounds over a park file, as a new file in a lent area. The file is read, and module allowed tells what else is refused before
// and after the rounds; between them the file is taken apart and the rounds are done on slices. The area is written last of all.
// Counts are in rounds, sizes and places in bytes.
#![tactic(auto)]

mod allowed;

ghost use Rattle.std.specs.Prelude.{◌≡◌, ℕ, List, length};
ghost use Rattle.answers.specs.Verdicts.{fine};
ghost use Rattle.park.specs.Reading.{file_in, nodes_in};
ghost use Rattle.table.specs.Fit.{Holds};
ghost use Rattle.round.specs.Run.{RunEnd, ran_of};
ghost use Rattle.area.specs.Area.{room_for, area_with};
ghost use Rattle.run.specs.Run.{end_of, run_verdict, run_file, run_answer};
ghost use Rattle.run.specs.Ends.{Ends};

use answers::Ran;
use answers::refusal::Refusal;
use area::state::put_with_state;
use group::WORDS;
use measure::{LINKS, NODES, Rounds};
use reader::ReadFile;
use reader::apart::{take_park, take_state};
use table::{Links, Net, Table};

// Takes a file that was read apart and does the rounds: the table that the run comes to is left in the three lent slices.
#[tactic(auto, using(park::proofs::ParkLaws::lent))]
fn run_apart(
    read: &ReadFile<'_>,
    count: Rounds,
    dists: &mut [u32],
    parents: &mut [u16],
    marks: &mut [u8],
) -> Ran
    requires { (length dists.old ≡ nodes_in read.now.file.now)
        × (length parents.old ≡ nodes_in read.now.file.now)
        × (length marks.old ≡ nodes_in read.now.file.now) }
    ensures { let end : RunEnd = end_of (file_in read.now.file.now) count.0 in
        (result ≡ ran_of end) × Holds end.table dists.new parents.new marks.new }
{
    let ReadFile { file, head } = *read;
    let l = usize::from(head.links);
    let mut lows = [0u16; LINKS];
    let mut highs = [0u16; LINKS];
    let mut costs = [0u16; LINKS];
    let mut words = [0u64; WORDS];
    take_park(
        file, head.links, &mut lows, &mut highs, &mut costs, &mut words,
    );
    take_state(file, head.nodes, head.links, dists, parents, marks);
    let net = Net {
        root: head.root,
        links: Links {
            lows: &lows[..l],
            highs: &highs[..l],
            costs: &costs[..l],
        },
        words: &words,
    };
    round::rounds::run(count, &net, dists, parents, marks)
}

// The run of a file that was read and for which the area has room: the new file is put into the area at the very end, unless the
// table is still not quiet after the largest count of rounds.
#[tactic(auto, using(park::proofs::ParkLaws::lent))]
fn run_read(
    read: &ReadFile<'_>,
    count: Rounds,
    area: &mut [u8],
    place: usize,
) -> Result<Ran, Refusal>
    requires { room_for (length read.now.file.now) (length area.old) place ≡ fine }
    ensures { Ends result read.now.file.now count.0 area.old place area.new }
{
    let n = usize::from(read.head.nodes);
    let mut dists = [0u32; NODES];
    let mut parents = [0u16; NODES];
    let mut marks = [0u8; NODES];
    let ran = run_apart(
        read,
        count,
        &mut dists[..n],
        &mut parents[..n],
        &mut marks[..n],
    );
    allowed::unsettled(count, ran.quiet)?;
    let table = Table {
        dists: &dists[..n],
        parents: &parents[..n],
        marks: &marks[..n],
    };
    put_with_state(read.file, read.head.links, &table, area, place)?;
    Ok(ran)
}

// Does rounds from the state of a file until `count` are done or the next would change nothing, and puts the new file, of
// the same length, into the lent area from a place on; bytes before and after it stay. A refusal leaves the area as it is.
pub fn run(file: &[u8], count: Rounds, area: &mut [u8], place: usize) -> Result<Ran, Refusal>
    ensures answered { result ≡ run_answer file.now count.0 (length area.old) place }
    ensures written { let s : List ℕ = file.now in
        let old : List ℕ = area.old in
        area.new ≡ area_with (run_verdict s count.0 (length old) place) (run_file s count.0) place old }
{
    let read = ReadFile::new(file)?;
    allowed::ready(count, file.len(), area.len(), place)?;
    run_read(&read, count, area, place)
}
