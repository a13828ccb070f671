// Summary: how many nodes of a park file are members, are marked, and are served members. The file is read, its group set is taken
// apart into four whole words and its marks into a local array, and they are counted there.
#![tactic(auto)]

mod counts;

ghost use Rattle.std.specs.Prelude.{◌≡◌, ◌≤◌, length};
ghost use Rattle.measure.specs.Measure.{most_nodes};
ghost use Rattle.park.specs.Reading.{file_in};
ghost use Rattle.group.specs.Count.{members_of};
ghost use Rattle.summary.specs.Summary.{marked_of, served_of, counts_of, summary_answer};

use answers::Counts;
use answers::refusal::Refusal;
use group::WORDS;
use measure::NODES;
use reader::ReadFile;
use reader::apart::{take_group, take_state};

// The three counts, over the words of the group set and the marks of no more nodes than a file has.
fn count_all(words: &[u64], marks: &[u8]) -> Counts
    requires { length marks.now ≤ most_nodes }
    ensures { (result.members ≡ members_of words.now)
        × (result.marked ≡ marked_of marks.now)
        × (result.served ≡ served_of words.now marks.now) }
{
    let members = group::members(words);
    let marked = counts::marked(marks) as u32;
    let served = counts::served(words, marks) as u32;
    Counts {
        members,
        marked,
        served,
    }
}

// The counts of a file that was read. It has no more than `NODES` nodes; the minimum says so to the compiler, for the loops.
#[tactic(auto, using(park::proofs::ParkLaws::lent))]
fn counts_in(read: &ReadFile<'_>) -> Counts
    ensures { result ≡ counts_of (file_in read.now.file.now) }
{
    let ReadFile { file, head } = *read;
    let n = usize::from(head.nodes).min(NODES);
    let mut words = [0u64; WORDS];
    let mut marks = [0u8; NODES];
    take_group(file, head.links, &mut words);
    take_state(file, head.nodes, head.links, &mut [], &mut [], &mut marks);
    count_all(&words, &marks[..n])
}

// The counts of a file, in nodes, or its refusal.
pub fn summary(file: &[u8]) -> Result<Counts, Refusal>
    ensures { result ≡ summary_answer file.now }
{
    let read = ReadFile::new(file)?;
    Ok(counts_in(&read))
}
