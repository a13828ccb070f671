// The marked nodes and the served members, counted in nodes, over the stored marks as lent bytes, node 1's first, and the group
// set as 64-bit words.
ghost use Rattle.std.specs.Prelude.{◌≡◌};
ghost use Rattle.summary.specs.Summary.{marked_of, served_of};

use group::is_member;

// The nodes whose stored mark is set, in nodes.
pub(crate) fn marked(marks: &[u8]) -> usize
    ensures { result ≡ marked_of marks.now }
{
    marks.iter().map(|mark| usize::from(*mark != 0)).sum()
}

// The members whose stored mark is set, in nodes.
pub(crate) fn served(words: &[u64], marks: &[u8]) -> usize
    ensures { result ≡ served_of words.now marks.now }
{
    marks
        .iter()
        .enumerate()
        .map(|(k, mark)| usize::from(*mark != 0 && is_member(words, k + 1)))
        .sum()
}
