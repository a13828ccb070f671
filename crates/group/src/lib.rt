// The group set as 64-bit words, node 1 the lowest bit of the first: whether a node is a member, and how many members there
// are, in nodes.
#![tactic(auto)]

ghost use Rattle.std.specs.Prelude.{◌≡◌};
ghost use Rattle.group.specs.Group.{member_in};
ghost use Rattle.group.specs.Count.{members_of};

// The words of a group set: four have a bit for each of 256 nodes.
pub const WORDS: usize = 4;

// Whether `node` is in the group, by the group's words; 0 is no node.
pub fn is_member(words: &[u64], node: usize) -> bool
    ensures { result ≡ member_in 64 words.now node }
{
    let Some(bit) = node.checked_sub(1) else {
        return false;
    };
    words
        .get(bit / 64)
        .is_some_and(|word| (*word >> (bit % 64)) % 2 == 1)
}

// The members, in nodes, among the 256 that four words have a bit for: node i is bit (i - 1) mod 64 of word (i - 1) / 64.
pub fn members(words: &[u64]) -> u32
    ensures { result ≡ members_of words.now }
{
    words.iter().take(WORDS).map(|word| word.count_ones()).sum()
}
