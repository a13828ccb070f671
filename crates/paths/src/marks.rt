// Exact marks: from each member the way by the parents is walked, and every node on it is marked. Marks are bytes, node 1's
// first; 0 is clear.
ghost use Rattle.std.specs.Prelude.{◌≡◌, List, ℕ, length, replicate};
ghost use Rattle.group.specs.Group.{member_in};
ghost use Rattle.paths.specs.Walk.{walked, walked_from};

use group::is_member;
use table::flags::set_mark;
use table::parent_at;

// Marks `node` and the nodes that its way leads to, in fewer hops than there are marks; 0 ends the way.
fn walk(node: usize, parents: &[u16], marks: &mut [u8])
    ensures { marks.new ≡ walked parents.now (length marks.old) marks.old node }
{
    let mut here = node;
    for _hop in 0..marks.len() {
        if here == 0 {
            return;
        }
        set_mark(marks, here);
        here = usize::from(parent_at(parents, here));
    }
}

// Walks from every member.
fn walk_members(words: &[u64], parents: &[u16], marks: &mut [u8])
    ensures { let ps : List ℕ = parents.now in
        marks.new ≡ walked_from (member_in 64 words.now) ps (length ps) 1 marks.old }
{
    for node in 1..=parents.len() {
        if is_member(words, node) {
            walk(node, parents, marks);
        }
    }
}

// Writes the mark of every node, by the parents (node numbers, 0 for none) and the group's 64-bit words: all marks are cleared,
// then the way of each member is walked, in fewer hops than there are marks. There are as many nodes as parents; a number on a
// way that has no mark is passed over.
pub(crate) fn find_marks(words: &[u64], parents: &[u16], marks: &mut [u8])
    ensures marked { let ps : List ℕ = parents.now in
        let clear : List ℕ = replicate (length marks.old) 0 in
        marks.new ≡ walked_from (member_in 64 words.now) ps (length ps) 1 clear }
{
    marks.fill(0);
    walk_members(words, parents, marks);
}
