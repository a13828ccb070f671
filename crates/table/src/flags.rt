// The marks: a byte for each node, node 1's first; 0 is clear.
ghost use Rattle.std.specs.Prelude.{◌≡◌};
ghost use Rattle.table.specs.Flag.{with_mark};

// Sets the mark of node number `node` to 1. A number that is no node has none.
#[tactic(auto, using(crate::proofs::FlagLaws::mark_zero, crate::proofs::FlagLaws::mark_in, crate::proofs::FlagLaws::mark_out))]
pub fn set_mark(marks: &mut [u8], node: usize)
    ensures { marks.new ≡ with_mark marks.old node }
{
    if node == 0 {
        return;
    }
    let at = node - 1;
    if at < marks.len() {
        marks[at] = 1;
    }
}
