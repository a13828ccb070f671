// A run: rounds over lent slices until a given count is done or the next would change nothing. The table stays where it is lent; the next
// round is made in room of the run's own, and no table is copied by value.
ghost use Rattle.std.specs.Prelude.{◌≡◌};
ghost use Rattle.table.specs.Fit.{Together, Holds, Fronts};
ghost use Rattle.table.specs.Same.{same_slices};
ghost use Rattle.round.specs.Table.{round_of};
ghost use Rattle.round.specs.Run.{RunEnd, run_from, run_over, ran_of};

use crate::one_round;
use crate::tables::{copy_table, same_table};
use answers::Ran;
use measure::{NODES, Rounds};
use table::{Net, Table, shorter, shortest};

// Makes the next round in the room lent for it, and tells whether it changes nothing. Inlined early, so that what a run knows of its slices
// is known in the rounds: else a round of few nodes takes twice as long.
#[inline(always)]
fn is_quiet(
    net: &Net<'_>,
    table: &Table<'_>,
    next_dists: &mut [u32],
    next_parents: &mut [u16],
    next_marks: &mut [u8],
) -> bool
    requires { Together table.now.dists.now table.now.parents.now table.now.marks.now
        next_dists.old next_parents.old next_marks.old }
    ensures round { Holds
        (round_of net.now table.now.dists.now table.now.parents.now table.now.marks.now)
        next_dists.new next_parents.new next_marks.new }
    ensures same { result ≡ same_slices next_dists.new next_parents.new next_marks.new
        table.now.dists.now table.now.parents.now table.now.marks.now }
{
    one_round(net, table, next_dists, next_parents, next_marks);
    let next = Table {
        dists: next_dists,
        parents: next_parents,
        marks: next_marks,
    };
    same_table(&next, table)
}

// The run in slices of equally many nodes; the three next ones are room for the round to come, and what they hold counts for nothing. A
// turn is one round, one comparison and one copy.
fn run_nodes(
    count: Rounds,
    net: &Net<'_>,
    dists: &mut [u32],
    parents: &mut [u16],
    marks: &mut [u8],
    next_dists: &mut [u32],
    next_parents: &mut [u16],
    next_marks: &mut [u8],
) -> Ran
    requires { Together dists.old parents.old marks.old next_dists.old next_parents.old next_marks.old }
    ensures ran { let end : RunEnd = run_from count.0 0 net.now dists.old parents.old marks.old in
        (result ≡ ran_of end) × Holds end.table dists.new parents.new marks.new }
{
    for done in 0..count.0 {
        let table = Table {
            dists,
            parents,
            marks,
        };
        if is_quiet(net, &table, next_dists, next_parents, next_marks) {
            return Ran {
                rounds: Rounds(done),
                quiet: true,
            };
        }
        let next = Table {
            dists: next_dists,
            parents: next_parents,
            marks: next_marks,
        };
        copy_table(&next, dists, parents, marks);
    }
    let table = Table {
        dists,
        parents,
        marks,
    };
    Ran {
        rounds: count,
        quiet: is_quiet(net, &table, next_dists, next_parents, next_marks),
    }
}

// Rounds from the stored table until `count` rounds are done or the next would change nothing, in the three slices of the table. The park
// has as many nodes as all three slices have, and at most 256; what stands behind those nodes is left as it is. Distances and costs are
// in cost units, parents are node numbers.
pub fn run(
    count: Rounds,
    net: &Net<'_>,
    dists: &mut [u32],
    parents: &mut [u16],
    marks: &mut [u8],
) -> Ran
    ensures ran { let end : RunEnd = run_over count.0 net.now dists.old parents.old marks.old in
        (result ≡ ran_of end) × Fronts end.table dists.old parents.old marks.old
        dists.new parents.new marks.new }
{
    let n = shorter(NODES, shortest(dists.len(), parents.len(), marks.len()));
    let mut next_dists = [0u32; NODES];
    let mut next_parents = [0u16; NODES];
    let mut next_marks = [0u8; NODES];
    run_nodes(
        count,
        net,
        &mut dists[..n],
        &mut parents[..n],
        &mut marks[..n],
        &mut next_dists[..n],
        &mut next_parents[..n],
        &mut next_marks[..n],
    )
}
