// Two tables, each three slices: whether they are the same, and one copied over the other.
ghost use Rattle.std.specs.Prelude.{◌≡◌};
ghost use Rattle.table.specs.Fit.{Together};
ghost use Rattle.table.specs.Same.{same_slices};

use table::Table;

// Whether two tables are the same: every distance, every parent and every mark. Inlined for the reason told at `is_quiet`.
#[tactic(auto, using(table::proofs::SameLaws::numbers_are))]
#[inline(always)]
pub(crate) fn same_table(first: &Table<'_>, second: &Table<'_>) -> bool
    ensures { result ≡ same_slices first.now.dists.now first.now.parents.now first.now.marks.now
        second.now.dists.now second.now.parents.now second.now.marks.now }
{
    first.dists == second.dists && first.parents == second.parents && first.marks == second.marks
}

// Copies a table over another of as many nodes.
pub(crate) fn copy_table(
    table: &Table<'_>,
    to_dists: &mut [u32],
    to_parents: &mut [u16],
    to_marks: &mut [u8],
)
    requires { Together table.now.dists.now table.now.parents.now table.now.marks.now
        to_dists.old to_parents.old to_marks.old }
    ensures { (to_dists.new ≡ table.now.dists.now) × (to_parents.new ≡ table.now.parents.now)
        × (to_marks.new ≡ table.now.marks.now) }
{
    to_dists.copy_from_slice(table.dists);
    to_parents.copy_from_slice(table.parents);
    to_marks.copy_from_slice(table.marks);
}
