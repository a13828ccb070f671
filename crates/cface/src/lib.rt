// The seven calls for C: numbers, and lent bytes as a pointer and a length. `answer` takes eight 64-bit numbers: the
// refusal's number (0 for none), its place in bytes, then the call's own values; a value that is not used is 0. No call
// keeps state, allocates or blocks. include/chandvreksh.h declares them.
#![tactic(auto)]

ghost use Rattle.std.specs.Prelude.{◌≡◌, List, ℕ, Bool, Result, length};
ghost use Rattle.park.specs.Reading.{check_of};
ghost use Rattle.writer.specs.Made.{file_of};
ghost use Rattle.area.specs.Area.{area_with};
ghost use Rattle.writer.specs.Write.{write_verdict, write_of};
ghost use Rattle.run.specs.Run.{run_answer, run_verdict, run_file};
ghost use Rattle.answers.specs.declared.refusal.Refusal.{Refusal};
ghost use Rattle.exact.specs.Exact.{Exacted};
ghost use Rattle.right.specs.Right.{Judged};
ghost use Rattle.way.specs.Way.{way_answer};
ghost use Rattle.summary.specs.Summary.{summary_answer};
ghost use Rattle.answers.specs.Values.{check_values, run_values, exact_values, write_values, right_values, way_values, summary_values};

use answers::values::Answer;
use measure::Rounds;

// Check: nodes, links.
#[unsafe(no_mangle)]
pub extern "C" fn chandvreksh_check(file: &[u8], answer: &mut [u64; 8])
    ensures { answer.new ≡ check_values (check_of file.now) }
{
    *answer = reader::check(file).values();
}

// Run: rounds done, and 1 if it is quiet. The count is in rounds, the place in bytes.
#[unsafe(no_mangle)]
pub extern "C" fn chandvreksh_run(
    file: &[u8],
    count: u32,
    area: &mut [u8],
    place: usize,
    answer: &mut [u64; 8],
)
    ensures answered { answer.new ≡ run_values (run_answer file.now count (length area.old) place) }
    ensures written { let s : List ℕ = file.now in
        let old : List ℕ = area.old in
        area.new ≡ area_with (run_verdict s count (length old) place) (run_file s count) place old }
{
    *answer = run::run(file, Rounds(count), area, place).values();
}

// Exact: no values of its own. The place is in bytes.
#[unsafe(no_mangle)]
pub extern "C" fn chandvreksh_exact(
    file: &[u8],
    area: &mut [u8],
    place: usize,
    answer: &mut [u64; 8],
)
    ensures { (found : Result (Unit {0}) Refusal)
        × Exacted file.now area.old place found area.new
        × (answer.new ≡ exact_values found) }
{
    *answer = exact::exact(file, area, place).values();
}

// Write: `links` has three numbers a link (lower node, higher node, cost in cost units), distances are in cost units, and
// the place is in bytes.
#[unsafe(no_mangle)]
pub extern "C" fn chandvreksh_write(
    nodes: u16,
    root: u16,
    links: &[u16],
    group: &[u8],
    distances: &[u32],
    parents: &[u16],
    marks: &[u8],
    area: &mut [u8],
    place: usize,
    answer: &mut [u64; 8],
)
    ensures answered { let file : List ℕ = file_of nodes root links.now group.now
        distances.now parents.now marks.now in
        answer.new ≡ write_values (write_of file (length area.old) place) }
    ensures written { let file : List ℕ = file_of nodes root links.now group.now
        distances.now parents.now marks.now in
        let old : List ℕ = area.old in
        area.new ≡ area_with (write_verdict file (length old) place) file place old }
{
    *answer = writer::write(
        nodes, root, links, group, distances, parents, marks, area, place,
    )
    .values();
}

// Right: 1 for yes.
#[unsafe(no_mangle)]
pub extern "C" fn chandvreksh_right(file: &[u8], answer: &mut [u64; 8])
    ensures { (found : Result Bool Refusal)
        × Judged file.now found
        × (answer.new ≡ right_values found) }
{
    *answer = right::right(file).values();
}

// Way: the node asked about, 0 reached, 1 broken or 2 looping, and the hops or the node.
#[unsafe(no_mangle)]
pub extern "C" fn chandvreksh_way(file: &[u8], node: u16, answer: &mut [u64; 8])
    ensures { answer.new ≡ way_values (way_answer file.now node) }
{
    *answer = way::way(file, node).values();
}

// Summary: members, marked nodes and served members, in nodes.
#[unsafe(no_mangle)]
pub extern "C" fn chandvreksh_summary(file: &[u8], answer: &mut [u64; 8])
    ensures { answer.new ≡ summary_values (summary_answer file.now) }
{
    *answer = summary::summary(file).values();
}
