// Right: whether the stored state of a park file is the exact table, value for value. A run of no rounds says whether a
// round would change anything, and a round changes nothing exactly when the whole table is exact.
#![tactic(auto)]

ghost use Rattle.right.specs.Right.{Judged};

use answers::refusal::Refusal;
use measure::Rounds;

// Whether the stored state of a file is the exact table, or the file's refusal. The file that the run writes goes into an
// area of its own, in which every file has room.
pub fn right(file: &[u8]) -> Result<bool, Refusal>
    ensures { Judged file.now result }
{
    let mut area = [0u8; park::layout::LARGEST];
    let ran = run::run(file, Rounds(0), &mut area, 0)?;
    Ok(ran.quiet)
}
