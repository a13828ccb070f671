// What Run refuses of a checked file: the count's refusal and the area's before any round, and after the rounds a table that
// is not quiet. No round is done here, and nothing is written. Counts are in rounds, sizes and places in bytes.
ghost use Rattle.std.specs.Prelude.{◌≡◌};
ghost use Rattle.run.specs.Run.{ready_for, rest_for};

use answers::refusal::Refusal;
use measure::Rounds;

// The refusals that come before any round of a file of so many bytes: the count's, the area's.
#[tactic(auto, using(crate::proofs::AllowedLaws::count_refused, crate::proofs::AllowedLaws::count_fine))]
pub(crate) fn ready(count: Rounds, size: usize, area: usize, place: usize) -> Result<(), Refusal>
    ensures { result ≡ ready_for count.0 size area place }
{
    if Rounds::MOST.0 < count.0 {
        return Err(Refusal::Count);
    }
    area::room(size, area, place)
}

// The refusal that comes after the rounds: all that there are were done, and the table is not quiet.
#[tactic(auto, using(crate::proofs::AllowedLaws::below_fine, crate::proofs::AllowedLaws::quiet_fine, crate::proofs::AllowedLaws::largest_refused))]
pub(crate) fn unsettled(count: Rounds, quiet: bool) -> Result<(), Refusal>
    ensures { result ≡ rest_for count.0 quiet }
{
    if count.0 < Rounds::MOST.0 || quiet {
        return Ok(());
    }
    Err(Refusal::Unsettled)
}
