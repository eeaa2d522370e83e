// Two jobs side by side, each with its store.
ghost use Rattle.std.specs.Prelude.{◌≡◌};
ghost use Rattle.runs.specs.Calls.{state_of};
ghost use Rattle.runs.specs.Statement.{TwoJobs};
ghost use Rattle.job.specs.Answers.{job_of};
ghost use Rattle.job.specs.Levels.{level_of, RunsBalance};

use crate::level::Level;
use crate::running::Running;
use mesh::ReadingSurface;
use place::Place;

// The level that each of two jobs has come to.
#[derive(Clone, Copy, PartialEq, Eq, Debug)]
pub struct Comparison {
    pub first: Level,
    pub second: Level,
}

// Tells both levels. Whatever calls led to them from one base, on stores of any room: both meshes are closed, no call found that
// they were not, they have the base's figure V − E + T, and the base's triangles with as many more as the accepted splits brought
// (`both`). And each of the two balances (`first_balances`, `second_balances`).
pub fn compare<P: Place, Q: Place, S: ReadingSurface<Kind = P>, R: ReadingSurface<Kind = Q>>(
    first: &Running,
    first_store: &S,
    second: &Running,
    second_store: &R,
) -> Comparison
    ensures first { result.first ≡ level_of (S.ReadingSurface.mesh first_store.now) (job_of first.now) }
    ensures second { result.second ≡ level_of (R.ReadingSurface.mesh second_store.now) (job_of second.now) }
    ensures both { TwoJobs P.Place.kind Q.Place.kind (state_of (S.ReadingSurface.mesh first_store.now) (job_of first.now)) (state_of (R.ReadingSurface.mesh second_store.now) (job_of second.now)) }
    ensures first_balances { RunsBalance P.Place.kind (state_of (S.ReadingSurface.mesh first_store.now) (job_of first.now)) }
    ensures second_balances { RunsBalance Q.Place.kind (state_of (R.ReadingSurface.mesh second_store.now) (job_of second.now)) }
{
    Comparison {
        first: first.level(first_store),
        second: second.level(second_store),
    }
}
