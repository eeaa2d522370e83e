// A level of detail: what is found in the store, and what the job tells.
ghost use Rattle.std.specs.Prelude.{◌≡◌};
ghost use Rattle.job.specs.Balance.{balanced};

use crate::closed::Report;
use fault::Fault;
use survey::Counts;

// The counts that a survey finds in a job's store, and those that follow from the base's counts and the tallies.
#[derive(Clone, Copy, PartialEq, Eq, Debug)]
pub struct Level {
    pub found: Result<Counts, Fault>,
    pub told: Report,
}

impl Level {
    // Whether what is found is what is told.
    pub fn balances(&self) -> bool
        ensures { result ≡ balanced self.now.found self.now.told }
    {
        self.found.is_ok_and(|counts| {
            counts.vertices == self.told.vertices
                && counts.edges == self.told.edges
                && counts.triangles == self.told.triangles
        })
    }
}
