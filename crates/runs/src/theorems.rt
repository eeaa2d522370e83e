// Theorems over runs of calls.
ghost use Rattle.runs.specs.Cases.{OutcomeCases, RunCases, WorkedCases};
ghost use Rattle.runs.specs.Decoded.{DecodedCases};
ghost use Rattle.runs.specs.Reports.{ReportsTrue};
ghost use Rattle.runs.specs.Runs.{RunsBegin, RunsGoOn};
ghost use Rattle.runs.specs.Splits.{NeverTooShort, SplitOutcomeKeeps};
ghost use Rattle.runs.specs.Statement.{AnyTwoJobs};

use forest::split_cases;
use place::Place;
use survey::survey_cases;

// Split calls on the block, worked out from the bytes.
pub fn outcome_cases()
    ensures { OutcomeCases }
{}

// The worked cases of surveys, of the steps of a split and of split calls, in one list.
pub fn worked_cases()
    ensures { WorkedCases }
{
    survey_cases();
    split_cases();
    outcome_cases();
}

// A run on the block, from the bytes of its sheet.
pub fn run_cases()
    ensures { RunCases }
{}

// A record that the split call accepts keeps the mesh closed, with the counts, parents and triangles that it should have.
pub fn split_outcome_keeps<P: Place>()
    ensures { SplitOutcomeKeeps P.Place.kind }
{}

// No split call is refused because the loop of a tree comes round too early.
pub fn never_too_short<P: Place>()
    ensures { NeverTooShort P.Place.kind }
{}

// Any two jobs that took the same base mesh keep closed meshes with one figure, true tallies, and the base's triangles.
pub fn two_jobs<P: Place, Q: Place>()
    ensures { AnyTwoJobs P.Place.kind Q.Place.kind }
{}

// An accepted base call on an empty store begins a run.
pub fn runs_begin<P: Place>()
    ensures { RunsBegin P.Place.kind }
{}

// Every call, accepted or refused, goes on every run that ends where it is made.
pub fn runs_go_on<P: Place>()
    ensures { RunsGoOn P.Place.kind }
{}

// The numbers of a running job keep to their limits, and the report tells the counts of the store's mesh.
pub fn reports_true<P: Place>()
    ensures { ReportsTrue P.Place.kind }
{}

// Splits of small meshes come out as an independent decoder gives them.
pub fn decoded_cases()
    ensures { DecodedCases }
{}
