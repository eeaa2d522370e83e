// Jobs and runs of calls, by definition.
#![tactic(auto)]

mod theorems;

pub use theorems::{
    decoded_cases, never_too_short, outcome_cases, reports_true, run_cases, runs_begin, runs_go_on,
    split_outcome_keeps, two_jobs, worked_cases,
};
