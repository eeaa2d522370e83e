// The survey of a surface: its counts if it is a closed mesh, else its first fault.
#![tactic(auto)]

mod checks;
mod counts;
mod indexed;
mod ring;
mod tally;
mod telling;
mod theorems;

pub use counts::Counts;
pub use indexed::survey_indexed;
pub use telling::survey;
pub use theorems::{ring_walk_exact, spots_mean, survey_cases, survey_exact};
