// The survey of a sheet for C programs.
#![tactic(auto)]

mod call;
mod packing;
mod surveying;

pub use call::wz_survey_sheet;
