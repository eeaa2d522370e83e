// Records: what a split is written in.
#![tactic(auto)]

mod layout;
mod limits;
mod marks;
mod numbers;
mod parts;
mod record;
#[cfg(test)]
mod tests;
mod theorems;
#[cfg(test)]
mod writer_tests;

pub use layout::{Layout, Stretch};
pub use limits::{MAX_CODES, MAX_MARKS};
pub use marks::{code_at, count_marks, mark_at};
pub use parts::Parts;
pub use record::Record;
pub use theorems::{one_to_one, reads_back, writes_back};
