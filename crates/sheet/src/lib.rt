// The bytes of a sheet as a reading surface.
#![tactic(auto)]

mod checks;
mod opening;
mod puts;
mod sheet;
mod surface;
mod surveying;
#[cfg(test)]
mod tests;
mod theorems;
mod writing;

pub use sheet::Sheet;
pub use surveying::{survey_sheet, survey_sheet_within};
pub use theorems::{sheet_exact, sheets_read_back, worked_sheets};
pub use writing::write_sheet;
