// Jobs: a base and the splits that follow it.
#![tactic(auto)]

mod basing;
mod closed;
mod comparing;
mod following;
mod level;
mod opened;
mod running;

pub use closed::{Closed, Report};
pub use comparing::{Comparison, compare};
pub use level::Level;
pub use opened::{Opened, Refused, open};
pub use running::Running;
