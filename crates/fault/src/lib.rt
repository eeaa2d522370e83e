// Why a call refuses.
#![tactic(auto)]

mod fault;
mod layer;
mod told;

pub use fault::{Count, Fault};
pub use layer::Layer;
