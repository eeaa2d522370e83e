// The edges of any surface by number, in the rising order of their ends.
#![tactic(auto)]

mod edge;
mod numbering;

pub use edge::Edge;
pub use numbering::edge_at;
