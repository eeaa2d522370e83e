// Stores of meshes in tables that are lent to them.
#![tactic(auto)]

mod chain;
mod chain_growing;
mod chain_links;
mod chain_reading;
mod chain_record;
mod chain_walk;
mod fits;
mod list;
mod list_growing;
mod list_reading;
mod record;

pub use chain::ChainStore;
pub use chain_record::{ChainCorner, ChainTriangle, ChainVertex};
pub use list::ListStore;
pub use record::VertexRecord;
