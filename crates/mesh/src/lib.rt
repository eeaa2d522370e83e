// Closed triangle meshes: what they are, what a surface tells of one, and how one grows.
#![tactic(auto)]

mod copying;
mod growing;
mod limits;
mod passes;
mod surface;
mod theorems;
mod triangle;

pub use copying::copy_surface;
pub use growing::GrowingStore;
pub use limits::{MAX_TRIANGLES, MAX_VERTICES, MIN_TRIANGLES, MIN_VERTICES, Room, Totals};
pub use passes::{Places, Triangles};
pub use surface::ReadingSurface;
pub use theorems::{edges_counted, edges_listed, follow_ends, sides_found};
pub use triangle::Triangle;
