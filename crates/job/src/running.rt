// A job that has a base, by its numbers.
ghost use Rattle.std.specs.Prelude.{◌≡◌, ◌+◌, ◌*◌, ◌%◌, ◌≤◌};

mod calls;
mod questions;
mod splitting;

// The base's counts, the accepted records, and the forest edges and trees of these.
#[derive(Drop)]
pub struct Running {
    base_vertices: u32,
    base_triangles: u32,
    records: u32,
    forest_edges: u32,
    trees: u32,
    // The trees are at most half the edges, and each record has more edges than trees.
    ghost halved: { 2 * trees ≤ forest_edges },
    ghost grown: { records + trees ≤ forest_edges },
    // Base plus growth is within the limits.
    ghost vertices_fit: { base_vertices + forest_edges ≤ 16384 + trees },
    ghost triangles_fit: { base_triangles + 2 * forest_edges ≤ 32768 + 2 * trees },
    // A closed mesh has an even number of triangles.
    ghost even: { base_triangles % 2 ≡ 0 },
}
