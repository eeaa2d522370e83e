// The limits of a mesh's counts.
ghost use Rattle.std.specs.Prelude.{◌≡◌, ◌≤◌};

use fault::{Count, Fault};

pub const MIN_VERTICES: u32 = 3;

pub const MAX_VERTICES: u32 = 16_384;

pub const MIN_TRIANGLES: u32 = 2;

pub const MAX_TRIANGLES: u32 = 32_768;

// How many vertices and triangles there may be: any numbers, where those of a mesh, `Totals`, are within its limits.
#[derive(Clone, Copy, PartialEq, Eq, Debug)]
pub struct Room {
    pub vertices: u32,
    pub triangles: u32,
}

// How many vertices and triangles there are, within the limits.
#[derive(Clone, Copy, PartialEq, Eq, Debug)]
pub struct Totals {
    pub vertices: u32,
    pub triangles: u32,
    ghost few_vertices: { vertices ≤ 16384 },
    ghost few_triangles: { triangles ≤ 32768 },
}

impl Totals {
    ghost use Rattle.mesh.specs.Limits.{counts_fault, totals_unless, totals_told};

    // Refuses the first of the two counts that is out of a mesh's limits.
    pub fn new(vertices: u32, triangles: u32) -> Result<Totals, Fault>
        ensures { totals_told result ≡ totals_unless (counts_fault vertices triangles) vertices triangles }
    {
        if !(MIN_VERTICES..=MAX_VERTICES).contains(&vertices) {
            return Err(Fault::SheetCounts(Count::Vertices));
        }
        if !(MIN_TRIANGLES..=MAX_TRIANGLES).contains(&triangles) {
            return Err(Fault::SheetCounts(Count::Triangles));
        }
        Ok(Totals {
            vertices,
            triangles,
        })
    }
}
