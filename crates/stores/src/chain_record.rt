// The records of the chain store.
ghost use Rattle.std.specs.Prelude.{◌≡◌};
ghost use Rattle.mesh.specs.Triangles.{tri_of};

use crate::record::VertexRecord;
use mesh::Triangle;

// A corner: its vertex, and the link to the next corner at that vertex. Corner k of triangle t has
// the number 3t + k. The link to a corner is its number and one, and the link 0 ends a chain: an
// `Option` would make each corner half as large again. Links are numbers, since the tables are lent and memory is fixed.
#[derive(Clone, Copy)]
pub struct ChainCorner {
    pub vertex: u32,
    pub next: u32,
}

#[derive(Clone, Copy)]
pub struct ChainTriangle {
    pub corners: [ChainCorner; 3],
}

// A vertex, and the link to the first corner at it.
#[derive(Clone, Copy)]
pub struct ChainVertex {
    pub stored: VertexRecord,
    pub first: u32,
}

impl ChainCorner {
    const UNUSED: ChainCorner = ChainCorner { vertex: 0, next: 0 };
}

impl ChainTriangle {
    ghost use Rattle.stores.specs.Chains.{corners_in};

    // What a table may be filled with before a store takes it.
    pub const UNUSED: ChainTriangle = ChainTriangle {
        corners: [ChainCorner::UNUSED; 3],
    };

    pub(crate) fn triangle(&self) -> Triangle
        ensures { tri_of result ≡ corners_in self.now }
    {
        let [a, b, c] = self.corners;
        Triangle {
            a: a.vertex,
            b: b.vertex,
            c: c.vertex,
        }
    }
}

impl ChainVertex {
    // What a table may be filled with before a store takes it.
    pub const UNUSED: ChainVertex = ChainVertex {
        stored: VertexRecord::UNUSED,
        first: 0,
    };
}

// The two tables of a chain store.
#[derive(Drop)]
pub(crate) struct ChainTables<'a> {
    pub(crate) triangles: &'a mut [ChainTriangle],
    pub(crate) vertices: &'a mut [ChainVertex],
}
