// The list store: triangles and vertices in order of their numbers.
ghost use Rattle.std.specs.Prelude.{◌≤◌, min, length};

use crate::record::VertexRecord;
use mesh::Triangle;
use std::marker::PhantomData;

// The records in use are the first ones of each table. `P` is the kind of place. Each table has its
// count beside it, since the tables are lent and memory is fixed: a store cannot grow them.
#[derive(Drop)]
pub struct ListStore<'a, P> {
    pub(crate) triangles: &'a mut [Triangle],
    pub(crate) triangle_count: u32,
    pub(crate) vertices: &'a mut [VertexRecord],
    pub(crate) vertex_count: u32,
    pub(crate) kind: PhantomData<P>,
    ghost triangles_fit: { triangle_count ≤ min (length triangles.now) 32768 },
    ghost vertices_fit: { vertex_count ≤ min (length vertices.now) 16384 },
}
