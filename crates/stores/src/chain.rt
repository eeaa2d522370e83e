// The chain store: triangles and vertices in order of their numbers, and a chain through the
// corners at each vertex. It stands beside the list store since both are asked for, over records
// that differ; what they do alike stands once (`fits`).
ghost use Rattle.std.specs.Prelude.{ℕ, ◌*◌, ◌<◌, ◌≤◌, min, length};
ghost use Rattle.stores.specs.Chains.{vertex_at, first_at, Ends, Holds};

use crate::chain_record::ChainTables;
use std::marker::PhantomData;

// The records in use are the first ones of each table. `P` is the kind of place. The counts stand
// beside the tables, since these are lent and memory is fixed: a store cannot grow them.
#[derive(Drop)]
pub struct ChainStore<'a, P> {
    pub(crate) tables: ChainTables<'a>,
    pub(crate) triangle_count: u32,
    pub(crate) vertex_count: u32,
    pub(crate) kind: PhantomData<P>,
    ghost triangles_fit: { triangle_count ≤ min (length tables.triangles.now) 32768 },
    ghost vertices_fit: { vertex_count ≤ min (length tables.vertices.now) 16384 },
    // Each corner is at a vertex in use.
    ghost placed: { (i : ℕ) → i < 3 * triangle_count → vertex_at tables.triangles.now i < vertex_count },
    // The chain of each vertex ends, and holds the corners at it.
    ghost ends: { (v : ℕ) → v < vertex_count → Ends (3 * triangle_count) tables.triangles.now (first_at tables.vertices.now v) },
    ghost holds: { (v : ℕ) → v < vertex_count → Holds (3 * triangle_count) tables.triangles.now (first_at tables.vertices.now v) v },
}
