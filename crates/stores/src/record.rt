// A vertex as it is stored.
ghost use Rattle.std.specs.Prelude.{◌≡◌};
ghost use Rattle.mesh.specs.Meshes.{vertex_of};

use place::Place;

// The place in its byte form, zeros behind it, and the vertex that this one was split from.
#[derive(Clone, Copy)]
pub struct VertexRecord {
    pub place: [u8; 12],
    pub parent: u32,
}

impl VertexRecord {
    ghost use Rattle.stores.specs.Records.{vertex_in};

    // What a table may be filled with before a store takes it.
    pub const UNUSED: VertexRecord = VertexRecord {
        place: [0; 12],
        parent: 0,
    };

    // The record of a vertex, which reads back as that vertex.
    pub(crate) fn new<P: Place>(place: P, parent: u32) -> VertexRecord
        ensures { vertex_in P.Place.kind result ≡ vertex_of place parent }
    {
        let place = place.to_bytes();
        VertexRecord { place, parent }
    }

    // The place that the record's bytes are read as, or the origin where they are none.
    pub(crate) fn place<P: Place>(&self) -> P
        ensures { result ≡ (vertex_in P.Place.kind self.now).place }
    {
        P::read(&self.place).unwrap_or(P::origin())
    }
}
