// How the chain store grows: each call keeps the chains right.
ghost use Rattle.std.specs.Prelude.{◌≡◌, min, [], length};
ghost use Rattle.mesh.specs.Meshes.{mesh_of};
ghost use Rattle.stores.specs.Chained.{chain_mesh, chain_vertex_room, chain_triangle_room, chain_room_limited, chain_within_room};

use crate::chain::ChainStore;
use crate::chain_record::{ChainTables, ChainTriangle, ChainVertex};
use crate::fits::{
    may_add_triangle, may_add_vertex, may_replace_corner, may_replace_place, room_of,
};
use crate::record::VertexRecord;
use mesh::{GrowingStore, Room, Triangle};
use place::Place;
use std::marker::PhantomData;

impl<'a, P: Place> ChainStore<'a, P> {
    // An empty store, whatever the tables hold. It has room for as many as they are long, within
    // the limits of a mesh.
    pub fn new(triangles: &'a mut [ChainTriangle], vertices: &'a mut [ChainVertex]) -> Self
        ensures empty { chain_mesh P.Place.kind result ≡ mesh_of [] [] }
        ensures room { (chain_vertex_room result ≡ min (length vertices.old) 16384) × (chain_triangle_room result ≡ min (length triangles.old) 32768) }
    {
        ChainStore {
            tables: ChainTables {
                triangles,
                vertices,
            },
            triangle_count: 0,
            vertex_count: 0,
            kind: PhantomData,
        }
    }
}

impl<'a, P: Place> GrowingStore for ChainStore<'a, P> {
    ghost vertex_room = { chain_vertex_room };

    ghost triangle_room = { chain_triangle_room };

    ghost room_limited = { chain_room_limited };

    ghost within_room = { chain_within_room P.Place.kind };

    fn room(&self) -> Room {
        room_of(self.tables.triangles.len(), self.tables.vertices.len())
    }

    fn add_vertex(&mut self, place: P, parent: u32) -> bool {
        if !may_add_vertex(self, self.room().vertices, parent) {
            return false;
        }
        let stored = VertexRecord::new(place, parent);
        self.tables.vertices[self.vertex_count as usize] = ChainVertex { stored, first: 0 };
        self.vertex_count += 1;
        true
    }

    fn add_triangle(&mut self, t: Triangle) -> bool {
        if !may_add_triangle(self, self.room().triangles, t) {
            return false;
        }
        let n = self.triangle_count;
        self.tables.link(3 * n, t.a);
        self.tables.link(3 * n + 1, t.b);
        self.tables.link(3 * n + 2, t.c);
        self.triangle_count = n + 1;
        true
    }

    fn replace_corner(&mut self, t: u32, corner: u8, v: u32) -> bool {
        if !may_replace_corner(self, t, corner, v) {
            return false;
        }
        let at = 3 * t + u32::from(corner);
        let before = self.before(at);
        self.tables.unlink(at, before);
        self.tables.link(at, v);
        true
    }

    fn replace_place(&mut self, v: u32, place: P) -> bool {
        if !may_replace_place(self, v) {
            return false;
        }
        let i = v as usize;
        let parent = self.tables.vertices[i].stored.parent;
        self.tables.vertices[i].stored = VertexRecord::new(place, parent);
        true
    }
}
