// How the list store grows: records are written in place, and a new one goes behind those in use.
ghost use Rattle.std.specs.Prelude.{◌≡◌, min, [], length};
ghost use Rattle.mesh.specs.Meshes.{mesh_of};
ghost use Rattle.stores.specs.Listed.{list_mesh, list_vertex_room, list_triangle_room, list_room_limited, list_within_room};

use crate::fits::{
    may_add_triangle, may_add_vertex, may_replace_corner, may_replace_place, room_of,
};
use crate::list::ListStore;
use crate::record::VertexRecord;
use mesh::{GrowingStore, Room, Triangle};
use place::Place;
use std::marker::PhantomData;

impl<'a, P: Place> ListStore<'a, P> {
    // An empty store, whatever the tables hold. It has room for as many as they are long, within
    // the limits of a mesh.
    pub fn new(triangles: &'a mut [Triangle], vertices: &'a mut [VertexRecord]) -> Self
        ensures empty { list_mesh P.Place.kind result ≡ mesh_of [] [] }
        ensures room { (list_vertex_room result ≡ min (length vertices.old) 16384) × (list_triangle_room result ≡ min (length triangles.old) 32768) }
    {
        ListStore {
            triangles,
            triangle_count: 0,
            vertices,
            vertex_count: 0,
            kind: PhantomData,
        }
    }
}

impl<'a, P: Place> GrowingStore for ListStore<'a, P> {
    ghost vertex_room = { list_vertex_room };

    ghost triangle_room = { list_triangle_room };

    ghost room_limited = { list_room_limited };

    ghost within_room = { list_within_room P.Place.kind };

    fn room(&self) -> Room {
        room_of(self.triangles.len(), self.vertices.len())
    }

    fn add_vertex(&mut self, place: P, parent: u32) -> bool {
        if !may_add_vertex(self, self.room().vertices, parent) {
            return false;
        }
        self.vertices[self.vertex_count as usize] = VertexRecord::new(place, parent);
        self.vertex_count += 1;
        true
    }

    fn add_triangle(&mut self, t: Triangle) -> bool {
        if !may_add_triangle(self, self.room().triangles, t) {
            return false;
        }
        self.triangles[self.triangle_count as usize] = t;
        self.triangle_count += 1;
        true
    }

    fn replace_corner(&mut self, t: u32, corner: u8, v: u32) -> bool {
        if !may_replace_corner(self, t, corner, v) {
            return false;
        }
        let i = t as usize;
        self.triangles[i] = self.triangles[i].with_corner(corner, v);
        true
    }

    fn replace_place(&mut self, v: u32, place: P) -> bool {
        if !may_replace_place(self, v) {
            return false;
        }
        let i = v as usize;
        let parent = self.vertices[i].parent;
        self.vertices[i] = VertexRecord::new(place, parent);
        true
    }
}
