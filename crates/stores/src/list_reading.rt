// The list store as a surface: it searches its triangles for a side.
ghost use Rattle.stores.specs.Listed.{list_mesh, list_limited};

use crate::fits::in_use;
use crate::list::ListStore;
use mesh::{ReadingSurface, Triangle};
use place::Place;

impl<'a, P: Place> ReadingSurface for ListStore<'a, P> {
    type Kind = P;

    ghost mesh = { list_mesh P.Place.kind };

    ghost limited = { list_limited P.Place.kind };

    fn vertex_count(&self) -> u32 {
        self.vertex_count
    }

    fn triangle_count(&self) -> u32 {
        self.triangle_count
    }

    fn triangle(&self, t: u32) -> Option<Triangle> {
        in_use(self.triangles, self.triangle_count)
            .get(t as usize)
            .copied()
    }

    fn place(&self, v: u32) -> Option<P> {
        in_use(self.vertices, self.vertex_count)
            .get(v as usize)
            .map(|r| r.place())
    }

    fn parent(&self, v: u32) -> Option<u32> {
        in_use(self.vertices, self.vertex_count)
            .get(v as usize)
            .map(|r| r.parent)
    }

    fn side(&self, u: u32, v: u32) -> Option<u32> {
        in_use(self.triangles, self.triangle_count)
            .iter()
            .position(|t| t.side_corner(u, v).is_some())
            .map(|i| i as u32)
    }
}
