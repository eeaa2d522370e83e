// The chain store as a surface: it goes along the chain of the side's start.
ghost use Rattle.stores.specs.Chained.{chain_mesh, chain_limited};

use crate::chain::ChainStore;
use crate::fits::in_use;
use mesh::{ReadingSurface, Triangle};
use place::Place;

impl<'a, P: Place> ReadingSurface for ChainStore<'a, P> {
    type Kind = P;

    ghost mesh = { chain_mesh P.Place.kind };

    ghost limited = { chain_limited P.Place.kind };

    fn vertex_count(&self) -> u32 {
        self.vertex_count
    }

    fn triangle_count(&self) -> u32 {
        self.triangle_count
    }

    fn triangle(&self, t: u32) -> Option<Triangle> {
        in_use(self.tables.triangles, self.triangle_count)
            .get(t as usize)
            .map(|r| r.triangle())
    }

    fn place(&self, v: u32) -> Option<P> {
        in_use(self.tables.vertices, self.vertex_count)
            .get(v as usize)
            .map(|r| r.stored.place())
    }

    fn parent(&self, v: u32) -> Option<u32> {
        in_use(self.tables.vertices, self.vertex_count)
            .get(v as usize)
            .map(|r| r.stored.parent)
    }

    fn side(&self, u: u32, v: u32) -> Option<u32> {
        // Chains begin at the vertices in use.
        if u >= self.vertex_count {
            return None;
        }
        self.corners_at(u)
            .map(|i| i / 3)
            .filter(|&t| self.triangle(t).and_then(|x| x.side_corner(u, v)).is_some())
            .min()
    }
}
