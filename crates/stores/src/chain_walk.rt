// Walks along a chain.
ghost use Rattle.std.specs.Prelude.{◌≡◌, ◌*◌, ◌<◌, All, length};
ghost use Rattle.std.specs.Iterator.{YieldsFirst, item_count};
ghost use Rattle.stores.specs.Chains.{vertex_at, next_at, first_at, Ends, walk};
ghost use Rattle.stores.specs.Before.{Before};

use crate::chain::ChainStore;
use crate::chain_record::ChainTriangle;

// The numbers of the corners of a chain, from a link on. They are corners of the table.
#[derive(Drop)]
pub(crate) struct Chain<'t> {
    pub(crate) triangles: &'t [ChainTriangle],
    pub(crate) link: u32,
    ghost ends: { Ends (3 * length triangles.now) triangles.now link },
    ghost within: { All (λ i. i < 3 * length triangles.now) (walk (3 * length triangles.now) (next_at triangles.now) link) },
}

impl<'t> Iterator for Chain<'t> {
    ghost use Rattle.stores.specs.Walks.{corners_left};

    type Item = u32;

    ghost next_gives = { YieldsFirst corners_left };

    ghost remaining = { item_count corners_left };

    fn next(&mut self) -> Option<u32> {
        let i = self.link.checked_sub(1)?;
        self.link = self.triangles[(i / 3) as usize].corners[(i % 3) as usize].next;
        Some(i)
    }
}

impl<'a, P> ChainStore<'a, P> {
    ghost use Rattle.stores.specs.Walks.{corners_left};

    // The corners at vertex v, along its chain.
    pub(crate) fn corners_at(&self, v: u32) -> Chain<'_>
        requires { v < self.now.vertex_count }
        ensures { corners_left result ≡ walk (3 * self.now.triangle_count) (next_at self.now.tables.triangles.now) (first_at self.now.tables.vertices.now v) }
    {
        Chain {
            triangles: self.tables.triangles,
            link: self.tables.vertices[v as usize].first,
        }
    }

    // The corner before corner i in the chain at its vertex, none if corner i is the first.
    pub(crate) fn before(&self, i: u32) -> Option<u32>
        requires { i < 3 * self.now.triangle_count }
        ensures { Before (3 * self.now.triangle_count) self.now.tables.triangles.now (first_at self.now.tables.vertices.now (vertex_at self.now.tables.triangles.now i)) i result }
    {
        let v = self.tables.corner(i).vertex;
        self.corners_at(v).take_while(|&j| j != i).last()
    }
}
