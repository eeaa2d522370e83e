// Corners of the chain store's tables, and their links. That a corner is one of the tables' stands
// in each contract: the bound is the length of a table that the call writes to, and a number by
// itself cannot keep it.
ghost use Rattle.std.specs.Prelude.{◌≡◌, ◌+◌, ◌/◌, ◌<◌, length};
ghost use Rattle.stores.specs.Chains.{chain_corner, corner_at, vertex_at, next_at, first_at};
ghost use Rattle.stores.specs.Chains.{put_corner, put_first, relinked, refirsted, Within};

use crate::chain_record::{ChainCorner, ChainTables};

impl<'a> ChainTables<'a> {
    pub(crate) fn corner(&self, i: u32) -> ChainCorner
        requires { i / 3 < length self.now.triangles.now }
        ensures { result ≡ corner_at self.now.triangles.now i }
    {
        self.triangles[(i / 3) as usize].corners[(i % 3) as usize]
    }

    fn put_corner(&mut self, i: u32, x: ChainCorner)
        requires { i / 3 < length self.old.triangles.now }
        ensures written { self.new.triangles.now ≡ put_corner self.old.triangles.now i x }
        ensures same { self.new.vertices.now ≡ self.old.vertices.now }
    {
        let r = &mut self.triangles[(i / 3) as usize];
        r.corners[(i % 3) as usize] = x;
    }

    fn put_first(&mut self, v: u32, link: u32)
        requires { v < length self.old.vertices.now }
        ensures written { self.new.vertices.now ≡ put_first self.old.vertices.now v link }
        ensures same { self.new.triangles.now ≡ self.old.triangles.now }
    {
        self.vertices[v as usize].first = link;
    }

    // Corner i, in no chain, comes to v and goes first in the chain there.
    pub(crate) fn link(&mut self, i: u32, v: u32)
        requires within { i / 3 < length self.old.triangles.now }
        requires small { i < 98304 }
        requires there { v < length self.old.vertices.now }
        ensures corners { self.new.triangles.now ≡ put_corner self.old.triangles.now i (chain_corner v (first_at self.old.vertices.now v)) }
        ensures firsts { self.new.vertices.now ≡ put_first self.old.vertices.now v (i + 1) }
    {
        let next = self.vertices[v as usize].first;
        self.put_corner(i, ChainCorner { vertex: v, next });
        self.put_first(v, i + 1);
    }

    // Corner i goes out of the chain at its vertex, where it follows the corner `before`, or is the
    // first.
    pub(crate) fn unlink(&mut self, i: u32, before: Option<u32>)
        requires within { i / 3 < length self.old.triangles.now }
        requires prior { Within before (length self.old.triangles.now) }
        requires there { vertex_at self.old.triangles.now i < length self.old.vertices.now }
        ensures corners { self.new.triangles.now ≡ relinked self.old.triangles.now before (next_at self.old.triangles.now i) }
        ensures firsts { self.new.vertices.now ≡ refirsted self.old.vertices.now before (vertex_at self.old.triangles.now i) (next_at self.old.triangles.now i) }
    {
        let ChainCorner { vertex, next } = self.corner(i);
        match before {
            Some(p) => {
                let prior = self.corner(p);
                self.put_corner(p, ChainCorner { next, ..prior });
            }
            None => self.put_first(vertex, next),
        }
    }
}
