// The marked edges of a mesh.
ghost use Rattle.std.specs.Prelude.{◌≡◌, ◌<◌, length};
ghost use Rattle.forest.specs.Marks.{has_side, is_marked};
ghost use Rattle.forest.specs.Tables.{Climbing, key_side};
ghost use Rattle.mesh.specs.Sides.{side};
ghost use Rattle.engine.specs.Marking.{marked, Upward};

use mesh::MAX_VERTICES;

// The keys of the edges, rising, and a number for each, 1 where it is marked. The key of an edge is 16,384 times its lower
// end plus its higher end.
#[derive(Clone, Copy)]
pub(crate) struct Marking<'t> {
    pub(crate) keys: &'t [u32],
    pub(crate) marks: &'t [u32],
    ghost climbing: { Climbing keys.now },
    ghost upward: { Upward keys.now },
    ghost paired: { length marks.now ≡ length keys.now },
}

// The key of the side from u to v.
pub(crate) fn key_of(u: u32, v: u32) -> u32
    requires start { u < MAX_VERTICES }
    requires end { v < MAX_VERTICES }
    ensures { key_side result ≡ side u v }
{
    MAX_VERTICES * u + v
}

impl<'t> Marking<'t> {
    // The edges with these keys, each marked where its number is 1.
    pub(crate) fn new(keys: &'t [u32], marks: &'t [u32]) -> Self
        requires climbing { Climbing keys.now }
        requires upward { Upward keys.now }
        requires paired { length marks.now ≡ length keys.now }
        ensures keys { result.keys.now ≡ keys.now }
        ensures marks { result.marks.now ≡ marks.now }
    {
        Marking { keys, marks }
    }

    // Whether the edge from the lower to the higher end is marked.
    fn has_mark(&self, low: u32, high: u32) -> bool
        ensures { result ≡ has_side (side low high) (marked self.now.keys.now self.now.marks.now) }
    {
        if low >= high || high >= MAX_VERTICES {
            return false;
        }
        self.keys
            .binary_search(&key_of(low, high))
            .is_ok_and(|e| self.marks[e] == 1)
    }

    // Whether an edge between v and x is marked.
    pub(crate) fn is_marked(&self, v: u32, x: u32) -> bool
        ensures { result ≡ is_marked (marked self.now.keys.now self.now.marks.now) v x }
    {
        self.has_mark(v.min(x), v.max(x))
    }
}
