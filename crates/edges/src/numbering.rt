// The question for an edge by its number.
ghost use Rattle.std.specs.Prelude.{◌≡◌, ◌+◌, ◌<◌, ◌≤◌, [], ◌∷◌, ◌++◌};
ghost use Rattle.std.specs.List.{slice_get, dedup};
ghost use Rattle.std.specs.Option.{option_map, option_to_list};
ghost use Rattle.mesh.specs.Triangles.{tri_of};
ghost use Rattle.mesh.specs.Sides.{sides};
ghost use Rattle.mesh.specs.Edges.{edges, rising};
ghost use Rattle.edges.specs.Pairs.{pair_of, pair_between, pairs, same};

use crate::edge::Edge;
use mesh::{MAX_TRIANGLES, ReadingSurface, Triangle};

const MAX_SIDES: usize = 3 * MAX_TRIANGLES as usize;

// The edge with this number in the rising order of (low, high); none if there are not so many. It costs one sort of
// all sides and about 790 KB of stack; never inlined, so that a caller holds that stack only while it asks.
#[inline(never)]
pub fn edge_at<S: ReadingSurface>(surface: &S, number: u32) -> Option<Edge>
    ensures { option_map pair_of result ≡ slice_get (edges (S.mesh surface.now).triangles) number }
{
    let mut sides = SideEdges {
        table: [Edge { low: 0, high: 0 }; MAX_SIDES],
        count: 0,
    };
    sides.add_all(surface);
    sides.nth(number)
}

// The edge of each side with two ends, as the triangles bring them. The table is an array, so
// that no question fails for want of memory.
#[derive(Drop)]
struct SideEdges {
    table: [Edge; MAX_SIDES],
    count: usize,
}

impl SideEdges {
    ghost use Rattle.edges.specs.Listed.{listed};

    // All sides of a surface, into a table with none.
    fn add_all<S: ReadingSurface>(&mut self, surface: &S)
        requires { self.old.count ≡ 0 }
        ensures listed { listed self.new ≡ pairs (sides (S.mesh surface.now).triangles) }
        ensures few { self.new.count ≤ MAX_SIDES }
    {
        for t in surface.triangles() {
            self.add(t);
        }
    }

    // The three sides of a triangle.
    fn add(&mut self, t: Triangle)
        requires { self.old.count + 3 ≤ MAX_SIDES }
        ensures listed { listed self.new ≡ listed self.old ++ pairs (sides (tri_of t ∷ [])) }
        ensures few { self.new.count ≤ self.old.count + 3 }
    {
        self.add_side(t.a, t.b);
        self.add_side(t.b, t.c);
        self.add_side(t.c, t.a);
    }

    fn add_side(&mut self, u: u32, v: u32)
        requires { self.old.count < MAX_SIDES }
        ensures listed { listed self.new ≡ listed self.old ++ option_to_list (pair_between u v) }
        ensures few { self.new.count ≤ self.old.count + 1 }
    {
        if let Some(edge) = Edge::between(u, v) {
            self.table[self.count] = edge;
            self.count += 1;
        }
    }

    // Sorts the edges, and gives the one with this number among the different ones.
    fn nth(&mut self, number: u32) -> Option<Edge>
        requires { self.old.count ≤ MAX_SIDES }
        ensures { option_map pair_of result ≡ slice_get (rising (listed self.old)) number }
    {
        let edges = &mut self.table[..self.count];
        edges.sort_unstable();
        nth_different(edges, number)
    }
}

// The edge with this number among the different ones of a list in which equal ones stand together.
fn nth_different(list: &[Edge], number: u32) -> Option<Edge>
    ensures { result ≡ slice_get (dedup same list.now) number }
{
    list.chunk_by(|e, f| e == f)
        .nth(number as usize)?
        .first()
        .copied()
}
