// The sides of a surface, linked by the vertices in which they start.
ghost use Rattle.std.specs.Prelude.{◌≡◌, ℕ, ◌+◌, ◌*◌, ◌^◌, ◌<◌, ◌≤◌, List, Some, length};
ghost use Rattle.std.specs.List.{slice_get};
ghost use Rattle.mesh.specs.Triangles.{Tri, tri_of};
ghost use Rattle.mesh.specs.Sides.{Side, side, sides, side_of};
ghost use Rattle.mesh.specs.Meshes.{vertex_total, triangle_total};
ghost use Rattle.engine.specs.Linking.{Linked};

use mesh::{ReadingSurface, Triangle};

// Puts side i, u→v, in front of the sides that start in u. A start that is no vertex has no chain.
fn link_side(firsts: &mut [u32], ends: &mut [u32], nexts: &mut [u32], i: u32, u: u32, v: u32)
    requires ends_room { i < length ends.old }
    requires nexts_room { i < length nexts.old }
    requires small { i + 1 < 2 ^ 32 }
    ensures { (ss : List Side) → slice_get ss i ≡ Some (side u v) → Linked ss (i + 1) firsts.old ends.old nexts.old → Linked ss i firsts.new ends.new nexts.new }
{
    ends[i as usize] = v;
    if (u as usize) < firsts.len() {
        nexts[i as usize] = firsts[u as usize];
        firsts[u as usize] = i + 1;
    }
}

// The same for the three sides of triangle n, from the last to the first.
fn link_triangle(firsts: &mut [u32], ends: &mut [u32], nexts: &mut [u32], n: u32, t: Triangle)
    requires ends_room { 3 * n + 2 < length ends.old }
    requires nexts_room { 3 * n + 2 < length nexts.old }
    requires small { 3 * n + 3 < 2 ^ 32 }
    ensures { (ts : List Tri) → slice_get ts n ≡ Some (tri_of t) → Linked (sides ts) (3 * n + 3) firsts.old ends.old nexts.old → Linked (sides ts) (3 * n) firsts.new ends.new nexts.new }
{
    link_side(firsts, ends, nexts, 3 * n + 2, t.c, t.a);
    link_side(firsts, ends, nexts, 3 * n + 1, t.b, t.c);
    link_side(firsts, ends, nexts, 3 * n, t.a, t.b);
}

// Links the sides of all triangles. From the last triangle to the first, so that links rise along a chain.
fn link_triangles<S: ReadingSurface>(s: &S, firsts: &mut [u32], ends: &mut [u32], nexts: &mut [u32])
    requires ends_room { length ends.old ≡ 3 * triangle_total (S.mesh s.now) }
    requires nexts_room { length nexts.old ≡ 3 * triangle_total (S.mesh s.now) }
    ensures { Linked (sides (S.mesh s.now).triangles) 0 firsts.new ends.new nexts.new }
{
    firsts.fill(0);
    for n in (0..s.triangle_count()).rev() {
        if let Some(t) = s.triangle(n) {
            link_triangle(firsts, ends, nexts, n, t);
        }
    }
}

// A surface with a chain of sides for each vertex. Side k of triangle t has the number 3t + k, the link to side i is i + 1,
// and 0 is the end.
#[derive(Drop)]
pub(crate) struct Index<'s, 't, S: ReadingSurface> {
    surface: &'s S,
    firsts: &'t [u32],
    ends: &'t [u32],
    nexts: &'t [u32],
    ghost linked: { Linked (sides (S.mesh surface.now).triangles) 0 firsts.now ends.now nexts.now },
    ghost ends_room: { length ends.now ≡ 3 * triangle_total (S.mesh surface.now) },
    ghost nexts_room: { length nexts.now ≡ 3 * triangle_total (S.mesh surface.now) },
}

impl<'s, 't, S: ReadingSurface> Index<'s, 't, S> {
    // How many numbers an index has: one for each vertex, and two for each side.
    pub(crate) fn size(surface: &S) -> usize
        ensures { result ≡ vertex_total (S.mesh surface.now) + 6 * triangle_total (S.mesh surface.now) }
    {
        (surface.vertex_count() + 6 * surface.triangle_count()) as usize
    }

    // Links the sides of a surface in the front of a table.
    pub(crate) fn new(surface: &'s S, table: &'t mut [u32]) -> Self
        requires { vertex_total (S.mesh surface.now) + 6 * triangle_total (S.mesh surface.now) ≤ length table.old }
        ensures { result.surface.now ≡ surface.now }
    {
        let sides = 3 * surface.triangle_count() as usize;
        let (firsts, rest) = table.split_at_mut(surface.vertex_count() as usize);
        let (ends, rest) = rest.split_at_mut(sides);
        let (nexts, _) = rest.split_at_mut(sides);
        link_triangles(surface, firsts, ends, nexts);
        Index {
            surface,
            firsts,
            ends,
            nexts,
        }
    }

    // The lowest triangle with the side u→v, along the chain of u.
    fn linked_side(&self, u: u32, v: u32) -> Option<u32>
        requires { u < length self.now.firsts.now }
        ensures { result ≡ side_of (S.mesh self.now.surface.now).triangles u v }
    {
        let mut link = self.firsts[u as usize];
        while link > 0 {
            let i = link - 1;
            if self.ends[i as usize] == v {
                return Some(i / 3);
            }
            link = self.nexts[i as usize];
        }
        None
    }
}

impl<'s, 't, S: ReadingSurface> ReadingSurface for Index<'s, 't, S> {
    type Kind = S::Kind;

    ghost mesh = { λ x. S.mesh x.surface.now };

    ghost limited = { λ x. S.limited x.surface.now };

    fn vertex_count(&self) -> u32 {
        self.surface.vertex_count()
    }

    fn triangle_count(&self) -> u32 {
        self.surface.triangle_count()
    }

    fn triangle(&self, t: u32) -> Option<Triangle> {
        self.surface.triangle(t)
    }

    fn place(&self, v: u32) -> Option<S::Kind> {
        self.surface.place(v)
    }

    fn parent(&self, v: u32) -> Option<u32> {
        self.surface.parent(v)
    }

    // The chains are those of the vertices. Other sides are left to the surface.
    fn side(&self, u: u32, v: u32) -> Option<u32> {
        if (u as usize) < self.firsts.len() {
            self.linked_side(u, v)
        } else {
            self.surface.side(u, v)
        }
    }
}
