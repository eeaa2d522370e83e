// The first triangle of a split with a side that a lower one has.
ghost use Rattle.std.specs.Prelude.{◌≡◌, ◌+◌, ◌*◌, ◌≤◌, [], ◌++◌, length};
ghost use Rattle.mesh.specs.Triangles.{tri_of};
ghost use Rattle.mesh.specs.Sides.{side, sides};
ghost use Rattle.mesh.specs.Meshes.{vertex_total, triangle_total};
ghost use Rattle.forest.specs.Marks.{has_side};
ghost use Rattle.forest.specs.Splitting.{first_twice};
ghost use Rattle.forest.specs.Theorems.{origin};
ghost use Rattle.forest.specs.Tables.{word_tris};
ghost use Rattle.engine.specs.Clashes.{Leading, Sewable, has_some_side};

use crate::triples::triangle_at;
use mesh::{ReadingSurface, Triangle};

// The old triangles with new corners, three numbers for each, and the vertices that the new numbers came from.
#[derive(Clone, Copy)]
struct Kept<'a, S> {
    surface: &'a S,
    corners: &'a [u32],
    parents: &'a [u32],
}

impl<S: ReadingSurface> Kept<'_, S> {
    // The vertex before the split that a number came from.
    fn came_from(&self, number: u32) -> u32
        ensures { result ≡ origin (vertex_total (S.ReadingSurface.mesh self.now.surface.now)) self.now.parents.now number }
    {
        let old = self.surface.vertex_count();
        if number < old {
            return number;
        }
        let parent = self.parents.get((number - old) as usize);
        parent.copied().unwrap_or(0)
    }

    // Whether an old triangle now has the side p→q. Only the one with the side that this came from can have it.
    fn has_side(&self, p: u32, q: u32) -> bool
        requires { Leading (S.ReadingSurface.mesh self.now.surface.now) self.now.corners.now self.now.parents.now }
        ensures { result ≡ has_side (side p q) (sides (word_tris self.now.corners.now)) }
    {
        let from = self.came_from(p);
        let to = self.came_from(q);
        let Some(t) = self.surface.side(from, to) else {
            return false;
        };
        triangle_at(self.corners, t as usize)
            .side_corner(p, q)
            .is_some()
    }

    // Whether an old triangle now has a side of t.
    fn has_side_of(&self, t: Triangle) -> bool
        requires { Leading (S.ReadingSurface.mesh self.now.surface.now) self.now.corners.now self.now.parents.now }
        ensures { result ≡ has_some_side (tri_of t) (sides (word_tris self.now.corners.now)) }
    {
        self.has_side(t.a, t.b) || self.has_side(t.b, t.c) || self.has_side(t.c, t.a)
    }
}

// The first triangle with a side that a lower one has, of the old ones with their new corners and those that are added.
// Such a triangle is an added one, and the lower one is old.
pub(crate) fn first_clash<S: ReadingSurface>(
    s: &S,
    corners: &[u32],
    parents: &[u32],
    added: &[u32],
) -> Option<u32>
    requires whole { length corners.now ≡ 3 * triangle_total (S.ReadingSurface.mesh s.now) }
    requires sewable { Sewable (vertex_total (S.ReadingSurface.mesh s.now)) (S.ReadingSurface.mesh s.now).triangles (word_tris corners.now) parents.now (word_tris added.now) }
    requires few { triangle_total (S.ReadingSurface.mesh s.now) + length (word_tris added.now) ≤ 32768 }
    ensures { result ≡ first_twice 0 [] (word_tris corners.now ++ word_tris added.now) }
{
    let kept = Kept {
        surface: s,
        corners,
        parents,
    };
    let old = s.triangle_count();
    for t in 0..added.len() / 3 {
        if kept.has_side_of(triangle_at(added, t)) {
            return Some(old + t as u32);
        }
    }
    None
}
