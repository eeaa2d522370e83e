// The edges of a closed mesh, listed by their keys.
ghost use Rattle.std.specs.Prelude.{◌≡◌, ◌+◌, ◌<◌, ◌≤◌, [], ◌∷◌, ◌++◌, length, take, filter};
ghost use Rattle.mesh.specs.Triangles.{tri_of};
ghost use Rattle.mesh.specs.Sides.{side, sides};
ghost use Rattle.mesh.specs.Meshes.{vertex_total};
ghost use Rattle.mesh.specs.Closed.{Closed};
ghost use Rattle.mesh.specs.Edges.{edges, up};
ghost use Rattle.survey.specs.Tables.{Below};
ghost use Rattle.forest.specs.Tables.{Climbing, key_sides};
ghost use Rattle.engine.specs.Marking.{Upward};

use crate::marking::key_of;
use mesh::{MAX_VERTICES, ReadingSurface, Triangle};

// Puts the key of the side u→v behind the first `count` keys if it goes upward. Answers how many keys there are then.
fn put_side(keys: &mut [u32], count: usize, u: u32, v: u32) -> usize
    requires start { u < MAX_VERTICES }
    requires end { v < MAX_VERTICES }
    requires room { count + length (filter up (side u v ∷ [])) ≤ length keys.old }
    ensures count { result ≡ count + length (filter up (side u v ∷ [])) }
    ensures listed { key_sides (take result keys.new) ≡ key_sides (take count keys.old) ++ filter up (side u v ∷ []) }
{
    if u >= v {
        return count;
    }
    keys[count] = key_of(u, v);
    count + 1
}

// The same for the three sides of a triangle.
fn put_sides(keys: &mut [u32], count: usize, t: Triangle) -> usize
    requires below { Below MAX_VERTICES (tri_of t) }
    requires room { count + length (filter up (sides (tri_of t ∷ []))) ≤ length keys.old }
    ensures count { result ≡ count + length (filter up (sides (tri_of t ∷ []))) }
    ensures listed { key_sides (take result keys.new) ≡ key_sides (take count keys.old) ++ filter up (sides (tri_of t ∷ [])) }
{
    let count = put_side(keys, count, t.a, t.b);
    let count = put_side(keys, count, t.b, t.c);
    put_side(keys, count, t.c, t.a)
}

// The keys of the sides that go upward, as the triangles bring them.
fn list_upward<S: ReadingSurface>(s: &S, keys: &mut [u32]) -> usize
    requires closed { Closed (vertex_total (S.mesh s.now)) (S.mesh s.now).triangles }
    requires room { length (filter up (sides (S.mesh s.now).triangles)) ≤ length keys.old }
    ensures count { result ≡ length (filter up (sides (S.mesh s.now).triangles)) }
    ensures listed { key_sides (take result keys.new) ≡ filter up (sides (S.mesh s.now).triangles) }
{
    let mut count = 0;
    for t in s.triangles() {
        count = put_sides(keys, count, t);
    }
    count
}

// Puts the keys of a closed mesh's edges, rising, in front of `keys`. Answers how many there are. Each edge goes upward in
// just one triangle.
pub(crate) fn list_edges<S: ReadingSurface>(s: &S, keys: &mut [u32]) -> usize
    requires closed { Closed (vertex_total (S.mesh s.now)) (S.mesh s.now).triangles }
    requires room { length (edges (S.mesh s.now).triangles) ≤ length keys.old }
    ensures count { result ≡ length (edges (S.mesh s.now).triangles) }
    ensures listed { key_sides (take result keys.new) ≡ edges (S.mesh s.now).triangles }
    ensures climbing { Climbing (take result keys.new) }
    ensures upward { Upward (take result keys.new) }
{
    let count = list_upward(s, keys);
    keys[..count].sort_unstable();
    count
}
