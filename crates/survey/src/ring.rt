// The ring of one vertex, walked. The vertex goes beside its surface: three short functions want no type for both.
ghost use Rattle.std.specs.Prelude.{◌≡◌, IsTrue};
ghost use Rattle.mesh.specs.Triangles.{tri_of};
ghost use Rattle.survey.specs.Ringwalk.{second_of, third_of, touches, ring_step, comes_round, ring_from};

use crate::tally::Corners;
use mesh::{ReadingSurface, Triangle};

// The triangle turned so that it begins with its corner v.
fn turned_to(v: u32, t: Triangle) -> Triangle
    ensures first { IsTrue (touches v (tri_of t)) → result.a ≡ v }
    ensures second { result.b ≡ second_of v (tri_of t) }
    ensures third { result.c ≡ third_of v (tri_of t) }
{
    let Triangle { a, b, c } = t;
    if a == v {
        t
    } else if b == v {
        Triangle { a: b, b: c, c: a }
    } else {
        Triangle { a: c, b: a, c: b }
    }
}

// The step from the triangle with the side v→x to the next one round v.
fn ring_step<S: ReadingSurface>(s: &S, v: u32, x: u32) -> Option<u32>
    ensures { result ≡ ring_step (S.mesh s.now).triangles v x }
{
    let t = s.triangle(s.side(v, x)?)?;
    Some(turned_to(v, t).c)
}

// Whether the steps round v from b come to a after n of them and not before. A loop, since each step goes on from the
// vertex that the last one came to.
fn comes_round<S: ReadingSurface>(s: &S, v: u32, a: u32, n: u32, b: u32) -> bool
    ensures { result ≡ comes_round (S.mesh s.now).triangles v a n b }
{
    let mut x = b;
    for _ in 0..n {
        if x == a {
            return false;
        }
        let Some(y) = ring_step(s, v, x) else {
            return false;
        };
        x = y;
    }
    x == a
}

// Whether the corners at v form one ring, walked from their last triangle.
pub(crate) fn ring_from<S: ReadingSurface>(s: &S, v: u32, corners: Corners) -> bool
    ensures { result ≡ ring_from (S.mesh s.now).triangles v corners.count corners.last }
{
    corners.count > 0
        && s.triangle(corners.last).is_some_and(|t| {
            let t = turned_to(v, t);
            comes_round(s, v, t.b, corners.count - 1, t.c)
        })
}
