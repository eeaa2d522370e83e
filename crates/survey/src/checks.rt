// The checks of the triangles, and the lowest triangle that fails each.
ghost use Rattle.std.specs.Prelude.{◌≡◌};
ghost use Rattle.mesh.specs.Triangles.{tri_of};
ghost use Rattle.mesh.specs.Meshes.{vertex_total};
ghost use Rattle.survey.specs.Checks.{good_corners, has_lower, repeats, no_side, is_open};
ghost use Rattle.survey.specs.Checks.{FirstFailing, first_bad, first_repeated, first_open};

use mesh::{ReadingSurface, Triangle};

// The lowest triangle that fails, which `fails` tells of its number and itself.
fn first_failing<S: ReadingSurface, F: Fn(u32, Triangle) -> bool>(s: &S, fails: F) -> Option<u32>
    requires { F.IsAlwaysCallable fails }
    ensures { FirstFailing (F.post fails) (S.mesh s.now).triangles result }
{
    (0..s.triangle_count()).find(|&i| s.triangle(i).is_some_and(|t| fails(i, t)))
}

fn good_corners(vertices: u32, t: Triangle) -> bool
    ensures { result ≡ good_corners vertices (tri_of t) }
{
    t.is_below(vertices) && t.has_different_corners()
}

pub(crate) fn first_bad<S: ReadingSurface>(s: &S) -> Option<u32>
    ensures { result ≡ first_bad (vertex_total (S.mesh s.now)) (S.mesh s.now).triangles }
{
    let vertices = s.vertex_count();
    first_failing(s, |_, t| !good_corners(vertices, t))
}

fn has_lower<S: ReadingSurface>(s: &S, i: u32, u: u32, v: u32) -> bool
    ensures { result ≡ has_lower (S.mesh s.now).triangles i u v }
{
    s.side(u, v).is_some_and(|j| j < i)
}

fn repeats<S: ReadingSurface>(s: &S, i: u32, t: Triangle) -> bool
    ensures { result ≡ repeats (S.mesh s.now).triangles i (tri_of t) }
{
    has_lower(s, i, t.a, t.b) || has_lower(s, i, t.b, t.c) || has_lower(s, i, t.c, t.a)
}

pub(crate) fn first_repeated<S: ReadingSurface>(s: &S) -> Option<u32>
    ensures { result ≡ first_repeated (S.mesh s.now).triangles }
{
    first_failing(s, |i, t| repeats(s, i, t))
}

fn no_side<S: ReadingSurface>(s: &S, u: u32, v: u32) -> bool
    ensures { result ≡ no_side (S.mesh s.now).triangles u v }
{
    s.side(u, v).is_none()
}

fn is_open<S: ReadingSurface>(s: &S, t: Triangle) -> bool
    ensures { result ≡ is_open (S.mesh s.now).triangles (tri_of t) }
{
    no_side(s, t.b, t.a) || no_side(s, t.c, t.b) || no_side(s, t.a, t.c)
}

pub(crate) fn first_open<S: ReadingSurface>(s: &S) -> Option<u32>
    ensures { result ≡ first_open (S.mesh s.now).triangles }
{
    first_failing(s, |_, t| is_open(s, t))
}
