// The loops round the trees: turning round a vertex to the next marked side, and the sides in their order.
ghost use Rattle.std.specs.Prelude.{◌≡◌, ℕ, ◌^◌, ◌<◌, cond, length, map, slice_index, unwrap_or, [], ◌∷◌};
ghost use Rattle.mesh.specs.Triangles.{tri_of};
ghost use Rattle.mesh.specs.Sides.{side};
ghost use Rattle.forest.specs.Roots.{against};
ghost use Rattle.forest.specs.Loops.{read_as, apex, found, hop, loop};
ghost use Rattle.forest.specs.Theorems.{sum};
ghost use Rattle.forest.specs.Tables.{key_side, key_sides, flags_of, walked};
ghost use Rattle.engine.specs.Marking.{marked};
ghost use Rattle.engine.specs.Loops.{LowCorners};

use crate::marking::{Marking, key_of};
use mesh::{ReadingSurface, Triangle};

// The third corner of a triangle with the side u→v; 0 if it has not that side.
fn opposite(t: Triangle, u: u32, v: u32) -> u32
    ensures { result ≡ apex (tri_of t ∷ []) u v }
{
    match t.side_corner(u, v) {
        Some(0) => t.c,
        Some(1) => t.a,
        Some(_) => t.b,
        None => 0,
    }
}

// The third corner of the lowest triangle with the side u→v.
fn apex<S: ReadingSurface>(s: &S, u: u32, v: u32) -> Option<u32>
    ensures { unwrap_or result 0 ≡ apex (S.mesh s.now).triangles u v }
{
    let t = s.triangle(s.side(u, v)?)?;
    Some(opposite(t, u, v))
}

// The same, as the tree reads the triangles; 0 if there is none.
pub(crate) fn apex_seen<S: ReadingSurface>(s: &S, mirror: bool, u: u32, v: u32) -> u32
    ensures { result ≡ apex (read_as mirror (S.mesh s.now).triangles) u v }
{
    if mirror {
        apex(s, v, u).unwrap_or(0)
    } else {
        apex(s, u, v).unwrap_or(0)
    }
}

// From the side u→v round v to the first marked side that leaves it: its end.
pub(crate) fn found<S: ReadingSurface>(
    s: &S,
    marking: &Marking,
    mirror: bool,
    u: u32,
    v: u32,
) -> Option<u32>
    ensures { result ≡ found (length (S.mesh s.now).triangles) (read_as mirror (S.mesh s.now).triangles) (marked marking.now.keys.now marking.now.marks.now) u v }
{
    let mut at = u;
    for _ in 0..s.triangle_count() {
        let x = apex_seen(s, mirror, at, v);
        if marking.is_marked(v, x) {
            return Some(x);
        }
        at = x;
    }
    None
}

// The key of the side of the loop after the side with the key `k`.
pub(crate) fn hop<S: ReadingSurface>(s: &S, marking: &Marking, mirror: bool, k: u32) -> u32
    requires low { LowCorners (S.mesh s.now).triangles }
    requires start { k < 2 ^ 28 }
    ensures side { key_side result ≡ hop (S.mesh s.now).triangles (marked marking.now.keys.now marking.now.marks.now) mirror (key_side k) }
    ensures bound { result < 2 ^ 28 }
{
    let (u, v) = (k / 16_384, k % 16_384);
    key_of(v, found(s, marking, mirror, u, v).unwrap_or(u))
}

// The sides of a loop from its root side on, as many as `out` is long, each by its key.
pub(crate) fn walk_loop<S: ReadingSurface>(
    s: &S,
    marking: &Marking,
    mirror: bool,
    root: u32,
    out: &mut [u32],
)
    requires low { LowCorners (S.mesh s.now).triangles }
    requires start { root < 2 ^ 28 }
    ensures { key_sides out.new ≡ loop (hop (S.mesh s.now).triangles (marked marking.now.keys.now marking.now.marks.now) mirror) (length out.old) (key_side root) }
{
    let mut side = root;
    for position in out.iter_mut() {
        *position = side;
        side = hop(s, marking, mirror, side);
    }
}

// The loops of the trees one after another, from their root sides on.
pub(crate) fn walk_loops<S: ReadingSurface>(
    s: &S,
    marking: &Marking,
    roots: &[u32],
    arounds: &[u32],
    mirrors: &[u32],
    positions: &mut [u32],
)
    requires low { LowCorners (S.mesh s.now).triangles }
    requires starts { (i : ℕ) → i < length roots.now → slice_index roots.now i < 2 ^ 28 }
    requires arounds { length arounds.now ≡ length roots.now }
    requires mirrors { length mirrors.now ≡ length roots.now }
    requires positions { sum arounds.now ≡ length positions.old }
    ensures { key_sides positions.new ≡ walked (S.mesh s.now).triangles (marked marking.now.keys.now marking.now.marks.now) (key_sides roots.now) arounds.now (flags_of mirrors.now) }
{
    let mut at = 0;
    for (k, &root) in roots.iter().enumerate() {
        let end = at + arounds[k] as usize;
        walk_loop(s, marking, mirrors[k] == 1, root, &mut positions[at..end]);
        at = end;
    }
}

// Whether the lower triangle at a root side has its reverse.
fn is_mirrored<S: ReadingSurface>(s: &S, root: u32) -> bool
    ensures { result ≡ against (S.mesh s.now).triangles (key_side root) }
{
    let (r, a) = (root / 16_384, root % 16_384);
    match (s.side(a, r), s.side(r, a)) {
        (Some(back), Some(forth)) => back < forth,
        (back, _) => back.is_some(),
    }
}

// Which trees are mirrored, by their root sides: 1 for yes.
pub(crate) fn set_mirrors<S: ReadingSurface>(s: &S, roots: &[u32], mirrors: &mut [u32])
    requires { length mirrors.old ≡ length roots.now }
    ensures words { mirrors.new ≡ map (λ r. cond (against (S.mesh s.now).triangles r) 1 0) (key_sides roots.now) }
    ensures flags { flags_of mirrors.new ≡ map (against (S.mesh s.now).triangles) (key_sides roots.now) }
{
    for (k, &root) in roots.iter().enumerate() {
        mirrors[k] = u32::from(is_mirrored(s, root));
    }
}
