// The new numbers of the old triangles' corners, in a table of three numbers for each triangle.
ghost use Rattle.std.specs.Prelude.{◌≡◌, ◌+◌, ◌*◌, ◌<◌, ◌≤◌, cond, length, map, slice_index, slice_set};
ghost use Rattle.mesh.specs.Lists.{Apart};
ghost use Rattle.mesh.specs.Triangles.{tri_of};
ghost use Rattle.mesh.specs.Sides.{side, sides};
ghost use Rattle.forest.specs.Numbering.{passes, renamed, renumber, run_numbers};
ghost use Rattle.forest.specs.Tables.{flags_of, key_sides, renumbered, word_tris};
ghost use Rattle.forest.specs.Theorems.{sum};
ghost use Rattle.engine.specs.Marking.{marked};
ghost use Rattle.engine.specs.Corners.{Renumbers, is_corner, place_of, corner_place};

use crate::loops::apex_seen;
use crate::marking::Marking;
use mesh::{ReadingSurface, Triangle};

// The numbers of triangle t.
fn set_triangle(corners: &mut [u32], t: usize, triangle: Triangle)
    requires { 3 * t + 3 ≤ length corners.old }
    ensures { word_tris corners.new ≡ slice_set (word_tris corners.old) t (tri_of triangle) }
{
    let place = 3 * t;
    corners[place] = triangle.a;
    corners[place + 1] = triangle.b;
    corners[place + 2] = triangle.c;
}

// The triangles as they are.
fn copy_corners<S: ReadingSurface>(s: &S, corners: &mut [u32])
    requires { length corners.old ≡ 3 * length (S.mesh s.now).triangles }
    ensures { word_tris corners.new ≡ (S.mesh s.now).triangles }
{
    for (t, triangle) in (0..).zip(s.triangles()) {
        set_triangle(corners, t, triangle);
    }
}

// The place in the table of the corner that begins the side u→v of the lowest triangle that has it, or of the one that comes
// `turn` corners after it.
fn place_of<S: ReadingSurface>(s: &S, u: u32, v: u32, turn: u8) -> Option<usize>
    requires { turn < 3 }
    ensures { result ≡ place_of (S.mesh s.now).triangles u v turn }
{
    let t = s.side(u, v)?;
    let k = s.triangle(t)?.side_corner(u, v)?;
    Some(3 * t as usize + usize::from((k + turn) % 3))
}

// The place of the corner at v of the lowest triangle with the side u→v, as the tree reads it.
fn corner_place<S: ReadingSurface>(s: &S, mirror: bool, u: u32, v: u32) -> Option<usize>
    ensures { result ≡ corner_place (S.mesh s.now).triangles mirror u v }
{
    if mirror {
        place_of(s, v, u, 0)
    } else {
        place_of(s, u, v, 1)
    }
}

// Gives that corner the number n, if it is there.
fn set_corner<S: ReadingSurface>(s: &S, mirror: bool, u: u32, v: u32, n: u32, corners: &mut [u32])
    requires once { Apart (sides (S.mesh s.now).triangles) }
    requires long { length corners.old ≡ 3 * length (S.mesh s.now).triangles }
    ensures { Renumbers (S.mesh s.now).triangles corners.old corners.new (λ x y z w. cond (is_corner (S.mesh s.now).triangles mirror u v x y z) n w) }
{
    if let Some(place) = corner_place(s, mirror, u, v) {
        corners[place] = n;
    }
}

// Gives the corners of the run behind the side u→v the number n.
fn renumber_run<S: ReadingSurface>(
    s: &S,
    marking: &Marking,
    mirror: bool,
    u: u32,
    v: u32,
    n: u32,
    corners: &mut [u32],
)
    requires once { Apart (sides (S.mesh s.now).triangles) }
    requires long { length corners.old ≡ 3 * length (S.mesh s.now).triangles }
    ensures { Renumbers (S.mesh s.now).triangles corners.old corners.new (λ x y z w. cond (passes (S.mesh s.now).triangles (marked marking.now.keys.now marking.now.marks.now) mirror x y z (side u v)) n w) }
{
    let mut at = u;
    for _ in 0..s.triangle_count() {
        set_corner(s, mirror, at, v, n, corners);
        let x = apex_seen(s, mirror, at, v);
        if marking.is_marked(v, x) {
            return;
        }
        at = x;
    }
}

// The number of the run behind position i of a tree: that of the next position, and of the first behind the last.
fn run_number(numbers: &[u32], i: usize) -> u32
    requires { i < length numbers.now }
    ensures { result ≡ slice_index (run_numbers numbers.now) i }
{
    if i + 1 < numbers.len() {
        numbers[i + 1]
    } else {
        numbers[0]
    }
}

// Gives the corners of each run of a tree the run's number.
fn renumber_tree<S: ReadingSurface>(
    s: &S,
    marking: &Marking,
    mirror: bool,
    positions: &[u32],
    numbers: &[u32],
    corners: &mut [u32],
)
    requires once { Apart (sides (S.mesh s.now).triangles) }
    requires numbers { length numbers.now ≡ length positions.now }
    requires long { length corners.old ≡ 3 * length (S.mesh s.now).triangles }
    ensures { Renumbers (S.mesh s.now).triangles corners.old corners.new (renumber (S.mesh s.now).triangles (marked marking.now.keys.now marking.now.marks.now) mirror (key_sides positions.now) (run_numbers numbers.now)) }
{
    for (i, &k) in positions.iter().enumerate() {
        let n = run_number(numbers, i);
        renumber_run(s, marking, mirror, k / 16_384, k % 16_384, n, corners);
    }
}

// The old triangles with their corners' new numbers: their own, until a run of a tree takes them. The trees come one after
// another, by their numbers of positions, each mirrored or not.
pub(crate) fn renumber_corners<S: ReadingSurface>(
    s: &S,
    marking: &Marking,
    arounds: &[u32],
    mirrors: &[u32],
    positions: &[u32],
    numbers: &[u32],
    corners: &mut [u32],
)
    requires once { Apart (sides (S.mesh s.now).triangles) }
    requires mirrors { length mirrors.now ≡ length arounds.now }
    requires positions { sum arounds.now ≡ length positions.now }
    requires numbers { length numbers.now ≡ length positions.now }
    requires corners { length corners.old ≡ 3 * length (S.mesh s.now).triangles }
    ensures { word_tris corners.new ≡ map (renamed (λ v x y. renumbered (S.mesh s.now).triangles (marked marking.now.keys.now marking.now.marks.now) arounds.now (flags_of mirrors.now) (key_sides positions.now) numbers.now v x y v)) (S.mesh s.now).triangles }
{
    copy_corners(s, corners);
    let mut at = 0;
    for (k, &around) in arounds.iter().enumerate() {
        let end = at + around as usize;
        renumber_tree(
            s,
            marking,
            mirrors[k] == 1,
            &positions[at..end],
            &numbers[at..end],
            corners,
        );
        at = end;
    }
}
