// Bytes put into a buffer. The offset goes beside it, since clauses speak of the whole buffer and of what stays in it.
ghost use Rattle.std.specs.Prelude.{◌≡◌, ◌+◌, ◌≤◌, true, length};
ghost use Rattle.mesh.specs.Triangles.{tri_of};
ghost use Rattle.sheet.specs.Writing.{put_at, triangle_bytes, head_bytes};
ghost use Rattle.sheet.specs.ReadBack.{ShortCorners};

use mesh::{Totals, Triangle};
use place::{Place, three_words};

// Puts the bytes from `at` on.
pub(crate) fn put(out: &mut [u8], at: usize, bytes: &[u8])
    requires { at + length bytes.now ≤ length out.old }
    ensures { out.new ≡ put_at at bytes.now out.old }
{
    out[at..at + bytes.len()].copy_from_slice(bytes);
}

// Puts a place's bytes.
pub(crate) fn put_place<P: Place>(out: &mut [u8], at: usize, place: &P)
    requires { at + P.Place.kind.width ≤ length out.old }
    ensures after { out.new ≡ put_at at (P.Place.kind.bytes place.now) out.old }
    ensures held { P.Place.kind.holds place.now ≡ true }
{
    let bytes = place.to_bytes();
    put(out, at, &bytes[..P::WIDTH]);
}

// The length of what follows it, the version, the kind and both counts. The kind is the byte of the format, and a record's
// head tells other things behind it.
pub(crate) fn head_bytes(following: u32, kind: u8, totals: Totals) -> [u8; 14]
    ensures { result ≡ head_bytes following kind totals.vertices totals.triangles }
{
    let [a, b, c, d] = following.to_be_bytes();
    let [e, f, g, h] = totals.vertices.to_be_bytes();
    let [i, j, k, l] = totals.triangles.to_be_bytes();
    [a, b, c, d, 1, kind, e, f, g, h, i, j, k, l]
}

// The corners of a triangle, in order.
pub(crate) fn triangle_bytes(triangle: Triangle) -> [u8; 12]
    ensures value { result ≡ triangle_bytes (tri_of triangle) }
    ensures short { ShortCorners (tri_of triangle) }
{
    three_words(triangle.a, triangle.b, triangle.c)
}
