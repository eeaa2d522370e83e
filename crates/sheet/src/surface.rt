// A sheet as a reading surface: each vertex is its own parent.
ghost use Rattle.std.specs.Prelude.{◌≡◌, ◌+◌, ◌<◌, ◌≤◌, Some, length, is_some};
ghost use Rattle.std.specs.Option.{option_map};
ghost use Rattle.place.specs.Words.{word};
ghost use Rattle.mesh.specs.Triangles.{tri_of};
ghost use Rattle.mesh.specs.Sides.{corner_of};
ghost use Rattle.sheet.specs.Content.{triangle_in, place_read, sheet_mesh};
ghost use Rattle.sheet.specs.Bounds.{sheet_limited};

use crate::checks::HEAD;
use crate::sheet::Sheet;
use mesh::{ReadingSurface, Triangle};
use place::Place;

// The number that the four bytes from `at` on stand for, which are there.
fn word_within(bytes: &[u8], at: usize) -> u32
    requires { at + 4 ≤ length bytes.now }
    ensures { result ≡ word bytes.now at }
{
    u32::from_be_bytes([bytes[at], bytes[at + 1], bytes[at + 2], bytes[at + 3]])
}

impl<'a, P: Place> Sheet<'a, P> {
    // What the bytes of place v read as. One test does for all of them, and no vertex of the sheet fails it.
    pub(crate) fn place_read(&self, v: u32) -> Option<P>
        ensures { v < self.now.totals.vertices → result ≡ place_read P.Place.kind self.now.bytes.now v }
    {
        let at = HEAD + v as usize * P::WIDTH;
        P::read(self.bytes.get(at..at + P::WIDTH)?)
    }

    // The triangle that the twelve bytes of triangle t stand for. One test does for all of them, and none of the sheet's
    // triangles fails it.
    #[inline(always)]
    fn triangle_read(&self, t: u32) -> Option<Triangle>
        ensures { t < self.now.totals.triangles → option_map tri_of result ≡ Some (triangle_in P.Place.kind.width self.now.bytes.now t) }
    {
        let at = HEAD + self.totals.vertices as usize * P::WIDTH + t as usize * 12;
        if self.bytes.len() < at + 12 {
            return None;
        }
        Some(Triangle {
            a: word_within(self.bytes, at),
            b: word_within(self.bytes, at + 4),
            c: word_within(self.bytes, at + 8),
        })
    }

    fn has_side(&self, t: u32, u: u32, v: u32) -> bool
        ensures { t < self.now.totals.triangles → result ≡ is_some (corner_of u v (triangle_in P.Place.kind.width self.now.bytes.now t)) }
    {
        self.triangle_read(t)
            .is_some_and(|triangle| triangle.side_corner(u, v).is_some())
    }
}

impl<'a, P: Place> ReadingSurface for Sheet<'a, P> {
    type Kind = P;

    ghost mesh = { λ s. sheet_mesh P.Place.kind s.bytes.now };

    ghost limited = { λ s. sheet_limited P.Place.kind s.bytes.now };

    fn vertex_count(&self) -> u32 {
        self.totals.vertices
    }

    fn triangle_count(&self) -> u32 {
        self.totals.triangles
    }

    fn triangle(&self, t: u32) -> Option<Triangle> {
        (t < self.totals.triangles).then_some(self.triangle_read(t))?
    }

    fn place(&self, v: u32) -> Option<P> {
        (v < self.totals.vertices).then_some(self.place_read(v).unwrap_or(P::origin()))
    }

    fn parent(&self, v: u32) -> Option<u32> {
        (v < self.totals.vertices).then_some(v)
    }

    fn side(&self, u: u32, v: u32) -> Option<u32> {
        (0..self.totals.triangles).find(|&t| self.has_side(t, u, v))
    }
}
