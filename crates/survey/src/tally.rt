// The corners at each vertex, and the pass over the vertices: the lowest without one ring.
ghost use Rattle.std.specs.Prelude.{◌≡◌, ◌+◌, ◌*◌, ◌^◌, ◌<◌, None, slice_index, slice_set};
ghost use Rattle.mesh.specs.Triangles.{tri_of};
ghost use Rattle.mesh.specs.Meshes.{vertex_total, triangle_total};
ghost use Rattle.survey.specs.Checks.{first_bad};
ghost use Rattle.survey.specs.Ringwalk.{unringed_at, first_unringed};
ghost use Rattle.survey.specs.Tables.{Below, Small, Zero, Counted, Seen, Added, Noted, counts, lasts};

use crate::ring::ring_from;
use mesh::{MAX_TRIANGLES, MAX_VERTICES, ReadingSurface, Triangle};

const VERTICES: usize = MAX_VERTICES as usize;

// How many corners of triangles are at one vertex, and the last triangle of them.
#[derive(Clone, Copy)]
pub(crate) struct Corners {
    pub(crate) count: u32,
    pub(crate) last: u32,
}

// No corner is noted yet. The table is an array, so that the survey cannot fail for want of memory.
pub(crate) fn no_corners() -> [Corners; VERTICES]
    ensures counts_zero { Zero (counts result) }
    ensures lasts_zero { Zero (lasts result) }
{
    [Corners { count: 0, last: 0 }; VERTICES]
}

// One corner more at v, of the triangle i.
fn note_corner(table: &mut [Corners; VERTICES], v: u32, i: u32)
    requires vertex_in_range { v < MAX_VERTICES }
    requires room { slice_index (counts table.old) v + 1 < 2 ^ 32 }
    ensures counted { counts table.new ≡ slice_set (counts table.old) v (slice_index (counts table.old) v + 1) }
    ensures noted { lasts table.new ≡ slice_set (lasts table.old) v i }
{
    let corners = &mut table[v as usize];
    corners.count += 1;
    corners.last = i;
}

// The three corners of the triangle i. No vertex has more corners than all triangles together.
fn note(table: &mut [Corners; VERTICES], t: Triangle, i: u32)
    requires below { Below MAX_VERTICES (tri_of t) }
    requires small { Small (counts table.old) (3 * MAX_TRIANGLES) }
    ensures counted { Added (counts table.old) (tri_of t) (counts table.new) }
    ensures noted { Noted (lasts table.old) (tri_of t) i (lasts table.new) }
{
    note_corner(table, t.a, i);
    note_corner(table, t.b, i);
    note_corner(table, t.c, i);
}

// A surface with an entry for each vertex that a mesh may have. The table is lent: it is too large to be handed on.
#[derive(Drop)]
pub(crate) struct Tally<'a, S: ReadingSurface> {
    surface: &'a S,
    table: &'a [Corners; VERTICES],
    ghost counted: { Counted (S.mesh surface.now).triangles (triangle_total (S.mesh surface.now)) (counts table.now) },
    ghost seen: { Seen (S.mesh surface.now).triangles (triangle_total (S.mesh surface.now)) (lasts table.now) },
}

impl<'a, S: ReadingSurface> Tally<'a, S> {
    // Where no triangle has bad corners.
    pub(crate) fn new(surface: &'a S, table: &'a mut [Corners; VERTICES]) -> Self
        requires corners_good { first_bad (vertex_total (S.mesh surface.now)) (S.mesh surface.now).triangles ≡ None }
        requires counts_zero { Zero (counts table.old) }
        requires lasts_zero { Zero (lasts table.old) }
        ensures { result.surface.now ≡ surface.now }
    {
        for (i, t) in (0..).zip(surface.triangles()) {
            note(table, t, i);
        }
        Tally { surface, table }
    }

    fn is_unringed(&self, v: u32) -> bool
        requires { v < MAX_VERTICES }
        ensures { result ≡ unringed_at (S.mesh self.now.surface.now).triangles v }
    {
        !ring_from(self.surface, v, self.table[v as usize])
    }

    pub(crate) fn first_unringed(&self) -> Option<u32>
        ensures { result ≡ first_unringed (vertex_total (S.mesh self.now.surface.now)) (S.mesh self.now.surface.now).triangles }
    {
        (0..self.surface.vertex_count()).find(|&v| self.is_unringed(v))
    }
}
