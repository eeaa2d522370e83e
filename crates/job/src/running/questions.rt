// What a running job is asked of its store. Questions change nothing. The store is handed to each call: a job holds plain
// numbers only, and its caller keeps the store.
ghost use Rattle.std.specs.Prelude.{◌≡◌, length};
ghost use Rattle.std.specs.Option.{option_map};
ghost use Rattle.std.specs.List.{slice_get};
ghost use Rattle.mesh.specs.Triangles.{tri_of};
ghost use Rattle.mesh.specs.Sides.{side_of};
ghost use Rattle.mesh.specs.Edges.{edges};
ghost use Rattle.mesh.specs.Meshes.{vertex_total, triangle_total, place_at, parent_at};
ghost use Rattle.survey.specs.Survey.{surveyed};
ghost use Rattle.edges.specs.Pairs.{pair_of};
ghost use Rattle.sheet.specs.ReadBack.{BackIf};
ghost use Rattle.sheet.specs.Writing.{sheet_written, sheet_after};
ghost use Rattle.runs.specs.Calls.{ancestor, question_answer, writing_answer};
ghost use Rattle.runs.specs.Calls.{how_many_vertices, how_many_triangles, which_corners, which_place, which_parent, which_triangle, which_counts, which_edge, which_ancestor};
ghost use Rattle.runs.specs.Calls.{number as told_number, corners, place, number_if_any, counts, edge};

use crate::following::follow_back;
use crate::running::Running;
use edges::Edge;
use fault::Fault;
use mesh::{ReadingSurface, Triangle};
use place::Place;
use survey::Counts;

impl Running {
    pub fn vertex_count<S: ReadingSurface>(&self, store: &S) -> u32
        ensures answer { result ≡ vertex_total (S.mesh store.now) }
        ensures run { question_answer (S.mesh store.now) how_many_vertices ≡ told_number result }
    {
        store.vertex_count()
    }

    pub fn triangle_count<S: ReadingSurface>(&self, store: &S) -> u32
        ensures answer { result ≡ triangle_total (S.mesh store.now) }
        ensures run { question_answer (S.mesh store.now) how_many_triangles ≡ told_number result }
    {
        store.triangle_count()
    }

    // The corners of triangle t.
    pub fn triangle<S: ReadingSurface>(&self, store: &S, t: u32) -> Option<Triangle>
        ensures answer { option_map tri_of result ≡ slice_get (S.mesh store.now).triangles t }
        ensures run { question_answer (S.mesh store.now) (which_corners t) ≡ corners (option_map tri_of result) }
    {
        store.triangle(t)
    }

    pub fn place<P: Place, S: ReadingSurface<Kind = P>>(&self, store: &S, v: u32) -> Option<P>
        ensures answer { result ≡ place_at (S.ReadingSurface.mesh store.now) v }
        ensures run { question_answer (S.ReadingSurface.mesh store.now) (which_place v) ≡ place result }
    {
        store.place(v)
    }

    pub fn parent<S: ReadingSurface>(&self, store: &S, v: u32) -> Option<u32>
        ensures answer { result ≡ parent_at (S.mesh store.now) v }
        ensures run { question_answer (S.mesh store.now) (which_parent v) ≡ number_if_any result }
    {
        store.parent(v)
    }

    // The lowest triangle with the side u→v.
    pub fn side<S: ReadingSurface>(&self, store: &S, u: u32, v: u32) -> Option<u32>
        ensures answer { result ≡ side_of (S.mesh store.now).triangles u v }
        ensures run { question_answer (S.mesh store.now) (which_triangle u v) ≡ number_if_any result }
    {
        store.side(u, v)
    }

    // The edge with this number, in the rising order of pairs.
    pub fn edge<S: ReadingSurface>(&self, store: &S, number: u32) -> Option<Edge>
        ensures answer { option_map pair_of result ≡ slice_get (edges (S.mesh store.now).triangles) number }
        ensures run { question_answer (S.mesh store.now) (which_edge number) ≡ edge (option_map pair_of result) }
    {
        edges::edge_at(store, number)
    }

    pub fn survey<S: ReadingSurface>(&self, store: &S) -> Result<Counts, Fault>
        ensures answer { result ≡ surveyed (vertex_total (S.mesh store.now)) (S.mesh store.now).triangles }
        ensures run { question_answer (S.mesh store.now) which_counts ≡ counts result }
    {
        survey::survey(store)
    }

    // Writes the mesh as a sheet and answers how many bytes; a short buffer is refused and stays as it is.
    pub fn write_sheet<P: Place, S: ReadingSurface<Kind = P>>(
        &self,
        store: &S,
        out: &mut [u8],
    ) -> Result<usize, Fault>
        ensures answer { result ≡ sheet_written P.Place.kind (S.ReadingSurface.mesh store.now) out.old }
        ensures written { out.new ≡ sheet_after P.Place.kind (S.ReadingSurface.mesh store.now) out.old }
        ensures run { writing_answer P.Place.kind (S.ReadingSurface.mesh store.now) (length out.old) ≡ result }
        ensures back { BackIf result P.Place.kind (S.ReadingSurface.mesh store.now) }
    {
        sheet::write_sheet(store, out)
    }

    // Where vertex v came from: to the parent, while its number is smaller.
    pub fn follow_back<S: ReadingSurface>(&self, store: &S, v: u32) -> Option<u32>
        ensures answer { result ≡ ancestor (S.mesh store.now) v }
        ensures run { question_answer (S.mesh store.now) (which_ancestor v) ≡ number_if_any result }
    {
        follow_back(store, v)
    }
}
