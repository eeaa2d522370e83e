// A split carried out on a store: its checks in their order, and then the writing.
ghost use Rattle.std.specs.Prelude.{◌≡◌, ◌*◌, ◌/◌, length, IfOk};
ghost use Rattle.mesh.specs.Meshes.{vertex_total};
ghost use Rattle.mesh.specs.Growth.{SameRoom};
ghost use Rattle.forest.specs.Splitting.{marked_of};
ghost use Rattle.runs.specs.Parts.{record_marks, record_codes};
ghost use Rattle.runs.specs.Calls.{fault_in};
ghost use Rattle.runs.specs.Outcome.{edges_marked, trees_formed, work_after};
ghost use Rattle.engine.specs.Calls.{call_fault, call_answer, call_mesh};
ghost use Rattle.engine.specs.Stages.{Sewn};
ghost use Rattle.engine.specs.Telling.{told_by};

use crate::call::{check_mesh, check_table};
use crate::index::Index;
use crate::planting::Forest;
use crate::record_checks::check_record;
use crate::sewing::Sewing;
use crate::told::Told;
use crate::writing::write_split;
use fault::Fault;
use mesh::{GrowingStore, Totals};
use place::Place;
use record::Record;

// All checks of a split call, in their order: refusals 1, 3, 4, 20 to 29, 5, 6, 30 to 34. The front of the table takes the
// index of the store's sides, which all questions go to from then on.
fn check_split<'t, P: Place, S: GrowingStore<Kind = P>>(
    store: &S,
    expected: Totals,
    from: &Record,
    table: &'t mut [u32],
) -> Result<(Forest<'t>, Sewing<'t>), Fault>
    requires { from.now.edges ≡ 3 * expected.triangles / 2 }
    ensures fault { fault_in result ≡ call_fault P.Place.kind (S.GrowingStore.vertex_room store.now) (S.GrowingStore.triangle_room store.now) (length table.old) (S.ReadingSurface.mesh store.now) expected.vertices expected.triangles from.now.bytes.now }
    ensures edges { IfOk result (λ p. p.0.edges ≡ edges_marked (S.ReadingSurface.mesh store.now) from.now.bytes.now) }
    ensures trees { IfOk result (λ p. p.0.trees ≡ trees_formed (S.ReadingSurface.mesh store.now) from.now.bytes.now) }
    ensures sewn { IfOk result (λ p. Sewn (vertex_total (S.ReadingSurface.mesh store.now)) (S.ReadingSurface.mesh store.now).triangles (marked_of (S.ReadingSurface.mesh store.now).triangles (record_marks from.now.bytes.now from.now.edges)) (record_codes from.now.bytes.now from.now.edges) p.1.positions.now p.1.numbers.now p.1.corners.now p.1.added.now) }
{
    check_table(store, table.len())?;
    let (links, table) = table.split_at_mut(Index::<S>::size(store));
    let index = Index::new(store, links);
    check_mesh(&index, expected)?;
    let room = store.room();
    check_record::<P, _>(&index, room, from, table)
}

// A split call that leaves its notes in the work table.
fn split_in<P: Place, S: GrowingStore<Kind = P>>(
    store: &mut S,
    expected: Totals,
    table: &mut [u32],
    bytes: &[u8],
) -> Result<Told, Fault>
    ensures answer { told_by result ≡ call_answer P.Place.kind (S.GrowingStore.vertex_room store.old) (S.GrowingStore.triangle_room store.old) (length table.old) (S.ReadingSurface.mesh store.old) expected.vertices expected.triangles bytes.now }
    ensures mesh { S.ReadingSurface.mesh store.new ≡ call_mesh P.Place.kind (S.GrowingStore.vertex_room store.old) (S.GrowingStore.triangle_room store.old) (length table.old) (S.ReadingSurface.mesh store.old) expected.vertices expected.triangles bytes.now }
    ensures room { SameRoom S.GrowingStore.vertex_room S.GrowingStore.triangle_room store.old store.new }
    ensures table { length table.new ≡ length table.old }
{
    let from = Record {
        bytes,
        edges: 3 * expected.triangles / 2,
    };
    let (forest, sewing) = check_split::<P, S>(store, expected, &from, table)?;
    write_split(
        store,
        sewing.positions,
        sewing.numbers,
        from.displacements(),
        sewing.corners,
        sewing.added,
    );
    let totals = store.totals();
    Ok(Told {
        vertices: totals.vertices,
        edges: 3 * totals.triangles / 2,
        triangles: totals.triangles,
        forest_edges: forest.edges,
        trees: forest.trees,
    })
}

// Carries out a record on the store of a job whose mesh has the expected totals, or refuses it and leaves the store as it is.
// The work table is all zeros afterwards, whatever it held.
pub fn split<P: Place, S: GrowingStore<Kind = P>>(
    store: &mut S,
    expected: Totals,
    table: &mut [u32],
    bytes: &[u8],
) -> Result<Told, Fault>
    ensures answer { told_by result ≡ call_answer P.Place.kind (S.GrowingStore.vertex_room store.old) (S.GrowingStore.triangle_room store.old) (length table.old) (S.ReadingSurface.mesh store.old) expected.vertices expected.triangles bytes.now }
    ensures mesh { S.ReadingSurface.mesh store.new ≡ call_mesh P.Place.kind (S.GrowingStore.vertex_room store.old) (S.GrowingStore.triangle_room store.old) (length table.old) (S.ReadingSurface.mesh store.old) expected.vertices expected.triangles bytes.now }
    ensures room { SameRoom S.GrowingStore.vertex_room S.GrowingStore.triangle_room store.old store.new }
    ensures table { table.new ≡ work_after table.old }
{
    let answer = split_in(store, expected, table, bytes);
    table.fill(0);
    answer
}
