// The checks of a split call that ask neither for the record nor for its trees, and those that ask for room.
ghost use Rattle.std.specs.Prelude.{◌≡◌, ◌≤◌, length};
ghost use Rattle.fault.specs.Faults.{checked, or_else};
ghost use Rattle.runs.specs.Outcome.{table_fault, closed_fault};
ghost use Rattle.engine.specs.Calls.{expected_fault, growth_fault};

use crate::planting::Forest;
use fault::Fault;
use mesh::{GrowingStore, ReadingSurface, Room, Totals};
use survey::survey;

// Refuses a work table that is too short for the store's room.
pub(crate) fn check_table<S: GrowingStore>(store: &S, table: usize) -> Result<(), Fault>
    ensures { result ≡ checked (table_fault (S.GrowingStore.vertex_room store.now) (S.GrowingStore.triangle_room store.now) table) }
{
    let room = store.room();
    if table < 16 * (room.vertices + room.triangles) as usize {
        return Err(Fault::ShortWorkTable);
    }
    Ok(())
}

// Refuses a surface that is no closed mesh, and one whose counts are not those expected.
pub(crate) fn check_mesh<S: ReadingSurface>(s: &S, expected: Totals) -> Result<(), Fault>
    ensures { result ≡ checked (or_else (closed_fault (S.mesh s.now)) (expected_fault (S.mesh s.now) expected.vertices expected.triangles)) }
{
    if survey(s).is_err() {
        return Err(Fault::StoreNotClosed);
    }
    let totals = s.totals();
    if totals.vertices != expected.vertices || totals.triangles != expected.triangles {
        return Err(Fault::StoreNotOfJob);
    }
    Ok(())
}

// Refuses a split whose vertices, or whose triangles, there is no room for.
pub(crate) fn check_room<S: ReadingSurface>(s: &S, room: Room, forest: &Forest) -> Result<(), Fault>
    requires trees { forest.now.trees ≤ forest.now.edges }
    requires few { forest.now.edges ≤ 49152 }
    ensures { result ≡ checked (growth_fault room.vertices room.triangles (S.mesh s.now) forest.now.edges forest.now.trees) }
{
    let totals = s.totals();
    let growth = forest.edges - forest.trees;
    if totals.vertices + growth > room.vertices {
        return Err(Fault::VertexCapacity);
    }
    if totals.triangles + 2 * growth > room.triangles {
        return Err(Fault::TriangleCapacity);
    }
    Ok(())
}
