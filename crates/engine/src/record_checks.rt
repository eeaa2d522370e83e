// The checks of a record on a closed mesh.
ghost use Rattle.std.specs.Prelude.{◌≡◌, ◌+◌, ◌*◌, ◌≤◌, None, length, IfOk};
ghost use Rattle.fault.specs.Faults.{checked};
ghost use Rattle.mesh.specs.Meshes.{vertex_total, triangle_total};
ghost use Rattle.mesh.specs.Growth.{RoomInLimits, WithinRoom};
ghost use Rattle.mesh.specs.Closed.{Closed};
ghost use Rattle.forest.specs.Splitting.{marked_of};
ghost use Rattle.record.specs.Checks.{size_fault};
ghost use Rattle.runs.specs.Parts.{record_marks, record_codes};
ghost use Rattle.runs.specs.Calls.{fault_in};
ghost use Rattle.runs.specs.Outcome.{edge_total, edges_marked, trees_formed, record_fault, marks_fault, codes_fault, displacements_fault};
ghost use Rattle.engine.specs.Stages.{Sewn};

use crate::call::check_room;
use crate::places::first_refused;
use crate::planting::{Forest, plant};
use crate::sewing::{Sewing, sew};
use fault::Fault;
use mesh::{ReadingSurface, Room};
use place::Place;
use record::Record;

// Refuses the first position whose displaced place the kind refuses: refusal 34.
fn check_places<P: Place, S: ReadingSurface<Kind = P>>(
    s: &S,
    from: &Record,
    sewing: &Sewing,
) -> Result<(), Fault>
    requires closed { Closed (vertex_total (S.ReadingSurface.mesh s.now)) (S.ReadingSurface.mesh s.now).triangles }
    requires edges { from.now.edges ≡ edge_total (S.ReadingSurface.mesh s.now) }
    requires marks { marks_fault (S.ReadingSurface.mesh s.now) from.now.bytes.now ≡ None }
    requires size { size_fault P.Place.kind from.now.bytes.now (edge_total (S.ReadingSurface.mesh s.now)) ≡ None }
    requires codes { codes_fault (S.ReadingSurface.mesh s.now) from.now.bytes.now ≡ None }
    requires sewn { Sewn (vertex_total (S.ReadingSurface.mesh s.now)) (S.ReadingSurface.mesh s.now).triangles (marked_of (S.ReadingSurface.mesh s.now).triangles (record_marks from.now.bytes.now from.now.edges)) (record_codes from.now.bytes.now from.now.edges) sewing.now.positions.now sewing.now.numbers.now sewing.now.corners.now sewing.now.added.now }
    ensures { result ≡ checked (displacements_fault P.Place.kind (S.ReadingSurface.mesh s.now) from.now.bytes.now) }
{
    let refused = first_refused(s, sewing.positions, sewing.numbers, from.displacements());
    if let Some(v) = refused {
        return Err(Fault::NoDisplacedPlace(v));
    }
    Ok(())
}

// All checks of a record on a closed mesh with this room, in their order: refusals 20 to 29, 5, 6, 30 to 34. The table is what
// the index of the mesh has left of one that is long enough.
pub(crate) fn check_record<'t, P: Place, S: ReadingSurface<Kind = P>>(
    s: &S,
    room: Room,
    from: &Record,
    table: &'t mut [u32],
) -> Result<(Forest<'t>, Sewing<'t>), Fault>
    requires closed { Closed (vertex_total (S.ReadingSurface.mesh s.now)) (S.ReadingSurface.mesh s.now).triangles }
    requires edges { from.now.edges ≡ edge_total (S.ReadingSurface.mesh s.now) }
    requires fits { WithinRoom room.vertices room.triangles (S.ReadingSurface.mesh s.now) }
    requires limited { RoomInLimits room.vertices room.triangles }
    requires room { 16 * (room.vertices + room.triangles) ≤ length table.old + vertex_total (S.ReadingSurface.mesh s.now) + 6 * triangle_total (S.ReadingSurface.mesh s.now) }
    ensures fault { fault_in result ≡ record_fault P.Place.kind room.vertices room.triangles (S.ReadingSurface.mesh s.now) from.now.bytes.now }
    ensures edges { IfOk result (λ p. p.0.edges ≡ edges_marked (S.ReadingSurface.mesh s.now) from.now.bytes.now) }
    ensures trees { IfOk result (λ p. p.0.trees ≡ trees_formed (S.ReadingSurface.mesh s.now) from.now.bytes.now) }
    ensures sewn { IfOk result (λ p. Sewn (vertex_total (S.ReadingSurface.mesh s.now)) (S.ReadingSurface.mesh s.now).triangles (marked_of (S.ReadingSurface.mesh s.now).triangles (record_marks from.now.bytes.now from.now.edges)) (record_codes from.now.bytes.now from.now.edges) p.1.positions.now p.1.numbers.now p.1.corners.now p.1.added.now) }
{
    from.check_head::<P>()?;
    let (forest, rest) = plant(s, from, table)?;
    from.check_size::<P>()?;
    check_room(s, room, &forest)?;
    from.check_code_bits()?;
    let sewing = sew(s, &forest, from, rest)?;
    check_places::<P, S>(s, from, &sewing)?;
    Ok((forest, sewing))
}
