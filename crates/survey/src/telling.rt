// The survey: the checks in their order, then the counts.
ghost use Rattle.std.specs.Prelude.{◌≡◌, ◌≤◌, None};
ghost use Rattle.fault.specs.Faults.{checked};
ghost use Rattle.mesh.specs.Meshes.{vertex_total};
ghost use Rattle.survey.specs.Survey.{shape_fault, survey_fault, edge_count, counted, surveyed};

use crate::checks::{first_bad, first_open, first_repeated};
use crate::counts::Counts;
use crate::tally::{Tally, no_corners};
use fault::Fault;
use mesh::{ReadingSurface, Totals};

// The checks of the triangles and of the rings, each at its lowest spot. What is found is the refusal, so that no `?` passes
// it on.
fn check_shape<S: ReadingSurface>(s: &S) -> Result<(), Fault>
    ensures { result ≡ checked (shape_fault (vertex_total (S.mesh s.now)) (S.mesh s.now).triangles) }
{
    if let Some(t) = first_bad(s) {
        return Err(Fault::BadCorners(t));
    }
    if let Some(t) = first_repeated(s) {
        return Err(Fault::RepeatedSide(t));
    }
    if let Some(t) = first_open(s) {
        return Err(Fault::OpenSide(t));
    }
    let mut table = no_corners();
    if let Some(v) = Tally::new(s, &mut table).first_unringed() {
        return Err(Fault::NoSingleRing(v));
    }
    Ok(())
}

fn count(totals: Totals, edges: u32) -> Counts
    requires { edges ≤ 49152 }
    ensures { result ≡ counted totals.vertices edges totals.triangles }
{
    let Totals {
        vertices,
        triangles,
    } = totals;
    Counts {
        vertices,
        edges,
        triangles,
        euler: vertices as i32 - edges as i32 + triangles as i32,
    }
}

// A closed mesh has three edges for two triangles.
fn count_edges<S: ReadingSurface>(s: &S) -> u32
    requires { survey_fault (vertex_total (S.mesh s.now)) (S.mesh s.now).triangles ≡ None }
    ensures value { result ≡ edge_count (S.mesh s.now).triangles }
    ensures bound { result ≤ 49152 }
{
    3 * s.triangle_count() / 2
}

// The counts of a closed mesh, or the first fault.
pub fn survey<S: ReadingSurface>(s: &S) -> Result<Counts, Fault>
    ensures { result ≡ surveyed (vertex_total (S.mesh s.now)) (S.mesh s.now).triangles }
{
    let totals = Totals::new(s.vertex_count(), s.triangle_count())?;
    check_shape(s)?;
    Ok(count(totals, count_edges(s)))
}
