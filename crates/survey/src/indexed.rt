// The survey of a surface that can only search for a side.
ghost use Rattle.std.specs.Prelude.{◌≡◌};
ghost use Rattle.mesh.specs.Meshes.{vertex_total};
ghost use Rattle.survey.specs.Survey.{surveyed};

use crate::checks::first_bad;
use crate::counts::Counts;
use crate::telling::survey;
use fault::Fault;
use mesh::{MAX_TRIANGLES, MAX_VERTICES, ReadingSurface, Totals, copy_surface};
use stores::{ChainStore, ChainTriangle, ChainVertex};

// Up to so many triangles, searching takes no longer than making the copy, whose tables are those of the largest mesh.
const FEW_TRIANGLES: u32 = 100;

// As `survey`, for a surface whose side question is a search.
pub fn survey_indexed<S: ReadingSurface>(s: &S) -> Result<Counts, Fault>
    ensures { result ≡ surveyed (vertex_total (S.mesh s.now)) (S.mesh s.now).triangles }
{
    if s.triangle_count() <= FEW_TRIANGLES {
        return survey(s);
    }
    survey_copied(s)
}

// Copies the triangles into a chain store in scratch memory and asks that. The tables are arrays, so that the survey cannot
// fail for want of memory; they take about 1.1 MB of stack. Never inlined, so that few triangles are surveyed without them.
#[inline(never)]
fn survey_copied<S: ReadingSurface>(s: &S) -> Result<Counts, Fault>
    ensures { result ≡ surveyed (vertex_total (S.mesh s.now)) (S.mesh s.now).triangles }
{
    Totals::new(s.vertex_count(), s.triangle_count())?;
    // A store takes no bad corners.
    if let Some(t) = first_bad(s) {
        return Err(Fault::BadCorners(t));
    }
    let mut triangles = [ChainTriangle::UNUSED; MAX_TRIANGLES as usize];
    let mut vertices = [ChainVertex::UNUSED; MAX_VERTICES as usize];
    let mut index = ChainStore::<S::Kind>::new(&mut triangles, &mut vertices);
    copy_surface(s, &mut index);
    survey(&index)
}
