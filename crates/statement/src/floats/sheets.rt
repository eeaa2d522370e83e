// A sheet of the grid written anew, its places kept as floats.
ghost use Rattle.std.specs.Prelude.{◌≡◌, IfOk};
ghost use Rattle.place.specs.Grids.{grid_kind};
ghost use Rattle.place.specs.Floats.{float_kind};
ghost use Rattle.runs.specs.Statement.{SameBase};
ghost use Rattle.sheet.specs.Content.{sheet_mesh};
ghost use Rattle.sheet.specs.Writing.{written_size};
ghost use Rattle.statement.specs.Floats.{mesh_as_floats, sheet_as_floats};

use super::surface::AsFloats;
use fault::Fault;
use mesh::ReadingSurface;
use place::{FloatPlace, Grid, Place};
use sheet::{Sheet, write_sheet};
use std::alloc::{AllocError, Global};

// How many bytes the surface's sheet has.
fn size_as_floats(surface: &AsFloats<'_>) -> usize
    ensures { result ≡ written_size float_kind (mesh_as_floats (sheet_mesh grid_kind surface.now.sheet.bytes.now)) }
{
    let totals = surface.totals();
    14 + totals.vertices as usize * FloatPlace::WIDTH + totals.triangles as usize * 12
}

// The sheet as one of float places, with the same base mesh; or why it is no sheet of the grid.
pub fn sheet_as_floats(alloc: Global, bytes: &[u8]) -> Result<Result<Vec<u8>, Fault>, AllocError>
    ensures value { IfOk result (λ r. IfOk r (λ v. v.items ≡ sheet_as_floats bytes.now)) }
    ensures same_base { IfOk result (λ r. IfOk r (λ v. SameBase (sheet_mesh grid_kind bytes.now) (sheet_mesh float_kind v.items))) }
{
    let sheet = match Sheet::<Grid>::open(bytes) {
        Ok(sheet) => sheet,
        Err(fault) => return Ok(Err(fault)),
    };
    let surface = AsFloats { sheet };
    let mut written = Vec::new(alloc);
    written.resize(size_as_floats(&surface), 0u8)?;
    match write_sheet(&surface, &mut written) {
        Ok(_) => Ok(Ok(written)),
        Err(fault) => Ok(Err(fault)),
    }
}
