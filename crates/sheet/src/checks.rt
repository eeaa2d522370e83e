// The checks of a sheet's bytes, in their order.
ghost use Rattle.std.specs.Prelude.{◌≡◌, ◌≤◌, length};
ghost use Rattle.fault.specs.Faults.{checked};
ghost use Rattle.mesh.specs.Limits.{totals_told, totals_unless};
ghost use Rattle.sheet.specs.Layout.{vertices_of, triangles_of, sheet_size, head_fault, layout_fault};

use fault::Fault;
use mesh::Totals;
use place::{Place, word_at};

pub(crate) const HEAD: usize = 14;

// The kind is the byte that stands in the sheet.
fn check_head(kind: u8, bytes: &[u8]) -> Result<(), Fault>
    ensures { result ≡ checked (head_fault kind bytes.now) }
{
    if bytes.len() < HEAD || word_at(bytes, 0) as usize + 4 != bytes.len() {
        return Err(Fault::SheetLength);
    }
    if bytes[4] != 1 {
        return Err(Fault::SheetVersion);
    }
    if bytes[5] != kind {
        return Err(Fault::SheetKind);
    }
    Ok(())
}

// The length of a sheet with these totals.
pub(crate) fn sheet_size<P: Place>(totals: Totals) -> usize
    ensures value { result ≡ sheet_size P.Place.kind.width totals.vertices totals.triangles }
    ensures small { result ≤ 589838 }
{
    HEAD + totals.vertices as usize * P::WIDTH + totals.triangles as usize * 12
}

// Length, version, kind, counts, size; then the counts that the sheet tells.
pub(crate) fn check_layout<P: Place>(bytes: &[u8]) -> Result<Totals, Fault>
    ensures { totals_told result ≡ totals_unless (layout_fault P.Place.kind bytes.now) (vertices_of bytes.now) (triangles_of bytes.now) }
{
    check_head(P::KIND, bytes)?;
    let totals = Totals::new(word_at(bytes, 6), word_at(bytes, 10))?;
    if sheet_size::<P>(totals) != bytes.len() {
        return Err(Fault::SheetSize);
    }
    Ok(totals)
}
