// A surface written as a sheet: each function takes what it reads and what it fills.
ghost use Rattle.std.specs.Prelude.{◌≡◌, ◌+◌, ◌*◌, ◌^◌, ◌<◌, ◌≤◌, length};
ghost use Rattle.fault.specs.Faults.{checked};
ghost use Rattle.mesh.specs.Meshes.{vertex_total, triangle_total};
ghost use Rattle.sheet.specs.Writing.{rows, vertex_bytes, triangle_bytes, put_at, short_fault, sheet_written, sheet_after};
ghost use Rattle.sheet.specs.ReadBack.{Held, Numbered, BackIf};

use crate::checks::{HEAD, sheet_size};
use crate::puts::{head_bytes, put, put_place, triangle_bytes};
use fault::Fault;
use mesh::ReadingSurface;
use place::Place;

// Refuses a buffer that has fewer bytes than are needed.
fn check_buffer(needed: usize, have: usize) -> Result<(), Fault>
    requires { needed < 2 ^ 32 }
    ensures { result ≡ checked (short_fault needed have) }
{
    if have < needed {
        return Err(Fault::ShortBuffer(needed as u32));
    }
    Ok(())
}

// How many bytes follow the length field of a sheet of this size.
fn behind_length(size: usize) -> u32
    requires at_least_field { 4 ≤ size }
    requires within_word { size < 2 ^ 32 }
    ensures { result + 4 ≡ size }
{
    (size - 4) as u32
}

// The places, from behind the head on. Each goes to its offset: once `chunks_exact_mut` has lent
// the rows out, a proof knows how many bytes there are and no longer which.
fn write_places<S: ReadingSurface>(surface: &S, out: &mut [u8])
    requires { 14 + vertex_total (S.ReadingSurface.mesh surface.now) * S.Kind.Place.kind.width ≤ length out.old }
    ensures after { out.new ≡ put_at 14 (rows (vertex_bytes S.Kind.Place.kind) (S.ReadingSurface.mesh surface.now).vertices) out.old }
    ensures held { Held S.Kind.Place.kind (S.ReadingSurface.mesh surface.now).vertices }
{
    for (v, place) in surface.places().enumerate() {
        put_place(out, HEAD + v * S::Kind::WIDTH, &place);
    }
}

// The triangles, from `at` on. One text for both would take the rows, their width, what makes their bytes, and what the bytes
// tell of them.
fn write_triangles<S: ReadingSurface>(surface: &S, out: &mut [u8], at: usize)
    requires { at + triangle_total (S.ReadingSurface.mesh surface.now) * 12 ≤ length out.old }
    ensures after { out.new ≡ put_at at (rows triangle_bytes (S.ReadingSurface.mesh surface.now).triangles) out.old }
    ensures numbered { Numbered (S.ReadingSurface.mesh surface.now).triangles }
{
    for (t, triangle) in surface.triangles().enumerate() {
        put(out, at + t * 12, &triangle_bytes(triangle));
    }
}

// Writes the surface's places and triangles as a sheet, closed or not, and answers how many bytes it has.
// A shorter buffer is left as it is. What is written of a mesh with counts in their limits reads back.
pub fn write_sheet<S: ReadingSurface>(surface: &S, out: &mut [u8]) -> Result<usize, Fault>
    ensures answer { result ≡ sheet_written S.Kind.Place.kind (S.ReadingSurface.mesh surface.now) out.old }
    ensures written { out.new ≡ sheet_after S.Kind.Place.kind (S.ReadingSurface.mesh surface.now) out.old }
    ensures back { BackIf result S.Kind.Place.kind (S.ReadingSurface.mesh surface.now) }
{
    let totals = surface.totals();
    let size = sheet_size::<S::Kind>(totals);
    check_buffer(size, out.len())?;
    put(
        out,
        0,
        &head_bytes(behind_length(size), S::Kind::KIND, totals),
    );
    write_places(surface, out);
    let places_end = HEAD + totals.vertices as usize * S::Kind::WIDTH;
    write_triangles(surface, out, places_end);
    Ok(size)
}
