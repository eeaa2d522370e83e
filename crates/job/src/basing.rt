// A base is taken over into a store.
ghost use Rattle.std.specs.Prelude.{◌≡◌, ◌%◌, IfOk};
ghost use Rattle.mesh.specs.Growth.{SameRoom};
ghost use Rattle.sheet.specs.Content.{sheet_fault_within};
ghost use Rattle.sheet.specs.Opening.{held_by, opened};
ghost use Rattle.runs.specs.Jobs.{is_empty, base_mesh, base_answer};
ghost use Rattle.job.specs.Telling.{numbers_told};

use fault::Fault;
use mesh::{GrowingStore, ReadingSurface, Totals, copy_surface};
use place::Place;
use sheet::Sheet;
use survey::survey_indexed;

fn is_empty<S: ReadingSurface>(store: &S) -> bool
    ensures { result ≡ is_empty (S.mesh store.now) }
{
    store.vertex_count() == 0 && store.triangle_count() == 0
}

// The sheet, if its layout is right, the store has room for it and its bytes are places.
fn open_for<'a, P: Place, S: GrowingStore<Kind = P>>(
    store: &S,
    bytes: &'a [u8],
) -> Result<Sheet<'a, P>, Fault>
    ensures { held_by result ≡ opened (sheet_fault_within P.Place.kind (S.GrowingStore.vertex_room store.now) (S.GrowingStore.triangle_room store.now) bytes.now) bytes.now }
{
    Sheet::open_within(bytes, store.room())
}

// The store takes the sheet's mesh if no check refuses it, and else stays as it is.
pub(crate) fn take_base<P: Place, S: GrowingStore<Kind = P>>(
    store: &mut S,
    bytes: &[u8],
) -> Result<Totals, Fault>
    ensures answer { numbers_told result ≡ base_answer P.Place.kind (S.GrowingStore.vertex_room store.old) (S.GrowingStore.triangle_room store.old) (S.ReadingSurface.mesh store.old) bytes.now }
    ensures mesh { S.ReadingSurface.mesh store.new ≡ base_mesh P.Place.kind (S.GrowingStore.vertex_room store.old) (S.GrowingStore.triangle_room store.old) (S.ReadingSurface.mesh store.old) bytes.now }
    ensures room { SameRoom S.GrowingStore.vertex_room S.GrowingStore.triangle_room store.old store.new }
    ensures even { IfOk result (λ t. t.triangles % 2 ≡ 0) }
{
    if !is_empty(store) {
        return Err(Fault::StoreNotEmpty);
    }
    let sheet = open_for(store, bytes)?;
    survey_indexed(&sheet)?;
    copy_surface(&sheet, store);
    Ok(sheet.totals())
}
