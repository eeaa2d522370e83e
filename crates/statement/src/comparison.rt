// Both sides, and how they compare.
ghost use Rattle.std.specs.Prelude.{◌≡◌, ◌&&◌, [], length, map, IfOk, IfSome, is_some, is_none};
ghost use Rattle.mesh.specs.Meshes.{mesh_of};
ghost use Rattle.runs.specs.Jobs.{base_fault};
ghost use Rattle.statement.specs.Selections.{selected};
ghost use Rattle.statement.specs.Statements.{Compared, ComparedWithFloats};

use crate::floats::{records_as_floats, sheet_as_floats};
use crate::lines::print_refusal;
use crate::model::Model;
use crate::selection::Selection;
use crate::side::{Part, Side, play};
use job::{Comparison, compare};
use mesh::{GrowingStore, Triangle};
use place::{FloatPlace, Grid, Place};
use std::io;
use stores::{ChainStore, ChainTriangle, ChainVertex, ListStore, VertexRecord};

// What each store holds at most.
const VERTEX_CAPACITY: usize = 1024;

const TRIANGLE_CAPACITY: usize = 2048;

const TABLE_LENGTH: usize = 16 * (VERTEX_CAPACITY + TRIANGLE_CAPACITY);

// Both levels, each side with places of its own kind; none if a side's base is refused.
pub fn compare_sides<P: Place, Q: Place, S: GrowingStore<Kind = P>, R: GrowingStore<Kind = Q>>(
    rt: &HostRuntime,
    maker_store: &mut S,
    shop_store: &mut R,
    table: &mut [u32],
    maker: &Part<'_>,
    shop: &Part<'_>,
) -> io::Result<Option<Comparison>>
    ensures answer { IfOk result (λ o. is_some o
        ≡ (is_none (base_fault P.Place.kind (S.GrowingStore.vertex_room maker_store.old) (S.GrowingStore.triangle_room maker_store.old) (S.ReadingSurface.mesh maker_store.old) maker.now.sheet.now)
        && is_none (base_fault Q.Place.kind (R.GrowingStore.vertex_room shop_store.old) (R.GrowingStore.triangle_room shop_store.old) (R.ReadingSurface.mesh shop_store.old) shop.now.sheet.now))) }
    ensures compared { IfOk result (λ o. IfSome o (Compared P.Place.kind Q.Place.kind
        (S.GrowingStore.vertex_room maker_store.old) (S.GrowingStore.triangle_room maker_store.old) (R.GrowingStore.vertex_room shop_store.old) (R.GrowingStore.triangle_room shop_store.old)
        (length table.old) maker.now.sheet.now shop.now.sheet.now (map (λ r. r.now) maker.now.records.now) (map (λ r. r.now) shop.now.records.now))) }
{
    let Some(first) = play(rt, Side::Maker, maker_store, table, maker)? else {
        return Ok(None);
    };
    let Some(second) = play(rt, Side::Shop, shop_store, table, shop)? else {
        return Ok(None);
    };
    Ok(Some(compare(&first, maker_store, &second, shop_store)))
}

// The same, the maker on a chain store and the shop on a list store.
pub fn compare_parts<P: Place, Q: Place>(
    rt: &HostRuntime,
    maker: &Part<'_>,
    shop: &Part<'_>,
) -> io::Result<Option<Comparison>>
    ensures answer { IfOk result (λ o. is_some o
        ≡ (is_none (base_fault P.Place.kind 1024 2048 (mesh_of [] []) maker.now.sheet.now) && is_none (base_fault Q.Place.kind 1024 2048 (mesh_of [] []) shop.now.sheet.now))) }
    ensures compared { IfOk result (λ o. IfSome o (Compared P.Place.kind Q.Place.kind 1024 2048 1024 2048 49152
        maker.now.sheet.now shop.now.sheet.now (map (λ r. r.now) maker.now.records.now) (map (λ r. r.now) shop.now.records.now))) }
{
    let mut triangles = [ChainTriangle::UNUSED; TRIANGLE_CAPACITY];
    let mut vertices = [ChainVertex::UNUSED; VERTEX_CAPACITY];
    let mut maker_store = ChainStore::<P>::new(&mut triangles, &mut vertices);
    let mut triangles = [Triangle { a: 0, b: 0, c: 0 }; TRIANGLE_CAPACITY];
    let mut vertices = [VertexRecord::UNUSED; VERTEX_CAPACITY];
    let mut shop_store = ListStore::<Q>::new(&mut triangles, &mut vertices);
    let mut table = [0u32; TABLE_LENGTH];
    compare_sides(
        rt,
        &mut maker_store,
        &mut shop_store,
        &mut table,
        maker,
        shop,
    )
}

// Both levels of a model, its places of one kind on both sides; none if its base is refused.
pub fn compare_model<P: Place>(
    rt: &HostRuntime,
    model: &Model<'_>,
    selection: Selection,
) -> io::Result<Option<Comparison>>
    ensures answer { IfOk result (λ o. is_some o ≡ is_none (base_fault P.Place.kind 1024 2048 (mesh_of [] []) model.now.base.now)) }
    ensures compared { IfOk result (λ o. IfSome o (Compared P.Place.kind P.Place.kind 1024 2048 1024 2048 49152
        model.now.base.now model.now.base.now (map (λ r. r.now) model.now.records.items) (selected selection (map (λ r. r.now) model.now.records.items)))) }
{
    let records = model.records.as_slice();
    let maker = Part {
        sheet: model.base,
        records,
    };
    let shop = Part {
        sheet: model.base,
        records: selection.select(records),
    };
    compare_parts::<P, P>(rt, &maker, &shop)
}

// Both levels of a model of the grid, the shop's sheet and records with the same numbers kept as floats; none if its base is refused.
pub fn compare_with_floats(
    rt: &HostRuntime,
    model: &Model<'_>,
    selection: Selection,
) -> io::Result<Option<Comparison>>
    ensures { IfOk result (λ o. IfSome o (ComparedWithFloats 1024 2048 1024 2048 49152 model.now.base.now (map (λ r. r.now) model.now.records.items))) }
{
    let records = model.records.as_slice();
    let sheet = match sheet_as_floats(rt.alloc(), model.base)? {
        Ok(sheet) => sheet,
        Err(fault) => {
            print_refusal(rt, Side::Maker, 0, fault)?;
            return Ok(None);
        }
    };
    let written = records_as_floats(rt.alloc(), selection.select(records))?;
    let floats: Vec<&[u8]> = written
        .iter()
        .map(|record| record.as_slice())
        .collect(rt.alloc())?;
    let maker = Part {
        sheet: model.base,
        records,
    };
    let shop = Part {
        sheet: &sheet,
        records: floats.as_slice(),
    };
    compare_parts::<Grid, FloatPlace>(rt, &maker, &shop)
}
