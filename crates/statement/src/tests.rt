// Both sides of small models, of both kinds of place.
use crate::comparison::{compare_model, compare_with_floats};
use crate::floats::{records_as_floats, sheet_as_floats};
use crate::model::Model;
use crate::selection::Selection;
use job::{Comparison, Report};
use mesh::ReadingSurface;
use place::{FloatPlace, Grid, Place};
use sheet::Sheet;
use std::test::Fail;

// The block at float places, and a record of two marks in a row, all displacements 0.
const BLOCK: &[u8; 170] = b"\0\0\0\x6a\x01\x02\0\0\0\x04\0\0\0\x04\
    \0\0\0\0\0\0\0\0\0\0\0\0\
    \x41\0\0\0\0\0\0\0\0\0\0\0\
    \0\0\0\0\x41\0\0\0\0\0\0\0\
    \0\0\0\0\0\0\0\0\x41\0\0\0\
    \0\0\0\0\0\0\0\x01\0\0\0\x02\
    \0\0\0\0\0\0\0\x02\0\0\0\x03\
    \0\0\0\0\0\0\0\x03\0\0\0\x01\
    \0\0\0\x01\0\0\0\x03\0\0\0\x02\
    \0\0\0\x38\x01\x02\0\0\0\x02\x90\x80\
    \0\0\0\0\0\0\0\0\0\0\0\0\
    \0\0\0\0\0\0\0\0\0\0\0\0\
    \0\0\0\0\0\0\0\0\0\0\0\0\
    \0\0\0\0\0\0\0\0\0\0\0\0";

// The block on the grid, and the same record with some displacements that are not 0.
const GRID_BLOCK: &[u8; 122] = b"\0\0\0\x52\x01\x01\0\0\0\x04\0\0\0\x04\
    \0\0\0\0\0\0\
    \0\x08\0\0\0\0\
    \0\0\0\x08\0\0\
    \0\0\0\0\0\x08\
    \0\0\0\0\0\0\0\x01\0\0\0\x02\
    \0\0\0\0\0\0\0\x02\0\0\0\x03\
    \0\0\0\0\0\0\0\x03\0\0\0\x01\
    \0\0\0\x01\0\0\0\x03\0\0\0\x02\
    \0\0\0\x20\x01\x01\0\0\0\x02\x90\x80\
    \0\0\0\0\0\0\
    \0\x01\0\x02\0\x03\
    \0\0\0\0\0\0\
    \xff\xff\0\0\0\0";

// The record's bytes for float places.
const FLOAT_RECORD: &[u8; 60] = b"\0\0\0\x38\x01\x02\0\0\0\x02\x90\x80\
    \0\0\0\0\0\0\0\0\0\0\0\0\
    \x3f\x80\0\0\x40\0\0\0\x40\x40\0\0\
    \0\0\0\0\0\0\0\0\0\0\0\0\
    \xbf\x80\0\0\0\0\0\0\0\0\0\0";

fn compared<P: Place>(
    rt: &HostRuntime,
    bytes: &[u8],
    selection: Selection,
) -> Result<Option<Comparison>, Fail> {
    let model = Model::read(rt.alloc(), bytes)?;
    Ok(compare_model::<P>(rt, &model, selection)?)
}

fn counts(told: Report) -> (u32, u32, u32, u32) {
    (told.records, told.vertices, told.edges, told.triangles)
}

#[test]
fn half_of_one_record(rt: HostRuntime) -> Result<(), Fail> {
    let both = compared::<FloatPlace>(&rt, BLOCK, Selection::Half)?.ok_or("no base")?;
    assert_eq!(rt; counts(both.first.told), (1, 5, 9, 6));
    assert_eq!(rt; counts(both.second.told), (0, 4, 6, 4));
    assert!(rt; both.first.balances() && both.second.balances());
    Ok(())
}

#[test]
fn more_than_there_are(rt: HostRuntime) -> Result<(), Fail> {
    let both = compared::<FloatPlace>(&rt, BLOCK, Selection::First(2))?.ok_or("no base")?;
    assert_eq!(rt; counts(both.second.told), (1, 5, 9, 6));
    assert_eq!(rt; both.first.told, both.second.told);
    Ok(())
}

#[test]
fn cut_short(rt: HostRuntime) -> Result<(), Fail> {
    let both = compared::<FloatPlace>(&rt, &BLOCK[..169], Selection::Half)?.ok_or("no base")?;
    assert_eq!(rt; counts(both.first.told), (0, 4, 6, 4));
    assert!(rt; compared::<FloatPlace>(&rt, &BLOCK[..109], Selection::Half)?.is_none());
    Ok(())
}

#[test]
fn no_base(rt: HostRuntime) -> Result<(), Fail> {
    assert!(rt; compared::<Grid>(&rt, b"", Selection::Half)?.is_none());
    assert!(rt; compared::<Grid>(&rt, BLOCK, Selection::Half)?.is_none());
    Ok(())
}

#[test]
fn grid_and_floats(rt: HostRuntime) -> Result<(), Fail> {
    let model = Model::read(rt.alloc(), GRID_BLOCK)?;
    let both = compare_with_floats(&rt, &model, Selection::First(1))?.ok_or("no base")?;
    assert_eq!(rt; counts(both.first.told), (1, 5, 9, 6));
    assert_eq!(rt; both.second.told, both.first.told);
    assert!(rt; both.first.balances() && both.second.balances());
    Ok(())
}

#[test]
fn one_base_mesh(rt: HostRuntime) -> Result<(), Fail> {
    let sheet = &GRID_BLOCK[..86];
    let written = sheet_as_floats(rt.alloc(), sheet)??;
    let grid = Sheet::<Grid>::open(sheet)?;
    let floats = Sheet::<FloatPlace>::open(&written)?;
    assert_eq!(rt; floats.totals(), grid.totals());
    for t in 0..4 {
        assert_eq!(rt; floats.triangle(t), grid.triangle(t));
    }
    // The float block of these tests has the same places and triangles.
    assert_eq!(rt; written.as_slice(), &BLOCK[..110]);
    Ok(())
}

#[test]
fn displacements_as_floats(rt: HostRuntime) -> Result<(), Fail> {
    let block: &[u8] = GRID_BLOCK;
    let record = &block[86..];
    let written = records_as_floats(rt.alloc(), &[record])?;
    let first = written.first().ok_or("no record")?;
    assert_eq!(rt; first.as_slice(), FLOAT_RECORD.as_slice());
    Ok(())
}

#[test]
fn cut_record_as_it_is(rt: HostRuntime) -> Result<(), Fail> {
    let block: &[u8] = GRID_BLOCK;
    let record = &block[86..121];
    let written = records_as_floats(rt.alloc(), &[record])?;
    let first = written.first().ok_or("no record")?;
    assert_eq!(rt; first.as_slice(), record);
    Ok(())
}
