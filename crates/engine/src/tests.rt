// Splits of the block, run on a chain store.
use crate::{Told, split};
use fault::Fault;
use mesh::{ReadingSurface, Totals, Triangle, copy_surface};
use place::Grid;
use sheet::Sheet;
use std::test::Fail;
use stores::{ChainStore, ChainTriangle, ChainVertex};

const BLOCK: &[u8; 86] = b"\0\0\0\x52\x01\x01\0\0\0\x04\0\0\0\x04\
    \0\0\0\0\0\0\
    \0\x08\0\0\0\0\
    \0\0\0\x08\0\0\
    \0\0\0\0\0\x08\
    \0\0\0\0\0\0\0\x01\0\0\0\x02\
    \0\0\0\0\0\0\0\x02\0\0\0\x03\
    \0\0\0\0\0\0\0\x03\0\0\0\x01\
    \0\0\0\x01\0\0\0\x03\0\0\0\x02";

// The record of two marks in a row with these codes, all displacements 0.
fn record(marks: u8, codes: u8) -> [u8; 36] {
    let mut bytes = [0u8; 36];
    bytes[3] = 32;
    bytes[4] = 1;
    bytes[5] = 1;
    bytes[9] = 2;
    bytes[10] = marks;
    bytes[11] = codes;
    bytes
}

// What a split of the block answers, the triangles afterwards, and whether the work table is all zeros.
fn outcome(
    record: &[u8],
    triangles: &mut [Triangle],
) -> Result<(Result<Told, Fault>, bool), Fault> {
    let mut table = [7u32; 192];
    let mut corners = [ChainTriangle::UNUSED; 7];
    let mut vertices = [ChainVertex::UNUSED; 5];
    let mut store = ChainStore::<Grid>::new(&mut corners, &mut vertices);
    let sheet = Sheet::<Grid>::open(BLOCK)?;
    copy_surface(&sheet, &mut store);
    let answer = split::<Grid, _>(&mut store, Totals::new(4, 4)?, &mut table, record);
    for (triangle, now) in triangles.iter_mut().zip(store.triangles()) {
        *triangle = now;
    }
    Ok((answer, table == [0; 192]))
}

fn triangle(a: u32, b: u32, c: u32) -> Triangle {
    Triangle { a, b, c }
}

#[test]
fn splits_the_block(rt: HostRuntime) -> Result<(), Fail> {
    let mut triangles = [triangle(9, 9, 9); 6];
    let (answer, clean) = outcome(&record(0x90, 0x80), &mut triangles)?;
    let told = answer?;
    assert_eq!(rt; (told.vertices, told.edges, told.triangles), (5, 9, 6));
    assert_eq!(rt; (told.forest_edges, told.trees), (2, 1));
    assert!(rt; clean);
    assert_eq!(rt; triangles[2], triangle(0, 3, 4));
    assert_eq!(rt; triangles[3], triangle(4, 3, 2));
    assert_eq!(rt; triangles[4], triangle(0, 4, 1));
    assert_eq!(rt; triangles[5], triangle(4, 2, 1));
    Ok(())
}
