// A record of the grid written anew, its displacements kept as floats.
use super::places::displacement_as_floats;
use place::{FloatPlace, Grid, Place, byte_at, rest_of, word_at};
use record::{Layout, Stretch};
use std::alloc::{AllocError, Global};

// Length, version, kind and the number of codes.
const HEAD: usize = 10;

// How many bytes hold the marks. Each one more makes the record longer by one, and by two displacements for each of its marks, so
// one number at most fits the record's length.
fn mark_bytes(record: &[u8]) -> Option<u32> {
    let codes = word_at(record, 6).div_ceil(4) as usize;
    let mut left = record.len().checked_sub(HEAD + codes)?;
    for (i, byte) in record.get(HEAD..)?.iter().enumerate() {
        if left == 0 {
            return u32::try_from(i).ok();
        }
        left = left.checked_sub(1 + 2 * Grid::DISPLACEMENT_WIDTH * byte.count_ones() as usize)?;
    }
    None
}

// The record's displacements, if it is laid out as a record of the grid for some number of edges.
fn displacements(record: &[u8]) -> Option<&[u8]> {
    let edges = mark_bytes(record)?.checked_mul(8)?;
    match Layout::open::<Grid>(record, edges).ok()?.last()? {
        Stretch::Displacements(bytes, _) => Some(bytes),
        _ => None,
    }
}

// The length field, version and kind of a record that gets longer by so many bytes.
fn write_head(written: &mut Vec<u8>, record: &[u8], more: usize) -> Result<(), AllocError> {
    let length = word_at(record, 0).saturating_add(u32::try_from(more).unwrap_or(u32::MAX));
    written.extend_from_slice(&length.to_be_bytes())?;
    written.extend_from_slice(&[byte_at(record, 4), FloatPlace::KIND])
}

// Each displacement by the same three numbers.
fn write_displacements(written: &mut Vec<u8>, displacements: &[u8]) -> Result<(), AllocError> {
    for piece in displacements.chunks(Grid::DISPLACEMENT_WIDTH) {
        if let Some(by) = Grid::read_displacement(piece) {
            let bytes = FloatPlace::displacement_to_bytes(&displacement_as_floats(by));
            written.extend_from_slice(&bytes)?;
        }
    }
    Ok(())
}

// The record for float places. One that is not laid out as a record of the grid stays as it is.
pub fn record_as_floats(alloc: Global, record: &[u8]) -> Result<Vec<u8>, AllocError> {
    let mut written = Vec::new(alloc);
    let Some(displacements) = displacements(record) else {
        written.extend_from_slice(record)?;
        return Ok(written);
    };
    write_head(&mut written, record, displacements.len())?;
    let front = record.len().saturating_sub(displacements.len());
    written.extend_from_slice(rest_of(&record[..front], 6))?;
    write_displacements(&mut written, displacements)?;
    Ok(written)
}
