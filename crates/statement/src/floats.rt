// A model of the grid, its places and displacements kept as floats.
mod places;
mod records;
mod sheets;
mod surface;

use records::record_as_floats;
pub use sheets::sheet_as_floats;
use std::alloc::{AllocError, Global};

pub fn records_as_floats(alloc: Global, records: &[&[u8]]) -> Result<Vec<Vec<u8>>, AllocError> {
    let mut written = Vec::new(alloc);
    for record in records {
        written.push(record_as_floats(alloc, record)?)?;
    }
    Ok(written)
}
