// The whole of an input.
use crate::base::read_base;
use crate::lines::Line;
use crate::records::play_records;
use crate::workspace::{TRIANGLE_CAPACITY, VERTEX_CAPACITY, Workspace};
use std::io;
use std::io::{Read, Write};
use stores::{ChainTriangle, ChainVertex};

// An item with its length is no longer.
const ITEM_LIMIT: usize = 8192;

// Reads a base and its records, and writes a line for each and a total. A base that is refused leaves the records unread.
pub fn play<R: Read, W: Write>(input: &mut R, output: &mut W) -> io::Result<()> {
    let mut triangles = [ChainTriangle::UNUSED; TRIANGLE_CAPACITY];
    let mut vertices = [ChainVertex::UNUSED; VERTEX_CAPACITY];
    let mut workspace = Workspace::new(&mut triangles, &mut vertices);
    let mut buffer = [0u8; ITEM_LIMIT];
    match read_base(input, &mut buffer, &mut workspace)? {
        Ok((mut job, counts)) => {
            writeln!(output, "{}", Line::Base(counts))?;
            play_records(input, output, &mut buffer, &mut workspace, &mut job)?;
            let report = job.close().report();
            writeln!(
                output,
                "{}",
                Line::Total {
                    records: report.records,
                    forest_edges: report.forest_edges,
                    trees: report.trees,
                }
            )
        }
        Err(fault) => {
            writeln!(output, "{}", Line::Refused(0, fault))?;
            writeln!(output, "{}", Line::NO_RECORDS)
        }
    }
}
