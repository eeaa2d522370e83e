// The lines that the program prints.
use engine::Told;
use fault::Fault;
use std::{fmt, io};
use survey::Counts;

pub fn print_usage(rt: &HostRuntime) -> io::Result<()> {
    println!(rt; "usage: levels < FILE")?;
    println!(rt; "Reads a base sheet of grid places and records from standard input, applies one")?;
    println!(rt; "after another, and prints")?;
    println!(rt;
        "  BASE V E T                        the vertices, edges and triangles of the base,"
    )?;
    println!(rt;
        "  SPLIT ITEM V E T F K              those after a record, its forest edges and trees,"
    )?;
    println!(rt;
        "  REFUSED ITEM NUMBER LAYER SPOT    why the base (item 0) or a record is refused, and"
    )?;
    println!(rt;
        "  TOTAL RECORDS F K                 the records carried out, their edges and trees."
    )?;
    println!(rt;
        "There is room for 256 vertices and 512 triangles. Each item has its length in its"
    )?;
    println!(rt;
        "first four bytes, and 8,192 bytes at most with these. The reading ends at an item"
    )?;
    println!(rt; "that is longer or cut short.")
}

// What is told of an item, with the item's number where it may be any, or of all records at the end.
#[derive(Clone, Copy)]
pub enum Line {
    Base(Counts),
    Split(u32, Told),
    Refused(u32, Fault),
    Total {
        records: u32,
        forest_edges: u32,
        trees: u32,
    },
}

impl Line {
    // The total where there is no base.
    pub const NO_RECORDS: Line = Line::Total {
        records: 0,
        forest_edges: 0,
        trees: 0,
    };
}

// By hand, since the program's lines have a format of their own.
impl fmt::Display for Line {
    fn fmt<W: fmt::Write>(&self, f: &mut fmt::Formatter<W>) -> fmt::Result {
        match *self {
            Line::Base(base) => {
                write!(
                    f,
                    "BASE {} {} {}",
                    base.vertices, base.edges, base.triangles
                )
            }
            Line::Split(item, told) => {
                let Told {
                    vertices,
                    edges,
                    triangles,
                    forest_edges,
                    trees,
                } = told;
                write!(
                    f,
                    "SPLIT {item} {vertices} {edges} {triangles} {forest_edges} {trees}"
                )
            }
            Line::Refused(item, fault) => {
                let layer = u8::from(fault.layer());
                write!(
                    f,
                    "REFUSED {item} {} {layer} {}",
                    fault.number(),
                    fault.spot()
                )
            }
            Line::Total {
                records,
                forest_edges,
                trees,
            } => { write!(f, "TOTAL {records} {forest_edges} {trees}") }
        }
    }
}
