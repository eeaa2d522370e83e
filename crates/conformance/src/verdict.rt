// Whether what came out is what the table has.
ghost use Rattle.std.specs.Prelude.{◌≡◌, ◌↔◌, length, IsNone};
ghost use Rattle.conformance.specs.Differences.{same_bytes, other_parent, first_other_parent};
ghost use Rattle.conformance.specs.Verdicts.{first_difference, sheet_within, verdict_of};

use crate::table::Mesh;
use mesh::ReadingSurface;
use place::word_at;
use sheet::write_sheet;
use std::fmt;

// The same, or the first thing that differs: a byte of the sheet, the parent of a vertex.
#[derive(Clone, Copy, PartialEq, Eq, Debug)]
pub enum Verdict {
    Same,
    Answer,
    WorkTable,
    Sheet(usize),
    Parent(u32),
}

impl fmt::Display for Verdict {
    fn fmt<W: fmt::Write>(&self, f: &mut fmt::Formatter<W>) -> fmt::Result {
        match self {
            Verdict::Same => write!(f, "SAME"),
            Verdict::Answer => write!(f, "DIFFERS IN ITS ANSWER"),
            Verdict::WorkTable => write!(f, "LEAVES NUMBERS IN THE WORK TABLE"),
            Verdict::Sheet(byte) => write!(f, "DIFFERS AT BYTE {byte} OF THE SHEET"),
            Verdict::Parent(vertex) => write!(f, "DIFFERS AT THE PARENT OF VERTEX {vertex}"),
        }
    }
}

// How many bytes at the front are the same.
fn count_same(left: &[u8], right: &[u8]) -> usize
    ensures { result ≡ same_bytes left.now right.now }
{
    left.iter()
        .zip(right.iter())
        .take_while(|(a, b)| a == b)
        .count()
}

// The first byte that differs, or where one of the two ends.
fn first_difference(left: &[u8], right: &[u8]) -> Option<usize>
    ensures same { IsNone result ↔ (left.now ≡ right.now) }
    ensures first { result ≡ first_difference left.now right.now }
{
    (left != right).then_some(count_same(left, right))
}

fn is_other_parent<S: ReadingSurface>(store: &S, parents: &[u8], v: u32) -> bool
    ensures { result ≡ other_parent (S.mesh store.now) parents.now v }
{
    store
        .parent(v)
        .is_none_or(|parent| parent != word_at(parents, 4 + 4 * v as usize))
}

// The first vertex whose parent is another than the item of numbers has.
fn first_other_parent<S: ReadingSurface>(store: &S, parents: &[u8]) -> Option<u32>
    ensures { result ≡ first_other_parent (S.mesh store.now) parents.now }
{
    (0..store.vertex_count()).find(|&v| is_other_parent(store, parents, v))
}

// The sheet of a store, written into the buffer; no bytes where that is too short.
fn sheet_in<'a, S: ReadingSurface>(store: &S, buffer: &'a mut [u8]) -> &'a [u8]
    ensures { result.now ≡ sheet_within S.Kind.Place.kind (S.ReadingSurface.mesh store.now) (length buffer.old) }
{
    match write_sheet(store, buffer) {
        Ok(size) => &buffer[..size],
        Err(_) => &[],
    }
}

impl Verdict {
    // Of a store, by its sheet and parents. The buffer is for the sheet.
    pub fn of<S: ReadingSurface>(store: &S, mesh: Mesh<'_>, buffer: &mut [u8]) -> Verdict
        ensures { result ≡ verdict_of S.Kind.Place.kind (S.ReadingSurface.mesh store.now) (length buffer.old) mesh.entry.sheet.now mesh.entry.parents.now }
    {
        if let Some(byte) = first_difference(sheet_in(store, buffer), mesh.sheet) {
            return Verdict::Sheet(byte);
        }
        first_other_parent(store, mesh.parents).map_or(Verdict::Same, Verdict::Parent)
    }
}
