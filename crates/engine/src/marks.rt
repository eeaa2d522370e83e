// The marks of a record, as numbers.
ghost use Rattle.std.specs.Prelude.{◌≡◌, length, ◌==◌};
ghost use Rattle.forest.specs.Tables.{flags_of};
ghost use Rattle.record.specs.Packing.{mark_in};
ghost use Rattle.record.specs.Parts.{set_count};
ghost use Rattle.runs.specs.Parts.{record_marks};

use record::{Record, count_marks, mark_at};

// Whether edge `e` is marked; an edge whose byte is not there is not.
fn is_set(bytes: &[u8], e: u32) -> bool
    ensures { result ≡ (mark_in bytes.now e == 1) }
{
    mark_at(bytes, e).unwrap_or(false)
}

// Sets for each edge whether the record marks it, 1 or 0. Answers how many are marked.
pub(crate) fn set_marks(from: &Record<'_>, marks: &mut [u32]) -> u32
    requires { length marks.old ≡ from.now.edges }
    ensures flags { flags_of marks.new ≡ record_marks from.now.bytes.now from.now.edges }
    ensures count { result ≡ set_count from.now.bytes.now from.now.edges }
{
    let bytes = from.marks();
    for e in 0..from.edges {
        marks[e as usize] = u32::from(is_set(bytes, e));
    }
    count_marks(bytes, from.edges)
}
