// The marks and the codes in their bytes: a bit for each edge, two bits for each code.
ghost use Rattle.std.specs.Prelude.{◌≡◌};
ghost use Rattle.record.specs.Packing.{mark_at, code_at, marks_set};

use crate::numbers::{number_at, number_in};

// Whether edge `e` is marked; none where its byte is not there.
pub fn mark_at(bytes: &[u8], e: u32) -> Option<bool>
    ensures { result ≡ mark_at bytes.now e }
{
    number_at::<1, 8>(bytes, e as usize).map(|mark| mark == 1)
}

// How many of the first `edges` edges are marked: the sum of their marks, which takes no branch for each.
pub fn count_marks(bytes: &[u8], edges: u32) -> u32
    ensures { result ≡ marks_set bytes.now edges }
{
    (0..edges)
        .map(|e| u32::from(number_in::<1, 8>(bytes, e as usize)))
        .sum()
}

// Code `i`; none where its byte is not there.
pub fn code_at(bytes: &[u8], i: u32) -> Option<u8>
    ensures { result ≡ code_at bytes.now i }
{
    number_at::<2, 4>(bytes, i as usize)
}
