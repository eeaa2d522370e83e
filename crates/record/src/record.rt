// A record's bytes: where its parts lie, and the checks in their order. The bytes may be too short: a part is then what
// is there of it.
ghost use Rattle.std.specs.Prelude.{◌≡◌, ◌+◌, ◌^◌, ◌<◌, ◌&&◌, length, ◌==◌, nat_le, take};
ghost use Rattle.fault.specs.Faults.{checked};
ghost use Rattle.place.specs.Words.{word};
ghost use Rattle.record.specs.Limits.{max_marks};
ghost use Rattle.record.specs.Parts.{code_count, codes_from, displacements_from, marks_of, codes_of, displacements_of, due_size};
ghost use Rattle.record.specs.Checks.{head_fault, size_fault, code_bits_fault, layout_fault};

use crate::limits::MAX_MARKS;
use crate::marks::count_marks;
use crate::numbers::{bytes_for, spare_of};
use fault::Fault;
use place::{Place, byte_at, rest_of, word_at};

// The first bytes, as many as are there of `size`.
fn front_of(bytes: &[u8], size: usize) -> &[u8]
    ensures { result.now ≡ take size bytes.now }
{
    bytes.get(..size).unwrap_or(bytes)
}

// A record's bytes, read for a number of edges.
#[derive(Clone, Copy, PartialEq, Eq, Debug)]
pub struct Record<'a> {
    pub bytes: &'a [u8],
    pub edges: u32,
}

impl<'a> Record<'a> {
    // How many codes the record says that it has.
    pub fn code_count(&self) -> u32
        ensures { result ≡ code_count self.now.bytes.now }
    {
        word_at(self.bytes, 6)
    }

    // Where the codes begin.
    pub(crate) fn codes_from(&self) -> usize
        ensures value { result ≡ codes_from self.now.edges }
        ensures small { result < 2 ^ 30 }
    {
        10 + bytes_for::<8>(self.edges as usize)
    }

    // Where the displacements begin.
    pub(crate) fn displacements_from(&self) -> usize
        ensures value { result ≡ displacements_from self.now.bytes.now self.now.edges }
        ensures small { result < 2 ^ 31 }
    {
        self.codes_from() + bytes_for::<4>(self.code_count() as usize)
    }

    // The marks' bytes.
    pub fn marks(&self) -> &'a [u8]
        ensures { result.now ≡ marks_of self.now.bytes.now self.now.edges }
    {
        front_of(rest_of(self.bytes, 10), bytes_for::<8>(self.edges as usize))
    }

    // The codes' bytes.
    pub fn codes(&self) -> &'a [u8]
        ensures { result.now ≡ codes_of self.now.bytes.now self.now.edges }
    {
        front_of(
            rest_of(self.bytes, self.codes_from()),
            bytes_for::<4>(self.code_count() as usize),
        )
    }

    // The displacements' bytes.
    pub fn displacements(&self) -> &'a [u8]
        ensures { result.now ≡ displacements_of self.now.bytes.now self.now.edges }
    {
        rest_of(self.bytes, self.displacements_from())
    }

    fn has_its_length(&self) -> bool
        ensures { result ≡ (nat_le 10 (length self.now.bytes.now) && word self.now.bytes.now 0 + 4 == length self.now.bytes.now) }
    {
        self.bytes.len() >= 10 && word_at(self.bytes, 0) as usize + 4 == self.bytes.len()
    }

    fn has_its_marks(&self) -> bool
        ensures { result ≡ (nat_le self.now.edges max_marks && nat_le (codes_from self.now.edges) (length self.now.bytes.now)) }
    {
        self.edges <= MAX_MARKS && self.codes_from() <= self.bytes.len()
    }

    // The head and the marks: refusals 20 to 24. A sheet's head has a text of its own: it is longer, and its refusals are others.
    pub fn check_head<P: Place>(&self) -> Result<(), Fault>
        ensures { result ≡ checked (head_fault P.Place.kind self.now.bytes.now self.now.edges) }
    {
        if !self.has_its_length() {
            return Err(Fault::RecordLength);
        }
        if byte_at(self.bytes, 4) != 1 {
            return Err(Fault::RecordVersion);
        }
        if byte_at(self.bytes, 5) != P::KIND {
            return Err(Fault::RecordKind);
        }
        if !self.has_its_marks() {
            return Err(Fault::MarksCutShort);
        }
        let last = self.codes_from() - 1;
        if spare_of::<1, 8>(self.edges as usize, byte_at(self.bytes, last)) != 0 {
            return Err(Fault::SpareMarkBit(last as u32));
        }
        Ok(())
    }

    // The size that the record must have.
    fn due_size<P: Place>(&self) -> usize
        ensures { result ≡ due_size P.Place.kind self.now.bytes.now self.now.edges }
    {
        let displacements = 2 * count_marks(self.marks(), self.edges) as usize;
        self.displacements_from() + displacements * P::DISPLACEMENT_WIDTH
    }

    // The size: refusal 29. It counts the marks, so let the head be checked first.
    pub fn check_size<P: Place>(&self) -> Result<(), Fault>
        ensures { result ≡ checked (size_fault P.Place.kind self.now.bytes.now self.now.edges) }
    {
        if self.bytes.len() != self.due_size::<P>() {
            return Err(Fault::RecordSize);
        }
        Ok(())
    }

    // The bits behind the codes: refusal 30.
    pub fn check_code_bits(&self) -> Result<(), Fault>
        ensures { result ≡ checked (code_bits_fault self.now.bytes.now self.now.edges) }
    {
        let last = self.displacements_from() - 1;
        if spare_of::<2, 4>(self.code_count() as usize, byte_at(self.bytes, last)) != 0 {
            return Err(Fault::SpareCodeBit(last as u32));
        }
        Ok(())
    }

    // All checks that need no mesh.
    pub fn check_layout<P: Place>(&self) -> Result<(), Fault>
        ensures { result ≡ checked (layout_fault P.Place.kind self.now.bytes.now self.now.edges) }
    {
        self.check_head::<P>()?;
        self.check_size::<P>()?;
        self.check_code_bits()
    }
}
