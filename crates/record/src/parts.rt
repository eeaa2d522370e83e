// The parts of a record, what their writer refuses, in its order, and writing them.
ghost use Rattle.std.specs.Prelude.{◌≡◌, ◌*◌, ◌≤◌, ◌++◌, length, take, drop, IfOk, OnErr};
ghost use Rattle.fault.specs.Faults.{checked};
ghost use Rattle.record.specs.Limits.{max_marks, max_codes};
ghost use Rattle.record.specs.Written.{head_bytes, record_size, record_bytes};
ghost use Rattle.record.specs.Refusals.{not_zero, parts_fit, over_fault, write_fault, write_answer, buffer_after, Ready};
ghost use Rattle.record.specs.Theorems.{ReadsAs};

use crate::limits::{MAX_CODES, MAX_MARKS};
use crate::numbers::{bytes_for, pack};
use fault::Fault;
use place::Place;

// How many numbers are not 0, with no branch for each.
fn count_not_zero(numbers: &[u8]) -> usize
    ensures value { result ≡ not_zero numbers.now }
    ensures small { result ≤ length numbers.now }
{
    numbers.iter().map(|number| usize::from(*number != 0)).sum()
}

// Refuses the first number that is over a limit. What is found is the refusal, so that no `?` passes it on.
fn check_values(numbers: &[u8], limit: u8) -> Result<(), Fault>
    requires { length numbers.now ≤ max_marks }
    ensures { result ≡ checked (over_fault limit 0 numbers.now) }
{
    if let Some(i) = numbers.iter().position(|number| *number > limit) {
        return Err(Fault::ValueTooLarge(i as u32));
    }
    Ok(())
}

// The head: the length of what follows, the version, the kind byte and the number of codes.
fn head<P: Place>(size: u32, count: u32) -> [u8; 10]
    ensures { result ≡ head_bytes P.Place.kind size count }
{
    let [a, b, c, d] = size.to_be_bytes();
    let [e, f, g, h] = count.to_be_bytes();
    [a, b, c, d, 1, P::KIND, e, f, g, h]
}

// The marks, the codes and the displacements of a record, one byte for each mark and for each code.
#[derive(Clone, Copy, PartialEq, Eq, Debug)]
pub struct Parts<'a> {
    pub marks: &'a [u8],
    pub codes: &'a [u8],
    pub displacements: &'a [u8],
}

impl Parts<'_> {
    // Whether they are not too long, and belong together.
    fn fit<P: Place>(&self) -> bool
        ensures { result ≡ parts_fit P.Place.kind self.now.marks.now self.now.codes.now self.now.displacements.now }
    {
        self.marks.len() <= MAX_MARKS as usize
            && self.codes.len() <= MAX_CODES as usize
            && self.displacements.len() == 2 * count_not_zero(self.marks) * P::DISPLACEMENT_WIDTH
    }

    // The length of the whole record.
    fn record_size(&self) -> usize
        ensures { result ≡ record_size self.now.marks.now self.now.codes.now self.now.displacements.now }
    {
        10 + bytes_for::<8>(self.marks.len())
            + bytes_for::<4>(self.codes.len())
            + self.displacements.len()
    }

    // What the writer refuses, for a buffer of `room` bytes.
    fn check<P: Place>(&self, room: usize) -> Result<(), Fault>
        ensures { result ≡ checked (write_fault P.Place.kind self.now.marks.now self.now.codes.now self.now.displacements.now room) }
    {
        if !self.fit::<P>() {
            return Err(Fault::PartLengths);
        }
        check_values(self.marks, 1)?;
        check_values(self.codes, 3)?;
        let needed = self.record_size();
        if room < needed {
            return Err(Fault::ShortBuffer(needed as u32));
        }
        Ok(())
    }

    // Writes the record in front of the buffer, and says how long it is.
    fn put<P: Place>(&self, out: &mut [u8]) -> usize
        requires { Ready self.now.marks.now self.now.codes.now self.now.displacements.now (length out.old) }
        ensures size { result ≡ record_size self.now.marks.now self.now.codes.now self.now.displacements.now }
        ensures buffer { out.new ≡ record_bytes P.Place.kind self.now.marks.now self.now.codes.now self.now.displacements.now ++ drop (record_size self.now.marks.now self.now.codes.now self.now.displacements.now) out.old }
    {
        let codes_from = 10 + bytes_for::<8>(self.marks.len());
        let displacements_from = codes_from + bytes_for::<4>(self.codes.len());
        let end = displacements_from + self.displacements.len();
        out[..10].copy_from_slice(&head::<P>((end - 4) as u32, self.codes.len() as u32));
        pack::<1, 8>(self.marks, &mut out[10..codes_from]);
        pack::<2, 4>(self.codes, &mut out[codes_from..displacements_from]);
        out[displacements_from..end].copy_from_slice(self.displacements);
        end
    }

    // Writes the record of the parts. Answers how many bytes it wrote; they read back as these parts. A refusal leaves
    // the buffer as it is, and no byte behind the record changes.
    pub fn write<P: Place>(&self, out: &mut [u8]) -> Result<usize, Fault>
        ensures answer { result ≡ write_answer P.Place.kind self.now.marks.now self.now.codes.now self.now.displacements.now (length out.old) }
        ensures buffer { out.new ≡ buffer_after P.Place.kind self.now.marks.now self.now.codes.now self.now.displacements.now out.old }
        ensures back { IfOk result (λ n. ReadsAs P.Place.kind (take n out.new) self.now.marks.now self.now.codes.now self.now.displacements.now) }
        ensures kept { OnErr result (out.new ≡ out.old) }
    {
        self.check::<P>(out.len())?;
        Ok(self.put::<P>(out))
    }
}
