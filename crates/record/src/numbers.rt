// Small numbers in bytes, BITS bits to a number and PER numbers to a byte, from the top of each byte: marks have 1 and
// 8, codes have 2 and 4. That they fill a byte is asked by each function: it is a fact of const parameters, which no value
// carries.
ghost use Rattle.std.specs.Prelude.{◌≡◌, ◌^◌, ◌<◌, length, cond, nat_lt, ◌/◌};
ghost use Rattle.record.specs.Packing.{Fills, Small, bytes_for, gathered, number_in, packed, spare_of};

use place::byte_at;

// How many bytes hold `count` numbers.
pub(crate) fn bytes_for<const PER: usize>(count: usize) -> usize
    requires { 0 < PER }
    ensures { result ≡ bytes_for PER count }
{
    count.div_ceil(PER)
}

// Number `i`, 0 where its byte is not there.
pub(crate) fn number_in<const BITS: usize, const PER: usize>(bytes: &[u8], i: usize) -> u8
    requires { Fills BITS PER }
    ensures { result ≡ number_in BITS PER bytes.now i }
{
    (byte_at(bytes, i / PER) >> (BITS * (PER - 1 - i % PER))) % (1 << BITS)
}

// Number `i`; none where its byte is not there.
pub(crate) fn number_at<const BITS: usize, const PER: usize>(bytes: &[u8], i: usize) -> Option<u8>
    requires { Fills BITS PER }
    ensures { result ≡ cond (nat_lt (i / PER) (length bytes.now)) (Some (number_in BITS PER bytes.now i)) None }
{
    (i / PER < bytes.len()).then_some(number_in::<BITS, PER>(bytes, i))
}

// What stands in the bits of the last byte that `count` numbers leave over, 0 where they leave none.
pub(crate) fn spare_of<const BITS: usize, const PER: usize>(count: usize, last: u8) -> u8
    requires { Fills BITS PER }
    ensures { result ≡ spare_of BITS PER count last }
{
    last % (1 << (BITS * ((PER - count % PER) % PER)))
}

// The byte of the first numbers, with 0 for those that are not there. That each step still fits the byte depends on how
// many numbers are in it, which the closure of a fold could not say.
fn gathered<const BITS: usize, const PER: usize>(numbers: &[u8]) -> u8
    requires fills { Fills BITS PER }
    requires small { Small BITS numbers.now }
    ensures { result ≡ gathered BITS PER numbers.now }
{
    let mut byte = 0;
    for i in 0..PER {
        byte = byte * (1 << BITS) + byte_at(numbers, i);
    }
    byte
}

// Packs the numbers into all of `out`. By index, since no proof learns what a `zip` with `iter_mut` leaves written.
pub(crate) fn pack<const BITS: usize, const PER: usize>(numbers: &[u8], out: &mut [u8])
    requires fills { Fills BITS PER }
    requires small { Small BITS numbers.now }
    requires fits { length out.old ≡ bytes_for PER (length numbers.now) }
    ensures { out.new ≡ packed BITS PER (bytes_for PER (length numbers.now)) numbers.now }
{
    for (k, piece) in numbers.chunks(PER).enumerate() {
        out[k] = gathered::<BITS, PER>(piece);
    }
}
